//! What is counted in a transcript.
ghost use Rattle.std.specs.Prelude.{◌≡◌, ◌==◌, ◌+◌, map, IfOk};
ghost use Rattle.std.specs.Char.{is_ascii_digit};
ghost use Rattle.std.specs.List.{list_all, slice_split};
ghost use Rattle.mau_making.specs.Counted;

use mau_terms::NoMemory;
use std::alloc::Global;

/// What is counted in a transcript: its items, the matchers listed, and the sum of the counts that are shown.
#[derive(Clone, Copy, Debug, PartialEq, Eq)]
pub struct Counts {
    pub items: u64,
    pub matchers: u64,
    pub rewrites: u64,
}

/// Whether each byte is a decimal digit.
fn are_all_digits(bytes: &[u8]) -> bool
    ensures { result ≡ list_all is_ascii_digit bytes.now }
{
    bytes.iter().all(|byte| byte.is_ascii_digit())
}

/// The number below 2^64 that decimal digits write, one at least; 0, where there is none.
fn number_in(bytes: &[u8]) -> u64
    ensures { result ≡ Counted.number_in bytes.now }
{
    if bytes.is_empty() || !are_all_digits(bytes) {
        return 0;
    }
    match std::str::from_utf8(bytes) {
        Ok(digits) => match digits.parse::<u64>() {
            Ok(number) => number,
            Err(_) => 0,
        },
        Err(_) => 0,
    }
}

/// The number that stands behind a word, where a line begins with it; 0, where there is none.
fn number_behind(word: &[u8], line: &[u8]) -> u64
    ensures { result ≡ Counted.number_behind word.now line.now }
{
    match line.strip_prefix(word) {
        Some(rest) => number_in(rest),
        None => 0,
    }
}

/// 1, where a line begins with a word, else 0.
fn one_if(word: &[u8], line: &[u8]) -> u64
    ensures { result ≡ Counted.one_if word.now line.now }
{
    match line.strip_prefix(word) {
        Some(_) => 1,
        None => 0,
    }
}

/// The sum of two counts. More than 64 bits hold no transcript has room for.
fn sum(first: u64, second: u64) -> Result<u64, NoMemory>
    ensures { IfOk result (λ n. n ≡ first + second) }
{
    match first.checked_add(second) {
        Some(sum) => Ok(sum),
        None => Err(NoMemory),
    }
}

/// The lines of a transcript, which line feeds part.
fn lines_of(alloc: Global, transcript: &[u8]) -> Result<Vec<&[u8]>, NoMemory>
    ensures { IfOk result (λ lines. map (λ l. l.now) lines.items ≡ Counted.lines_of transcript.now) }
{
    let lines = transcript.split(|byte| *byte == b'\n').collect(alloc)?;
    Ok(lines)
}

/// Counts the items of a transcript, by the brackets at the beginnings of their answers, the matchers that are listed, and adds the counts that are shown.
pub fn counts_of(alloc: Global, transcript: &[u8]) -> Result<Counts, NoMemory>
    ensures { IfOk result (λ c. Counted.AreCounts transcript.now c.items c.matchers c.rewrites) }
{
    let lines = lines_of(alloc, transcript)?;
    let mut counts = Counts {
        items: 0,
        matchers: 0,
        rewrites: 0,
    };
    for line in &lines {
        counts.items = sum(counts.items, one_if(b"[", line))?;
        counts.matchers = sum(counts.matchers, one_if(b"Matcher ", line))?;
        counts.rewrites = sum(counts.rewrites, number_behind(b"rewrites: ", line))?;
    }
    Ok(counts)
}
