//! The fields of a line, from left to right. A reader gives what stands at the front, and the words behind it.
ghost use Rattle.std.specs.Prelude.{◌≡◌, ◌<◌, ◌-◌, ◌^◌, ◌==◌, ◌&&◌, true, false, not, length, drop, slice_index, IsTrue, IfSome, IfNone, bytes_eq};
ghost use Rattle.std.specs.List.{list_any};
ghost use Rattle.mau_facts.specs.LineReading.{Gives, texts, number_in, number_at, small_at, numbers_at, word_at, first_word, ended, great_in, great_at, name_at, variable_at};
ghost use Rattle.mau_facts.specs.Fields;
ghost use Rattle.mau_facts.specs.Fields.{in_range, is_name, is_variable};

use crate::fault::{LineError, LineFault};
use mau_numerals::{great_number, is_numeral};
use mau_terms::{Seq, Text};
use std::alloc::Global;

/// What a number counts.
#[derive(Clone, Copy, PartialEq, Eq, Debug)]
pub enum Range {
    /// Operators, sorts, statements and items: below 2 ^ 32.
    Small,
    /// The terms of a section so far, from 1.
    Term,
    /// The facts of a section so far, from 1.
    Fact,
    /// The number of the term, or of the fact, that comes next.
    NextTerm,
    NextFact,
}

/// Which numbers a line may have: how many terms and facts are before it. Where `lenient`, any number stands for 0.
#[derive(Clone, Copy, Debug)]
pub struct Limits {
    pub lenient: bool,
    pub terms: u64,
    pub facts: u64,
}

impl Limits {
    /// Whether a number may stand in a place.
    pub fn allow(&self, range: Range, number: u128) -> bool
        ensures value { result ≡ in_range self.now.terms self.now.facts range number }
        ensures fits { IsTrue result → number < 2 ^ 64 }
    {
        match range {
            Range::Small => number < 4294967296,
            Range::Term => {
                number < 18446744073709551616 && 1 <= number && number <= self.terms as u128
            }
            Range::Fact => {
                number < 18446744073709551616 && 1 <= number && number <= self.facts as u128
            }
            Range::NextTerm => number < 18446744073709551616 && number == self.terms as u128 + 1,
            Range::NextFact => number < 18446744073709551616 && number == self.facts as u128 + 1,
        }
    }

    /// The number that a word is.
    pub fn number(&self, range: Range, word: &[u8]) -> Result<u64, LineError>
        ensures { Gives (λ n. n) result (number_in self.now range word.now) }
    {
        if !is_numeral(word) {
            return Err(LineError::Fault(LineFault::Unexpected));
        }
        if self.lenient {
            return Ok(0);
        }
        match great_number(word) {
            Some(number) => {
                if self.allow(range, number) {
                    Ok(number as u64)
                } else {
                    Err(LineError::Fault(LineFault::BadNumber))
                }
            }
            None => Err(LineError::Fault(LineFault::BadNumber)),
        }
    }

    /// The number at the front.
    #[tactic(auto, unfolding(crate::specs::LineReading::and_then, crate::specs::LineReading::number_at))]
    pub fn number_at<'a, 'b>(
        &self,
        range: Range,
        words: &'a [&'b [u8]],
    ) -> Result<(u64, &'a [&'b [u8]]), LineError>
        ensures { Gives (λ x. (x.0, texts x.1.now)) result (number_at self.now range (texts words.now)) }
    {
        match words.split_first() {
            None => Err(LineError::Fault(LineFault::Unexpected)),
            Some((word, rest)) => {
                let number = self.number(range, word)?;
                Ok((number, rest))
            }
        }
    }

    /// The number below 2 ^ 32 at the front.
    #[tactic(auto, unfolding(crate::specs::LineReading::and_then, crate::specs::LineReading::small_at))]
    pub fn small_at<'a, 'b>(
        &self,
        words: &'a [&'b [u8]],
    ) -> Result<(u32, &'a [&'b [u8]]), LineError>
        ensures { Gives (λ x. (x.0, texts x.1.now)) result (small_at self.now (texts words.now)) }
    {
        let (number, rest) = self.number_at(Range::Small, words)?;
        Ok((number as u32, rest))
    }

    /// The numbers at the front, up to a word that is none.
    #[tactic(auto, using(crate::proofs::NumberLists::front_nil))]
    pub fn numbers_at<'a, 'b>(
        &self,
        alloc: Global,
        range: Range,
        words: &'a [&'b [u8]],
    ) -> Result<(Seq<u64>, &'a [&'b [u8]]), LineError>
        ensures { Gives (λ x. (x.0, texts x.1.now)) result (numbers_at self.now range (texts words.now)) }
    {
        let mut numbers = Vec::new(alloc);
        let mut i = 0;
        while i < words.len() && is_numeral(words[i]) {
            numbers.push(self.number(range, words[i])?)?;
            i += 1;
        }
        Ok((Seq::new(numbers), &words[i..]))
    }
}

impl Limits {
    /// The numeral of at most 128 bits at the front.
    #[tactic(auto, unfolding(crate::specs::LineReading::and_then, crate::specs::LineReading::great_at))]
    pub fn great_at<'a, 'b>(
        &self,
        words: &'a [&'b [u8]],
    ) -> Result<(u128, &'a [&'b [u8]]), LineError>
        ensures { Gives (λ x. (x.0, texts x.1.now)) result (great_at self.now (texts words.now)) }
    {
        match words.split_first() {
            None => Err(LineError::Fault(LineFault::Unexpected)),
            Some((word, rest)) => {
                let number = self.great(word)?;
                Ok((number, rest))
            }
        }
    }

    /// The numeral of at most 128 bits that a word is.
    fn great(&self, word: &[u8]) -> Result<u128, LineError>
        ensures { Gives (λ n. n) result (great_in self.now word.now) }
    {
        if !is_numeral(word) {
            return Err(LineError::Fault(LineFault::Unexpected));
        }
        if self.lenient {
            return Ok(0);
        }
        match great_number(word) {
            Some(number) => Ok(number),
            None => Err(LineError::Fault(LineFault::BadNumber)),
        }
    }
}

/// Whether a byte is a space, a tab, a line feed, a form feed or a carriage return.
fn is_space(byte: u8) -> bool
    ensures { result ≡ Fields.is_space byte }
{
    byte == b' ' || byte == b'\t' || byte == b'\n' || byte == 12 || byte == b'\r'
}

/// Whether a word has such a byte.
fn has_space(word: &[u8]) -> bool
    ensures { result ≡ list_any Fields.is_space word.now }
{
    word.iter().any(|byte| is_space(*byte))
}

/// A word as a name, if it is text without spaces and not empty.
pub(crate) fn as_name(word: &[u8]) -> Option<&str>
    ensures some { IfSome result (λ t. (t.now ≡ word.now) × (is_name word.now ≡ true)) }
    ensures none { IfNone result (is_name word.now ≡ false) }
{
    if word.is_empty() || has_space(word) {
        return None;
    }
    match std::str::from_utf8(word) {
        Ok(text) => Some(text),
        Err(_) => None,
    }
}

/// Whether a colon is among some bytes.
fn has_colon(bytes: &[u8]) -> bool
    ensures { result ≡ list_any (λ b. b == 58) bytes.now }
{
    bytes.iter().any(|byte| *byte == b':')
}

/// Whether the last colon of a word has something before it and behind it.
fn has_sort(word: &[u8]) -> bool
    requires { 0 < length word.now }
    ensures { result ≡ (list_any (λ b. b == 58) (drop 1 word.now) && not (slice_index word.now (length word.now - 1) == 58)) }
{
    has_colon(&word[1..]) && word[word.len() - 1] != b':'
}

/// A word as a name and a sort with a colon between them.
pub(crate) fn as_variable(word: &[u8]) -> Option<&str>
    ensures some { IfSome result (λ t. (t.now ≡ word.now) × (is_variable word.now ≡ true)) }
    ensures none { IfNone result (is_variable word.now ≡ false) }
{
    match as_name(word) {
        Some(name) => {
            if !word.is_empty() && has_sort(word) {
                Some(name)
            } else {
                None
            }
        }
        None => None,
    }
}

/// The variable at the front.
#[tactic(auto, unfolding(crate::specs::LineReading::and_then, crate::specs::LineReading::variable_at))]
pub fn variable_at<'a, 'b>(
    alloc: Global,
    words: &'a [&'b [u8]],
) -> Result<(Text, &'a [&'b [u8]]), LineError>
    ensures { Gives (λ x. (x.0, texts x.1.now)) result (variable_at (texts words.now)) }
{
    match words.split_first() {
        None => Err(LineError::Fault(LineFault::Unexpected)),
        Some((word, rest)) => match as_variable(word) {
            Some(name) => {
                let name = Text::new(alloc, name)?;
                Ok((name, rest))
            }
            None => Err(LineError::Fault(LineFault::Unexpected)),
        },
    }
}

/// The name at the front.
#[tactic(auto, unfolding(crate::specs::LineReading::and_then, crate::specs::LineReading::name_at))]
pub fn name_at<'a, 'b>(
    alloc: Global,
    words: &'a [&'b [u8]],
) -> Result<(Text, &'a [&'b [u8]]), LineError>
    ensures { Gives (λ x. (x.0, texts x.1.now)) result (name_at (texts words.now)) }
{
    match words.split_first() {
        None => Err(LineError::Fault(LineFault::Unexpected)),
        Some((word, rest)) => match as_name(word) {
            Some(name) => {
                let name = Text::new(alloc, name)?;
                Ok((name, rest))
            }
            None => Err(LineError::Fault(LineFault::Unexpected)),
        },
    }
}

/// What stands behind a word at the front.
#[tactic(auto, unfolding(crate::specs::LineReading::word_at))]
pub fn word_at<'a, 'b>(word: &[u8], words: &'a [&'b [u8]]) -> Result<&'a [&'b [u8]], LineError>
    ensures { Gives (λ x. texts x.now) result (word_at word.now (texts words.now)) }
{
    match words.split_first() {
        Some((first, rest)) => {
            if *first == word {
                Ok(rest)
            } else {
                Err(LineError::Fault(LineFault::Unexpected))
            }
        }
        None => Err(LineError::Fault(LineFault::Unexpected)),
    }
}

/// That no word is left.
pub fn ended(words: &[&[u8]]) -> Result<(), LineError>
    ensures { Gives (λ x. x) result (ended (texts words.now)) }
{
    if words.is_empty() {
        Ok(())
    } else {
        Err(LineError::Fault(LineFault::Unexpected))
    }
}

/// The word at the front.
#[tactic(auto, unfolding(crate::specs::LineReading::first_word))]
pub fn first_word<'a, 'b>(words: &'a [&'b [u8]]) -> Result<(&'b [u8], &'a [&'b [u8]]), LineError>
    ensures { Gives (λ x. (x.0.now, texts x.1.now)) result (first_word (texts words.now)) }
{
    match words.split_first() {
        Some((first, rest)) => Ok((*first, rest)),
        None => Err(LineError::Fault(LineFault::Unexpected)),
    }
}

/// Whether two words are one.
pub fn is_word(first: &[u8], second: &[u8]) -> bool
    ensures { result ≡ bytes_eq first.now second.now }
{
    first == second
}
