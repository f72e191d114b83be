//! Reading parts that follow one another.
ghost use Rattle.std.specs.Prelude.{◌≡◌, ◌<◌, ◌≤◌, ◌+◌, ℕ, List, length, IfOk, IfErr, Ok, Err};
ghost use Rattle.mau_modtext.specs.Word.{Word as Read};
ghost use Rattle.mau_modtext.specs.Faults.{OrFault, Reads, IfFault};
ghost use Rattle.mau_modtext.specs.Parts.{parts};

use crate::fault::ReadFault;
use crate::word::Word;
use mau_terms::Seq;
use std::alloc::Global;

/// What reads the part with which words begin.
pub trait PartReader<T> {
    ghost part: { Self → List Read → OrFault (T × ℕ) };

    /// The part, and of how many words it is.
    fn read(&self, alloc: Global, words: &[Word]) -> Result<(T, usize), ReadFault>
        requires { 0 < length words.now }
        ensures part { Reads result (part self.now words.now) }
        ensures some { IfOk result (λ p. 0 < p.1) }
        ensures within { IfOk result (λ p. p.1 ≤ length words.now) };
}

/// Reads one part after another, up to the end of the words.
pub fn collect_parts<T: Drop, R: PartReader<T>>(
    alloc: Global,
    reader: &R,
    words: &[Word],
) -> Result<Vec<T>, ReadFault>
    ensures ok { IfOk result (λ found. parts (R.part reader.now) words.now ≡ Ok found.items) }
    ensures fault { IfErr result (λ e. IfFault e (λ f. parts (R.part reader.now) words.now ≡ Err f)) }
{
    let mut parts = Vec::new(alloc);
    let mut from = 0;
    while from < words.len() {
        match reader.read(alloc, &words[from..]) {
            Ok((part, count)) => {
                parts.push(part)?;
                from += count;
            }
            Err(fault) => return Err(fault),
        }
    }
    Ok(parts)
}

/// Reads one part after another into a list.
pub fn read_parts<T: Drop, R: PartReader<T>>(
    alloc: Global,
    reader: &R,
    words: &[Word],
) -> Result<Seq<T>, ReadFault>
    ensures { Reads result (parts (R.part reader.now) words.now) }
{
    match collect_parts(alloc, reader, words) {
        Ok(parts) => Ok(Seq::new(parts)),
        Err(ReadFault::Fault(fault)) => Err(ReadFault::Fault(fault)),
        Err(ReadFault::NoMemory) => Err(ReadFault::NoMemory),
    }
}
