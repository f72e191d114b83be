//! Reading documents.
ghost use Rattle.std.specs.Prelude.{◌≡◌, ◌++◌, ◌∷◌, ◌<◌, ◌^◌, codes, length, IfOk, IfErr, IfSome, IfNone, List, ℕ, MatchResult, true, false};
ghost use Rattle.mau_facts.specs.Documents.{words, head, IsDocument};
ghost use Rattle.mau_facts.specs.Faults.{IsFault};
ghost use Rattle.mau_facts.specs.FactReading.{IsReadBy, entry_at, size_at, limits_of};
ghost use Rattle.mau_facts.specs.FaultLines.{stop_of};
ghost use Rattle.mau_facts.specs.Fronts.{limits_at, place_of, AreSections, IsStop, IsTextLineOf, IsTextLineFault, opening};

use crate::block::{block, first_line, line_of};
use crate::document::{Document, Section};
use crate::entry::Entry;
use crate::fault::{FactFault, LineError, LineFault, Stop};
use crate::line::{read_entry, read_size};
use crate::progress::Progress;
use crate::words::words_of;
use mau_terms::Seq;
use std::alloc::Global;

/// A line behind what is read so far.
fn read_line(alloc: Global, progress: &Progress, line: &[u8]) -> Result<Entry, LineError>
    ensures { IsReadBy (entry_at (limits_at false progress.now.begun) (place_of progress.now.begun) (words line.now)) (entry_at (limits_at true progress.now.begun) (place_of progress.now.begun) (words line.now)) result }
{
    let words = words_of(alloc, line)?;
    read_entry(
        alloc,
        progress.terms(),
        progress.facts(),
        progress.place(),
        &words,
    )
}

/// Why reading stops in front of a line.
fn stop_at(place: usize, error: LineError) -> Stop
    ensures { result ≡ stop_of place error }
{
    match error {
        LineError::Fault(fault) => Stop::At(place, fault),
        LineError::NoMemory => Stop::NoMemory,
    }
}

/// The sections that some bytes are.
fn read_sections(alloc: Global, bytes: &[u8]) -> Result<Seq<Section>, Stop>
    ensures { MatchResult result (AreSections bytes.now) (IsStop bytes.now) }
{
    let mut progress = Progress::new(alloc);
    let mut rest = bytes;
    while let Some((line, after)) = first_line(rest) {
        match read_line(alloc, &progress, line) {
            Ok(entry) => progress.add(alloc, entry)?,
            Err(error) => return Err(stop_at(bytes.len() - rest.len(), error)),
        }
        rest = after;
    }
    let place = bytes.len() - rest.len();
    if !rest.is_empty() {
        return Err(Stop::At(place, LineFault::Unexpected));
    }
    match progress.sections() {
        Some(sections) => Ok(sections),
        None => Err(Stop::At(place, LineFault::Unexpected)),
    }
}

/// What stands behind the first line.
fn after_first(bytes: &[u8]) -> Option<&[u8]>
    ensures some { IfSome result (λ rest. bytes.now ≡ codes "mrew-facts 1" ++ 10 ∷ rest.now) }
    ensures none { IfNone result ((rest : List ℕ) → bytes.now ≡ codes "mrew-facts 1" ++ 10 ∷ rest → ⊥) }
{
    match first_line(bytes) {
        Some((line, rest)) => {
            if line == b"mrew-facts 1".as_slice() {
                Some(rest)
            } else {
                None
            }
        }
        None => None,
    }
}

/// The size of the text, from a line at the front.
fn read_text_line(alloc: Global, bytes: &[u8]) -> Result<(u32, &[u8]), LineError>
    ensures { MatchResult result (λ p. IsTextLineOf bytes.now p.0 p.1.now) (IsTextLineFault bytes.now) }
{
    match first_line(bytes) {
        Some((line, rest)) => {
            let words = words_of(alloc, line)?;
            let size = read_size(&words)?;
            Ok((size, rest))
        }
        None => Err(LineError::Fault(LineFault::Unexpected)),
    }
}

/// A document whose text is read.
fn read_behind(alloc: Global, bytes: &[u8], text: &[u8], rest: &[u8]) -> Result<Document, FactFault>
    requires { (length text.now < 2 ^ 32) × (bytes.now ≡ head text.now ++ rest.now) }
    ensures { MatchResult result (IsDocument bytes.now) (IsFault bytes.now) }
{
    match read_sections(alloc, rest) {
        Ok(sections) => Ok(Document {
            version: 1,
            text: Seq::new(Vec::from_slice(alloc, text)?),
            sections,
        }),
        Err(Stop::NoMemory) => Err(FactFault::NoMemory),
        Err(Stop::At(place, fault)) => {
            Err(fault.at(line_of(bytes, bytes.len() - rest.len() + place)))
        }
    }
}

/// A document whose first two lines are read.
fn read_text(alloc: Global, bytes: &[u8], size: u32, rest: &[u8]) -> Result<Document, FactFault>
    requires { bytes.now ≡ opening size rest.now }
    ensures { MatchResult result (IsDocument bytes.now) (IsFault bytes.now) }
{
    let place = bytes.len() - rest.len();
    match block(rest, size as usize) {
        Some((text, rest)) => read_behind(alloc, bytes, text, rest),
        None => {
            let end = place + rest.len().min(size as usize);
            Err(FactFault::Unexpected(line_of(bytes, end)))
        }
    }
}

/// The document that some bytes are, or the first line that none has in its place.
pub fn read_facts(alloc: Global, bytes: &[u8]) -> Result<Document, FactFault>
    ensures read { IfOk result (IsDocument bytes.now) }
    ensures fault { IfErr result (IsFault bytes.now) }
{
    let Some(rest) = after_first(bytes) else {
        return Err(FactFault::Unexpected(1));
    };
    match read_text_line(alloc, rest) {
        Ok((size, rest)) => read_text(alloc, bytes, size, rest),
        Err(LineError::Fault(fault)) => Err(fault.at(2)),
        Err(LineError::NoMemory) => Err(FactFault::NoMemory),
    }
}
