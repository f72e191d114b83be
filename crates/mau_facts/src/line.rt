//! The lines of a document, from their words.
ghost use Rattle.std.specs.Prelude.{◌≡◌, true, false};
ghost use Rattle.mau_facts.specs.LineReading.{Gives, texts};
ghost use Rattle.mau_facts.specs.FactReading.{begin_at, next_term_at, next_fact_at, end_at, outside_at, among_facts_at, among_terms_at, entry_at, size_at, limits_of, IsFaultBy, IsReadBy};

use crate::entry::{Entry, Place};
use crate::fact::fact_at;
use crate::fault::{LineError, LineFault};
use crate::fields::{Limits, Range, ended, first_word, is_word, name_at, word_at};
use crate::term::term_at;
use std::alloc::Global;

/// `K M` behind `section`
#[tactic(auto, unfolding(crate::specs::LineReading::and_then, crate::specs::FactReading::begin_at))]
fn begin_at(alloc: Global, limits: &Limits, words: &[&[u8]]) -> Result<Entry, LineError>
    ensures { Gives (λ e. e) result (begin_at limits.now (texts words.now)) }
{
    let (item, rest) = limits.small_at(words)?;
    let (module, rest) = name_at(alloc, rest)?;
    ended(rest)?;
    Ok(Entry::Begin(item, module))
}

/// The number of the next term, and the term.
#[tactic(auto, unfolding(crate::specs::LineReading::and_then, crate::specs::FactReading::next_term_at))]
fn next_term_at(alloc: Global, limits: &Limits, words: &[&[u8]]) -> Result<Entry, LineError>
    ensures { Gives (λ e. e) result (next_term_at limits.now (texts words.now)) }
{
    let (_, rest) = limits.number_at(Range::NextTerm, words)?;
    let term = term_at(alloc, limits, rest)?;
    Ok(Entry::Term(term))
}

/// The number of the next fact, and the fact.
#[tactic(auto, unfolding(crate::specs::LineReading::and_then, crate::specs::FactReading::next_fact_at))]
fn next_fact_at(alloc: Global, limits: &Limits, words: &[&[u8]]) -> Result<Entry, LineError>
    ensures { Gives (λ e. e) result (next_fact_at limits.now (texts words.now)) }
{
    let (_, rest) = limits.number_at(Range::NextFact, words)?;
    let fact = fact_at(alloc, limits, rest)?;
    Ok(Entry::Fact(fact))
}

/// Nothing behind `end`.
#[tactic(auto, unfolding(crate::specs::LineReading::and_then, crate::specs::FactReading::end_at))]
fn end_at(words: &[&[u8]]) -> Result<Entry, LineError>
    ensures { Gives (λ e. e) result (end_at (texts words.now)) }
{
    ended(words)?;
    Ok(Entry::End)
}

/// `section K M`
#[tactic(auto, unfolding(crate::specs::LineReading::and_then, crate::specs::FactReading::outside_at))]
fn outside_at(alloc: Global, limits: &Limits, words: &[&[u8]]) -> Result<Entry, LineError>
    ensures { Gives (λ e. e) result (outside_at limits.now (texts words.now)) }
{
    let (kind, rest) = first_word(words)?;
    if is_word(kind, b"section") {
        begin_at(alloc, limits, rest)
    } else {
        Err(LineError::Fault(LineFault::Unexpected))
    }
}

/// A fact, or the end.
#[tactic(auto, unfolding(crate::specs::LineReading::and_then, crate::specs::FactReading::among_facts_at))]
fn among_facts_at(alloc: Global, limits: &Limits, words: &[&[u8]]) -> Result<Entry, LineError>
    ensures { Gives (λ e. e) result (among_facts_at limits.now (texts words.now)) }
{
    let (kind, rest) = first_word(words)?;
    if is_word(kind, b"fact") {
        next_fact_at(alloc, limits, rest)
    } else if is_word(kind, b"end") {
        end_at(rest)
    } else {
        Err(LineError::Fault(LineFault::Unexpected))
    }
}

/// A term, a fact, or the end.
#[tactic(auto, unfolding(crate::specs::LineReading::and_then, crate::specs::FactReading::among_terms_at))]
fn among_terms_at(alloc: Global, limits: &Limits, words: &[&[u8]]) -> Result<Entry, LineError>
    ensures { Gives (λ e. e) result (among_terms_at limits.now (texts words.now)) }
{
    let (kind, rest) = first_word(words)?;
    if is_word(kind, b"term") {
        next_term_at(alloc, limits, rest)
    } else {
        among_facts_at(alloc, limits, words)
    }
}

/// A line, by where it stands.
#[tactic(auto, unfolding(crate::specs::FactReading::entry_at))]
fn entry_at(
    alloc: Global,
    limits: &Limits,
    place: Place,
    words: &[&[u8]],
) -> Result<Entry, LineError>
    ensures { Gives (λ e. e) result (entry_at limits.now place (texts words.now)) }
{
    match place {
        Place::Outside => outside_at(alloc, limits, words),
        Place::AmongTerms => among_terms_at(alloc, limits, words),
        Place::AmongFacts => among_facts_at(alloc, limits, words),
    }
}

/// Why a line is none that may stand here: for its numbers alone where a reader that takes any number reads it.
fn why_no_entry(alloc: Global, terms: u64, facts: u64, place: Place, words: &[&[u8]]) -> LineError
    ensures { IsFaultBy (entry_at (limits_of true terms facts) place (texts words.now)) result }
{
    let limits = Limits {
        lenient: true,
        terms,
        facts,
    };
    match entry_at(alloc, &limits, place, words) {
        Ok(_) => LineError::Fault(LineFault::BadNumber),
        Err(LineError::NoMemory) => LineError::NoMemory,
        Err(LineError::Fault(_)) => LineError::Fault(LineFault::Unexpected),
    }
}

/// The line that some words are, where it stands behind so many terms and facts.
pub fn read_entry(
    alloc: Global,
    terms: u64,
    facts: u64,
    place: Place,
    words: &[&[u8]],
) -> Result<Entry, LineError>
    ensures { IsReadBy (entry_at (limits_of false terms facts) place (texts words.now)) (entry_at (limits_of true terms facts) place (texts words.now)) result }
{
    let limits = Limits {
        lenient: false,
        terms,
        facts,
    };
    match entry_at(alloc, &limits, place, words) {
        Ok(entry) => Ok(entry),
        Err(LineError::NoMemory) => Err(LineError::NoMemory),
        Err(LineError::Fault(_)) => Err(why_no_entry(alloc, terms, facts, place, words)),
    }
}

/// `text N`
#[tactic(auto, unfolding(crate::specs::LineReading::and_then, crate::specs::FactReading::size_at))]
fn size_at(limits: &Limits, words: &[&[u8]]) -> Result<u32, LineError>
    ensures { Gives (λ n. n) result (size_at limits.now (texts words.now)) }
{
    let rest = word_at(b"text", words)?;
    let (size, rest) = limits.small_at(rest)?;
    ended(rest)?;
    Ok(size)
}

/// Why a line is no `text N`.
fn why_no_size(words: &[&[u8]]) -> LineError
    ensures { IsFaultBy (size_at (limits_of true 0 0) (texts words.now)) result }
{
    let limits = Limits {
        lenient: true,
        terms: 0,
        facts: 0,
    };
    match size_at(&limits, words) {
        Ok(_) => LineError::Fault(LineFault::BadNumber),
        Err(LineError::NoMemory) => LineError::NoMemory,
        Err(LineError::Fault(_)) => LineError::Fault(LineFault::Unexpected),
    }
}

/// The length of the text, from the words of the second line.
pub fn read_size(words: &[&[u8]]) -> Result<u32, LineError>
    ensures { IsReadBy (size_at (limits_of false 0 0) (texts words.now)) (size_at (limits_of true 0 0) (texts words.now)) result }
{
    let limits = Limits {
        lenient: false,
        terms: 0,
        facts: 0,
    };
    match size_at(&limits, words) {
        Ok(size) => Ok(size),
        Err(LineError::NoMemory) => Err(LineError::NoMemory),
        Err(LineError::Fault(_)) => Err(why_no_size(words)),
    }
}
