//! The lines of terms, from the words behind `term` and its number.
ghost use Rattle.std.specs.Prelude.{◌≡◌};
ghost use Rattle.mau_facts.specs.LineReading.{Gives, texts};
ghost use Rattle.mau_facts.specs.FactReading.{numeral_at, named_at, applied_at, term_at};

use crate::document::TermLine;
use crate::fault::{LineError, LineFault};
use crate::fields::{Limits, Range, ended, first_word, is_word, variable_at};
use std::alloc::Global;

/// `V`
#[tactic(auto, unfolding(crate::specs::LineReading::and_then, crate::specs::FactReading::numeral_at))]
fn numeral_at(limits: &Limits, words: &[&[u8]]) -> Result<TermLine, LineError>
    ensures { Gives (λ t. t) result (numeral_at limits.now (texts words.now)) }
{
    let (value, rest) = limits.great_at(words)?;
    ended(rest)?;
    Ok(TermLine::Num(value))
}

/// `X:S`
#[tactic(auto, unfolding(crate::specs::LineReading::and_then, crate::specs::FactReading::named_at))]
fn named_at(alloc: Global, words: &[&[u8]]) -> Result<TermLine, LineError>
    ensures { Gives (λ t. t) result (named_at (texts words.now)) }
{
    let (name, rest) = variable_at(alloc, words)?;
    ended(rest)?;
    Ok(TermLine::Var(name))
}

/// `O A1 .. An`
#[tactic(auto, unfolding(crate::specs::LineReading::and_then, crate::specs::FactReading::applied_at))]
fn applied_at(alloc: Global, limits: &Limits, words: &[&[u8]]) -> Result<TermLine, LineError>
    ensures { Gives (λ t. t) result (applied_at limits.now (texts words.now)) }
{
    let (op, rest) = limits.small_at(words)?;
    let (args, rest) = limits.numbers_at(alloc, Range::Term, rest)?;
    ended(rest)?;
    Ok(TermLine::App(op, args))
}

/// A term.
#[tactic(auto, unfolding(crate::specs::LineReading::and_then, crate::specs::FactReading::term_at))]
pub fn term_at(alloc: Global, limits: &Limits, words: &[&[u8]]) -> Result<TermLine, LineError>
    ensures { Gives (λ t. t) result (term_at limits.now (texts words.now)) }
{
    let (kind, rest) = first_word(words)?;
    if is_word(kind, b"num") {
        numeral_at(limits, rest)
    } else if is_word(kind, b"var") {
        named_at(alloc, rest)
    } else if is_word(kind, b"app") {
        applied_at(alloc, limits, rest)
    } else {
        Err(LineError::Fault(LineFault::Unexpected))
    }
}
