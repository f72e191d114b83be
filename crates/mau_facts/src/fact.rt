//! Facts, from the words behind `fact` and its number.
ghost use Rattle.std.specs.Prelude.{◌≡◌};
ghost use Rattle.mau_facts.specs.LineReading.{Gives, texts};
ghost use Rattle.mau_facts.specs.FactReading.{same_at, step_at, built_at, under_at, chain_at, sort_at, declared_at, member_at, fact_at, use_at};

use crate::document::{BuiltFact, Fact, MbFact, SortFact, StepFact, UnderFact};
use crate::fault::{LineError, LineFault};
use crate::fields::{Limits, Range, ended, first_word, is_word, word_at};
use mau_terms::Seq;
use std::alloc::Global;

/// `T U`
#[tactic(auto, unfolding(crate::specs::LineReading::and_then, crate::specs::FactReading::same_at))]
fn same_at(limits: &Limits, words: &[&[u8]]) -> Result<Fact, LineError>
    ensures { Gives (λ f. f) result (same_at limits.now (texts words.now)) }
{
    let (first, rest) = limits.number_at(Range::Term, words)?;
    let (second, rest) = limits.number_at(Range::Term, rest)?;
    ended(rest)?;
    Ok(Fact::Same(first, second, None))
}

/// `E C from T to U bind V1 .. Vm uses F1 .. Fk`
#[tactic(auto, unfolding(crate::specs::LineReading::and_then, crate::specs::FactReading::step_at))]
fn step_at(alloc: Global, limits: &Limits, rule: bool, words: &[&[u8]]) -> Result<Fact, LineError>
    ensures { Gives (λ f. f) result (step_at limits.now rule (texts words.now)) }
{
    let (number, rest) = limits.small_at(words)?;
    let (context, rest) = limits.number_at(Range::Term, rest)?;
    let rest = word_at(b"from", rest)?;
    let (from, rest) = limits.number_at(Range::Term, rest)?;
    let rest = word_at(b"to", rest)?;
    let (to, rest) = limits.number_at(Range::Term, rest)?;
    let rest = word_at(b"bind", rest)?;
    let (bind, rest) = limits.numbers_at(alloc, Range::Term, rest)?;
    let rest = word_at(b"uses", rest)?;
    let (uses, rest) = limits.numbers_at(alloc, Range::Fact, rest)?;
    ended(rest)?;
    Ok(Fact::Step(StepFact {
        rule,
        number,
        context,
        from,
        to,
        bind,
        uses,
    }))
}

/// `F1 .. Fn`
#[tactic(auto, unfolding(crate::specs::LineReading::and_then, crate::specs::FactReading::chain_at))]
fn chain_at(alloc: Global, limits: &Limits, words: &[&[u8]]) -> Result<Fact, LineError>
    ensures { Gives (λ f. f) result (chain_at limits.now (texts words.now)) }
{
    let (facts, rest) = limits.numbers_at(alloc, Range::Fact, words)?;
    ended(rest)?;
    if facts.items().is_empty() {
        return Err(LineError::Fault(LineFault::Unexpected));
    }
    Ok(Fact::Chain(facts))
}

/// `O C from T to U args A1 .. An`
#[tactic(auto, unfolding(crate::specs::LineReading::and_then, crate::specs::FactReading::built_at))]
fn built_at(alloc: Global, limits: &Limits, words: &[&[u8]]) -> Result<Fact, LineError>
    ensures { Gives (λ f. f) result (built_at limits.now (texts words.now)) }
{
    let (op, rest) = limits.small_at(words)?;
    let (context, rest) = limits.number_at(Range::Term, rest)?;
    let rest = word_at(b"from", rest)?;
    let (from, rest) = limits.number_at(Range::Term, rest)?;
    let rest = word_at(b"to", rest)?;
    let (to, rest) = limits.number_at(Range::Term, rest)?;
    let rest = word_at(b"args", rest)?;
    let (args, rest) = limits.numbers_at(alloc, Range::Term, rest)?;
    ended(rest)?;
    Ok(Fact::Built(BuiltFact {
        op,
        context,
        from,
        to,
        args,
    }))
}

/// `O F1 .. Fn from T to U`
#[tactic(auto, unfolding(crate::specs::LineReading::and_then, crate::specs::FactReading::under_at))]
fn under_at(alloc: Global, limits: &Limits, words: &[&[u8]]) -> Result<Fact, LineError>
    ensures { Gives (λ f. f) result (under_at limits.now (texts words.now)) }
{
    let (op, rest) = limits.small_at(words)?;
    let (facts, rest) = limits.numbers_at(alloc, Range::Fact, rest)?;
    let rest = word_at(b"from", rest)?;
    let (from, rest) = limits.number_at(Range::Term, rest)?;
    let rest = word_at(b"to", rest)?;
    let (to, rest) = limits.number_at(Range::Term, rest)?;
    ended(rest)?;
    if facts.items().is_empty() {
        return Err(LineError::Fault(LineFault::Unexpected));
    }
    Ok(Fact::Under(UnderFact {
        op,
        facts,
        from,
        to,
    }))
}

/// `uses F1 .. Fk`
#[tactic(auto, unfolding(crate::specs::LineReading::and_then, crate::specs::FactReading::declared_at))]
fn declared_at(
    alloc: Global,
    limits: &Limits,
    term: u64,
    sort: u32,
    words: &[&[u8]],
) -> Result<Fact, LineError>
    ensures { Gives (λ f. f) result (declared_at limits.now term sort (texts words.now)) }
{
    let rest = word_at(b"uses", words)?;
    let (uses, rest) = limits.numbers_at(alloc, Range::Fact, rest)?;
    ended(rest)?;
    Ok(Fact::SortDecl(SortFact { term, sort, uses }))
}

/// `B bind V1 .. Vm uses F1 .. Fk`
#[tactic(auto, unfolding(crate::specs::LineReading::and_then, crate::specs::FactReading::member_at))]
fn member_at(
    alloc: Global,
    limits: &Limits,
    term: u64,
    sort: u32,
    words: &[&[u8]],
) -> Result<Fact, LineError>
    ensures { Gives (λ f. f) result (member_at limits.now term sort (texts words.now)) }
{
    let (membership, rest) = limits.small_at(words)?;
    let rest = word_at(b"bind", rest)?;
    let (bind, rest) = limits.numbers_at(alloc, Range::Term, rest)?;
    let rest = word_at(b"uses", rest)?;
    let (uses, rest) = limits.numbers_at(alloc, Range::Fact, rest)?;
    ended(rest)?;
    Ok(Fact::SortMb(MbFact {
        term,
        sort,
        membership,
        bind,
        uses,
    }))
}

/// `T S decl ..` or `T S mb ..`
#[tactic(auto, unfolding(crate::specs::LineReading::and_then, crate::specs::FactReading::sort_at))]
fn sort_at(alloc: Global, limits: &Limits, words: &[&[u8]]) -> Result<Fact, LineError>
    ensures { Gives (λ f. f) result (sort_at limits.now (texts words.now)) }
{
    let (term, rest) = limits.number_at(Range::Term, words)?;
    let (sort, rest) = limits.small_at(rest)?;
    let (kind, rest) = first_word(rest)?;
    match kind {
        b"decl" => declared_at(alloc, limits, term, sort, rest),
        b"mb" => member_at(alloc, limits, term, sort, rest),
        _ => Err(LineError::Fault(LineFault::Unexpected)),
    }
}

/// `E ..` behind `eq` or `rl`
#[tactic(auto, unfolding(crate::specs::LineReading::and_then, crate::specs::FactReading::use_at))]
fn use_at(alloc: Global, limits: &Limits, words: &[&[u8]]) -> Result<Fact, LineError>
    ensures { Gives (λ f. f) result (use_at limits.now (texts words.now)) }
{
    let (kind, rest) = first_word(words)?;
    match kind {
        b"eq" => step_at(alloc, limits, false, rest),
        b"rl" => step_at(alloc, limits, true, rest),
        _ => Err(LineError::Fault(LineFault::Unexpected)),
    }
}

/// A fact.
#[tactic(auto, unfolding(crate::specs::LineReading::and_then, crate::specs::FactReading::fact_at))]
pub fn fact_at(alloc: Global, limits: &Limits, words: &[&[u8]]) -> Result<Fact, LineError>
    ensures { Gives (λ f. f) result (fact_at limits.now (texts words.now)) }
{
    let (kind, rest) = first_word(words)?;
    if is_word(kind, b"same") {
        same_at(limits, rest)
    } else if is_word(kind, b"step") {
        use_at(alloc, limits, rest)
    } else if is_word(kind, b"built") {
        built_at(alloc, limits, rest)
    } else if is_word(kind, b"under") {
        under_at(alloc, limits, rest)
    } else if is_word(kind, b"chain") {
        chain_at(alloc, limits, rest)
    } else if is_word(kind, b"sort") {
        sort_at(alloc, limits, rest)
    } else {
        Err(LineError::Fault(LineFault::Unexpected))
    }
}
