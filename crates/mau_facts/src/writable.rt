//! Whether a section can be written.
ghost use Rattle.std.specs.Prelude.{◌≡◌, nat_lt, ◌+◌, ◌<◌, List, All, IsTrue, length, true, ◌^◌, Option};
ghost use Rattle.std.specs.List.{list_all};
ghost use Rattle.mau_facts.specs.declared.entry.Entry.{Entry};
ghost use Rattle.mau_facts.specs.Fields.{Field, IsField, HasForm, in_range, is_name, is_variable, each, term_fields, fact_fields};
ghost use Rattle.mau_facts.specs.Lines.{Line, entry_fields, term_lines, fact_lines, section_lines, HasForms};

use crate::document::{
    Axiom, BuiltFact, Fact, MbFact, Section, SortFact, StepFact, TermLine, UnderFact,
};
use crate::fields::{Limits, Range, as_name, as_variable};
use mau_terms::Seq;

/// Whether numbers may stand in their places.
fn allow_all(limits: &Limits, range: Range, numbers: &[u64]) -> bool
    ensures { result ≡ list_all (in_range limits.now.terms limits.now.facts range) numbers.now }
{
    numbers
        .iter()
        .all(|number| limits.allow(range, u128::from(*number)))
}

/// Whether numbers may stand for terms, and others for facts.
fn allow(limits: &Limits, terms: &[u64], facts: &[u64]) -> bool
    ensures { IsTrue result → (list_all (in_range limits.now.terms limits.now.facts Range.Term) terms.now ≡ true) × (list_all (in_range limits.now.terms limits.now.facts Range.Fact) facts.now ≡ true) }
{
    if !allow_all(limits, Range::Term, terms) {
        return false;
    }
    allow_all(limits, Range::Fact, facts)
}

/// A number of 32 bits is a small one.
fn small(_number: u32)
    ensures { nat_lt _number 4294967296 ≡ true }
{}

/// A number of 128 bits is below 2 ^ 128.
fn great(_number: u128)
    ensures { _number < 2 ^ 128 }
{}

/// So many are below 2 ^ 64.
fn counted(_count: usize)
    ensures { _count < 2 ^ 64 }
{}

/// Whether a text is a name.
fn is_named(text: &str) -> bool
    ensures { IsTrue result → is_name text.now ≡ true }
{
    as_name(text.as_bytes()).is_some()
}

/// Whether a term can be written behind its number.
fn can_write_term(limits: &Limits, term: &TermLine) -> bool
    ensures { IsTrue result → All (IsField limits.now.terms limits.now.facts) (term_fields term.now) }
{
    match term {
        TermLine::Num(value) => {
            great(*value);
            true
        }
        TermLine::Var(text) => as_variable(text.as_str().as_bytes()).is_some(),
        TermLine::App(op, args) => {
            small(*op);
            allow_all(limits, Range::Term, args.items())
        }
    }
}

/// Whether a step can be written.
fn can_write_step(limits: &Limits, fact: &StepFact) -> bool
    ensures { IsTrue result → All (IsField limits.now.terms limits.now.facts) (fact_fields (Fact.Step fact.now)) }
{
    small(fact.number);
    if !allow(limits, &[fact.context, fact.from, fact.to], &[]) {
        return false;
    }
    allow(limits, fact.bind.items(), fact.uses.items())
}

/// Whether a use of a built-in can be written.
fn can_write_built(limits: &Limits, fact: &BuiltFact) -> bool
    ensures { IsTrue result → All (IsField limits.now.terms limits.now.facts) (fact_fields (Fact.Built fact.now)) }
{
    small(fact.op);
    if !allow(limits, &[fact.context, fact.from, fact.to], &[]) {
        return false;
    }
    allow(limits, fact.args.items(), &[])
}

/// Whether an operator over facts can be written.
fn can_write_under(limits: &Limits, fact: &UnderFact) -> bool
    ensures form { IsTrue result → HasForm (Fact.Under fact.now) }
    ensures fields { IsTrue result → All (IsField limits.now.terms limits.now.facts) (fact_fields (Fact.Under fact.now)) }
{
    small(fact.op);
    if fact.facts.items().is_empty() {
        return false;
    }
    allow(limits, &[fact.from, fact.to], fact.facts.items())
}

/// Whether a chain can be written.
fn can_write_chain(limits: &Limits, numbers: &Seq<u64>) -> bool
    ensures form { IsTrue result → HasForm (Fact.Chain numbers.now) }
    ensures fields { IsTrue result → All (IsField limits.now.terms limits.now.facts) (fact_fields (Fact.Chain numbers.now)) }
{
    if numbers.items().is_empty() {
        return false;
    }
    allow(limits, &[], numbers.items())
}

/// Whether an equality can be written.
fn can_write_same(limits: &Limits, first: u64, second: u64, names_none: bool) -> bool
    ensures form { IsTrue result → names_none ≡ true }
    ensures fields { IsTrue result → (a : Option (Seq Axiom)) → All (IsField limits.now.terms limits.now.facts) (fact_fields (Fact.Same first second a)) }
{
    if !names_none {
        return false;
    }
    allow(limits, &[first, second], &[])
}

/// Whether a sort by declarations can be written.
fn can_write_declared(limits: &Limits, fact: &SortFact) -> bool
    ensures { IsTrue result → All (IsField limits.now.terms limits.now.facts) (fact_fields (Fact.SortDecl fact.now)) }
{
    small(fact.sort);
    allow(limits, &[fact.term], fact.uses.items())
}

/// Whether a sort by a membership can be written.
fn can_write_member(limits: &Limits, fact: &MbFact) -> bool
    ensures { IsTrue result → All (IsField limits.now.terms limits.now.facts) (fact_fields (Fact.SortMb fact.now)) }
{
    small(fact.sort);
    small(fact.membership);
    if !allow(limits, &[fact.term], &[]) {
        return false;
    }
    allow(limits, fact.bind.items(), fact.uses.items())
}

/// Whether a fact can be written behind its number.
fn can_write_fact(limits: &Limits, fact: &Fact) -> bool
    ensures form { IsTrue result → HasForm fact.now }
    ensures fields { IsTrue result → All (IsField limits.now.terms limits.now.facts) (fact_fields fact.now) }
{
    match fact {
        Fact::Same(first, second, axioms) => {
            can_write_same(limits, *first, *second, axioms.is_none())
        }
        Fact::Step(fact) => can_write_step(limits, fact),
        Fact::Built(fact) => can_write_built(limits, fact),
        Fact::Under(fact) => can_write_under(limits, fact),
        Fact::Chain(numbers) => can_write_chain(limits, numbers),
        Fact::SortDecl(fact) => can_write_declared(limits, fact),
        Fact::SortMb(fact) => can_write_member(limits, fact),
    }
}

/// Whether the lines of terms can be written.
fn can_write_terms(terms: &[TermLine]) -> bool
    ensures { IsTrue result → All (λ (l : Line). All (IsField l.terms l.facts) l.fields) (term_lines 0 terms.now) }
{
    counted(terms.len());
    for i in 0..terms.len() {
        let limits = Limits {
            lenient: false,
            terms: i as u64,
            facts: 0,
        };
        if !can_write_term(&limits, &terms[i]) {
            return false;
        }
    }
    true
}

/// Whether the lines of facts can be written, behind so many terms.
fn can_write_facts(count: usize, facts: &[Fact]) -> bool
    requires { count < 2 ^ 63 }
    ensures forms { IsTrue result → All HasForm facts.now }
    ensures fields { IsTrue result → All (λ (l : Line). All (IsField l.terms l.facts) l.fields) (fact_lines count 0 facts.now) }
{
    counted(facts.len());
    for i in 0..facts.len() {
        let limits = Limits {
            lenient: false,
            terms: count as u64,
            facts: i as u64,
        };
        if !can_write_fact(&limits, &facts[i]) {
            return false;
        }
    }
    true
}

/// Whether a section can be written: each number is in its range, and each name is one.
pub fn can_be_written(section: &Section) -> bool
    ensures forms { IsTrue result → HasForms section.now }
    ensures fields { IsTrue result → All (λ (l : Line). All (IsField l.terms l.facts) l.fields) (section_lines section.now) }
{
    small(section.item);
    let terms = section.terms.items();
    if !is_named(section.module.as_str()) {
        return false;
    }
    if !can_write_terms(terms) {
        return false;
    }
    can_write_facts(terms.len(), section.facts.items())
}
