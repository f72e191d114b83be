//! Terms and facts as words. Each word comes behind a space.
ghost use Rattle.std.specs.Prelude.{◌≡◌, ◌++◌, ◌∷◌, [], codes, decimal, OnOk};
ghost use Rattle.mau_facts.specs.Fields.{term_fields, fact_fields, kind_word, each, word, number, numeral, variable};
ghost use Rattle.mau_facts.specs.Spelling.{behind, numbers_text};

use crate::document::{BuiltFact, Fact, MbFact, SortFact, StepFact, TermLine, UnderFact};
use crate::fields::Range;
use itoa::Buffer;
use mau_terms::NoMemory;

/// A word.
pub fn write_word(out: &mut Vec<u8>, word: &[u8]) -> Result<(), NoMemory>
    ensures { OnOk result (out.new.items ≡ out.old.items ++ (32 ∷ word.now)) }
{
    out.push(b' ')?;
    out.extend_from_slice(word)?;
    Ok(())
}

/// A number.
pub fn write_number(out: &mut Vec<u8>, number: u64) -> Result<(), NoMemory>
    ensures { OnOk result (out.new.items ≡ out.old.items ++ (32 ∷ decimal number)) }
{
    out.push(b' ')?;
    out.extend_from_slice(Buffer::new().format(number).as_bytes())?;
    Ok(())
}

/// Numbers.
fn write_numbers(out: &mut Vec<u8>, numbers: &[u64]) -> Result<(), NoMemory>
    ensures { OnOk result (out.new.items ≡ out.old.items ++ numbers_text numbers.now) }
{
    for number in numbers {
        write_number(out, *number)?;
    }
    Ok(())
}

/// Facts that are in use.
#[tactic(auto, using(crate::proofs::Spelled::spelled))]
fn write_uses(out: &mut Vec<u8>, uses: &[u64]) -> Result<(), NoMemory>
    ensures { OnOk result (out.new.items ≡ out.old.items ++ behind (word (codes "uses") ∷ each Range.Fact uses.now [])) }
{
    write_word(out, b"uses")?;
    write_numbers(out, uses)
}

/// Where a step leads from and to.
#[tactic(auto, using(crate::proofs::Spelled::spelled))]
fn write_ends(out: &mut Vec<u8>, from: u64, to: u64) -> Result<(), NoMemory>
    ensures { OnOk result (out.new.items ≡ out.old.items ++ behind (word (codes "from") ∷ number Range.Term from ∷ word (codes "to") ∷ number Range.Term to ∷ [])) }
{
    write_word(out, b"from")?;
    write_number(out, from)?;
    write_word(out, b"to")?;
    write_number(out, to)
}

/// Values, and facts that are in use.
#[tactic(auto, using(crate::proofs::Spelled::spelled))]
fn write_bind(out: &mut Vec<u8>, bind: &[u64], uses: &[u64]) -> Result<(), NoMemory>
    ensures { OnOk result (out.new.items ≡ out.old.items ++ behind (word (codes "bind") ∷ each Range.Term bind.now (word (codes "uses") ∷ each Range.Fact uses.now []))) }
{
    write_word(out, b"bind")?;
    write_numbers(out, bind)?;
    write_uses(out, uses)
}

/// Which statement stands in which context.
#[tactic(auto, using(crate::proofs::Spelled::spelled))]
fn write_use(out: &mut Vec<u8>, rule: bool, statement: u32, context: u64) -> Result<(), NoMemory>
    ensures { OnOk result (out.new.items ≡ out.old.items ++ behind (word (kind_word rule) ∷ number Range.Small statement ∷ number Range.Term context ∷ [])) }
{
    if rule {
        write_word(out, b"rl")?;
    } else {
        write_word(out, b"eq")?;
    }
    write_number(out, statement as u64)?;
    write_number(out, context)
}

/// A built-in operator in a context.
#[tactic(auto, using(crate::proofs::Spelled::spelled))]
fn write_place(out: &mut Vec<u8>, op: u32, context: u64) -> Result<(), NoMemory>
    ensures { OnOk result (out.new.items ≡ out.old.items ++ behind (number Range.Small op ∷ number Range.Term context ∷ [])) }
{
    write_number(out, op as u64)?;
    write_number(out, context)
}

/// A step.
#[tactic(auto, using(crate::proofs::Spelled::spelled))]
fn write_step(out: &mut Vec<u8>, fact: &StepFact) -> Result<(), NoMemory>
    ensures { OnOk result (out.new.items ≡ out.old.items ++ behind (fact_fields (Fact.Step fact.now))) }
{
    write_word(out, b"step")?;
    write_use(out, fact.rule, fact.number, fact.context)?;
    write_ends(out, fact.from, fact.to)?;
    write_bind(out, fact.bind.items(), fact.uses.items())
}

/// Two equal terms.
#[tactic(auto, using(crate::proofs::Spelled::spelled))]
fn write_same(out: &mut Vec<u8>, first: u64, second: u64) -> Result<(), NoMemory>
    ensures { OnOk result (out.new.items ≡ out.old.items ++ behind (word (codes "same") ∷ number Range.Term first ∷ number Range.Term second ∷ [])) }
{
    write_word(out, b"same")?;
    write_number(out, first)?;
    write_number(out, second)
}

/// The arguments of a built-in.
#[tactic(auto, using(crate::proofs::Spelled::spelled))]
fn write_args(out: &mut Vec<u8>, args: &[u64]) -> Result<(), NoMemory>
    ensures { OnOk result (out.new.items ≡ out.old.items ++ behind (word (codes "args") ∷ each Range.Term args.now [])) }
{
    write_word(out, b"args")?;
    write_numbers(out, args)
}

/// A built-in.
#[tactic(auto, using(crate::proofs::Spelled::spelled))]
fn write_built(out: &mut Vec<u8>, fact: &BuiltFact) -> Result<(), NoMemory>
    ensures { OnOk result (out.new.items ≡ out.old.items ++ behind (fact_fields (Fact.Built fact.now))) }
{
    write_word(out, b"built")?;
    write_place(out, fact.op, fact.context)?;
    write_ends(out, fact.from, fact.to)?;
    write_args(out, fact.args.items())
}

/// An operator over facts.
#[tactic(auto, using(crate::proofs::Spelled::spelled))]
fn write_under(out: &mut Vec<u8>, fact: &UnderFact) -> Result<(), NoMemory>
    ensures { OnOk result (out.new.items ≡ out.old.items ++ behind (fact_fields (Fact.Under fact.now))) }
{
    write_word(out, b"under")?;
    write_number(out, fact.op as u64)?;
    write_numbers(out, fact.facts.items())?;
    write_ends(out, fact.from, fact.to)
}

/// Facts one after another.
#[tactic(auto, using(crate::proofs::Spelled::spelled))]
fn write_chain(out: &mut Vec<u8>, facts: &[u64]) -> Result<(), NoMemory>
    ensures { OnOk result (out.new.items ≡ out.old.items ++ behind (word (codes "chain") ∷ each Range.Fact facts.now [])) }
{
    write_word(out, b"chain")?;
    write_numbers(out, facts)
}

/// A term and its sort.
#[tactic(auto, using(crate::proofs::Spelled::spelled))]
fn write_sort(out: &mut Vec<u8>, term: u64, sort: u32) -> Result<(), NoMemory>
    ensures { OnOk result (out.new.items ≡ out.old.items ++ behind (word (codes "sort") ∷ number Range.Term term ∷ number Range.Small sort ∷ [])) }
{
    write_word(out, b"sort")?;
    write_number(out, term)?;
    write_number(out, sort as u64)
}

/// A sort by declarations.
#[tactic(auto, using(crate::proofs::Spelled::spelled))]
fn write_declared(out: &mut Vec<u8>, fact: &SortFact) -> Result<(), NoMemory>
    ensures { OnOk result (out.new.items ≡ out.old.items ++ behind (fact_fields (Fact.SortDecl fact.now))) }
{
    write_sort(out, fact.term, fact.sort)?;
    write_word(out, b"decl")?;
    write_uses(out, fact.uses.items())
}

/// A sort by a membership.
#[tactic(auto, using(crate::proofs::Spelled::spelled))]
fn write_member(out: &mut Vec<u8>, fact: &MbFact) -> Result<(), NoMemory>
    ensures { OnOk result (out.new.items ≡ out.old.items ++ behind (fact_fields (Fact.SortMb fact.now))) }
{
    write_sort(out, fact.term, fact.sort)?;
    write_word(out, b"mb")?;
    write_number(out, fact.membership as u64)?;
    write_bind(out, fact.bind.items(), fact.uses.items())
}

/// A fact, without its number.
pub fn write_fact(out: &mut Vec<u8>, fact: &Fact) -> Result<(), NoMemory>
    ensures { OnOk result (out.new.items ≡ out.old.items ++ behind (fact_fields fact.now)) }
{
    match fact {
        Fact::Same(first, second, _) => write_same(out, *first, *second),
        Fact::Step(fact) => write_step(out, fact),
        Fact::Built(fact) => write_built(out, fact),
        Fact::Under(fact) => write_under(out, fact),
        Fact::Chain(facts) => write_chain(out, facts.items()),
        Fact::SortDecl(fact) => write_declared(out, fact),
        Fact::SortMb(fact) => write_member(out, fact),
    }
}

/// A numeral of up to 128 bits.
#[tactic(auto, using(crate::proofs::Spelled::spelled))]
fn write_numeral(out: &mut Vec<u8>, value: u128) -> Result<(), NoMemory>
    ensures { OnOk result (out.new.items ≡ out.old.items ++ behind (word (codes "num") ∷ numeral value ∷ [])) }
{
    write_word(out, b"num")?;
    out.push(b' ')?;
    out.extend_from_slice(Buffer::new().format(value).as_bytes())?;
    Ok(())
}

/// A variable.
#[tactic(auto, using(crate::proofs::Spelled::spelled))]
fn write_variable(out: &mut Vec<u8>, name: &str) -> Result<(), NoMemory>
    ensures { OnOk result (out.new.items ≡ out.old.items ++ behind (word (codes "var") ∷ variable name.now ∷ [])) }
{
    write_word(out, b"var")?;
    write_word(out, name.as_bytes())
}

/// An operator over terms.
#[tactic(auto, using(crate::proofs::Spelled::spelled))]
fn write_applied(out: &mut Vec<u8>, op: u32, args: &[u64]) -> Result<(), NoMemory>
    ensures { OnOk result (out.new.items ≡ out.old.items ++ behind (word (codes "app") ∷ number Range.Small op ∷ each Range.Term args.now [])) }
{
    write_word(out, b"app")?;
    write_number(out, op as u64)?;
    write_numbers(out, args)
}

/// A term, without its number.
pub fn write_term(out: &mut Vec<u8>, term: &TermLine) -> Result<(), NoMemory>
    ensures { OnOk result (out.new.items ≡ out.old.items ++ behind (term_fields term.now)) }
{
    match term {
        TermLine::Num(value) => write_numeral(out, *value),
        TermLine::Var(name) => write_variable(out, name.as_str()),
        TermLine::App(op, args) => write_applied(out, *op, args.items()),
    }
}
