//! Whether the facts of a section are justified, each from those before it.
ghost use Rattle.std.specs.Prelude.{◌≡◌, List, Option, All, length, IfOk};
ghost use Rattle.mau_terms.specs.Tree.{Tree};
ghost use Rattle.mau_store.specs.Node.{Node, Extends};
ghost use Rattle.mau_formula.specs.Operators.{operators};
ghost use Rattle.mau_program.specs.LawfulPrograms.{IsLawfulProgram};
ghost use Rattle.mau_built_ins.specs.NativeNumerals.{GivesNumerals};
ghost use Rattle.mau_api.specs.Variables.{numbered};
ghost use Rattle.mau_facts.specs.declared.document.Section.{Section};
ghost use Rattle.mau_program.specs.declared.program.Program.{Program};
ghost use Rattle.mau_signature.specs.Signature.{SignatureOf};
ghost use Rattle.mau_logic.specs.Lines.{section_terms};
ghost use Rattle.mau_logic.specs.Says.{Says, said as said_by, all_said};
ghost use Rattle.mau_logic.specs.Justified.{IsJustified};
ghost use Rattle.mau_check.specs.Answer.{IsAnswer};
ghost use Rattle.mau_check.specs.Judged.{IsJudgement, IsCheckedOver, AreEndsOf, IsConclusion, said_last, section_variables};
ghost use Rattle.mau_check.specs.Kept.{AreKept};
ghost use Rattle.mau_check.specs.Marks.{AreMarks};
ghost use Rattle.mau_check.specs.Said.{AreSaid, Decides};
ghost use Rattle.mau_check.specs.Told.{IsPlainTable};

use crate::built::built;
use crate::facts::{declared, member, step};
use crate::filling::mark;
use crate::kept::Kept;
use crate::lines::terms_of;
use crate::plain::{chain, same, under};
use crate::said::{Said, said_at};
use mau_facts::{Fact, Section};
use mau_formula::HookTable;
use mau_program::Program;
use mau_reduce::{Hooks, Natives};
use mau_sorts::SortTable;
use mau_store::Store;
use mau_terms::{NoMemory, TermId, Vars};
use std::alloc::Global;

/// What a check answers.
#[derive(Clone, Copy, PartialEq, Eq, Debug)]
pub enum CheckAnswer {
    /// All facts are justified; so many there are.
    Accepted(u64),
    /// The fact with this number, counted from 1, is the first that is not justified.
    Rejected(u64),
}

/// What the last fact of a section leads from and to: two normal forms of a store, with the variables of the section.
#[derive(Drop)]
pub struct Conclusion {
    pub store: Store,
    pub variables: Vars,
    pub from: TermId,
    pub to: TermId,
}

/// What a check answers, with what the last fact leads from and to, if it leads anywhere.
#[derive(Drop)]
pub enum Judgement {
    /// All facts are justified; so many there are.
    Accepted(u64, Option<Conclusion>),
    /// The fact with this number, counted from 1, is the first that is not justified.
    Rejected(u64),
}

/// What is found of some facts.
#[derive(Drop)]
enum Checked {
    /// All are justified, and say this.
    All(Vec<Said>),
    /// The fact with this number, counted from 1, is the first that is not justified.
    Stopped(u64),
}

/// What a fact says, if it is justified by those before it.
fn decide<N: Natives>(
    store: &mut Store,
    program: &Program,
    natives: &N,
    marks: &[bool],
    plain: &mut SortTable,
    kept: &[Option<Kept>],
    said: &[Said],
    fact: &Fact,
) -> Result<Option<Said>, NoMemory>
    requires lawful { IsLawfulProgram program.now }
    requires numerals { All GivesNumerals (N.operators natives.now) }
    requires kept { (terms : List (Option Tree)) × AreKept program.now.sig store.old kept.now terms }
    requires said { (before : List Says) × AreSaid program.now.sig store.old said.now before }
    requires marks { AreMarks store.old marks.now }
    requires plain { IsPlainTable program.now.sig store.old plain.old }
    ensures plain { IsPlainTable program.now.sig store.new plain.new }
    ensures decided { (terms : List (Option Tree)) (before : List Says) → AreKept program.now.sig store.old kept.now terms →
        AreSaid program.now.sig store.old said.now before → IfOk result (λ o. Decides program.now.sig store.new o
        (IsJustified program.now (N.operators natives.now) terms before fact.now) (said_by terms before fact.now)) }
    ensures extends { Extends store.old store.new }
{
    let _ = store.len();
    let alloc = store.allocator();
    match fact {
        Fact::Same(first, second, _) => Ok(same(&program.sig, store, kept, *first, *second)),
        Fact::Step(fact) => step(store, program, marks, plain, kept, said, fact),
        Fact::Built(fact) => built(store, program, natives, marks, kept, fact),
        Fact::Under(fact) => under(alloc, store, &program.sig, kept, said, fact),
        Fact::Chain(numbers) => chain(alloc, &program.sig, store, said, numbers.items()),
        Fact::SortDecl(fact) => declared(store, program, plain, kept, said, fact),
        Fact::SortMb(fact) => member(store, program, plain, kept, said, fact),
    }
}

/// Whether some facts are justified over the terms of a section, and what they say then.
fn check_over<N: Natives>(
    store: &mut Store,
    program: &Program,
    natives: &N,
    marks: &[bool],
    kept: &[Option<Kept>],
    facts: &[Fact],
) -> Result<Checked, NoMemory>
    requires lawful { IsLawfulProgram program.now }
    requires numerals { All GivesNumerals (N.operators natives.now) }
    requires kept { (terms : List (Option Tree)) × AreKept program.now.sig store.old kept.now terms }
    requires marks { AreMarks store.old marks.now }
    ensures { (terms : List (Option Tree)) → AreKept program.now.sig store.old kept.now terms →
        IfOk result (IsCheckedOver program.now (N.operators natives.now) store.new terms facts.now) }
{
    let alloc = store.allocator();
    let _ = store.len();
    let mut plain = SortTable::new(alloc);
    let mut said = Vec::new(alloc);
    for i in 0..facts.len() {
        let one = match decide(
            store, program, natives, marks, &mut plain, kept, &said, &facts[i],
        ) {
            Ok(Some(one)) => one,
            Ok(None) => return Ok(Checked::Stopped(i as u64 + 1)),
            Err(fault) => return Err(fault),
        };
        said.push(one)?;
    }
    Ok(Checked::All(said))
}

/// What the last of some facts leads from and to, if it leads anywhere.
fn ends_of(said: &[Said]) -> Option<(TermId, TermId)>
    ensures { (s : SignatureOf) (nodes : List Node) (before : List Says) → AreSaid s nodes said.now before →
        AreEndsOf s nodes result (numbered before (length said.now)) }
{
    match said_at(said, said.len() as u64) {
        Some(Said::Leads(_, from, to)) => Some((from.id, to.id)),
        Some(Said::Sorted(_, _)) => None,
        None => None,
    }
}

/// What a section concludes, of which the facts say this.
fn conclude(store: Store, variables: Vars, said: &[Said]) -> Option<Conclusion>
    ensures { (p : Program) (x : Section) → AreSaid p.sig store said.now (all_said (section_terms p x) x.facts) →
        variables ≡ section_variables p x → IsConclusion p x result (said_last p x) }
{
    match ends_of(said) {
        Some((from, to)) => Some(Conclusion {
            store,
            variables,
            from,
            to,
        }),
        None => None,
    }
}

/// Whether the facts of a section are justified, each from those before it, in a module with native operators, and what the last one leads from and
/// to. The first that is not justified is named. It runs no evaluation.
pub fn judge(
    alloc: Global,
    program: &Program,
    hooks: &HookTable,
    section: &Section,
) -> Result<Judgement, NoMemory>
    requires lawful { IsLawfulProgram program.now }
    requires numerals { All GivesNumerals (operators hooks.now) }
    ensures { IfOk result (IsJudgement program.now (operators hooks.now) section.now) }
{
    let natives = Hooks::new(hooks);
    let mut store = Store::new(alloc);
    let (kept, variables) = match terms_of(&mut store, program, section.terms.items()) {
        Ok(read) => read,
        Err(fault) => return Err(fault),
    };
    let marks = mark(&store)?;
    let facts = section.facts.items();
    match check_over(&mut store, program, &natives, &marks, &kept, facts) {
        Ok(Checked::All(said)) => {
            let conclusion = conclude(store, variables, &said);
            Ok(Judgement::Accepted(facts.len() as u64, conclusion))
        }
        Ok(Checked::Stopped(number)) => Ok(Judgement::Rejected(number)),
        Err(fault) => Err(fault),
    }
}

/// Whether the facts of a section are justified, each from those before it, in a module with native operators. The first that is not is named.
/// It runs no evaluation.
pub fn check_facts(
    alloc: Global,
    program: &Program,
    hooks: &HookTable,
    section: &Section,
) -> Result<CheckAnswer, NoMemory>
    requires lawful { IsLawfulProgram program.now }
    requires numerals { All GivesNumerals (operators hooks.now) }
    ensures { IfOk result (IsAnswer program.now (operators hooks.now) section.now) }
{
    match judge(alloc, program, hooks, section) {
        Ok(Judgement::Accepted(count, _)) => Ok(CheckAnswer::Accepted(count)),
        Ok(Judgement::Rejected(number)) => Ok(CheckAnswer::Rejected(number)),
        Err(fault) => Err(fault),
    }
}
