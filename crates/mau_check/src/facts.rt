//! Facts about statements and sorts.
ghost use Rattle.std.specs.Prelude.{◌≡◌, ◌↔◌, ◌<◌, true, false, List, Option, Some, None, IfOk, IfSome, IfNone, IsTrue};
ghost use Rattle.mau_terms.specs.Tree.{Tree};
ghost use Rattle.mau_signature.specs.Signature.{SignatureOf};
ghost use Rattle.mau_store.specs.Node.{Node, Extends};
ghost use Rattle.mau_formula.specs.Operator.{Operator};
ghost use Rattle.mau_program.specs.LawfulPrograms.{IsLawfulProgram};
ghost use Rattle.mau_api.specs.Variables.{numbered};
ghost use Rattle.mau_facts.specs.declared.document.Fact.TheVariants.{Step, SortDecl, SortMb};
ghost use Rattle.mau_logic.specs.Says.{Says, said as said_by};
ghost use Rattle.mau_logic.specs.Justified.{With, IsMember, IsSortNumber, IsJustified, UsesStatement};
ghost use Rattle.mau_check.specs.Kept.{IsKeptFor, AreKeptFor, AreKept};
ghost use Rattle.mau_check.specs.Said.{AreSaid, Decides};
ghost use Rattle.mau_check.specs.Marks.{AreMarks};
ghost use Rattle.mau_check.specs.FactNumbers.{numbers_of_step};
ghost use Rattle.mau_check.specs.Named.{AreNamed, IsNamed, IsNamedBy, NameAll, IsBoundBy, BindsAll};
ghost use Rattle.mau_check.specs.Told.{IsPlainTable};

use crate::kept::{Kept, kept_at};
use crate::named::{Bound, Named, bound_by, named_by};
use crate::said::{Said, said_all};
use crate::sorts::term_has_sort;
use crate::statements::{is_member, is_use};
use mau_facts::{MbFact, SortFact, StepFact};
use mau_program::{Equation, Membership, Program, Rule};
use mau_signature::Signature;
use mau_sorts::SortTable;
use mau_store::Store;
use mau_terms::NoMemory;
use std::alloc::Global;

/// The equation with a number, counted from 1.
fn equation_at(program: &Program, number: u32) -> Option<&Equation>
    ensures some { IfSome result (λ e. numbered program.now.equations number ≡ Some e.now) }
    ensures none { IfNone result (numbered program.now.equations number ≡ None) }
{
    let equations = program.equations.items();
    if number == 0 || number as usize > equations.len() {
        return None;
    }
    Some(&equations[number as usize - 1])
}

/// The rule with a number, counted from 1.
fn rule_at(program: &Program, number: u32) -> Option<&Rule>
    ensures some { IfSome result (λ q. numbered program.now.rules number ≡ Some q.now) }
    ensures none { IfNone result (numbered program.now.rules number ≡ None) }
{
    let rules = program.rules.items();
    if number == 0 || number as usize > rules.len() {
        return None;
    }
    Some(&rules[number as usize - 1])
}

/// The membership with a number, counted from 1.
fn membership_at(program: &Program, number: u32) -> Option<&Membership>
    ensures some { IfSome result (λ m. numbered program.now.memberships number ≡ Some m.now) }
    ensures none { IfNone result (numbered program.now.memberships number ≡ None) }
{
    let memberships = program.memberships.items();
    if number == 0 || number as usize > memberships.len() {
        return None;
    }
    Some(&memberships[number as usize - 1])
}

/// Whether a fact is one use of the equation with a number.
fn uses_equation(
    store: &mut Store,
    program: &Program,
    marks: &[bool],
    plain: &mut SortTable,
    number: u32,
    named: &Named,
) -> Result<bool, NoMemory>
    requires lawful { IsLawfulProgram program.now }
    requires marks { AreMarks store.old marks.now }
    requires plain { IsPlainTable program.now.sig store.old plain.old }
    requires named { IsNamed program.now.sig store.old named.now }
    ensures plain { IsPlainTable program.now.sig store.new plain.new }
    ensures uses { (c t u : Tree) (vs : List Tree) (us : List Says) → AreNamed program.now.sig store.old named.now c t u vs us →
        IfOk result (λ yes. IsTrue yes ↔ UsesStatement program.now false number c t u vs us) }
    ensures extends { Extends store.old store.new }
{
    let _ = store.len();
    match equation_at(program, number) {
        Some(equation) => is_use(
            store,
            &program.sig,
            marks,
            plain,
            &equation.left,
            &equation.right,
            equation.cond.items(),
            named,
        ),
        None => Ok(false),
    }
}

/// Whether a fact is one use of the rule with a number.
fn uses_rule(
    store: &mut Store,
    program: &Program,
    marks: &[bool],
    plain: &mut SortTable,
    number: u32,
    named: &Named,
) -> Result<bool, NoMemory>
    requires lawful { IsLawfulProgram program.now }
    requires marks { AreMarks store.old marks.now }
    requires plain { IsPlainTable program.now.sig store.old plain.old }
    requires named { IsNamed program.now.sig store.old named.now }
    ensures plain { IsPlainTable program.now.sig store.new plain.new }
    ensures uses { (c t u : Tree) (vs : List Tree) (us : List Says) → AreNamed program.now.sig store.old named.now c t u vs us →
        IfOk result (λ yes. IsTrue yes ↔ UsesStatement program.now true number c t u vs us) }
    ensures extends { Extends store.old store.new }
{
    let _ = store.len();
    match rule_at(program, number) {
        Some(rule) => is_use(
            store,
            &program.sig,
            marks,
            plain,
            &rule.left,
            &rule.right,
            rule.cond.items(),
            named,
        ),
        None => Ok(false),
    }
}

/// Whether a fact is one use of the rule with a number, or else of the equation.
fn uses_statement(
    store: &mut Store,
    program: &Program,
    marks: &[bool],
    plain: &mut SortTable,
    rule: bool,
    number: u32,
    named: &Named,
) -> Result<bool, NoMemory>
    requires lawful { IsLawfulProgram program.now }
    requires marks { AreMarks store.old marks.now }
    requires plain { IsPlainTable program.now.sig store.old plain.old }
    requires named { IsNamed program.now.sig store.old named.now }
    ensures plain { IsPlainTable program.now.sig store.new plain.new }
    ensures uses { (c t u : Tree) (vs : List Tree) (us : List Says) → AreNamed program.now.sig store.old named.now c t u vs us →
        IfOk result (λ yes. IsTrue yes ↔ UsesStatement program.now rule number c t u vs us) }
    ensures extends { Extends store.old store.new }
{
    if rule {
        return uses_rule(store, program, marks, plain, number, named);
    }
    uses_equation(store, program, marks, plain, number, named)
}

/// What a step names, if it is all there.
fn named_step(
    alloc: Global,
    kept: &[Option<Kept>],
    said: &[Said],
    fact: &StepFact,
) -> Result<Option<Named>, NoMemory>
    ensures some { (s : SignatureOf) (nodes : List Node) (terms : List (Option Tree)) (before : List Says) → AreKept s nodes kept.now terms → AreSaid s nodes said.now before →
        IfOk result (λ o. IfSome o (IsNamedBy s nodes terms before (numbers_of_step fact.now))) }
    ensures none { (s : SignatureOf) (nodes : List Node) (terms : List (Option Tree)) (before : List Says) → AreKept s nodes kept.now terms → AreSaid s nodes said.now before →
        IfOk result (λ o. IfNone o (NameAll s terms before (numbers_of_step fact.now) → ⊥)) }
{
    named_by(
        alloc,
        kept,
        said,
        fact.context,
        fact.from,
        fact.to,
        fact.bind.items(),
        fact.uses.items(),
    )
}

/// What a step says, if it is justified.
pub fn step(
    store: &mut Store,
    program: &Program,
    marks: &[bool],
    plain: &mut SortTable,
    kept: &[Option<Kept>],
    said: &[Said],
    fact: &StepFact,
) -> Result<Option<Said>, NoMemory>
    requires lawful { IsLawfulProgram program.now }
    requires kept { (terms : List (Option Tree)) × AreKept program.now.sig store.old kept.now terms }
    requires said { (before : List Says) × AreSaid program.now.sig store.old said.now before }
    requires marks { AreMarks store.old marks.now }
    requires plain { IsPlainTable program.now.sig store.old plain.old }
    ensures plain { IsPlainTable program.now.sig store.new plain.new }
    ensures decided { (hooks : List Operator) (terms : List (Option Tree)) (before : List Says) → AreKept program.now.sig store.old kept.now terms →
        AreSaid program.now.sig store.old said.now before → IfOk result (λ o. Decides program.now.sig store.new o
        (IsJustified program.now hooks terms before (Step fact.now)) (said_by terms before (Step fact.now))) }
    ensures extends { Extends store.old store.new }
{
    let _ = store.len();
    let named = match named_step(store.allocator(), kept, said, fact) {
        Ok(Some(named)) => named,
        Ok(None) => return Ok(None),
        Err(fault) => return Err(fault),
    };
    let used = uses_statement(store, program, marks, plain, fact.rule, fact.number, &named)?;
    if !used {
        return Ok(None);
    }
    Ok(Some(Said::Leads(!fact.rule, named.from, named.to)))
}

/// Whether a number is that of a sort, counted from 1.
fn is_sort_number(sig: &Signature, number: u32) -> bool
    ensures { IsTrue result ↔ IsSortNumber sig.now number }
{
    if number == 0 {
        return false;
    }
    number <= sig.poset().sorts()
}

/// What a fact about a sort by declarations says, if it is justified.
pub fn declared(
    store: &Store,
    program: &Program,
    plain: &mut SortTable,
    kept: &[Option<Kept>],
    said: &[Said],
    fact: &SortFact,
) -> Result<Option<Said>, NoMemory>
    requires lawful { IsLawfulProgram program.now }
    requires kept { (terms : List (Option Tree)) × AreKept program.now.sig store.now kept.now terms }
    requires said { (before : List Says) × AreSaid program.now.sig store.now said.now before }
    requires plain { IsPlainTable program.now.sig store.now plain.old }
    ensures plain { IsPlainTable program.now.sig store.now plain.new }
    ensures decided { (hooks : List Operator) (terms : List (Option Tree)) (before : List Says) → AreKept program.now.sig store.now kept.now terms →
        AreSaid program.now.sig store.now said.now before → IfOk result (λ o. Decides program.now.sig store.now o
        (IsJustified program.now hooks terms before (SortDecl fact.now)) (said_by terms before (SortDecl fact.now))) }
{
    let _ = program.sig.operators();
    let term = match kept_at(kept, fact.term) {
        Some(term) => term,
        None => return Ok(None),
    };
    if !is_sort_number(&program.sig, fact.sort) {
        return Ok(None);
    }
    let sort = fact.sort - 1;
    let uses = match said_all(store.allocator(), said, fact.uses.items()) {
        Ok(Some(uses)) => uses,
        Ok(None) => return Ok(None),
        Err(fault) => return Err(fault),
    };
    let has = term_has_sort(&program.sig, store, plain, &uses, term, sort)?;
    if !has {
        return Ok(None);
    }
    Ok(Some(Said::Sorted(term, sort)))
}

/// Whether the membership with a number gives a term a sort.
fn gives_sort(
    store: &mut Store,
    program: &Program,
    plain: &mut SortTable,
    number: u32,
    sort: u32,
    bound: &Bound,
) -> Result<bool, NoMemory>
    requires lawful { IsLawfulProgram program.now }
    requires sort { sort < program.now.sig.hierarchy.sorts }
    requires plain { IsPlainTable program.now.sig store.old plain.old }
    requires values { (vs : List Tree) × AreKeptFor program.now.sig store.old bound.now.values.items vs }
    requires uses { (us : List Says) × AreSaid program.now.sig store.old bound.now.uses.items us }
    ensures plain { IsPlainTable program.now.sig store.new plain.new }
    ensures gives { (t : Tree) (vs : List Tree) (us : List Says) → IsKeptFor program.now.sig store.old bound.now.term t → AreKeptFor program.now.sig store.old bound.now.values.items vs →
        AreSaid program.now.sig store.old bound.now.uses.items us → IfOk result (λ yes. IsTrue yes ↔ With (numbered program.now.memberships number) (λ m. IsMember program.now.sig m sort t vs us)) }
    ensures extends { Extends store.old store.new }
{
    let _ = store.len();
    match membership_at(program, number) {
        Some(membership) => is_member(
            store,
            &program.sig,
            plain,
            membership,
            sort,
            bound.term,
            &bound.values,
            &bound.uses,
        ),
        None => Ok(false),
    }
}

/// What a fact about a sort by a membership names, if it is all there.
fn bound_fact(
    alloc: Global,
    kept: &[Option<Kept>],
    said: &[Said],
    fact: &MbFact,
) -> Result<Option<Bound>, NoMemory>
    ensures some { (s : SignatureOf) (nodes : List Node) (terms : List (Option Tree)) (before : List Says) → AreKept s nodes kept.now terms → AreSaid s nodes said.now before →
        IfOk result (λ o. IfSome o (IsBoundBy s nodes terms before fact.now.term fact.now.bind fact.now.uses)) }
    ensures none { (s : SignatureOf) (nodes : List Node) (terms : List (Option Tree)) (before : List Says) → AreKept s nodes kept.now terms → AreSaid s nodes said.now before →
        IfOk result (λ o. IfNone o (BindsAll s terms before fact.now.term fact.now.bind fact.now.uses → ⊥)) }
{
    bound_by(
        alloc,
        kept,
        said,
        fact.term,
        fact.bind.items(),
        fact.uses.items(),
    )
}

/// What a fact about a sort by a membership says, if it is justified.
pub fn member(
    store: &mut Store,
    program: &Program,
    plain: &mut SortTable,
    kept: &[Option<Kept>],
    said: &[Said],
    fact: &MbFact,
) -> Result<Option<Said>, NoMemory>
    requires lawful { IsLawfulProgram program.now }
    requires kept { (terms : List (Option Tree)) × AreKept program.now.sig store.old kept.now terms }
    requires said { (before : List Says) × AreSaid program.now.sig store.old said.now before }
    requires plain { IsPlainTable program.now.sig store.old plain.old }
    ensures plain { IsPlainTable program.now.sig store.new plain.new }
    ensures decided { (hooks : List Operator) (terms : List (Option Tree)) (before : List Says) → AreKept program.now.sig store.old kept.now terms →
        AreSaid program.now.sig store.old said.now before → IfOk result (λ o. Decides program.now.sig store.new o
        (IsJustified program.now hooks terms before (SortMb fact.now)) (said_by terms before (SortMb fact.now))) }
    ensures extends { Extends store.old store.new }
{
    let _ = store.len();
    let _ = program.sig.operators();
    if !is_sort_number(&program.sig, fact.sort) {
        return Ok(None);
    }
    let sort = fact.sort - 1;
    let bound = match bound_fact(store.allocator(), kept, said, fact) {
        Ok(Some(bound)) => bound,
        Ok(None) => return Ok(None),
        Err(fault) => return Err(fault),
    };
    let gives = gives_sort(store, program, plain, fact.membership, sort, &bound)?;
    if !gives {
        return Ok(None);
    }
    Ok(Some(Said::Sorted(bound.term, sort)))
}
