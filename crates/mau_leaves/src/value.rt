//! The value of the whole term that a use of a rule leads to, where the rule is used at a place of a term.
ghost use Rattle.std.specs.Prelude.{ℕ, ◌≡◌, List, map, All, IfOk, IfErr};
ghost use Rattle.mau_terms.specs.Bare.{IsBareIn, IsLawful};
ghost use Rattle.mau_terms.specs.Reading.{reading};
ghost use Rattle.mau_terms.specs.View.{tree_of};
ghost use Rattle.mau_signature.specs.Signature.{SignatureOf, theory_at, terms_over};
ghost use Rattle.mau_store.specs.Node.{Node, Extends};
ghost use Rattle.mau_store.specs.Trees.{tree_at, StandsFor};
ghost use Rattle.mau_store.specs.View.{numbers};
ghost use Rattle.mau_sorts.specs.Table.{Table, KeepsEntries};
ghost use Rattle.mau_evaluation.specs.Evaluation.{admit};
ghost use Rattle.mau_api.specs.Terms.{IsTerm};
ghost use Rattle.mau_api.specs.Programs.{program_over};
ghost use Rattle.mau_api.specs.Answers.{binding_in, IsValueOf, AreSettled};
ghost use Rattle.mau_reduce.specs.Bindings.{bound_in, AreValues};
ghost use Rattle.mau_reduce.specs.Contexts.{AreContexts};
ghost use Rattle.mau_reduce.specs.Ends.{IsEnd};
ghost use Rattle.mau_rules.specs.Runnable.{IsRunnable, GoesBy};
ghost use Rattle.mau_rules.specs.Walk.{opened, around_all, IsWalk, MayReplace};
ghost use Rattle.mau_leaves.specs.Answers.{GivesValue};
ghost use Rattle.mau_program.specs.LawfulStatements.{AreOfOneKind};
ghost use Rattle.mau_leaves.specs.Values.{made_by};

use mau_api::{EvalEnd, Evaluator, Program, Solution, Unwatched};
use mau_program::Rule;
use mau_reduce::{Binding, replace};
use mau_rules::{Open, end_around, put_back};
use mau_signature::Signature;
use mau_store::Store;
use mau_terms::{NoMemory, TermId, VarId};
use std::alloc::Global;

/// Variables with their values, in two lists.
pub(crate) fn parted(alloc: Global, bound: &[(VarId, TermId)]) -> Result<Binding, NoMemory>
    ensures bound { (nodes : List Node) → IfOk result (λ kept. bound_in nodes kept ≡ binding_in nodes bound.now) }
    ensures values { (s : SignatureOf) (nodes : List Node) (table : Table) → All (IsValueOf s nodes table) bound.now →
        IfOk result (AreValues s nodes) }
{
    let mut variables = Vec::new(alloc);
    let mut values = Vec::new(alloc);
    for (variable, value) in bound {
        variables.push(*variable)?;
        values.push(*value)?;
    }
    Ok(Binding { variables, values })
}

/// The term that a use of a rule leads to.
fn made(
    sig: &Signature,
    rule: &Rule,
    store: &mut Store,
    term: TermId,
    solution: &Solution,
    bound: &[(VarId, TermId)],
) -> Result<TermId, EvalEnd>
    requires lawful { IsLawful (terms_over sig.now) }
    requires sides { AreOfOneKind (terms_over sig.now) rule.now.left rule.now.right }
    requires term { IsTerm sig.now store.old term.0 }
    requires contexts { AreContexts sig.now store.old (tree_at store.old term.0) (numbers solution.now.left) (numbers solution.now.right) }
    requires kind { (k : ℕ) → IsBareIn (terms_over sig.now) (tree_of rule.now.left) k →
        IsBareIn (terms_over sig.now) (reading (theory_at sig.now) (tree_at store.old term.0)) k }
    requires values { (table : Table) × All (IsValueOf sig.now store.old table) bound.now }
    ensures value { IfOk result (λ id. StandsFor (theory_at sig.now) store.new id.0
        (made_by sig.now store.old rule.now term.0 solution.now bound.now)) }
    ensures kind { IfOk result (λ id. MayReplace sig.now store.new term.0 id.0) }
    ensures ends { (b : ℕ) → IfErr result (IsEnd (admit (theory_at sig.now)
        (made_by sig.now store.old rule.now term.0 solution.now bound.now) b)) }
    ensures extends { Extends store.old store.new }
{
    let binding = match parted(store.allocator(), bound) {
        Ok(binding) => binding,
        Err(_) => return Err(EvalEnd::NoMemory),
    };
    replace(store, sig, term, solution, &rule.right, &binding)
}

/// The whole term that a use of a rule leads to at a place that was reached through some open terms.
fn placed(
    sig: &Signature,
    rule: &Rule,
    store: &mut Store,
    way: &[Open],
    term: TermId,
    solution: &Solution,
    bound: &[(VarId, TermId)],
) -> Result<TermId, EvalEnd>
    requires lawful { IsLawful (terms_over sig.now) }
    requires sides { AreOfOneKind (terms_over sig.now) rule.now.left rule.now.right }
    requires term { IsTerm sig.now store.old term.0 }
    requires walk { (root : ℕ) × IsWalk sig.now store.old root way.now term.0 }
    requires contexts { AreContexts sig.now store.old (tree_at store.old term.0) (numbers solution.now.left) (numbers solution.now.right) }
    requires kind { (k : ℕ) → IsBareIn (terms_over sig.now) (tree_of rule.now.left) k →
        IsBareIn (terms_over sig.now) (reading (theory_at sig.now) (tree_at store.old term.0)) k }
    requires values { (table : Table) × All (IsValueOf sig.now store.old table) bound.now }
    ensures value { IfOk result (λ id. StandsFor (theory_at sig.now) store.new id.0
        (around_all (λ v. v) (map (opened store.old) way.now) (made_by sig.now store.old rule.now term.0 solution.now bound.now))) }
    ensures term { IfOk result (λ id. IsTerm sig.now store.new id.0) }
    ensures ends { (b : ℕ) → IfErr result (IsEnd (admit (theory_at sig.now)
        (around_all (λ v. v) (map (opened store.old) way.now) (made_by sig.now store.old rule.now term.0 solution.now bound.now)) b)) }
    ensures extends { Extends store.old store.new }
{
    match made(sig, rule, store, term, solution, bound) {
        Ok(part) => put_back(store, sig, way, part),
        Err(end) => Err(end_around(way.is_empty(), end)),
    }
}

/// The value of the whole term that a use of a rule leads to, evaluated with the whole budget of an item.
pub(crate) fn value_of<E: Evaluator>(
    program: &Program,
    rule: &Rule,
    store: &mut Store,
    evaluator: &mut E,
    way: &[Open],
    term: TermId,
    solution: &Solution,
    bound: &[(VarId, TermId)],
    limit: u64,
) -> Result<TermId, EvalEnd>
    requires runnable { IsRunnable program.now }
    requires goes_by { GoesBy program.now (E.meanings evaluator.old) }
    requires fits { E.fits evaluator.old store.old }
    requires limit { limit ≡ (E.meanings evaluator.old).limit }
    requires sides { AreOfOneKind (terms_over program.now.sig) rule.now.left rule.now.right }
    requires term { IsTerm program.now.sig store.old term.0 }
    requires walk { (root : ℕ) × IsWalk program.now.sig store.old root way.now term.0 }
    requires contexts { AreContexts program.now.sig store.old (tree_at store.old term.0)
        (numbers solution.now.left) (numbers solution.now.right) }
    requires kind { (k : ℕ) → IsBareIn (terms_over program.now.sig) (tree_of rule.now.left) k →
        IsBareIn (terms_over program.now.sig) (reading (theory_at program.now.sig) (tree_at store.old term.0)) k }
    requires values { (table : Table) × All (IsValueOf program.now.sig store.old table) bound.now }
    ensures valued { GivesValue (program_over program.now (E.meanings evaluator.old).hooks) limit
        (around_all (λ v. v) (map (opened store.old) way.now)
        (made_by program.now.sig store.old rule.now term.0 solution.now bound.now)) store.new result }
    ensures term { IfOk result (λ id. IsTerm program.now.sig store.new id.0) }
    ensures settled { IfOk result (λ id. AreSettled program.now.sig store.new (E.table evaluator.new) (tree_at store.new id.0)) }
    ensures extends { Extends store.old store.new }
    ensures fits { E.fits evaluator.new store.new }
    ensures kept { KeepsEntries (E.table evaluator.old) (E.table evaluator.new) }
    ensures meanings { E.meanings evaluator.new ≡ E.meanings evaluator.old }
{
    let whole = match placed(&program.sig, rule, store, way, term, solution, bound) {
        Ok(whole) => whole,
        Err(end) => return Err(end),
    };
    let mut budget = limit;
    match evaluator.evaluate(store, whole, &mut budget, &mut Unwatched) {
        Ok(value) => Ok(value.term),
        Err(end) => Err(end),
    }
}
