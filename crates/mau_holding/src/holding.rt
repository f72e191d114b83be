//! A condition that is asked under a solution.
ghost use Rattle.std.specs.Prelude.{◌≡◌, List, [], map, false, All, IfOk, OnOk, IfErr};
ghost use Rattle.std.specs.List.{zip};
ghost use Rattle.mau_terms.specs.Bare.{IsBare};
ghost use Rattle.mau_terms.specs.Subst.{variables};
ghost use Rattle.mau_terms.specs.View.{tree_of, variable_of};
ghost use Rattle.mau_terms.specs.declared.ids.VarId.{VarId};
ghost use Rattle.mau_signature.specs.Signature.{terms_over};
ghost use Rattle.mau_store.specs.Node.{Extends};
ghost use Rattle.mau_store.specs.Trees.{trees_at};
ghost use Rattle.mau_store.specs.View.{numbers};
ghost use Rattle.mau_api.specs.Programs.{fragment_of};
ghost use Rattle.mau_api.specs.Answers.{IsValueOf, IsAskable, binding_in, uses_results, levels_of_condition};
ghost use Rattle.mau_api.specs.declared.results.EvalEnd.TheVariants as End;
ghost use Rattle.mau_holding.specs.Holding.{AreValuesFor, IsSortedValue, IsPlain, IsAsked};

use mau_api::{EvalEnd, Evaluator, StepWatcher, places_of};
use mau_listing::Solution;
use mau_program::Fragment;
use mau_signature::Signature;
use mau_store::Store;
use mau_terms::{Bare, NoMemory, Seq, TermId, VarId};
use mau_trial::variables_of;
use std::alloc::Global;

/// Variables with the values in their places.
fn pairs(
    alloc: Global,
    variables: &[VarId],
    values: &[TermId],
) -> Result<Vec<(VarId, TermId)>, NoMemory>
    ensures { IfOk result (λ found. found.items ≡ zip variables.now values.now) }
{
    let mut found = Vec::new(alloc);
    let count = variables.len().min(values.len());
    for index in 0..count {
        found.push((variables[index], values[index]))?;
    }
    Ok(found)
}

/// The variables of a pattern, by first occurrence, with these values.
pub fn bound_by(
    alloc: Global,
    sig: &Signature,
    pattern: &Bare,
    values: &Seq<TermId>,
) -> Result<Vec<(VarId, TermId)>, NoMemory>
    requires { IsBare (terms_over sig.now) (tree_of pattern.now) }
    ensures { IfOk result (λ found. (xs : List VarId) × (map variable_of xs ≡ variables (tree_of pattern.now)) × (found.items ≡ zip xs values.now)) }
{
    let places = places_of(alloc, sig, pattern)?;
    let variables = variables_of(alloc, &places)?;
    pairs(alloc, &variables, values.items())
}

/// Settles the values of variables, one after another.
fn settle_values<E: Evaluator>(
    store: &mut Store,
    evaluator: &mut E,
    bound: &[(VarId, TermId)],
) -> Result<(), EvalEnd>
    requires fits { E.fits evaluator.old store.old }
    requires plain { IsPlain (E.meanings evaluator.old) }
    requires values { All (IsSortedValue (E.meanings evaluator.old).program.sig store.old) bound.now }
    ensures settled { OnOk result (All (IsValueOf (E.meanings evaluator.old).program.sig store.new (E.table evaluator.new)) bound.now) }
    ensures ends { IfErr result (λ e. e ≡ End.NoMemory) }
    ensures extends { Extends store.old store.new }
    ensures fits { E.fits evaluator.new store.new }
    ensures meanings { E.meanings evaluator.new ≡ E.meanings evaluator.old }
{
    for index in 0..bound.len() {
        match evaluator.settle(store, bound[index].1) {
            Ok(()) => (),
            Err(end) => return Err(end),
        }
    }
    Ok(())
}

/// Whether a condition has a solution under values of variables, with what is left of the budget of an item.
fn holds<E: Evaluator, W: StepWatcher>(
    store: &mut Store,
    evaluator: &mut E,
    cond: &[Fragment],
    bound: &[(VarId, TermId)],
    budget: &mut u64,
    watcher: &mut W,
) -> Result<bool, EvalEnd>
    requires fits { E.fits evaluator.old store.old }
    requires plain { IsPlain (E.meanings evaluator.old) }
    requires exactly { uses_results (E.meanings evaluator.old) (W.wanted watcher.old) ≡ false }
    requires condition { IsAskable (E.meanings evaluator.old).program.sig (map (λ b. variable_of b.0) bound.now) cond.now }
    requires values { All (IsSortedValue (E.meanings evaluator.old).program.sig store.old) bound.now }
    ensures asked { IsAsked ((E.meanings evaluator.old).solving levels_of_condition (E.meanings evaluator.old).limit (map fragment_of cond.now)
        (binding_in store.old bound.now) budget.old) result budget.new }
    ensures extends { Extends store.old store.new }
    ensures fits { E.fits evaluator.new store.new }
    ensures meanings { E.meanings evaluator.new ≡ E.meanings evaluator.old }
    ensures wanted { W.wanted watcher.new ≡ W.wanted watcher.old }
{
    match settle_values(store, evaluator, bound) {
        Ok(()) => (),
        Err(end) => return Err(end),
    }
    match evaluator.solve(store, cond, bound, None, budget, watcher) {
        Ok(Some(_)) => Ok(true),
        Ok(None) => Ok(false),
        Err(end) => Err(end),
    }
}

/// Whether a condition has a solution where the variables of a pattern have the values of a solution, with what is left of the budget
/// of an item.
pub fn holds_for<E: Evaluator, W: StepWatcher>(
    store: &mut Store,
    evaluator: &mut E,
    sig: &Signature,
    pattern: &Bare,
    cond: &[Fragment],
    solution: &Solution,
    budget: &mut u64,
    watcher: &mut W,
) -> Result<bool, EvalEnd>
    requires fits { E.fits evaluator.old store.old }
    requires plain { IsPlain (E.meanings evaluator.old) }
    requires exactly { uses_results (E.meanings evaluator.old) (W.wanted watcher.old) ≡ false }
    requires signature { sig.now ≡ (E.meanings evaluator.old).program.sig }
    requires pattern { IsBare (terms_over sig.now) (tree_of pattern.now) }
    requires condition { IsAskable sig.now (variables (tree_of pattern.now)) cond.now }
    requires values { AreValuesFor sig.now store.old (tree_of pattern.now) (numbers solution.now.values) }
    ensures asked { IsAsked ((E.meanings evaluator.old).solving levels_of_condition (E.meanings evaluator.old).limit (map fragment_of cond.now)
        (zip (variables (tree_of pattern.now)) (trees_at store.old (numbers solution.now.values))) budget.old) result budget.new }
    ensures extends { Extends store.old store.new }
    ensures fits { E.fits evaluator.new store.new }
    ensures meanings { E.meanings evaluator.new ≡ E.meanings evaluator.old }
    ensures wanted { W.wanted watcher.new ≡ W.wanted watcher.old }
{
    let bound = match bound_by(store.allocator(), sig, pattern, &solution.values) {
        Ok(bound) => bound,
        Err(_) => return Err(EvalEnd::NoMemory),
    };
    holds(store, evaluator, cond, &bound, budget, watcher)
}
