//! The uses of one rule at a term, one after another: the solutions of its left side in order, and for each those of its condition.
ghost use Rattle.std.specs.Prelude.{◌≡◌, ℕ, List, [], map, All, true, Ok, None, IfOk, IfSome};
ghost use Rattle.std.specs.Option.{option_map};
ghost use Rattle.mau_terms.specs.View.{tree_of, variable_of};
ghost use Rattle.mau_store.specs.Node.{Node, Extends};
ghost use Rattle.mau_store.specs.Trees.{tree_at};
ghost use Rattle.mau_sorts.specs.Table.{KeepsEntries};
ghost use Rattle.mau_api.specs.Terms.{IsTerm};
ghost use Rattle.mau_api.specs.Programs.{fragment_of, rule_of, program_over};
ghost use Rattle.mau_api.specs.Answers.{binding_in, IsAskable, IsValueOf, IsSolutionOf, AreSettled, mapped};
ghost use Rattle.mau_cond.specs.Bound.{extended};
ghost use Rattle.mau_listing.specs.Asked.{asks};
ghost use Rattle.mau_reduce.specs.Trying.{solution_in};
ghost use Rattle.mau_rules.specs.Runnable.{IsRunnable, GoesBy};
ghost use Rattle.mau_rules.specs.Found.{IsValued};
ghost use Rattle.mau_leaves.specs.Answers.{IsNextShown};
ghost use Rattle.mau_leaves.specs.Searches.{variables_in, IsUsable, bound_at, IsShownBehind, IsSearch, left_in, use_in, found_in, last_in, takes};
ghost use Rattle.mau_leaves.specs.Searches.{IsTurn, IsNextOne};
ghost use Rattle.mau_leaves.specs.declared.uses.Standing.TheVariants as At;

use crate::turn::Turn;
use mau_api::{EvalEnd, Evaluator, Lister, Program, Solution, Unwatched};
use mau_cond::Bound;
use mau_holding::bound_by;
use mau_program::{Fragment, Rule};
use mau_store::Store;
use mau_terms::{NoMemory, TermId, VarId};
use std::alloc::Global;

/// Where a search stands.
#[derive(Drop)]
pub enum Standing {
    /// Behind the last solution of the left side that its listing gave, or before all.
    Behind,
    /// At that solution, before its condition is asked.
    Before,
    /// At that solution, behind a solution of its condition.
    Within(Vec<(VarId, TermId)>),
}

/// A search for the uses of a rule at a term, under the values that some variables have before. Where it is `whole`, those solutions of the left
/// side alone are gone through whose contexts are empty.
#[derive(Drop)]
pub struct RuleUses<L> {
    pub listing: L,
    pub standing: Standing,
    pub bound: Vec<(VarId, TermId)>,
    pub whole: bool,
}

/// The next solution of a condition behind one, or the first, asked with the whole budget of an item.
pub(crate) fn ask<E: Evaluator>(
    program: &Program,
    store: &mut Store,
    evaluator: &mut E,
    cond: &[Fragment],
    bound: &[(VarId, TermId)],
    last: Option<&[(VarId, TermId)]>,
    limit: u64,
) -> Result<Option<Vec<(VarId, TermId)>>, EvalEnd>
    requires goes_by { GoesBy program.now (E.meanings evaluator.old) }
    requires fits { E.fits evaluator.old store.old }
    requires limit { limit ≡ (E.meanings evaluator.old).limit }
    requires condition { IsAskable program.now.sig (map (λ b. variable_of b.0) bound.now) cond.now }
    requires bound { All (IsValueOf program.now.sig store.old (E.table evaluator.old)) bound.now }
    requires last { IfSome last (λ x. All (IsValueOf program.now.sig store.old (E.table evaluator.old)) x.now) }
    requires solution { IfSome last (λ x.
        IsSolutionOf (E.meanings evaluator.old) (map fragment_of cond.now) (binding_in store.old bound.now) (binding_in store.old x.now)) }
    ensures shown { IsNextShown (program_over program.now (E.meanings evaluator.old).hooks) limit
        (option_map (λ x. binding_in store.old x.now) last.entry) (map fragment_of cond.now) (binding_in store.old bound.now)
        store.new (mapped (option_map (λ x. x.items)) result) }
    ensures values { IfOk result (λ o. IfSome o (λ x. All (IsValueOf program.now.sig store.new (E.table evaluator.new)) x.items)) }
    ensures solution { IfOk result (λ o. IfSome o (λ x. IsSolutionOf (E.meanings evaluator.old)
        (map fragment_of cond.now) (binding_in store.old bound.now) (binding_in store.new x.items))) }
    ensures extends { Extends store.old store.new }
    ensures fits { E.fits evaluator.new store.new }
    ensures kept { KeepsEntries (E.table evaluator.old) (E.table evaluator.new) }
    ensures meanings { E.meanings evaluator.new ≡ E.meanings evaluator.old }
{
    let mut budget = limit;
    match evaluator.solve(store, cond, bound, last, &mut budget, &mut Unwatched) {
        Ok(Some((found, _))) => Ok(Some(found)),
        Ok(None) => Ok(None),
        Err(end) => Err(end),
    }
}

/// The solution of the condition behind which a search stands.
pub(crate) fn last_of(standing: &Standing) -> Option<&[(VarId, TermId)]>
    ensures { option_map (λ x. x.now) result ≡ found_in standing.now }
{
    match standing {
        Standing::Within(found) => Some(found.as_slice()),
        Standing::Before => None,
        Standing::Behind => None,
    }
}

/// What is bound, and then those of other variables with their values that have none yet.
fn bound_with(
    alloc: Global,
    bound: &[(VarId, TermId)],
    own: &[(VarId, TermId)],
) -> Result<Vec<(VarId, TermId)>, NoMemory>
    ensures { IfOk result (λ all. all.items ≡ extended bound.now own.now) }
{
    let mut all = Bound::new(alloc);
    for pair in bound {
        all.push(pair.0, pair.1)?;
    }
    all.extend(own)?;
    all.pairs(alloc)
}

/// The next solution of a rule's condition for a solution of its left side.
fn next_shown<E: Evaluator>(
    program: &Program,
    rule: &Rule,
    store: &mut Store,
    evaluator: &mut E,
    bound: &[(VarId, TermId)],
    solution: &Solution,
    standing: &Standing,
    limit: u64,
) -> Result<Option<Vec<(VarId, TermId)>>, EvalEnd>
    requires goes_by { GoesBy program.now (E.meanings evaluator.old) }
    requires fits { E.fits evaluator.old store.old }
    requires limit { limit ≡ (E.meanings evaluator.old).limit }
    requires usable { IsUsable program.now.sig (variables_in bound.now) rule.now }
    requires bound { All (IsValueOf program.now.sig store.old (E.table evaluator.old)) bound.now }
    requires valued { IsValued program.now.sig store.old (E.table evaluator.old) (tree_of rule.now.left) solution.now }
    requires stands { IsShownBehind (E.meanings evaluator.old) program.now.sig rule.now bound.now store.old (E.table evaluator.old)
        solution.now standing.now }
    ensures shown { IsNextShown (program_over program.now (E.meanings evaluator.old).hooks) limit (last_in store.old standing.now)
        (rule_of rule.now).cond (bound_at store.old rule.now bound.now solution.now) store.new (mapped (option_map (λ x. x.items)) result) }
    ensures values { IfOk result (λ o. IfSome o (λ x. All (IsValueOf program.now.sig store.new (E.table evaluator.new)) x.items)) }
    ensures solution { IfOk result (λ o. IfSome o (λ x. IsSolutionOf (E.meanings evaluator.old) (rule_of rule.now).cond
        (bound_at store.old rule.now bound.now solution.now) (binding_in store.new x.items))) }
    ensures extends { Extends store.old store.new }
    ensures fits { E.fits evaluator.new store.new }
    ensures kept { KeepsEntries (E.table evaluator.old) (E.table evaluator.new) }
    ensures meanings { E.meanings evaluator.new ≡ E.meanings evaluator.old }
{
    let own = match bound_by(
        store.allocator(),
        &program.sig,
        &rule.left,
        &solution.values,
    ) {
        Ok(own) => own,
        Err(_) => return Err(EvalEnd::NoMemory),
    };
    let all = match bound_with(store.allocator(), bound, &own) {
        Ok(all) => all,
        Err(_) => return Err(EvalEnd::NoMemory),
    };
    let last = last_of(standing);
    ask(
        program,
        store,
        evaluator,
        rule.cond.items(),
        &all,
        last,
        limit,
    )
}

/// The next solution of a rule's condition, at the solution of its left side at which a search stands.
fn asked_on<E: Evaluator, L: Lister + Drop>(
    program: &Program,
    rule: &Rule,
    store: &mut Store,
    evaluator: &mut E,
    uses: &mut RuleUses<L>,
    limit: u64,
) -> Result<Turn, EvalEnd>
    requires runnable { IsRunnable program.now }
    requires goes_by { GoesBy program.now (E.meanings evaluator.old) }
    requires fits { E.fits evaluator.old store.old }
    requires limit { limit ≡ (E.meanings evaluator.old).limit }
    requires usable { IsUsable program.now.sig (variables_in uses.old.bound.items) rule.now }
    requires search { IsSearch L.with_context program.now (E.meanings evaluator.old) rule.now uses.old.bound.items store.old
        (E.table evaluator.old) (L.asked uses.old.listing) (L.given uses.old.listing) uses.old.standing }
    requires within { uses.old.standing ≡ At.Behind → ⊥ }
    ensures turn { IsTurn (program_over program.now (E.meanings evaluator.old).hooks) limit
        (left_in program.now (E.meanings evaluator.old).hooks rule.now uses.old.whole uses.old.bound.items store.old
        (L.asked uses.old.listing) (L.given uses.old.listing) uses.old.standing)
        (left_in program.now (E.meanings evaluator.old).hooks rule.now uses.new.whole uses.new.bound.items store.new
        (L.asked uses.new.listing) (L.given uses.new.listing) uses.new.standing)
        (use_in rule.now store.new (L.given uses.new.listing) uses.new.standing) result }
    ensures search { IsSearch L.with_context program.now (E.meanings evaluator.old) rule.now uses.new.bound.items store.new
        (E.table evaluator.new) (L.asked uses.new.listing) (L.given uses.new.listing) uses.new.standing }
    ensures listing { uses.new.listing ≡ uses.old.listing }
    ensures bound { uses.new.bound ≡ uses.old.bound }
    ensures whole { uses.new.whole ≡ uses.old.whole }
    ensures extends { Extends store.old store.new }
    ensures fits { E.fits evaluator.new store.new }
    ensures kept { KeepsEntries (E.table evaluator.old) (E.table evaluator.new) }
    ensures meanings { E.meanings evaluator.new ≡ E.meanings evaluator.old }
{
    let solution = match uses.listing.last() {
        Some(solution) => solution,
        None => unreachable!(),
    };
    match next_shown(
        program,
        rule,
        store,
        evaluator,
        &uses.bound,
        solution,
        &uses.standing,
        limit,
    ) {
        Ok(Some(found)) => {
            uses.standing = Standing::Within(found);
            Ok(Turn::Found)
        }
        Ok(None) => {
            uses.standing = Standing::Behind;
            Ok(Turn::Passed)
        }
        Err(end) => Err(end),
    }
}

/// Whether a solution is gone through: all are, or those whose contexts are empty.
fn is_taken(whole: bool, solution: &Solution) -> bool
    ensures { (nodes : List Node) → result ≡ takes whole (solution_in nodes solution.now) }
{
    !whole || (solution.left.items().is_empty() && solution.right.items().is_empty())
}

/// The next solution of a rule's left side, behind the one at which a search stands.
fn listed_on<E: Evaluator, L: Lister + Drop>(
    program: &Program,
    rule: &Rule,
    store: &mut Store,
    evaluator: &mut E,
    uses: &mut RuleUses<L>,
) -> Result<Turn, EvalEnd>
    requires contexts { L.with_context ≡ true }
    requires runnable { IsRunnable program.now }
    requires goes_by { GoesBy program.now (E.meanings evaluator.old) }
    requires fits { E.fits evaluator.old store.old }
    requires usable { IsUsable program.now.sig (variables_in uses.old.bound.items) rule.now }
    requires signature { L.is_for uses.old.listing program.now.sig }
    requires search { IsSearch L.with_context program.now (E.meanings evaluator.old) rule.now uses.old.bound.items store.old
        (E.table evaluator.old) (L.asked uses.old.listing) (L.given uses.old.listing) uses.old.standing }
    requires behind { uses.old.standing ≡ At.Behind }
    ensures turn { (b : ℕ) → IsTurn (program_over program.now (E.meanings evaluator.old).hooks) b
        (left_in program.now (E.meanings evaluator.old).hooks rule.now uses.old.whole uses.old.bound.items store.old
        (L.asked uses.old.listing) (L.given uses.old.listing) uses.old.standing)
        (left_in program.now (E.meanings evaluator.old).hooks rule.now uses.new.whole uses.new.bound.items store.new
        (L.asked uses.new.listing) (L.given uses.new.listing) uses.new.standing)
        (use_in rule.now store.new (L.given uses.new.listing) uses.new.standing) result }
    ensures search { IsSearch L.with_context program.now (E.meanings evaluator.old) rule.now uses.new.bound.items store.new
        (E.table evaluator.new) (L.asked uses.new.listing) (L.given uses.new.listing) uses.new.standing }
    ensures asked { L.asked uses.new.listing ≡ L.asked uses.old.listing }
    ensures bound { uses.new.bound ≡ uses.old.bound }
    ensures whole { uses.new.whole ≡ uses.old.whole }
    ensures signature { L.is_for uses.new.listing program.now.sig }
    ensures extends { Extends store.old store.new }
    ensures fits { E.fits evaluator.new store.new }
    ensures kept { KeepsEntries (E.table evaluator.old) (E.table evaluator.new) }
    ensures meanings { E.meanings evaluator.new ≡ E.meanings evaluator.old }
{
    match evaluator.list(store, &mut uses.listing) {
        Ok(Some(solution)) => {
            if !is_taken(uses.whole, &solution) {
                return Ok(Turn::Passed);
            }
            uses.standing = Standing::Before;
            Ok(Turn::Passed)
        }
        Ok(None) => Ok(Turn::Over),
        Err(_) => Err(EvalEnd::NoMemory),
    }
}

/// One turn of a search.
fn turn<E: Evaluator, L: Lister + Drop>(
    program: &Program,
    rule: &Rule,
    store: &mut Store,
    evaluator: &mut E,
    uses: &mut RuleUses<L>,
    limit: u64,
) -> Result<Turn, EvalEnd>
    requires contexts { L.with_context ≡ true }
    requires runnable { IsRunnable program.now }
    requires goes_by { GoesBy program.now (E.meanings evaluator.old) }
    requires fits { E.fits evaluator.old store.old }
    requires limit { limit ≡ (E.meanings evaluator.old).limit }
    requires usable { IsUsable program.now.sig (variables_in uses.old.bound.items) rule.now }
    requires signature { L.is_for uses.old.listing program.now.sig }
    requires search { IsSearch L.with_context program.now (E.meanings evaluator.old) rule.now uses.old.bound.items store.old
        (E.table evaluator.old) (L.asked uses.old.listing) (L.given uses.old.listing) uses.old.standing }
    ensures turn { IsTurn (program_over program.now (E.meanings evaluator.old).hooks) limit
        (left_in program.now (E.meanings evaluator.old).hooks rule.now uses.old.whole uses.old.bound.items store.old
        (L.asked uses.old.listing) (L.given uses.old.listing) uses.old.standing)
        (left_in program.now (E.meanings evaluator.old).hooks rule.now uses.new.whole uses.new.bound.items store.new
        (L.asked uses.new.listing) (L.given uses.new.listing) uses.new.standing)
        (use_in rule.now store.new (L.given uses.new.listing) uses.new.standing) result }
    ensures search { IsSearch L.with_context program.now (E.meanings evaluator.old) rule.now uses.new.bound.items store.new
        (E.table evaluator.new) (L.asked uses.new.listing) (L.given uses.new.listing) uses.new.standing }
    ensures asked { L.asked uses.new.listing ≡ L.asked uses.old.listing }
    ensures bound { uses.new.bound ≡ uses.old.bound }
    ensures whole { uses.new.whole ≡ uses.old.whole }
    ensures signature { L.is_for uses.new.listing program.now.sig }
    ensures extends { Extends store.old store.new }
    ensures fits { E.fits evaluator.new store.new }
    ensures kept { KeepsEntries (E.table evaluator.old) (E.table evaluator.new) }
    ensures meanings { E.meanings evaluator.new ≡ E.meanings evaluator.old }
{
    match &uses.standing {
        Standing::Behind => listed_on(program, rule, store, evaluator, uses),
        Standing::Before | Standing::Within(_) => asked_on(
            program, rule, store, evaluator, uses, limit,
        ),
    }
}

/// The search for the uses of a rule at a term, which stands before all, under the values that some variables have before: by the solutions without
/// contexts, or by all.
pub fn start_uses<E: Evaluator, L: Lister + Drop>(
    program: &Program,
    rule: &Rule,
    store: &Store,
    evaluator: &E,
    bound: Vec<(VarId, TermId)>,
    whole: bool,
    term: TermId,
) -> Result<RuleUses<L>, NoMemory>
    requires goes_by { GoesBy program.now (E.meanings evaluator.now) }
    requires fits { E.fits evaluator.now store.now }
    requires usable { IsUsable program.now.sig (variables_in bound.items) rule.now }
    requires values { All (IsValueOf program.now.sig store.now (E.table evaluator.now)) bound.items }
    requires term { IsTerm program.now.sig store.now term.0 }
    requires settled { AreSettled program.now.sig store.now (E.table evaluator.now) (tree_at store.now term.0) }
    ensures search { IfOk result (λ uses. IsSearch L.with_context program.now (E.meanings evaluator.now) rule.now uses.bound.items
        store.now (E.table evaluator.now) (L.asked uses.listing) (L.given uses.listing) uses.standing) }
    ensures stands { IfOk result (λ uses. (L.given uses.listing ≡ None) × (uses.standing ≡ At.Behind)) }
    ensures asked { IfOk result (λ uses. L.asked uses.listing ≡ asks (tree_of rule.now.left) bound.items term) }
    ensures bound { IfOk result (λ uses. (uses.bound ≡ bound) × (uses.whole ≡ whole)) }
    ensures signature { IfOk result (λ uses. L.is_for uses.listing program.now.sig) }
{
    let _ = evaluator.sorts();
    match L::start(store.allocator(), &program.sig, &rule.left, &bound, term) {
        Ok(listing) => Ok(RuleUses {
            listing,
            standing: Standing::Behind,
            bound,
            whole,
        }),
        Err(NoMemory) => Err(NoMemory),
    }
}

/// The next use of a rule: where there is one, the search stands at it.
pub fn next_use<E: Evaluator, L: Lister + Drop>(
    program: &Program,
    rule: &Rule,
    store: &mut Store,
    evaluator: &mut E,
    uses: &mut RuleUses<L>,
    limit: u64,
) -> Result<bool, EvalEnd>
    requires contexts { L.with_context ≡ true }
    requires runnable { IsRunnable program.now }
    requires goes_by { GoesBy program.now (E.meanings evaluator.old) }
    requires fits { E.fits evaluator.old store.old }
    requires limit { limit ≡ (E.meanings evaluator.old).limit }
    requires usable { IsUsable program.now.sig (variables_in uses.old.bound.items) rule.now }
    requires signature { L.is_for uses.old.listing program.now.sig }
    requires search { IsSearch L.with_context program.now (E.meanings evaluator.old) rule.now uses.old.bound.items store.old
        (E.table evaluator.old) (L.asked uses.old.listing) (L.given uses.old.listing) uses.old.standing }
    ensures next { IsNextOne (program_over program.now (E.meanings evaluator.old).hooks) limit
        (left_in program.now (E.meanings evaluator.old).hooks rule.now uses.old.whole uses.old.bound.items store.old
        (L.asked uses.old.listing) (L.given uses.old.listing) uses.old.standing)
        (left_in program.now (E.meanings evaluator.old).hooks rule.now uses.new.whole uses.new.bound.items store.new
        (L.asked uses.new.listing) (L.given uses.new.listing) uses.new.standing)
        (use_in rule.now store.new (L.given uses.new.listing) uses.new.standing) result }
    ensures search { IsSearch L.with_context program.now (E.meanings evaluator.old) rule.now uses.new.bound.items store.new
        (E.table evaluator.new) (L.asked uses.new.listing) (L.given uses.new.listing) uses.new.standing }
    ensures asked { L.asked uses.new.listing ≡ L.asked uses.old.listing }
    ensures bound { uses.new.bound ≡ uses.old.bound }
    ensures whole { uses.new.whole ≡ uses.old.whole }
    ensures signature { L.is_for uses.new.listing program.now.sig }
    ensures extends { Extends store.old store.new }
    ensures fits { E.fits evaluator.new store.new }
    ensures kept { KeepsEntries (E.table evaluator.old) (E.table evaluator.new) }
    ensures meanings { E.meanings evaluator.new ≡ E.meanings evaluator.old }
{
    for _ in 0..u64::MAX {
        match turn(program, rule, store, evaluator, uses, limit) {
            Ok(Turn::Found) => return Ok(true),
            Ok(Turn::Over) => return Ok(false),
            Ok(Turn::Passed) => (),
            Err(end) => return Err(end),
        }
    }
    Err(EvalEnd::NoMemory)
}
