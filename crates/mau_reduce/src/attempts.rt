//! All that may be applied at the top of a term, one candidate after another.
ghost use Rattle.std.specs.Prelude.{◌≡◌, ℕ, suc, List, [], true, false, Option, Some, None, IfOk, IfErr, IfSome, IfNone, IsSome, drop, length, map, slice_get};
ghost use Rattle.std.specs.Option.{option_map};
ghost use Rattle.mau_terms.specs.Subst.{variables};
ghost use Rattle.mau_terms.specs.Solution.{HaveSorts};
ghost use Rattle.mau_terms.specs.View.{tree_of, variable_of};
ghost use Rattle.mau_formula.specs.Operator.{Operator};
ghost use Rattle.mau_store.specs.Node.{Extends};
ghost use Rattle.mau_store.specs.Trees.{tree_at, trees_at};
ghost use Rattle.mau_store.specs.View.{numbers};
ghost use Rattle.mau_sorts.specs.Table.{KeepsEntries};
ghost use Rattle.mau_listing.specs.Asked.{HasEntry};
ghost use Rattle.mau_evaluation.specs.Run.{or_else, try_on, gives};
ghost use Rattle.mau_evaluation.specs.Evaluation.{levels, applied, solve};
ghost use Rattle.mau_api.specs.Terms.{IsTerm};
ghost use Rattle.mau_api.specs.Programs.{program_over};
ghost use Rattle.mau_api.specs.Meanings.{meanings_by};
ghost use Rattle.mau_api.specs.Answers.{IsDerivedTable, AreSettled};
ghost use Rattle.mau_reduce.specs.Reducible.{IsReducible};
ghost use Rattle.mau_reduce.specs.Bindings.{bound_in, AreValues};
ghost use Rattle.mau_reduce.specs.Ends.{IsEnd};
ghost use Rattle.mau_reduce.specs.Tables.{IsSortTable};
ghost use Rattle.mau_reduce.specs.Comes.{ComesTo};
ghost use Rattle.mau_reduce.specs.Trying.{solution_in, number_gives, left_by, IsTried, IsFound};
ghost use Rattle.mau_reduce.specs.ByTop.{order_for};
ghost use Rattle.mau_reduce.specs.Compiled.{IsCompiled};
ghost use Rattle.mau_reduce.specs.BuiltOperators.{IsBuiltAt, IsThere};
ghost use Rattle.mau_reduce.specs.Giving.{GivesInKind, IsGivenAt};
ghost use Rattle.mau_reduce.specs.Attempting.{untried_by, cond_at, makes_of};
ghost use Rattle.mau_reduce.specs.Lasts.{left_variables, first_values, IsLast, IsLastListed};

use crate::binding::bind;
use crate::given::given_at;
use crate::trying::{Found, Tried, next_found};
use crate::{Binding, BuiltIn, Compiled, Given, Natives};
use mau_api::{EvalEnd, Lister, Program};
use mau_sorts::SortTable;
use mau_store::Store;
use mau_terms::{NoMemory, TermId};
use std::alloc::Global;

/// What is left to try: what the built-in gives, the equation that is tried with the listing of its left side, and those that are not
/// begun, from a place of their order on.
#[derive(Drop)]
pub struct Attempts<L> {
    pub(crate) given: Given,
    pub(crate) tried: Option<Tried<L>>,
    pub(crate) next: usize,
    pub(crate) last: Option<Found>,
}

/// Begins with all that may be applied at the top of a term.
pub fn begin_attempts<L: Lister, N: Natives>(
    store: &Store,
    program: &Program,
    natives: &N,
    built_in: BuiltIn,
    term: TermId,
) -> Attempts<L>
    requires reducible { IsReducible program.now }
    requires term { IsTerm program.now.sig store.now term.0 }
    requires built_in { IsBuiltAt program.now.sig (N.operators natives.now) (tree_at store.now term.0) built_in }
    ensures untried { (B k b : ℕ) → untried_by (program_over program.now (N.operators natives.now)) B k store.now (tree_at store.now term.0) result.given (option_map (λ x. (x.number, L.given x.listing)) result.tried)
        (drop result.next (order_for program.now (tree_at store.now term.0))) b
        ≡ applied (program_over program.now (N.operators natives.now)) (levels (program_over program.now (N.operators natives.now)) B k) (levels (program_over program.now (N.operators natives.now)) B (suc k)).sorts (tree_at store.now term.0) b }
    ensures tried { IfSome result.tried (λ x. ⊥) }
    ensures there { IsThere store.now result.given }
    ensures given { GivesInKind program.now.sig (N.operators natives.now) → IsGivenAt program.now.sig (N.operators natives.now) store.now (tree_at store.now term.0) result.given }
{
    let given = given_at(store, &program.sig, natives, built_in, term);
    Attempts {
        given,
        tried: None,
        next: 0,
        last: None,
    }
}

/// The next candidate of the equations, with the number of its equation and the values of its variables.
fn next_equation<L: Lister + Drop>(
    store: &mut Store,
    program: &Program,
    table: &mut SortTable,
    compiled: &Compiled,
    term: TermId,
    attempts: &mut Attempts<L>,
) -> Result<Option<(usize, Binding)>, NoMemory>
    requires contexts { L.with_context ≡ true }
    requires reducible { IsReducible program.now }
    requires compiled { IsCompiled program.now compiled.now }
    requires term { IsTerm program.now.sig store.old term.0 }
    requires settled { AreSettled program.now.sig store.old table.old (tree_at store.old term.0) }
    requires sort_table { IsSortTable program.now.sig store.old table.old }
    requires tried { IfSome attempts.old.tried (λ x. IsTried L.with_context program.now store.old table.old term x.number (L.asked x.listing) (L.given x.listing) (L.is_for x.listing program.now.sig)) }
    ensures none { (hooks : List Operator) (B : ℕ) → IsDerivedTable (meanings_by program.now hooks B false) store.old table.old
        → IfOk result (λ o. IfNone o (ComesTo (program_over program.now hooks) (λ k. left_by (program_over program.now hooks) B k store.old (tree_at store.old term.0)
        (option_map (λ x. (x.number, L.given x.listing)) attempts.old.tried) (drop attempts.old.next (order_for program.now (tree_at store.old term.0)))) (λ k. gives None))) }
    ensures some { (hooks : List Operator) (B : ℕ) → IsDerivedTable (meanings_by program.now hooks B false) store.old table.old
        → IfOk result (λ o. IfSome o (λ x. IfSome attempts.new.last (λ y. ComesTo (program_over program.now hooks) (λ k. left_by (program_over program.now hooks) B k store.old (tree_at store.old term.0)
        (option_map (λ z. (z.number, L.given z.listing)) attempts.old.tried) (drop attempts.old.next (order_for program.now (tree_at store.old term.0))))
        (λ k. or_else (number_gives (program_over program.now hooks) B k (tree_at store.old term.0) y.number (solution_in store.new y.solution))
        (left_by (program_over program.now hooks) B k store.new (tree_at store.old term.0) (option_map (λ z. (z.number, L.given z.listing)) attempts.new.tried) (drop attempts.new.next (order_for program.now (tree_at store.old term.0)))))))) }
    ensures last { IfOk result (λ o. IfSome o (λ x. IsSome attempts.new.last)) }
    ensures number { IfOk result (λ o. IfSome o (λ x. IfSome attempts.new.last (λ y. x.0 ≡ y.number))) }
    ensures binding { IfOk result (λ o. IfSome o (λ x. IfSome attempts.new.last (λ y. x.1.values.items ≡ y.solution.values))) }
    ensures variables { IfOk result (λ o. IfSome o (λ x. IfSome (slice_get program.now.equations x.0) (λ e. map variable_of x.1.variables.items ≡ variables (tree_of e.left)))) }
    ensures left { IfOk result (λ o. IfSome o (λ x. map variable_of x.1.variables.items ≡ left_variables program.now x.0)) }
    ensures is { IfOk result (λ o. IfSome o (λ x. IsLast program.now store.new (tree_at store.old term.0) x.0 Given.Nothing attempts.new.last)) }
    ensures listed { IfOk result (λ o. IfSome o (λ x. IsLastListed program.now store.new table.new term x.0 Given.Nothing attempts.new.last)) }
    ensures tried { IfOk result (λ o. IfSome o (λ x. IfSome attempts.new.tried (λ y. IsTried L.with_context program.now store.new table.new term y.number (L.asked y.listing) (L.given y.listing) (L.is_for y.listing program.now.sig)))) }
    ensures found { IfOk result (λ o. IfSome o (λ x. IfSome attempts.new.last (λ y. IsFound program.now store.new (tree_at store.old term.0) y.number y.solution))) }
    ensures given { attempts.new.given ≡ attempts.old.given }
    ensures sort_table { IsSortTable program.now.sig store.new table.new }
    ensures derived { (hooks : List Operator) (limit : ℕ) → IsDerivedTable (meanings_by program.now hooks limit false) store.old table.old
        → IsDerivedTable (meanings_by program.now hooks limit false) store.new table.new }
    ensures kept { KeepsEntries table.old table.new }
    ensures extends { Extends store.old store.new }
{
    match next_found(
        store,
        program,
        table,
        compiled,
        term,
        &mut attempts.next,
        &mut attempts.tried,
    )? {
        Some(found) => {
            let number = found.number;
            let binding = bind(
                store.allocator(),
                &compiled.equations[number].variables,
                &found.solution.values,
            )?;
            attempts.last = Some(found);
            Ok(Some((number, binding)))
        }
        None => Ok(None),
    }
}

/// The number behind all equations, which has no condition, and no variables.
fn without_condition(alloc: Global, program: &Program) -> (usize, Binding)
    ensures number { result.0 ≡ length program.now.equations }
    ensures variables { result.1.variables.items ≡ [] }
    ensures values { result.1.values.items ≡ [] }
{
    let none = Binding {
        variables: Vec::new(alloc),
        values: Vec::new(alloc),
    };
    (program.equations.items().len(), none)
}

/// The next candidate, with the number of its condition and the values of its variables: what the built-in gives, or else the next of the
/// equations. What a built-in gives has the number behind all equations.
pub fn next_attempt<L: Lister + Drop>(
    store: &mut Store,
    program: &Program,
    table: &mut SortTable,
    compiled: &Compiled,
    term: TermId,
    attempts: &mut Attempts<L>,
) -> Result<Option<(usize, Binding)>, EvalEnd>
    requires contexts { L.with_context ≡ true }
    requires reducible { IsReducible program.now }
    requires compiled { IsCompiled program.now compiled.now }
    requires term { IsTerm program.now.sig store.old term.0 }
    requires settled { AreSettled program.now.sig store.old table.old (tree_at store.old term.0) }
    requires sort_table { IsSortTable program.now.sig store.old table.old }
    requires tried { IfSome attempts.old.tried (λ x. IsTried L.with_context program.now store.old table.old term x.number (L.asked x.listing) (L.given x.listing) (L.is_for x.listing program.now.sig)) }
    ensures none { (hooks : List Operator) (B : ℕ) → IsDerivedTable (meanings_by program.now hooks B false) store.old table.old
        → IfOk result (λ o. IfNone o (ComesTo (program_over program.now hooks) (λ k. untried_by (program_over program.now hooks) B k store.old (tree_at store.old term.0) attempts.old.given
        (option_map (λ x. (x.number, L.given x.listing)) attempts.old.tried) (drop attempts.old.next (order_for program.now (tree_at store.old term.0)))) (λ k. gives None))) }
    ensures some { (hooks : List Operator) (B : ℕ) → IsDerivedTable (meanings_by program.now hooks B false) store.old table.old
        → IfOk result (λ o. IfSome o (λ x. ComesTo (program_over program.now hooks) (λ k. untried_by (program_over program.now hooks) B k store.old (tree_at store.old term.0) attempts.old.given
        (option_map (λ z. (z.number, L.given z.listing)) attempts.old.tried) (drop attempts.old.next (order_for program.now (tree_at store.old term.0))))
        (λ k. or_else (λ b. try_on (λ σ. gives (option_map (makes_of (program_over program.now hooks) store.new (tree_at store.old term.0) attempts.new.given attempts.new.last) σ))
        (solve (program_over program.now hooks) (levels (program_over program.now hooks) B k) (cond_at (program_over program.now hooks) x.0) (bound_in store.new x.1) b))
        (untried_by (program_over program.now hooks) B k store.new (tree_at store.old term.0) attempts.new.given (option_map (λ z. (z.number, L.given z.listing)) attempts.new.tried) (drop attempts.new.next (order_for program.now (tree_at store.old term.0))))))) }
    ensures ends { (hooks : List Operator) (B k b : ℕ) → IfErr result (IsEnd (untried_by (program_over program.now hooks) B k store.old (tree_at store.old term.0) attempts.old.given
        (option_map (λ z. (z.number, L.given z.listing)) attempts.old.tried) (drop attempts.old.next (order_for program.now (tree_at store.old term.0))) b)) }
    ensures given { attempts.new.given ≡ attempts.old.given }
    ensures values { IfOk result (λ o. IfSome o (λ x. AreValues program.now.sig store.new x.1)) }
    ensures last { IfOk result (λ o. IfSome o (λ x. IsLast program.now store.new (tree_at store.old term.0) x.0 attempts.new.given attempts.new.last)) }
    ensures listed { IfOk result (λ o. IfSome o (λ x. IsLastListed program.now store.new table.new term x.0 attempts.new.given attempts.new.last)) }
    ensures variables { IfOk result (λ o. IfSome o (λ x. map variable_of x.1.variables.items ≡ left_variables program.now x.0)) }
    ensures begun { IfOk result (λ o. IfSome o (λ x. x.1.values.items ≡ first_values attempts.new.given attempts.new.last)) }
    ensures sorts { IfOk result (λ o. IfSome o (λ x. HaveSorts (HasEntry program.now.sig store.new table.new) (map variable_of x.1.variables.items) (trees_at store.new (numbers x.1.values.items)))) }
    ensures tried { IfOk result (λ o. IfSome o (λ x. IfSome attempts.new.tried (λ y. IsTried L.with_context program.now store.new table.new term y.number (L.asked y.listing) (L.given y.listing) (L.is_for y.listing program.now.sig)))) }
    ensures sort_table { IsSortTable program.now.sig store.new table.new }
    ensures derived { (hooks : List Operator) (limit : ℕ) → IsDerivedTable (meanings_by program.now hooks limit false) store.old table.old
        → IsDerivedTable (meanings_by program.now hooks limit false) store.new table.new }
    ensures kept { KeepsEntries table.old table.new }
    ensures extends { Extends store.old store.new }
{
    match attempts.given {
        Given::Nothing => {
            match next_equation(store, program, table, compiled, term, attempts) {
                Ok(Some((number, binding))) => Ok(Some((number, binding))),
                Ok(None) => Ok(None),
                Err(NoMemory) => Err(EvalEnd::NoMemory),
            }
        }
        Given::TooLarge => Err(EvalEnd::Overflow),
        Given::Argument(_) => Ok(Some(without_condition(store.allocator(), program))),
        Given::Whole(_) => Ok(Some(without_condition(store.allocator(), program))),
        Given::Before(_) => Ok(Some(without_condition(store.allocator(), program))),
    }
}
