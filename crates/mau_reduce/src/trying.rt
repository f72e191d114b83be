//! The candidates of one equation, one after another.
ghost use Rattle.std.specs.Prelude.{◌≡◌, ℕ, List, [], true, false, Option, Some, None, IfOk, IfSome, IfNone, OnOk, All, drop, length, slice_get, ◌<◌};
ghost use Rattle.std.specs.Option.{option_map};
ghost use Rattle.mau_terms.specs.Bare.{IsBare};
ghost use Rattle.mau_terms.specs.View.{tree_of};
ghost use Rattle.mau_signature.specs.Signature.{terms_over};
ghost use Rattle.mau_formula.specs.Operator.{Operator};
ghost use Rattle.mau_store.specs.Node.{Extends};
ghost use Rattle.mau_store.specs.Trees.{tree_at};
ghost use Rattle.mau_sorts.specs.Table.{KeepsEntries};
ghost use Rattle.mau_listing.specs.Asked.{asks, last_after, CanGoOn};
ghost use Rattle.mau_evaluation.specs.Run.{gives, or_else, first_of};
ghost use Rattle.mau_api.specs.Terms.{IsTerm};
ghost use Rattle.mau_api.specs.Programs.{program_over, equation_of};
ghost use Rattle.mau_api.specs.Meanings.{meanings_by};
ghost use Rattle.mau_api.specs.Answers.{IsDerivedTable, AreSettled};
ghost use Rattle.mau_reduce.specs.Reducible.{IsReducible};
ghost use Rattle.mau_reduce.specs.Tables.{IsSortTable};
ghost use Rattle.mau_reduce.specs.Comes.{ComesTo};
ghost use Rattle.mau_reduce.specs.Lasts.{IsListed};
ghost use Rattle.mau_reduce.specs.ByTop.{order_for};
ghost use Rattle.mau_reduce.specs.Compiled.{IsPatternOf, IsCompiled};
ghost use Rattle.mau_reduce.specs.Trying.{solution_in, solutions_behind, applied_by, candidate_gives, left_of_number, number_gives, applied_number, left_of_all, left_by, IsCandidate, IsExecutable, IsTried, IsFound};

use crate::Compiled;
use mau_api::{Equation, Lister, Program, Solution};
use mau_listing::has_nodes;
use mau_sorts::SortTable;
use mau_store::Store;
use mau_syntactic::Pattern;
use mau_terms::{NoMemory, TermId};

/// An equation, by its number, and a listing of its left side.
#[derive(Drop)]
pub(crate) struct Tried<L> {
    pub number: usize,
    pub listing: L,
}

/// A candidate: an equation, by its number, and a solution of its left side.
#[derive(Drop)]
pub struct Found {
    pub number: usize,
    pub solution: Solution,
}

/// The next solution of the left side of an equation whose values have their sorts, with its contexts. A listing of it goes on.
pub(crate) fn next_candidate<L: Lister>(
    store: &mut Store,
    program: &Program,
    table: &mut SortTable,
    equation: &Equation,
    term: TermId,
    listing: &mut L,
) -> Result<Option<Solution>, NoMemory>
    requires contexts { L.with_context ≡ true }
    requires reducible { IsReducible program.now }
    requires left { IsBare (terms_over program.now.sig) (tree_of equation.now.left) }
    requires term { IsTerm program.now.sig store.old term.0 }
    requires settled { AreSettled program.now.sig store.old table.old (tree_at store.old term.0) }
    requires sort_table { IsSortTable program.now.sig store.old table.old }
    requires asked { L.asked listing.old ≡ asks (tree_of equation.now.left) [] term }
    requires signature { L.is_for listing.old program.now.sig }
    requires ready { CanGoOn L.with_context program.now.sig store.old table.old (L.asked listing.old) (L.given listing.old) }
    ensures none { (hooks : List Operator) (B : ℕ) → IsDerivedTable (meanings_by program.now hooks B false) store.old table.old
        → IfOk result (λ o. IfNone o (ComesTo (program_over program.now hooks) (λ k. applied_by (program_over program.now hooks) B k (equation_of equation.now) (tree_at store.old term.0)
        (solutions_behind (program_over program.now hooks) (equation_of equation.now) (tree_at store.old term.0) (option_map (solution_in store.old) (L.given listing.old)))) (λ k. gives None))) }
    ensures some { (hooks : List Operator) (B : ℕ) → IsDerivedTable (meanings_by program.now hooks B false) store.old table.old
        → IfOk result (λ o. IfSome o (λ x. ComesTo (program_over program.now hooks) (λ k. applied_by (program_over program.now hooks) B k (equation_of equation.now) (tree_at store.old term.0)
        (solutions_behind (program_over program.now hooks) (equation_of equation.now) (tree_at store.old term.0) (option_map (solution_in store.old) (L.given listing.old))))
        (λ k. or_else (candidate_gives (program_over program.now hooks) B k (equation_of equation.now) (tree_at store.old term.0) (solution_in store.new x))
        (applied_by (program_over program.now hooks) B k (equation_of equation.now) (tree_at store.old term.0)
        (solutions_behind (program_over program.now hooks) (equation_of equation.now) (tree_at store.old term.0) (Some (solution_in store.new x))))))) }
    ensures candidate { IfOk result (λ o. IfSome o (IsCandidate program.now.sig store.new (tree_of equation.now.left) (tree_at store.old term.0))) }
    ensures ready { OnOk result (CanGoOn L.with_context program.now.sig store.new table.new (L.asked listing.new) (L.given listing.new)) }
    ensures given { IfOk result (λ o. L.given listing.new ≡ last_after (L.given listing.old) o) }
    ensures asked { L.asked listing.new ≡ L.asked listing.old }
    ensures signature { L.is_for listing.new program.now.sig }
    ensures sort_table { IsSortTable program.now.sig store.new table.new }
    ensures derived { (hooks : List Operator) (limit : ℕ) → IsDerivedTable (meanings_by program.now hooks limit false) store.old table.old
        → IsDerivedTable (meanings_by program.now hooks limit false) store.new table.new }
    ensures kept { KeepsEntries table.old table.new }
    ensures extends { Extends store.old store.new }
{
    let found = listing.next(store, &program.sig, table);
    has_nodes(store);
    found
}

/// The one candidate of an equation whose left side has no axioms, if it has one. None is left behind it.
fn first_match(
    store: &Store,
    program: &Program,
    table: &SortTable,
    number: usize,
    term: TermId,
    pattern: &Pattern,
) -> Result<Option<Solution>, NoMemory>
    requires reducible { IsReducible program.now }
    requires executable { IsExecutable program.now number }
    requires pattern { IfSome (slice_get program.now.equations number) (λ e. IsPatternOf program.now.sig e pattern.now) }
    requires term { IsTerm program.now.sig store.now term.0 }
    requires settled { AreSettled program.now.sig store.now table.now (tree_at store.now term.0) }
    requires sort_table { IsSortTable program.now.sig store.now table.now }
    ensures none { (hooks : List Operator) (B : ℕ) → IsDerivedTable (meanings_by program.now hooks B false) store.now table.now
        → IfOk result (λ o. IfNone o (ComesTo (program_over program.now hooks) (λ k. left_of_number (program_over program.now hooks) B k (tree_at store.now term.0) number None) (λ k. gives None))) }
    ensures some { (hooks : List Operator) (B : ℕ) → IsDerivedTable (meanings_by program.now hooks B false) store.now table.now → (rest : List ℕ)
        → IfOk result (λ o. IfSome o (λ x. ComesTo (program_over program.now hooks) (λ k. left_of_all (program_over program.now hooks) B k (tree_at store.now term.0) number None rest)
        (λ k. or_else (number_gives (program_over program.now hooks) B k (tree_at store.now term.0) number (solution_in store.now x))
        (first_of (applied_number (program_over program.now hooks) B k (tree_at store.now term.0)) rest)))) }
    ensures found { IfOk result (λ o. IfSome o (IsFound program.now store.now (tree_at store.now term.0) number)) }
    ensures listed { IfOk result (λ o. IfSome o (IsListed program.now store.now table.now term number)) }
{
    pattern.solution(store, &program.sig, table, term)
}

/// Begins with an equation by a listing: its first candidate, if it has one.
fn first_listed<L: Lister + Drop>(
    store: &mut Store,
    program: &Program,
    table: &mut SortTable,
    number: usize,
    term: TermId,
) -> Result<Option<(Tried<L>, Solution)>, NoMemory>
    requires contexts { L.with_context ≡ true }
    requires reducible { IsReducible program.now }
    requires number { number < length program.now.equations }
    requires executable { IsExecutable program.now number }
    requires term { IsTerm program.now.sig store.old term.0 }
    requires settled { AreSettled program.now.sig store.old table.old (tree_at store.old term.0) }
    requires sort_table { IsSortTable program.now.sig store.old table.old }
    ensures none { (hooks : List Operator) (B : ℕ) → IsDerivedTable (meanings_by program.now hooks B false) store.old table.old
        → IfOk result (λ o. IfNone o (ComesTo (program_over program.now hooks) (λ k. left_of_number (program_over program.now hooks) B k (tree_at store.old term.0) number None) (λ k. gives None))) }
    ensures some { (hooks : List Operator) (B : ℕ) → IsDerivedTable (meanings_by program.now hooks B false) store.old table.old
        → IfOk result (λ o. IfSome o (λ x. ComesTo (program_over program.now hooks) (λ k. left_of_number (program_over program.now hooks) B k (tree_at store.old term.0) number None)
        (λ k. or_else (number_gives (program_over program.now hooks) B k (tree_at store.old term.0) number (solution_in store.new x.1))
        (left_of_number (program_over program.now hooks) B k (tree_at store.old term.0) number (Some (solution_in store.new x.1)))))) }
    ensures number { IfOk result (λ o. IfSome o (λ x. x.0.number ≡ number)) }
    ensures given { IfOk result (λ o. IfSome o (λ x. L.given x.0.listing ≡ Some x.1)) }
    ensures tried { IfOk result (λ o. IfSome o (λ x. IsTried L.with_context program.now store.new table.new term number (L.asked x.0.listing) (L.given x.0.listing) (L.is_for x.0.listing program.now.sig))) }
    ensures found { IfOk result (λ o. IfSome o (λ x. IsFound program.now store.new (tree_at store.old term.0) number x.1)) }
    ensures sort_table { IsSortTable program.now.sig store.new table.new }
    ensures derived { (hooks : List Operator) (limit : ℕ) → IsDerivedTable (meanings_by program.now hooks limit false) store.old table.old
        → IsDerivedTable (meanings_by program.now hooks limit false) store.new table.new }
    ensures kept { KeepsEntries table.old table.new }
    ensures extends { Extends store.old store.new }
{
    let equation = &program.equations.items()[number];
    let mut listing = L::start(store.allocator(), &program.sig, &equation.left, &[], term)?;
    match next_candidate(store, program, table, equation, term, &mut listing)? {
        Some(solution) => Ok(Some((Tried { number, listing }, solution))),
        None => Ok(None),
    }
}

/// Begins with an equation: its first candidate, if it has one. A listing goes on, if more may be left behind it.
fn first_candidate<L: Lister + Drop>(
    store: &mut Store,
    program: &Program,
    table: &mut SortTable,
    compiled: &Compiled,
    number: usize,
    term: TermId,
    tried: &mut Option<Tried<L>>,
) -> Result<Option<Solution>, NoMemory>
    requires contexts { L.with_context ≡ true }
    requires reducible { IsReducible program.now }
    requires number { number < length program.now.equations }
    requires executable { IsExecutable program.now number }
    requires compiled { IsCompiled program.now compiled.now }
    requires term { IsTerm program.now.sig store.old term.0 }
    requires settled { AreSettled program.now.sig store.old table.old (tree_at store.old term.0) }
    requires sort_table { IsSortTable program.now.sig store.old table.old }
    ensures none { (hooks : List Operator) (B : ℕ) → IsDerivedTable (meanings_by program.now hooks B false) store.old table.old
        → IfOk result (λ o. IfNone o (ComesTo (program_over program.now hooks) (λ k. left_of_number (program_over program.now hooks) B k (tree_at store.old term.0) number None) (λ k. gives None))) }
    ensures some { (hooks : List Operator) (B : ℕ) → IsDerivedTable (meanings_by program.now hooks B false) store.old table.old → (rest : List ℕ)
        → IfOk result (λ o. IfSome o (λ x. ComesTo (program_over program.now hooks) (λ k. left_of_all (program_over program.now hooks) B k (tree_at store.old term.0) number None rest)
        (λ k. or_else (number_gives (program_over program.now hooks) B k (tree_at store.old term.0) number (solution_in store.new x))
        (left_by (program_over program.now hooks) B k store.new (tree_at store.old term.0) (option_map (λ y. (y.number, L.given y.listing)) tried.new) rest)))) }
    ensures tried { IfOk result (λ o. IfSome o (λ x. IfSome tried.new (λ y. IsTried L.with_context program.now store.new table.new term y.number (L.asked y.listing) (L.given y.listing) (L.is_for y.listing program.now.sig)))) }
    ensures found { IfOk result (λ o. IfSome o (IsFound program.now store.new (tree_at store.old term.0) number)) }
    ensures listed { IfOk result (λ o. IfSome o (IsListed program.now store.new table.new term number)) }
    ensures sort_table { IsSortTable program.now.sig store.new table.new }
    ensures derived { (hooks : List Operator) (limit : ℕ) → IsDerivedTable (meanings_by program.now hooks limit false) store.old table.old
        → IsDerivedTable (meanings_by program.now hooks limit false) store.new table.new }
    ensures kept { KeepsEntries table.old table.new }
    ensures extends { Extends store.old store.new }
{
    match &compiled.equations[number].pattern {
        Some(pattern) => {
            *tried = None;
            let found = first_match(store, program, table, number, term, pattern)?;
            Ok(found)
        }
        None => match first_listed::<L>(store, program, table, number, term)? {
            Some((begun, solution)) => {
                *tried = Some(begun);
                Ok(Some(solution))
            }
            None => Ok(None),
        },
    }
}

/// Goes on with an equation.
fn go_on<L: Lister>(
    store: &mut Store,
    program: &Program,
    table: &mut SortTable,
    term: TermId,
    tried: &mut Tried<L>,
) -> Result<Option<Solution>, NoMemory>
    requires contexts { L.with_context ≡ true }
    requires reducible { IsReducible program.now }
    requires term { IsTerm program.now.sig store.old term.0 }
    requires settled { AreSettled program.now.sig store.old table.old (tree_at store.old term.0) }
    requires sort_table { IsSortTable program.now.sig store.old table.old }
    requires tried { IsTried L.with_context program.now store.old table.old term tried.old.number (L.asked tried.old.listing) (L.given tried.old.listing) (L.is_for tried.old.listing program.now.sig) }
    ensures none { (hooks : List Operator) (B : ℕ) → IsDerivedTable (meanings_by program.now hooks B false) store.old table.old
        → IfOk result (λ o. IfNone o (ComesTo (program_over program.now hooks) (λ k. left_of_number (program_over program.now hooks) B k (tree_at store.old term.0) tried.old.number
        (option_map (solution_in store.old) (L.given tried.old.listing))) (λ k. gives None))) }
    ensures some { (hooks : List Operator) (B : ℕ) → IsDerivedTable (meanings_by program.now hooks B false) store.old table.old
        → IfOk result (λ o. IfSome o (λ x. ComesTo (program_over program.now hooks) (λ k. left_of_number (program_over program.now hooks) B k (tree_at store.old term.0) tried.old.number
        (option_map (solution_in store.old) (L.given tried.old.listing)))
        (λ k. or_else (number_gives (program_over program.now hooks) B k (tree_at store.old term.0) tried.old.number (solution_in store.new x))
        (left_of_number (program_over program.now hooks) B k (tree_at store.old term.0) tried.old.number (Some (solution_in store.new x)))))) }
    ensures number { tried.new.number ≡ tried.old.number }
    ensures given { IfOk result (λ o. IfSome o (λ x. L.given tried.new.listing ≡ Some x)) }
    ensures tried { IfOk result (λ o. IfSome o (λ x. IsTried L.with_context program.now store.new table.new term tried.old.number (L.asked tried.new.listing) (L.given tried.new.listing) (L.is_for tried.new.listing program.now.sig))) }
    ensures found { IfOk result (λ o. IfSome o (λ x. IsFound program.now store.new (tree_at store.old term.0) tried.old.number x)) }
    ensures sort_table { IsSortTable program.now.sig store.new table.new }
    ensures derived { (hooks : List Operator) (limit : ℕ) → IsDerivedTable (meanings_by program.now hooks limit false) store.old table.old
        → IsDerivedTable (meanings_by program.now hooks limit false) store.new table.new }
    ensures kept { KeepsEntries table.old table.new }
    ensures extends { Extends store.old store.new }
{
    let equation = &program.equations.items()[tried.number];
    let found = next_candidate(store, program, table, equation, term, &mut tried.listing)?;
    Ok(found)
}

/// The first candidate of the equations with these numbers, from a place on.
fn first_among<L: Lister + Drop>(
    store: &mut Store,
    program: &Program,
    table: &mut SortTable,
    compiled: &Compiled,
    order: &[usize],
    term: TermId,
    next: &mut usize,
    tried: &mut Option<Tried<L>>,
) -> Result<Option<Found>, NoMemory>
    requires contexts { L.with_context ≡ true }
    requires reducible { IsReducible program.now }
    requires order { All (λ i. i < length program.now.equations) order.now }
    requires executable { All (IsExecutable program.now) order.now }
    requires compiled { IsCompiled program.now compiled.now }
    requires term { IsTerm program.now.sig store.old term.0 }
    requires settled { AreSettled program.now.sig store.old table.old (tree_at store.old term.0) }
    requires sort_table { IsSortTable program.now.sig store.old table.old }
    ensures none { (hooks : List Operator) (B : ℕ) → IsDerivedTable (meanings_by program.now hooks B false) store.old table.old
        → IfOk result (λ o. IfNone o (ComesTo (program_over program.now hooks) (λ k. first_of (applied_number (program_over program.now hooks) B k (tree_at store.old term.0)) (drop next.old order.now)) (λ k. gives None))) }
    ensures some { (hooks : List Operator) (B : ℕ) → IsDerivedTable (meanings_by program.now hooks B false) store.old table.old
        → IfOk result (λ o. IfSome o (λ x. ComesTo (program_over program.now hooks) (λ k. first_of (applied_number (program_over program.now hooks) B k (tree_at store.old term.0)) (drop next.old order.now))
        (λ k. or_else (number_gives (program_over program.now hooks) B k (tree_at store.old term.0) x.number (solution_in store.new x.solution))
        (left_by (program_over program.now hooks) B k store.new (tree_at store.old term.0) (option_map (λ y. (y.number, L.given y.listing)) tried.new) (drop next.new order.now))))) }
    ensures tried { IfOk result (λ o. IfSome o (λ x. IfSome tried.new (λ y. IsTried L.with_context program.now store.new table.new term y.number (L.asked y.listing) (L.given y.listing) (L.is_for y.listing program.now.sig)))) }
    ensures found { IfOk result (λ o. IfSome o (λ x. IsFound program.now store.new (tree_at store.old term.0) x.number x.solution)) }
    ensures listed { IfOk result (λ o. IfSome o (λ x. IsListed program.now store.new table.new term x.number x.solution)) }
    ensures sort_table { IsSortTable program.now.sig store.new table.new }
    ensures derived { (hooks : List Operator) (limit : ℕ) → IsDerivedTable (meanings_by program.now hooks limit false) store.old table.old
        → IsDerivedTable (meanings_by program.now hooks limit false) store.new table.new }
    ensures kept { KeepsEntries table.old table.new }
    ensures extends { Extends store.old store.new }
{
    while *next < order.len() {
        let number = order[*next];
        *next += 1;
        match first_candidate(store, program, table, compiled, number, term, tried)? {
            Some(solution) => return Ok(Some(Found { number, solution })),
            None => {}
        }
    }
    Ok(None)
}

/// Goes on with the equation that is tried, if there is one.
fn go_on_tried<L: Lister>(
    store: &mut Store,
    program: &Program,
    table: &mut SortTable,
    term: TermId,
    tried: &mut Option<Tried<L>>,
) -> Result<Option<Found>, NoMemory>
    requires contexts { L.with_context ≡ true }
    requires reducible { IsReducible program.now }
    requires term { IsTerm program.now.sig store.old term.0 }
    requires settled { AreSettled program.now.sig store.old table.old (tree_at store.old term.0) }
    requires sort_table { IsSortTable program.now.sig store.old table.old }
    requires tried { IfSome tried.old (λ x. IsTried L.with_context program.now store.old table.old term x.number (L.asked x.listing) (L.given x.listing) (L.is_for x.listing program.now.sig)) }
    ensures none { (hooks : List Operator) (B : ℕ) → IsDerivedTable (meanings_by program.now hooks B false) store.old table.old → (rest : List ℕ)
        → IfOk result (λ o. IfNone o (ComesTo (program_over program.now hooks) (λ k. left_by (program_over program.now hooks) B k store.old (tree_at store.old term.0)
        (option_map (λ x. (x.number, L.given x.listing)) tried.old) rest) (λ k. first_of (applied_number (program_over program.now hooks) B k (tree_at store.old term.0)) rest))) }
    ensures some { (hooks : List Operator) (B : ℕ) → IsDerivedTable (meanings_by program.now hooks B false) store.old table.old → (rest : List ℕ)
        → IfOk result (λ o. IfSome o (λ x. ComesTo (program_over program.now hooks) (λ k. left_by (program_over program.now hooks) B k store.old (tree_at store.old term.0)
        (option_map (λ y. (y.number, L.given y.listing)) tried.old) rest)
        (λ k. or_else (number_gives (program_over program.now hooks) B k (tree_at store.old term.0) x.number (solution_in store.new x.solution))
        (left_by (program_over program.now hooks) B k store.new (tree_at store.old term.0) (option_map (λ y. (y.number, L.given y.listing)) tried.new) rest)))) }
    ensures listed { IfOk result (λ o. IfSome o (λ x. IsListed program.now store.new table.new term x.number x.solution)) }
    ensures tried { IfOk result (λ o. IfSome o (λ x. IfSome tried.new (λ y. IsTried L.with_context program.now store.new table.new term y.number (L.asked y.listing) (L.given y.listing) (L.is_for y.listing program.now.sig)))) }
    ensures found { IfOk result (λ o. IfSome o (λ x. IsFound program.now store.new (tree_at store.old term.0) x.number x.solution)) }
    ensures sort_table { IsSortTable program.now.sig store.new table.new }
    ensures derived { (hooks : List Operator) (limit : ℕ) → IsDerivedTable (meanings_by program.now hooks limit false) store.old table.old
        → IsDerivedTable (meanings_by program.now hooks limit false) store.new table.new }
    ensures kept { KeepsEntries table.old table.new }
    ensures extends { Extends store.old store.new }
{
    match tried {
        Some(tried) => {
            let number = tried.number;
            match go_on(store, program, table, term, tried)? {
                Some(solution) => Ok(Some(Found { number, solution })),
                None => Ok(None),
            }
        }
        None => Ok(None),
    }
}

/// Begins with the equations that may apply at the top of a term, from a place of their order on.
fn begin_next<L: Lister + Drop>(
    store: &mut Store,
    program: &Program,
    table: &mut SortTable,
    compiled: &Compiled,
    term: TermId,
    next: &mut usize,
    tried: &mut Option<Tried<L>>,
) -> Result<Option<Found>, NoMemory>
    requires contexts { L.with_context ≡ true }
    requires reducible { IsReducible program.now }
    requires compiled { IsCompiled program.now compiled.now }
    requires term { IsTerm program.now.sig store.old term.0 }
    requires settled { AreSettled program.now.sig store.old table.old (tree_at store.old term.0) }
    requires sort_table { IsSortTable program.now.sig store.old table.old }
    ensures none { (hooks : List Operator) (B : ℕ) → IsDerivedTable (meanings_by program.now hooks B false) store.old table.old
        → IfOk result (λ o. IfNone o (ComesTo (program_over program.now hooks) (λ k. first_of (applied_number (program_over program.now hooks) B k (tree_at store.old term.0)) (drop next.old (order_for program.now (tree_at store.old term.0)))) (λ k. gives None))) }
    ensures some { (hooks : List Operator) (B : ℕ) → IsDerivedTable (meanings_by program.now hooks B false) store.old table.old
        → IfOk result (λ o. IfSome o (λ x. ComesTo (program_over program.now hooks) (λ k. first_of (applied_number (program_over program.now hooks) B k (tree_at store.old term.0)) (drop next.old (order_for program.now (tree_at store.old term.0))))
        (λ k. or_else (number_gives (program_over program.now hooks) B k (tree_at store.old term.0) x.number (solution_in store.new x.solution))
        (left_by (program_over program.now hooks) B k store.new (tree_at store.old term.0) (option_map (λ y. (y.number, L.given y.listing)) tried.new) (drop next.new (order_for program.now (tree_at store.old term.0))))))) }
    ensures listed { IfOk result (λ o. IfSome o (λ x. IsListed program.now store.new table.new term x.number x.solution)) }
    ensures tried { IfOk result (λ o. IfSome o (λ x. IfSome tried.new (λ y. IsTried L.with_context program.now store.new table.new term y.number (L.asked y.listing) (L.given y.listing) (L.is_for y.listing program.now.sig)))) }
    ensures found { IfOk result (λ o. IfSome o (λ x. IsFound program.now store.new (tree_at store.old term.0) x.number x.solution)) }
    ensures sort_table { IsSortTable program.now.sig store.new table.new }
    ensures derived { (hooks : List Operator) (limit : ℕ) → IsDerivedTable (meanings_by program.now hooks limit false) store.old table.old
        → IsDerivedTable (meanings_by program.now hooks limit false) store.new table.new }
    ensures kept { KeepsEntries table.old table.new }
    ensures extends { Extends store.old store.new }
{
    let order = compiled.order_at(program, store, term);
    first_among(store, program, table, compiled, order, term, next, tried)
}

/// The next candidate: of the equation that is tried, or else of those that may apply at the top of the term, from a place of their order on.
pub(crate) fn next_found<L: Lister + Drop>(
    store: &mut Store,
    program: &Program,
    table: &mut SortTable,
    compiled: &Compiled,
    term: TermId,
    next: &mut usize,
    tried: &mut Option<Tried<L>>,
) -> Result<Option<Found>, NoMemory>
    requires contexts { L.with_context ≡ true }
    requires reducible { IsReducible program.now }
    requires compiled { IsCompiled program.now compiled.now }
    requires term { IsTerm program.now.sig store.old term.0 }
    requires settled { AreSettled program.now.sig store.old table.old (tree_at store.old term.0) }
    requires sort_table { IsSortTable program.now.sig store.old table.old }
    requires tried { IfSome tried.old (λ x. IsTried L.with_context program.now store.old table.old term x.number (L.asked x.listing) (L.given x.listing) (L.is_for x.listing program.now.sig)) }
    ensures none { (hooks : List Operator) (B : ℕ) → IsDerivedTable (meanings_by program.now hooks B false) store.old table.old
        → IfOk result (λ o. IfNone o (ComesTo (program_over program.now hooks) (λ k. left_by (program_over program.now hooks) B k store.old (tree_at store.old term.0)
        (option_map (λ x. (x.number, L.given x.listing)) tried.old) (drop next.old (order_for program.now (tree_at store.old term.0)))) (λ k. gives None))) }
    ensures some { (hooks : List Operator) (B : ℕ) → IsDerivedTable (meanings_by program.now hooks B false) store.old table.old
        → IfOk result (λ o. IfSome o (λ x. ComesTo (program_over program.now hooks) (λ k. left_by (program_over program.now hooks) B k store.old (tree_at store.old term.0)
        (option_map (λ y. (y.number, L.given y.listing)) tried.old) (drop next.old (order_for program.now (tree_at store.old term.0))))
        (λ k. or_else (number_gives (program_over program.now hooks) B k (tree_at store.old term.0) x.number (solution_in store.new x.solution))
        (left_by (program_over program.now hooks) B k store.new (tree_at store.old term.0) (option_map (λ y. (y.number, L.given y.listing)) tried.new) (drop next.new (order_for program.now (tree_at store.old term.0))))))) }
    ensures listed { IfOk result (λ o. IfSome o (λ x. IsListed program.now store.new table.new term x.number x.solution)) }
    ensures tried { IfOk result (λ o. IfSome o (λ x. IfSome tried.new (λ y. IsTried L.with_context program.now store.new table.new term y.number (L.asked y.listing) (L.given y.listing) (L.is_for y.listing program.now.sig)))) }
    ensures found { IfOk result (λ o. IfSome o (λ x. IsFound program.now store.new (tree_at store.old term.0) x.number x.solution)) }
    ensures sort_table { IsSortTable program.now.sig store.new table.new }
    ensures derived { (hooks : List Operator) (limit : ℕ) → IsDerivedTable (meanings_by program.now hooks limit false) store.old table.old
        → IsDerivedTable (meanings_by program.now hooks limit false) store.new table.new }
    ensures kept { KeepsEntries table.old table.new }
    ensures extends { Extends store.old store.new }
{
    match go_on_tried(store, program, table, term, tried)? {
        Some(found) => Ok(Some(found)),
        None => begin_next(store, program, table, compiled, term, next, tried),
    }
}
