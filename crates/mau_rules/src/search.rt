//! All rules at one place, cyclically from a turn on.
ghost use Rattle.std.specs.Prelude.{◌≡◌, ◌≤◌, ◌<◌, ℕ, List, length, true, nat_lt, slice_index_or, IfOk, IfSome, IfNone};
ghost use Rattle.std.specs.List.{count_by};
ghost use Rattle.mau_terms.specs.Tree.{Tree};
ghost use Rattle.mau_store.specs.Node.{Extends};
ghost use Rattle.mau_store.specs.Trees.{tree_at};
ghost use Rattle.mau_sorts.specs.Table.{KeepsEntries};
ghost use Rattle.mau_evaluation.specs.Program.{Rule};
ghost use Rattle.mau_evaluation.specs.RuleRuns.{Turns, cyclically};
ghost use Rattle.mau_api.specs.Terms.{IsTerm};
ghost use Rattle.mau_api.specs.Programs.{program_over};
ghost use Rattle.mau_api.specs.Answers.{AreSettled};
ghost use Rattle.mau_reduce.specs.ByTop.{top_number};
ghost use Rattle.mau_rules.specs.Runnable.{IsRunnable, GoesBy};
ghost use Rattle.mau_rules.specs.Found.{IsFound, found_stand, item_of, KnownSearch, rules_in, turn_at};
ghost use Rattle.mau_rules.specs.Telling.{TellsBehind, TellsFound};
ghost use Rattle.mau_rules.specs.ByTop.{numbers_under};

use crate::attempt::{Found, by_rule};
use crate::by_top::{numbers_under, top_number};
use mau_api::{EvalEnd, Evaluator, Lister, Program, StepWatcher};
use mau_store::Store;
use mau_terms::TermId;

/// The place in a list of what stands at a place of its cyclic order, which begins behind the first `turn`.
fn cyclic(turn: usize, index: usize, count: usize) -> usize
    requires { index < count }
    ensures within { result < count }
    ensures place { (qs : List (ℕ × Rule)) (e : ℕ × Rule) → length qs ≡ count → slice_index_or (cyclically turn qs) index e ≡ slice_index_or qs result e }
{
    if turn >= count {
        return index;
    }
    let behind = count - turn;
    if index < behind {
        turn + index
    } else {
        index - behind
    }
}

/// How many of these numbers are below a turn.
fn below_turn(numbers: &[usize], turn: usize) -> usize
    ensures { result ≡ count_by (λ number. nat_lt number turn) numbers.now }
{
    numbers.iter().filter(|number| **number < turn).count()
}

/// The rules at a term that may apply there, cyclically from one behind the first `turn` of all on: the first that has a solution whose
/// condition holds.
pub(crate) fn among<E: Evaluator, L: Lister + Drop, W: StepWatcher>(
    program: &Program,
    store: &mut Store,
    evaluator: &mut E,
    numbers: &[usize],
    turn: usize,
    term: TermId,
    budget: &mut u64,
    watcher: &mut W,
) -> Result<Option<Found>, EvalEnd>
    requires numbers { numbers.now ≡ numbers_under program.now (top_number (tree_at store.old term.0)) }
    requires contexts { L.with_context ≡ true }
    requires runnable { IsRunnable program.now }
    requires goes_by { GoesBy program.now (E.meanings evaluator.old) }
    requires fits { E.fits evaluator.old store.old }
    requires term { IsTerm program.now.sig store.old term.0 }
    requires settled { AreSettled program.now.sig store.old (E.table evaluator.old) (tree_at store.old term.0) }
    ensures known { (g : Turns) (around : Tree → Tree) → turn_at g (tree_at store.old term.0) ≡ turn →
        KnownSearch (item_of (E.meanings evaluator.old) (W.wanted watcher.old))
        (rules_in (program_over program.now (E.meanings evaluator.old).hooks) g (record { term = tree_at store.old term.0; around = around }))
        budget.old (found_stand program.now (program_over program.now (E.meanings evaluator.old).hooks) g (record { term = tree_at store.old term.0; around = around }) store.new)
        result budget.new }
    ensures found { IfOk result (λ o. IfSome o (IsFound program.now store.new (E.table evaluator.new) (tree_at store.old term.0))) }
    ensures term { IfOk result (λ o. IfSome o (λ x. x.term ≡ term)) }
    ensures falls { budget.new ≤ budget.old }
    ensures extends { Extends store.old store.new }
    ensures fits { E.fits evaluator.new store.new }
    ensures kept { KeepsEntries (E.table evaluator.old) (E.table evaluator.new) }
    ensures meanings { E.meanings evaluator.new ≡ E.meanings evaluator.old }
    ensures told { W.wanted watcher.old ≡ true → IfOk result (λ o. IfSome o
        (TellsFound program.now (E.meanings evaluator.old).hooks store.new (E.table evaluator.new) (W.told watcher.old) (W.told watcher.new))) }
    ensures untold { IfOk result (λ o. IfNone o (W.told watcher.new ≡ W.told watcher.old)) }
    ensures behind { TellsBehind (W.wanted watcher.old) (W.told watcher.old) (W.told watcher.new) }
    ensures wanted { W.wanted watcher.new ≡ W.wanted watcher.old }
{
    let count = numbers.len();
    let first = below_turn(numbers, turn);
    for index in 0..count {
        let number = numbers[cyclic(first, index, count)];
        match by_rule::<E, L, W>(program, store, evaluator, number, term, budget, watcher) {
            Ok(Some(found)) => return Ok(Some(found)),
            Ok(None) => (),
            Err(end) => return Err(end),
        }
    }
    Ok(None)
}

/// The rules at a term, cyclically from one behind the first `turn` on: the first that has a solution whose condition holds.
pub fn at_place<E: Evaluator, L: Lister + Drop, W: StepWatcher>(
    program: &Program,
    store: &mut Store,
    evaluator: &mut E,
    turn: usize,
    term: TermId,
    budget: &mut u64,
    watcher: &mut W,
) -> Result<Option<Found>, EvalEnd>
    requires contexts { L.with_context ≡ true }
    requires runnable { IsRunnable program.now }
    requires goes_by { GoesBy program.now (E.meanings evaluator.old) }
    requires fits { E.fits evaluator.old store.old }
    requires term { IsTerm program.now.sig store.old term.0 }
    requires settled { AreSettled program.now.sig store.old (E.table evaluator.old) (tree_at store.old term.0) }
    ensures known { (g : Turns) (around : Tree → Tree) → turn_at g (tree_at store.old term.0) ≡ turn →
        KnownSearch (item_of (E.meanings evaluator.old) (W.wanted watcher.old))
        (rules_in (program_over program.now (E.meanings evaluator.old).hooks) g (record { term = tree_at store.old term.0; around = around }))
        budget.old (found_stand program.now (program_over program.now (E.meanings evaluator.old).hooks) g (record { term = tree_at store.old term.0; around = around }) store.new)
        result budget.new }
    ensures found { IfOk result (λ o. IfSome o (IsFound program.now store.new (E.table evaluator.new) (tree_at store.old term.0))) }
    ensures term { IfOk result (λ o. IfSome o (λ x. x.term ≡ term)) }
    ensures falls { budget.new ≤ budget.old }
    ensures extends { Extends store.old store.new }
    ensures fits { E.fits evaluator.new store.new }
    ensures kept { KeepsEntries (E.table evaluator.old) (E.table evaluator.new) }
    ensures meanings { E.meanings evaluator.new ≡ E.meanings evaluator.old }
    ensures told { W.wanted watcher.old ≡ true → IfOk result (λ o. IfSome o
        (TellsFound program.now (E.meanings evaluator.old).hooks store.new (E.table evaluator.new) (W.told watcher.old) (W.told watcher.new))) }
    ensures untold { IfOk result (λ o. IfNone o (W.told watcher.new ≡ W.told watcher.old)) }
    ensures behind { TellsBehind (W.wanted watcher.old) (W.told watcher.old) (W.told watcher.new) }
    ensures wanted { W.wanted watcher.new ≡ W.wanted watcher.old }
{
    let top = top_number(store, &program.sig, term);
    let numbers = match numbers_under(store.allocator(), program, top) {
        Ok(numbers) => numbers,
        Err(_) => return Err(EvalEnd::NoMemory),
    };
    among::<E, L, W>(
        program, store, evaluator, &numbers, turn, term, budget, watcher,
    )
}
