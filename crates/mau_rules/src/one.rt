//! One rewrite: the first place at which a rule applies.
ghost use Rattle.std.specs.Prelude.{◌≡◌, ◌≤◌, [], map, true, IfOk, IfSome, IfNone};
ghost use Rattle.mau_store.specs.Node.{Extends, IsOf};
ghost use Rattle.mau_store.specs.Trees.{tree_at};
ghost use Rattle.mau_sorts.specs.Table.{KeepsEntries};
ghost use Rattle.mau_api.specs.Programs.{program_over};
ghost use Rattle.mau_api.specs.Answers.{AreSettled};
ghost use Rattle.mau_rules.specs.Runnable.{IsRunnable, GoesBy};
ghost use Rattle.mau_rules.specs.Runs.{turns_of, stand_of, IsRunOf};
ghost use Rattle.mau_rules.specs.Found.{IsFound, found_stand, item_of, KnownSearch, one_by, turn_at};
ghost use Rattle.mau_rules.specs.Telling.{TellsBehind, TellsFound};
ghost use Rattle.mau_rules.specs.ByTop.{IsByTop};
ghost use Rattle.mau_rules.specs.Walk.{opened, around_all, IsPath};

use crate::RuleRun;
use crate::attempt::Found;
use crate::by_top::RulesByTop;
use crate::search::among;
use crate::walk::{Open, next_place};
use mau_api::{EvalEnd, Evaluator, Lister, Program, StepWatcher};
use mau_store::{NodeView, Store};
use mau_terms::TermId;

/// How many rules stand before the one that is tried first at a term.
pub(crate) fn turn_for(store: &Store, turns: &[usize], term: TermId) -> usize
    requires { IsOf store.now term.0 }
    ensures { turn_at (turns_of turns.now) (tree_at store.now term.0) ≡ result }
{
    match store.view(term) {
        NodeView::App(op, _) => {
            let index = op.0 as usize;
            if index < turns.len() { turns[index] } else { 0 }
        }
        NodeView::Num(_) | NodeView::Var(_) => 0,
    }
}

/// The first place of a run's term, in pre-order and outside frozen arguments, at which a rule applies, with that use of the rule;
/// and the terms that are open on the way to it.
pub(crate) fn one_rewrite<E: Evaluator, L: Lister + Drop, W: StepWatcher>(
    program: &Program,
    store: &mut Store,
    evaluator: &mut E,
    run: &RuleRun,
    by_top: &RulesByTop,
    way: &mut Vec<Open>,
    budget: &mut u64,
    watcher: &mut W,
) -> Result<Option<Found>, EvalEnd>
    requires contexts { L.with_context ≡ true }
    requires runnable { IsRunnable program.now }
    requires goes_by { GoesBy program.now (E.meanings evaluator.old) }
    requires fits { E.fits evaluator.old store.old }
    requires run { IsRunOf program.now store.old run.now }
    requires settled { AreSettled program.now.sig store.old (E.table evaluator.old) (tree_at store.old run.now.term.0) }
    requires by_top { IsByTop program.now store.old by_top.now }
    requires way { way.old.items ≡ [] }
    ensures known { KnownSearch (item_of (E.meanings evaluator.old) (W.wanted watcher.old))
        (one_by (program_over program.now (E.meanings evaluator.old).hooks) (stand_of store.old run.now))
        budget.old (λ x. found_stand program.now (program_over program.now (E.meanings evaluator.old).hooks) (turns_of run.now.turns.items)
        (record { term = tree_at store.new x.term.0; around = around_all (λ v. v) (map (opened store.new) way.new.items) }) store.new x)
        result budget.new }
    ensures found { IfOk result (λ o. IfSome o (λ x. IsFound program.now store.new (E.table evaluator.new) (tree_at store.new x.term.0) x)) }
    ensures path { IfOk result (λ o. IfSome o (λ x. IsPath store.new run.now.term.0 way.new.items x.term.0)) }
    ensures falls { budget.new ≤ budget.old }
    ensures extends { Extends store.old store.new }
    ensures fits { E.fits evaluator.new store.new }
    ensures kept { KeepsEntries (E.table evaluator.old) (E.table evaluator.new) }
    ensures meanings { E.meanings evaluator.new ≡ E.meanings evaluator.old }
    ensures told { W.wanted watcher.old ≡ true → IfOk result (λ o. IfSome o
        (TellsFound program.now (E.meanings evaluator.old).hooks store.new (E.table evaluator.new) (W.told watcher.old) (W.told watcher.new))) }
    ensures untold { IfOk result (λ o. IfNone o (W.told watcher.new ≡ W.told watcher.old)) }
    ensures behind { TellsBehind (W.wanted watcher.old) (W.told watcher.old) (W.told watcher.new) }
    ensures wanted { W.wanted watcher.new ≡ W.wanted watcher.old }
{
    let mut due = run.term;
    for _ in 0..u64::MAX {
        let _ = store.len();
        let turn = turn_for(store, &run.turns, due);
        let numbers = by_top.numbers_at(program, store, due);
        match among::<E, L, W>(
            program, store, evaluator, numbers, turn, due, budget, watcher,
        ) {
            Ok(Some(found)) => return Ok(Some(found)),
            Ok(None) => (),
            Err(end) => return Err(end),
        }
        let skip = by_top.skips(due);
        match next_place(store, &program.sig, way, due, skip) {
            Ok(Some(next)) => due = next,
            Ok(None) => return Ok(None),
            Err(_) => return Err(EvalEnd::NoMemory),
        }
    }
    Err(EvalEnd::NoMemory)
}
