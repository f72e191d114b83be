//! One round of a run: a rewrite at the first place at which a rule applies, and the value of the whole term behind it.
ghost use Rattle.std.specs.Prelude.{◌≡◌, ◌≤◌, ◌<◌, ◌+◌, ℕ, List, map, length, suc, true, None, Ok, IfOk, IfSome, IfNone};
ghost use Rattle.mau_terms.specs.Bare.{IsLawful};
ghost use Rattle.mau_signature.specs.Signature.{terms_over};
ghost use Rattle.mau_store.specs.Node.{Extends};
ghost use Rattle.mau_store.specs.Trees.{tree_at};
ghost use Rattle.mau_sorts.specs.Table.{KeepsEntries};
ghost use Rattle.mau_evaluation.specs.RuleRuns.{turn_to};
ghost use Rattle.mau_api.specs.Terms.{IsTerm};
ghost use Rattle.mau_api.specs.Programs.{program_over};
ghost use Rattle.mau_api.specs.Events.{Event};
ghost use Rattle.mau_api.specs.Told.{shown_count};
ghost use Rattle.mau_api.specs.Answers.{AreSettled};
ghost use Rattle.mau_rules.specs.Runnable.{IsRunnable, GoesBy};
ghost use Rattle.mau_rules.specs.Runs.{turns_of, stand_of, IsRunOf};
ghost use Rattle.mau_rules.specs.Rounds.{KnownUse, KnownRound};
ghost use Rattle.mau_rules.specs.Found.{IsFound, item_of, found_tree};
ghost use Rattle.mau_rules.specs.ByTop.{IsByTop};
ghost use Rattle.mau_rules.specs.Walk.{opened, around_all, IsPath, IsWalk};
ghost use Rattle.mau_rules.specs.Telling.{TellsBehind, TellsFound, TellsRules};

use crate::RuleRun;
use crate::attempt::Found;
use crate::by_top::RulesByTop;
use crate::one::one_rewrite;
use crate::telling::tell_use;
use crate::walk::Open;
use crate::whole::rewritten;
use mau_api::{EvalEnd, Evaluator, Lister, Program, Reduced, StepWatcher};
use mau_signature::Signature;
use mau_store::{NodeView, Store};
use mau_terms::TermId;

/// The value of the whole term that a use of a rule leads to. The use takes one from the budget, and is counted.
pub(crate) fn value_behind<E: Evaluator, W: StepWatcher>(
    program: &Program,
    store: &mut Store,
    evaluator: &mut E,
    way: &[Open],
    found: &Found,
    budget: &mut u64,
    watcher: &mut W,
) -> Result<Reduced, EvalEnd>
    requires runnable { IsRunnable program.now }
    requires goes_by { GoesBy program.now (E.meanings evaluator.old) }
    requires fits { E.fits evaluator.old store.old }
    requires walk { (root : ℕ) × IsWalk program.now.sig store.old root way.now found.now.term.0 }
    requires found { IsFound program.now store.old (E.table evaluator.old) (tree_at store.old found.now.term.0) found.now }
    ensures known { KnownUse (item_of (E.meanings evaluator.old) (W.wanted watcher.old)) (program_over program.now (E.meanings evaluator.old).hooks)
        (around_all (λ v. v) (map (opened store.old) way.now) (found_tree program.now store.old found.now)) budget.old store.new result budget.new }
    ensures term { IfOk result (λ x. IsTerm program.now.sig store.new x.term.0) }
    ensures settled { IfOk result (λ x. AreSettled program.now.sig store.new (E.table evaluator.new) (tree_at store.new x.term.0)) }
    ensures falls { budget.new ≤ budget.old }
    ensures extends { Extends store.old store.new }
    ensures fits { E.fits evaluator.new store.new }
    ensures kept { KeepsEntries (E.table evaluator.old) (E.table evaluator.new) }
    ensures meanings { E.meanings evaluator.new ≡ E.meanings evaluator.old }
    ensures told { W.wanted watcher.old ≡ true → IfOk result (λ x. (front : List Event) (root : ℕ) → IsPath store.old root way.now found.now.term.0 →
        TellsFound program.now (E.meanings evaluator.old).hooks store.old (E.table evaluator.old) front (W.told watcher.old) found.now →
        TellsRules program.now (E.meanings evaluator.old).hooks store.new (E.table evaluator.new) front (W.told watcher.new)
        (tree_at store.old root) (tree_at store.new x.term.0) (shown_count (found.now.rewrites + x.rewrites))) }
    ensures behind { TellsBehind (W.wanted watcher.old) (W.told watcher.old) (W.told watcher.new) }
    ensures wanted { W.wanted watcher.new ≡ W.wanted watcher.old }
{
    if *budget == 0 {
        return Err(EvalEnd::Stopped);
    }
    *budget -= 1;
    let _ = store.len();
    let whole = match rewritten(store, program, way, found) {
        Ok(whole) => whole,
        Err(end) => return Err(end),
    };
    match tell_use(store, program, way, found, whole, watcher) {
        Ok(()) => (),
        Err(_) => return Err(EvalEnd::NoMemory),
    }
    match evaluator.evaluate(store, whole, budget, watcher) {
        Ok(value) => Ok(Reduced {
            term: value.term,
            rewrites: value.rewrites.saturating_add(1),
        }),
        Err(end) => Err(end),
    }
}

/// So many rules stand before the next one that is tried first at the operator on top of a term.
pub(crate) fn turn_on(
    store: &Store,
    sig: &Signature,
    turns: &mut Vec<usize>,
    term: TermId,
    next: usize,
)
    requires lawful { IsLawful (terms_over sig.now) }
    requires term { IsTerm sig.now store.now term.0 }
    requires turns { length turns.old.items ≡ suc (length sig.now.declarations) }
    ensures turns { turns_of turns.new.items ≡ turn_to (turns_of turns.old.items) (tree_at store.now term.0) next }
    ensures as_many { length turns.new.items ≡ suc (length sig.now.declarations) }
{
    match store.view(term) {
        NodeView::App(op, _) => turns[op.0 as usize] = next,
        NodeView::Num(_) | NodeView::Var(_) => (),
    }
}

/// How many rules stand before the one behind a rule.
pub(crate) fn next_turn(program: &Program, number: usize) -> usize
    requires { number < length program.now.rules }
    ensures { result ≡ suc number }
{
    let _ = program.rules.items().len();
    number + 1
}

/// One rewrite of an evaluated term, and the value of the whole term behind it: how many applications that took, or none where no rule
/// applies at any place.
pub(crate) fn round<E: Evaluator, L: Lister + Drop, W: StepWatcher>(
    run: &mut RuleRun,
    program: &Program,
    store: &mut Store,
    evaluator: &mut E,
    by_top: &mut RulesByTop,
    budget: &mut u64,
    watcher: &mut W,
) -> Result<Option<u64>, EvalEnd>
    requires contexts { L.with_context ≡ true }
    requires runnable { IsRunnable program.now }
    requires goes_by { GoesBy program.now (E.meanings evaluator.old) }
    requires fits { E.fits evaluator.old store.old }
    requires run { IsRunOf program.now store.old run.old }
    requires settled { AreSettled program.now.sig store.old (E.table evaluator.old) (tree_at store.old run.old.term.0) }
    requires by_top { IsByTop program.now store.old by_top.old }
    ensures known { KnownRound (item_of (E.meanings evaluator.old) (W.wanted watcher.old)) (program_over program.now (E.meanings evaluator.old).hooks)
        (stand_of store.old run.old) budget.old (stand_of store.new run.new) result budget.new }
    ensures run { IsRunOf program.now store.new run.new }
    ensures settled { IfOk result (λ _. AreSettled program.now.sig store.new (E.table evaluator.new) (tree_at store.new run.new.term.0)) }
    ensures by_top { IsByTop program.now store.new by_top.new }
    ensures unchanged { result ≡ Ok None → run.new ≡ run.old }
    ensures falls { budget.new ≤ budget.old }
    ensures extends { Extends store.old store.new }
    ensures fits { E.fits evaluator.new store.new }
    ensures kept { KeepsEntries (E.table evaluator.old) (E.table evaluator.new) }
    ensures meanings { E.meanings evaluator.new ≡ E.meanings evaluator.old }
    ensures told { W.wanted watcher.old ≡ true → IfOk result (λ o. IfSome o
        (TellsRules program.now (E.meanings evaluator.old).hooks store.new (E.table evaluator.new) (W.told watcher.old) (W.told watcher.new)
        (tree_at store.old run.old.term.0) (tree_at store.new run.new.term.0))) }
    ensures untold { IfOk result (λ o. IfNone o (W.told watcher.new ≡ W.told watcher.old)) }
    ensures behind { TellsBehind (W.wanted watcher.old) (W.told watcher.old) (W.told watcher.new) }
    ensures wanted { W.wanted watcher.new ≡ W.wanted watcher.old }
{
    by_top.note(store);
    let mut way = Vec::new(store.allocator());
    let found = match one_rewrite::<E, L, W>(
        program, store, evaluator, run, by_top, &mut way, budget, watcher,
    ) {
        Ok(Some(found)) => found,
        Ok(None) => return Ok(None),
        Err(end) => return Err(end),
    };
    let _ = store.len();
    let value = match value_behind(program, store, evaluator, &way, &found, budget, watcher) {
        Ok(value) => value,
        Err(end) => return Err(end),
    };
    let next = next_turn(program, found.number);
    turn_on(store, &program.sig, &mut run.turns, found.term, next);
    run.term = value.term;
    Ok(Some(found.rewrites.saturating_add(value.rewrites)))
}
