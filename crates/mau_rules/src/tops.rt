//! What a pass of frewrite makes of one term whose arguments were passed over.
ghost use Rattle.std.specs.Prelude.{◌≡◌, ◌≤◌, ℕ, map, true, false, None, Ok, IfOk, IfSome, IfNone};
ghost use Rattle.mau_terms.specs.Norm.{norm};
ghost use Rattle.mau_terms.specs.Bare.{IsLawful};
ghost use Rattle.mau_signature.specs.Signature.{theory_at, terms_over};
ghost use Rattle.mau_store.specs.Node.{Extends};
ghost use Rattle.mau_store.specs.Trees.{tree_at};
ghost use Rattle.mau_sorts.specs.Table.{KeepsEntries};
ghost use Rattle.mau_evaluation.specs.Run.{Run};
ghost use Rattle.mau_evaluation.specs.RuleRuns.{PassEnd, is_out};
ghost use Rattle.mau_api.specs.Terms.{IsTerm, IsNormalTerm};
ghost use Rattle.mau_api.specs.Programs.{program_over};
ghost use Rattle.mau_api.specs.Answers.{AreSettled};
ghost use Rattle.mau_rules.specs.Runnable.{IsRunnable, GoesBy};
ghost use Rattle.mau_rules.specs.Runs.{turns_of, IsRunOf};
ghost use Rattle.mau_rules.specs.Found.{item_of};
ghost use Rattle.mau_rules.specs.Telling.{TellsBehind, TellsRules, TellsPart};
ghost use Rattle.mau_rules.specs.ByTop.{AreRulesByTop};
ghost use Rattle.mau_rules.specs.Walk.{MayReplace};
ghost use Rattle.mau_rules.specs.Counted.{IsCounted};
ghost use Rattle.mau_rules.specs.Passes.{frame_in, IsFrame, Onward, tops_by, top_by, pass_with, KnownOnce, KnownTerm};

use crate::RuleRun;
use crate::by_top::RulesByTop;
use crate::frames::{Frame, rebuilt};
use crate::one::turn_for;
use crate::round::{next_turn, turn_on, value_behind};
use crate::run::{is_out, one_less};
use crate::search::among;
use mau_api::{EvalEnd, Evaluator, Lister, Program, Reduced, StepWatcher};
use mau_reduce::hole_for;
use mau_signature::Signature;
use mau_store::Store;
use mau_terms::TermId;

/// What a run of frewrite goes by and has done: the rewrites at each top of a pass, those that may still be made, whether the pass made
/// one, all applications that count, and the rules by their tops.
#[derive(Drop)]
pub(crate) struct Tally {
    pub(crate) gas: u64,
    pub(crate) left: Option<u64>,
    pub(crate) made: bool,
    pub(crate) rewrites: u64,
    pub(crate) by_top: RulesByTop,
}

/// Whether a term may stand in the place of another: they are of one kind.
fn may_replace(store: &Store, sig: &Signature, old: TermId, new: TermId) -> bool
    requires lawful { IsLawful (terms_over sig.now) }
    requires old { IsTerm sig.now store.now old.0 }
    requires new { IsTerm sig.now store.now new.0 }
    ensures { result ≡ true → MayReplace sig.now store.now old.0 new.0 }
{
    hole_for(store, sig, old).sort == hole_for(store, sig, new).sort
}

/// One rewrite at the top of an evaluated term, and the value behind it, or none.
fn once<E: Evaluator, L: Lister + Drop, W: StepWatcher>(
    run: &mut RuleRun,
    program: &Program,
    store: &mut Store,
    evaluator: &mut E,
    by_top: &RulesByTop,
    term: TermId,
    budget: &mut u64,
    watcher: &mut W,
) -> Result<Option<Reduced>, EvalEnd>
    requires contexts { L.with_context ≡ true }
    requires runnable { IsRunnable program.now }
    requires goes_by { GoesBy program.now (E.meanings evaluator.old) }
    requires fits { E.fits evaluator.old store.old }
    requires run { IsRunOf program.now store.old run.old }
    requires term { IsTerm program.now.sig store.old term.0 }
    requires settled { AreSettled program.now.sig store.old (E.table evaluator.old) (tree_at store.old term.0) }
    requires by_top { AreRulesByTop program.now (map (λ list. list.items) by_top.now.orders.items) }
    ensures known { KnownOnce (item_of (E.meanings evaluator.old) (W.wanted watcher.old)) (program_over program.now (E.meanings evaluator.old).hooks)
        (record { term = tree_at store.old term.0; turns = turns_of run.old.turns.items }) budget.old (turns_of run.new.turns.items) store.new result budget.new }
    ensures run { IsRunOf program.now store.new run.new }
    ensures unchanged { result ≡ Ok None → run.new ≡ run.old }
    ensures term { IfOk result (λ o. IfSome o (λ x. IsTerm program.now.sig store.new x.term.0)) }
    ensures settled { IfOk result (λ o. IfSome o (λ x. AreSettled program.now.sig store.new (E.table evaluator.new) (tree_at store.new x.term.0))) }
    ensures falls { budget.new ≤ budget.old }
    ensures extends { Extends store.old store.new }
    ensures fits { E.fits evaluator.new store.new }
    ensures kept { KeepsEntries (E.table evaluator.old) (E.table evaluator.new) }
    ensures meanings { E.meanings evaluator.new ≡ E.meanings evaluator.old }
    ensures told { W.wanted watcher.old ≡ true → IfOk result (λ o. IfSome o (λ x.
        TellsRules program.now (E.meanings evaluator.old).hooks store.new (E.table evaluator.new) (W.told watcher.old) (W.told watcher.new)
        (tree_at store.old term.0) (tree_at store.new x.term.0) x.rewrites)) }
    ensures untold { IfOk result (λ o. IfNone o (W.told watcher.new ≡ W.told watcher.old)) }
    ensures behind { TellsBehind (W.wanted watcher.old) (W.told watcher.old) (W.told watcher.new) }
    ensures wanted { W.wanted watcher.new ≡ W.wanted watcher.old }
{
    let _ = store.len();
    let turn = turn_for(store, &run.turns, term);
    let numbers = by_top.numbers_at(program, store, term);
    let found = match among::<E, L, W>(
        program, store, evaluator, numbers, turn, term, budget, watcher,
    ) {
        Ok(Some(found)) => found,
        Ok(None) => return Ok(None),
        Err(end) => return Err(end),
    };
    let value = match value_behind(program, store, evaluator, &[], &found, budget, watcher) {
        Ok(value) => value,
        Err(end) => return Err(end),
    };
    let next = next_turn(program, found.number);
    turn_on(store, &program.sig, &mut run.turns, term, next);
    Ok(Some(Reduced {
        term: value.term,
        rewrites: found.rewrites.saturating_add(value.rewrites),
    }))
}

/// Up to so many rewrites at the top of an evaluated term, each followed by evaluation.
fn tops<E: Evaluator, L: Lister + Drop, W: StepWatcher>(
    run: &mut RuleRun,
    program: &Program,
    store: &mut Store,
    evaluator: &mut E,
    tally: &mut Tally,
    term: TermId,
    budget: &mut u64,
    watcher: &mut W,
) -> Result<TermId, EvalEnd>
    requires contexts { L.with_context ≡ true }
    requires runnable { IsRunnable program.now }
    requires goes_by { GoesBy program.now (E.meanings evaluator.old) }
    requires fits { E.fits evaluator.old store.old }
    requires run { IsRunOf program.now store.old run.old }
    requires term { IsTerm program.now.sig store.old term.0 }
    requires settled { AreSettled program.now.sig store.old (E.table evaluator.old) (tree_at store.old term.0) }
    requires by_top { AreRulesByTop program.now (map (λ list. list.items) tally.old.by_top.orders.items) }
    ensures known { (f : ℕ → ℕ → Run PassEnd) (b0 : ℕ) (K : Onward) →
        IsCounted (item_of (E.meanings evaluator.old) (W.wanted watcher.old)) f b0 tally.old.rewrites
        (tops_by (program_over program.now (E.meanings evaluator.old).hooks) tally.old.gas (pass_with (tree_at store.old term.0) (turns_of run.old.turns.items) tally.old) K) budget.old →
        KnownTerm (item_of (E.meanings evaluator.old) (W.wanted watcher.old)) f b0 K store.new (turns_of run.new.turns.items) tally.new result budget.new }
    ensures gas { tally.new.gas ≡ tally.old.gas }
    ensures by_top { tally.new.by_top ≡ tally.old.by_top }
    ensures run { IsRunOf program.now store.new run.new }
    ensures term { IfOk result (λ id. IsTerm program.now.sig store.new id.0) }
    ensures settled { IfOk result (λ id. AreSettled program.now.sig store.new (E.table evaluator.new) (tree_at store.new id.0)) }
    ensures falls { budget.new ≤ budget.old }
    ensures extends { Extends store.old store.new }
    ensures fits { E.fits evaluator.new store.new }
    ensures kept { KeepsEntries (E.table evaluator.old) (E.table evaluator.new) }
    ensures meanings { E.meanings evaluator.new ≡ E.meanings evaluator.old }
    ensures told { W.wanted watcher.old ≡ true → IfOk result (λ id.
        TellsPart program.now (E.meanings evaluator.old).hooks store.new (E.table evaluator.new) (W.told watcher.old) (W.told watcher.new)
        (tree_at store.old term.0) (tree_at store.new id.0) tally.old.rewrites tally.new.rewrites) }
    ensures behind { TellsBehind (W.wanted watcher.old) (W.told watcher.old) (W.told watcher.new) }
    ensures wanted { W.wanted watcher.new ≡ W.wanted watcher.old }
{
    let mut reached = term;
    let gas = tally.gas;
    for _ in 0..gas {
        if is_out(tally.left) {
            return Ok(reached);
        }
        match once::<E, L, W>(
            run,
            program,
            store,
            evaluator,
            &tally.by_top,
            reached,
            budget,
            watcher,
        ) {
            Ok(Some(value)) => {
                reached = value.term;
                tally.left = one_less(tally.left);
                tally.made = true;
                tally.rewrites = tally.rewrites.saturating_add(value.rewrites);
            }
            Ok(None) => return Ok(reached),
            Err(end) => return Err(end),
        }
    }
    Ok(reached)
}

/// What a term gives whose arguments were passed over: it is built again and evaluated, and then rewritten at its top. Where this is of
/// another kind than the term, which no lawful program leads to, the run is given up.
pub(crate) fn passed<E: Evaluator, L: Lister + Drop, W: StepWatcher>(
    run: &mut RuleRun,
    program: &Program,
    store: &mut Store,
    evaluator: &mut E,
    tally: &mut Tally,
    at: &Frame,
    budget: &mut u64,
    watcher: &mut W,
) -> Result<TermId, EvalEnd>
    requires contexts { L.with_context ≡ true }
    requires runnable { IsRunnable program.now }
    requires goes_by { GoesBy program.now (E.meanings evaluator.old) }
    requires fits { E.fits evaluator.old store.old }
    requires run { IsRunOf program.now store.old run.old }
    requires frame { IsFrame program.now.sig store.old at.now }
    requires more { is_out tally.old.left ≡ false }
    requires by_top { AreRulesByTop program.now (map (λ list. list.items) tally.old.by_top.orders.items) }
    ensures known { (f : ℕ → ℕ → Run PassEnd) (b0 : ℕ) (K : Onward) →
        IsCounted (item_of (E.meanings evaluator.old) (W.wanted watcher.old)) f b0 tally.old.rewrites
        (top_by (program_over program.now (E.meanings evaluator.old).hooks) tally.old.gas (pass_with (frame_in store.old at.now).0 (turns_of run.old.turns.items) tally.old) K) budget.old →
        KnownTerm (item_of (E.meanings evaluator.old) (W.wanted watcher.old)) f b0 K store.new (turns_of run.new.turns.items) tally.new result budget.new }
    ensures gas { tally.new.gas ≡ tally.old.gas }
    ensures by_top { tally.new.by_top ≡ tally.old.by_top }
    ensures run { IsRunOf program.now store.new run.new }
    ensures kind { IfOk result (λ id. MayReplace program.now.sig store.new at.now.term.0 id.0) }
    ensures settled { IfOk result (λ id. AreSettled program.now.sig store.new (E.table evaluator.new) (tree_at store.new id.0)) }
    ensures falls { budget.new ≤ budget.old }
    ensures extends { Extends store.old store.new }
    ensures fits { E.fits evaluator.new store.new }
    ensures kept { KeepsEntries (E.table evaluator.old) (E.table evaluator.new) }
    ensures meanings { E.meanings evaluator.new ≡ E.meanings evaluator.old }
    ensures told { W.wanted watcher.old ≡ true → IfOk result (λ id.
        TellsPart program.now (E.meanings evaluator.old).hooks store.new (E.table evaluator.new) (W.told watcher.old) (W.told watcher.new)
        (norm (theory_at program.now.sig) (frame_in store.old at.now).0) (tree_at store.new id.0) tally.old.rewrites tally.new.rewrites) }
    ensures normal { IfOk result (λ _. IsNormalTerm program.now.sig (norm (theory_at program.now.sig) (frame_in store.old at.now).0)) }
    ensures behind { TellsBehind (W.wanted watcher.old) (W.told watcher.old) (W.told watcher.new) }
    ensures wanted { W.wanted watcher.new ≡ W.wanted watcher.old }
{
    let whole = match rebuilt(store, &program.sig, at) {
        Ok(whole) => whole,
        Err(end) => return Err(end),
    };
    let value = match evaluator.evaluate(store, whole, budget, watcher) {
        Ok(value) => value,
        Err(end) => return Err(end),
    };
    tally.rewrites = tally.rewrites.saturating_add(value.rewrites);
    let term = match tops::<E, L, W>(
        run, program, store, evaluator, tally, value.term, budget, watcher,
    ) {
        Ok(term) => term,
        Err(end) => return Err(end),
    };
    if may_replace(store, &program.sig, at.term, term) {
        Ok(term)
    } else {
        Err(EvalEnd::NoMemory)
    }
}
