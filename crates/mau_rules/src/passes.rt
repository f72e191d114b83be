//! Passes of frewrite over the whole term of a run.
ghost use Rattle.std.specs.Prelude.{◌≡◌, ◌≤◌, ◌-◌, ◌++◌, ◌∷◌, [], ℕ, map, true, false, IfOk, OnOk, IsSome};
ghost use Rattle.mau_terms.specs.Tree.{Tree};
ghost use Rattle.mau_terms.specs.Bare.{IsLawful};
ghost use Rattle.mau_signature.specs.Signature.{theory_at, terms_over};
ghost use Rattle.mau_store.specs.Node.{Extends};
ghost use Rattle.mau_store.specs.Trees.{tree_at, StandsFor};
ghost use Rattle.mau_sorts.specs.Table.{KeepsEntries};
ghost use Rattle.mau_evaluation.specs.Run.{Run};
ghost use Rattle.mau_evaluation.specs.RuleRuns.{PassEnd, is_out};
ghost use Rattle.mau_api.specs.Terms.{IsTerm};
ghost use Rattle.mau_api.specs.Programs.{program_over};
ghost use Rattle.mau_api.specs.Events.{entered};
ghost use Rattle.mau_api.specs.declared.step.Place.TheVariants.{Whole, Argument};
ghost use Rattle.mau_api.specs.Answers.{AreSettled};
ghost use Rattle.mau_rules.specs.Runnable.{IsRunnable, GoesBy};
ghost use Rattle.mau_rules.specs.Runs.{turns_of, stand_of, IsRunOf};
ghost use Rattle.mau_rules.specs.Found.{item_of};
ghost use Rattle.mau_rules.specs.Counted.{IsCounted};
ghost use Rattle.mau_rules.specs.Telling.{TellsBehind, TellsPart};
ghost use Rattle.mau_rules.specs.ByTop.{AreRulesByTop};
ghost use Rattle.mau_rules.specs.Passes.{frame_in, IsFrame, IsChain, IsNext, open_by, passing_by, behind_pass, pass_with, KnownWhole, KnownRest};

use crate::frames::{Frame, close_all, next_argument, open_term, put_in};
use crate::run::is_out;
use crate::telling::{tell_argument, tell_entry, tell_exit};
use crate::tops::{Tally, passed};
use crate::{RuleEnd, RuleRun};
use mau_api::{EvalEnd, Evaluator, Lister, Program, StepWatcher};
use mau_signature::Signature;
use mau_store::Store;
use mau_terms::{NoMemory, TermId};

/// The whole term is opened, as a pass over it begins.
fn open_whole<W: StepWatcher>(
    store: &Store,
    sig: &Signature,
    term: TermId,
    watcher: &mut W,
) -> Result<Frame, NoMemory>
    requires lawful { IsLawful (terms_over sig.now) }
    requires term { IsTerm sig.now store.now term.0 }
    ensures stands { IfOk result (λ x. frame_in store.now x ≡ (tree_at store.now term.0, 0)) }
    ensures frame { IfOk result (IsFrame sig.now store.now) }
    ensures term { IfOk result (λ x. x.term ≡ term) }
    ensures told { OnOk result (W.wanted watcher.old ≡ true → W.told watcher.new ≡ W.told watcher.old ++ entered term Whole ∷ []) }
    ensures behind { TellsBehind (W.wanted watcher.old) (W.told watcher.old) (W.told watcher.new) }
    ensures wanted { W.wanted watcher.new ≡ W.wanted watcher.old }
{
    tell_entry(watcher, term)?;
    open_term(store, sig, term)
}

/// The next argument of the innermost open term is entered: it becomes the innermost one.
fn enter<W: StepWatcher>(
    store: &Store,
    sig: &Signature,
    frames: &mut Vec<Frame>,
    at: Frame,
    next: usize,
    child: TermId,
    watcher: &mut W,
) -> Result<Frame, NoMemory>
    requires lawful { IsLawful (terms_over sig.now) }
    requires frame { IsFrame sig.now store.now at }
    requires chain { (root : ℕ) × IsChain sig.now store.now root frames.old.items at.term.0 }
    requires next { IsNext sig.now store.now at next child.0 }
    ensures stands { IfOk result (λ x. frame_in store.now x ≡ (tree_at store.now child.0, 0)) }
    ensures frame { IfOk result (IsFrame sig.now store.now) }
    ensures term { IfOk result (λ x. x.term ≡ child) }
    ensures chain { IfOk result (λ x. (root : ℕ) × IsChain sig.now store.now root frames.new.items x.term.0) }
    ensures frames { IfOk result (λ x. map (frame_in store.now) frames.new.items ≡ map (frame_in store.now) frames.old.items ++ ((frame_in store.now at).0, next) ∷ []) }
    ensures pushed { OnOk result ((x : Frame) × (x.term ≡ at.term) × (x.args.items ≡ at.args.items) × (x.next ≡ next) × (frames.new.items ≡ frames.old.items ++ x ∷ [])) }
    ensures told { OnOk result (W.wanted watcher.old ≡ true → W.told watcher.new ≡ W.told watcher.old ++ entered child (Argument (next - 1)) ∷ []) }
    ensures behind { TellsBehind (W.wanted watcher.old) (W.told watcher.old) (W.told watcher.new) }
    ensures wanted { W.wanted watcher.new ≡ W.wanted watcher.old }
{
    let _ = store.len();
    let inner = open_term(store, sig, child)?;
    tell_argument(watcher, child, next)?;
    let mut outer = at;
    outer.next = next;
    frames.push(outer)?;
    Ok(inner)
}

/// A pass over the whole term: what it gives, or, once as many rewrites as may be were made, the term as it stands then.
fn pass<E: Evaluator, L: Lister + Drop, W: StepWatcher>(
    run: &mut RuleRun,
    program: &Program,
    store: &mut Store,
    evaluator: &mut E,
    tally: &mut Tally,
    budget: &mut u64,
    watcher: &mut W,
) -> Result<TermId, EvalEnd>
    requires contexts { L.with_context ≡ true }
    requires runnable { IsRunnable program.now }
    requires goes_by { GoesBy program.now (E.meanings evaluator.old) }
    requires fits { E.fits evaluator.old store.old }
    requires run { IsRunOf program.now store.old run.old }
    requires more { is_out tally.old.left ≡ false }
    requires by_top { AreRulesByTop program.now (map (λ list. list.items) tally.old.by_top.orders.items) }
    ensures known { (f : ℕ → ℕ → Run PassEnd) (b0 : ℕ) →
        IsCounted (item_of (E.meanings evaluator.old) (W.wanted watcher.old)) f b0 tally.old.rewrites
        (open_by (program_over program.now (E.meanings evaluator.old).hooks) tally.old.gas (tree_at store.old run.old.term.0, 0)
        (pass_with (tree_at store.old run.old.term.0) (turns_of run.old.turns.items) tally.old) (behind_pass (program_over program.now (E.meanings evaluator.old).hooks) tally.old.gas)) budget.old →
        KnownWhole (item_of (E.meanings evaluator.old) (W.wanted watcher.old)) f b0 (behind_pass (program_over program.now (E.meanings evaluator.old).hooks) tally.old.gas)
        program.now.sig store.new (turns_of run.new.turns.items) tally.new result budget.new }
    ensures gas { tally.new.gas ≡ tally.old.gas }
    ensures by_top { tally.new.by_top ≡ tally.old.by_top }
    ensures run { IsRunOf program.now store.new run.new }
    ensures term { IfOk result (λ id. IsTerm program.now.sig store.new id.0) }
    ensures settled { is_out tally.new.left ≡ false → IfOk result (λ id. AreSettled program.now.sig store.new (E.table evaluator.new) (tree_at store.new id.0)) }
    ensures falls { budget.new ≤ budget.old }
    ensures extends { Extends store.old store.new }
    ensures fits { E.fits evaluator.new store.new }
    ensures kept { KeepsEntries (E.table evaluator.old) (E.table evaluator.new) }
    ensures meanings { E.meanings evaluator.new ≡ E.meanings evaluator.old }
    ensures told { W.wanted watcher.old ≡ true → IfOk result (λ id.
        TellsPart program.now (E.meanings evaluator.old).hooks store.new (E.table evaluator.new) (W.told watcher.old) (W.told watcher.new)
        (tree_at store.old run.old.term.0) (tree_at store.new id.0) tally.old.rewrites tally.new.rewrites) }
    ensures behind { TellsBehind (W.wanted watcher.old) (W.told watcher.old) (W.told watcher.new) }
    ensures wanted { W.wanted watcher.new ≡ W.wanted watcher.old }
{
    let mut frames = Vec::new(store.allocator());
    let mut at = match open_whole(store, &program.sig, run.term, watcher) {
        Ok(at) => at,
        Err(_) => return Err(EvalEnd::NoMemory),
    };
    for _ in 0..u64::MAX {
        let _ = store.len();
        if let Some((next, child)) = next_argument(store, &program.sig, &at) {
            at = match enter(store, &program.sig, &mut frames, at, next, child, watcher) {
                Ok(inner) => inner,
                Err(_) => return Err(EvalEnd::NoMemory),
            };
            continue;
        }
        let term = match passed::<E, L, W>(
            run, program, store, evaluator, tally, &at, budget, watcher,
        ) {
            Ok(term) => term,
            Err(end) => return Err(end),
        };
        let _ = store.len();
        if is_out(tally.left) {
            return close_all(store, program, &mut frames, term, watcher);
        }
        match tell_exit(watcher, term) {
            Ok(()) => (),
            Err(_) => return Err(EvalEnd::NoMemory),
        }
        match frames.pop() {
            Some(outer) => at = put_in(outer, term),
            None => return Ok(term),
        }
    }
    Err(EvalEnd::NoMemory)
}

/// The term of a run is evaluated once as many rewrites as may be were made.
fn last_value<E: Evaluator, W: StepWatcher>(
    run: &mut RuleRun,
    program: &Program,
    store: &mut Store,
    evaluator: &mut E,
    tally: &mut Tally,
    term: TermId,
    budget: &mut u64,
    watcher: &mut W,
) -> Result<Option<RuleEnd>, EvalEnd>
    requires runnable { IsRunnable program.now }
    requires goes_by { GoesBy program.now (E.meanings evaluator.old) }
    requires fits { E.fits evaluator.old store.old }
    requires run { IsRunOf program.now store.old run.old }
    requires term { IsTerm program.now.sig store.old term.0 }
    requires none { is_out tally.old.left ≡ true }
    ensures known { (f : ℕ → ℕ → Run PassEnd) (b0 : ℕ) (t : Tree) → StandsFor (theory_at program.now.sig) store.old term.0 t →
        IsCounted (item_of (E.meanings evaluator.old) (W.wanted watcher.old)) f b0 tally.old.rewrites
        (λ k B. behind_pass (program_over program.now (E.meanings evaluator.old).hooks) tally.old.gas k B (pass_with t (turns_of run.old.turns.items) tally.old)) budget.old →
        KnownRest (item_of (E.meanings evaluator.old) (W.wanted watcher.old)) f b0 (program_over program.now (E.meanings evaluator.old).hooks) store.new run.new tally.new result budget.new }
    ensures ends { IfOk result IsSome }
    ensures gas { tally.new.gas ≡ tally.old.gas }
    ensures by_top { tally.new.by_top ≡ tally.old.by_top }
    ensures run { IsRunOf program.now store.new run.new }
    ensures settled { IfOk result (λ _. AreSettled program.now.sig store.new (E.table evaluator.new) (tree_at store.new run.new.term.0)) }
    ensures falls { budget.new ≤ budget.old }
    ensures extends { Extends store.old store.new }
    ensures fits { E.fits evaluator.new store.new }
    ensures kept { KeepsEntries (E.table evaluator.old) (E.table evaluator.new) }
    ensures meanings { E.meanings evaluator.new ≡ E.meanings evaluator.old }
    ensures told { W.wanted watcher.old ≡ true → IfOk result (λ _.
        TellsPart program.now (E.meanings evaluator.old).hooks store.new (E.table evaluator.new) (W.told watcher.old) (W.told watcher.new)
        (tree_at store.old term.0) (tree_at store.new run.new.term.0) tally.old.rewrites tally.new.rewrites) }
    ensures behind { TellsBehind (W.wanted watcher.old) (W.told watcher.old) (W.told watcher.new) }
    ensures wanted { W.wanted watcher.new ≡ W.wanted watcher.old }
{
    let value = match evaluator.evaluate(store, term, budget, watcher) {
        Ok(value) => value,
        Err(end) => return Err(end),
    };
    tally.rewrites = tally.rewrites.saturating_add(value.rewrites);
    run.term = value.term;
    Ok(Some(RuleEnd::Bound))
}

/// A pass over the whole term and what follows: the run ends so, or another pass follows.
pub(crate) fn pass_on<E: Evaluator, L: Lister + Drop, W: StepWatcher>(
    run: &mut RuleRun,
    program: &Program,
    store: &mut Store,
    evaluator: &mut E,
    tally: &mut Tally,
    budget: &mut u64,
    watcher: &mut W,
) -> Result<Option<RuleEnd>, EvalEnd>
    requires contexts { L.with_context ≡ true }
    requires runnable { IsRunnable program.now }
    requires goes_by { GoesBy program.now (E.meanings evaluator.old) }
    requires fits { E.fits evaluator.old store.old }
    requires run { IsRunOf program.now store.old run.old }
    requires by_top { AreRulesByTop program.now (map (λ list. list.items) tally.old.by_top.orders.items) }
    ensures known { (f : ℕ → ℕ → Run PassEnd) (b0 : ℕ) →
        IsCounted (item_of (E.meanings evaluator.old) (W.wanted watcher.old)) f b0 tally.old.rewrites
        (passing_by (program_over program.now (E.meanings evaluator.old).hooks) tally.old.gas tally.old.left (stand_of store.old run.old)) budget.old →
        KnownRest (item_of (E.meanings evaluator.old) (W.wanted watcher.old)) f b0 (program_over program.now (E.meanings evaluator.old).hooks) store.new run.new tally.new result budget.new }
    ensures gas { tally.new.gas ≡ tally.old.gas }
    ensures by_top { tally.new.by_top ≡ tally.old.by_top }
    ensures run { IsRunOf program.now store.new run.new }
    ensures settled { IfOk result (λ _. AreSettled program.now.sig store.new (E.table evaluator.new) (tree_at store.new run.new.term.0)) }
    ensures falls { budget.new ≤ budget.old }
    ensures extends { Extends store.old store.new }
    ensures fits { E.fits evaluator.new store.new }
    ensures kept { KeepsEntries (E.table evaluator.old) (E.table evaluator.new) }
    ensures meanings { E.meanings evaluator.new ≡ E.meanings evaluator.old }
    ensures told { W.wanted watcher.old ≡ true → IfOk result (λ _.
        TellsPart program.now (E.meanings evaluator.old).hooks store.new (E.table evaluator.new) (W.told watcher.old) (W.told watcher.new)
        (tree_at store.old run.old.term.0) (tree_at store.new run.new.term.0) tally.old.rewrites tally.new.rewrites) }
    ensures behind { TellsBehind (W.wanted watcher.old) (W.told watcher.old) (W.told watcher.new) }
    ensures wanted { W.wanted watcher.new ≡ W.wanted watcher.old }
{
    let whole = run.term;
    tally.made = false;
    if is_out(tally.left) {
        return last_value::<E, W>(
            run, program, store, evaluator, tally, whole, budget, watcher,
        );
    }
    let term = match pass::<E, L, W>(run, program, store, evaluator, tally, budget, watcher) {
        Ok(term) => term,
        Err(end) => return Err(end),
    };
    if is_out(tally.left) {
        return last_value::<E, W>(run, program, store, evaluator, tally, term, budget, watcher);
    }
    run.term = term;
    if tally.made {
        return Ok(None);
    }
    Ok(Some(RuleEnd::Normal))
}
