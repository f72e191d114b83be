//! The loop over a world that remembers which terms are their own values.
ghost use Rattle.std.specs.Prelude.{◌≡◌, ◌≤◌, ◌+◌, ℕ, true, false, Some, None, IfOk, IfErr, IfSome, IfNone, OnOk};
ghost use Rattle.std.specs.Option.{option_map};
ghost use Rattle.mau_evaluation.specs.Run.{done, counted_if};
ghost use Rattle.mau_evaluation.specs.Evaluation.{look_up};
ghost use Rattle.mau_api.specs.Told.{TellsEvaluation, TellsCondition, TellsMore};
ghost use Rattle.mau_machine.specs.Words.{Comes, ComesToEnd, eval_on, solve_from, settle_on, kind_of, IsSolution};
ghost use Rattle.mau_resting.specs.Rests.{AreResting};

use crate::Resting;
use mau_api::{EvalEnd, Reduced, StepWatcher};
use mau_machine::World;
use mau_store::Store;
use mau_terms::TermId;
use std::alloc::Global;

/// The value of a term by `level` levels. The terms that were found to be their own values are not evaluated again.
pub fn evaluate<W: World + Drop, T: StepWatcher>(
    alloc: Global,
    resting: &mut Resting<W>,
    store: &mut Store,
    term: TermId,
    level: u32,
    budget: &mut u64,
    watcher: &mut T,
) -> Result<Reduced, EvalEnd>
    requires ready { W.ready resting.old.world store.old }
    requires resting { AreResting (W.words resting.old.world store.old) resting.old.levels.items }
    requires term { (W.words resting.old.world store.old).knows_term term.0 }
    ensures value { IfOk result (λ x. Comes (W.words resting.old.world store.old).rules.program
        (λ n. eval_on (W.words resting.old.world store.old).rules (level + n)
        ((W.words resting.old.world store.old).tree term.0) budget.old)
        (done ((W.words resting.new.world store.new).tree x.term.0) x.rewrites budget.new)) }
    ensures ends { IfErr result (ComesToEnd (W.words resting.old.world store.old).rules.program
        (λ n. eval_on (W.words resting.old.world store.old).rules (level + n)
        ((W.words resting.old.world store.old).tree term.0) budget.old)) }
    ensures known { IfOk result (λ x. (W.words resting.new.world store.new).knows_value x.term.0) }
    ensures kind { IfOk result (λ x. kind_of (W.words resting.new.world store.new) x.term.0
        ≡ kind_of (W.words resting.old.world store.old) term.0) }
    ensures falls { budget.new ≤ budget.old }
    ensures grows { W.grows resting.old.world store.old resting.new.world store.new }
    ensures resting { AreResting (W.words resting.new.world store.new) resting.new.levels.items }
    ensures told { T.wanted watcher.old ≡ true → IfOk result (λ x. TellsEvaluation (W.words resting.new.world store.new).rules.written
        (W.words resting.new.world store.new).rules.hooks
        store.new (W.table resting.new.world) (T.told watcher.old) (T.told watcher.new) term x.term x.rewrites) }
    ensures before { T.wanted watcher.old ≡ true → TellsMore (T.told watcher.old) (T.told watcher.new) }
    ensures silent { T.wanted watcher.old ≡ false → T.told watcher.new ≡ T.told watcher.old }
    ensures wanted { T.wanted watcher.new ≡ T.wanted watcher.old }
{
    mau_machine::evaluate(alloc, resting, store, term, level, budget, watcher)
}

/// The first solution of a condition, or the first one behind another one, by `level` levels, in the same way.
pub fn solve<W: World + Drop, T: StepWatcher>(
    alloc: Global,
    resting: &mut Resting<W>,
    store: &mut Store,
    condition: usize,
    binding: W::Binding,
    behind: Option<Box<W::Binding>>,
    level: u32,
    budget: &mut u64,
    watcher: &mut T,
) -> Result<Option<(W::Binding, u64)>, EvalEnd>
    requires ready { W.ready resting.old.world store.old }
    requires resting { AreResting (W.words resting.old.world store.old) resting.old.levels.items }
    requires binding { (W.words resting.old.world store.old).knows_binding condition 0 binding }
    requires behind { IfSome behind (λ x. (W.words resting.old.world store.old).knows_last x.value) }
    ensures some { IfOk result (λ o. IfSome o (λ x. Comes (W.words resting.old.world store.old).rules.program
        (λ n. solve_from (W.words resting.old.world store.old).rules
        (option_map (λ x. (W.words resting.old.world store.old).bound x.value) behind) (level + n) condition 0
        ((W.words resting.old.world store.old).bound binding) budget.old)
        (done (Some ((W.words resting.new.world store.new).bound x.0)) x.1 budget.new))) }
    ensures none { IfOk result (λ o. IfNone o (Comes (W.words resting.old.world store.old).rules.program
        (λ n. counted_if 0 (solve_from (W.words resting.old.world store.old).rules
        (option_map (λ x. (W.words resting.old.world store.old).bound x.value) behind) (level + n) condition 0
        ((W.words resting.old.world store.old).bound binding) budget.old)) (done None 0 budget.new))) }
    ensures ends { IfErr result (ComesToEnd (W.words resting.old.world store.old).rules.program
        (λ n. solve_from (W.words resting.old.world store.old).rules
        (option_map (λ x. (W.words resting.old.world store.old).bound x.value) behind) (level + n) condition 0
        ((W.words resting.old.world store.old).bound binding) budget.old)) }
    ensures known { IfOk result (λ o. IfSome o (λ x. IsSolution (W.words resting.new.world store.new) condition x.0)) }
    ensures falls { budget.new ≤ budget.old }
    ensures grows { W.grows resting.old.world store.old resting.new.world store.new }
    ensures resting { AreResting (W.words resting.new.world store.new) resting.new.levels.items }
    ensures told { T.wanted watcher.old ≡ true → IfOk result (λ o. IfSome o
        (λ x. TellsCondition (W.words resting.new.world store.new).rules.written (W.words resting.new.world store.new).rules.hooks
        store.new (W.table resting.new.world) (T.told watcher.old) (T.told watcher.new)
        (look_up ((W.words resting.new.world store.new).bound x.0))
        ((W.words resting.new.world store.new).rules.fragments condition) x.1)) }
    ensures untold { T.wanted watcher.old ≡ true → IfOk result (λ o. IfNone o (T.told watcher.new ≡ T.told watcher.old)) }
    ensures before { T.wanted watcher.old ≡ true → TellsMore (T.told watcher.old) (T.told watcher.new) }
    ensures silent { T.wanted watcher.old ≡ false → T.told watcher.new ≡ T.told watcher.old }
    ensures wanted { T.wanted watcher.new ≡ T.wanted watcher.old }
{
    mau_machine::solve(
        alloc, resting, store, condition, binding, behind, level, budget, watcher,
    )
}

/// Settles the sorts of a term, of all below it and of the identities, in the same way.
pub fn settle<W: World + Drop>(
    resting: &mut Resting<W>,
    store: &mut Store,
    term: TermId,
    level: u32,
) -> Result<(), EvalEnd>
    requires ready { W.ready resting.old.world store.old }
    requires resting { AreResting (W.words resting.old.world store.old) resting.old.levels.items }
    requires term { (W.words resting.old.world store.old).knows_term term.0 }
    ensures settled { OnOk result ((W.words resting.new.world store.new).knows_value term.0) }
    ensures ends { (b : ℕ) → IfErr result (ComesToEnd (W.words resting.old.world store.old).rules.program
        (λ n. settle_on (W.words resting.old.world store.old).rules (level + n)
        ((W.words resting.old.world store.old).tree term.0) b)) }
    ensures grows { W.grows resting.old.world store.old resting.new.world store.new }
    ensures resting { AreResting (W.words resting.new.world store.new) resting.new.levels.items }
{
    mau_machine::settle(resting, store, term, level)
}
