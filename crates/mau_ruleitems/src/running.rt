//! Rule runs, with all that they go on with, and the budget of an item.
ghost use Rattle.std.specs.Prelude.{◌≡◌, true, false, IfOk};
ghost use Rattle.mau_store.specs.Node.{Extends};
ghost use Rattle.mau_store.specs.Trees.{tree_at};
ghost use Rattle.mau_sorts.specs.Table.{KeepsEntries};
ghost use Rattle.mau_api.specs.Answers.{AreSettled, uses_results};
ghost use Rattle.mau_api.specs.Told.{TellsMore};
ghost use Rattle.mau_results.specs.Runs.{run_by, MayRun};
ghost use Rattle.mau_rules.specs.Runnable.{IsRunnable, GoesBy};
ghost use Rattle.mau_rules.specs.Runs.{stand_of, IsRunOf, IsRunExactly};
ghost use Rattle.mau_rules.specs.Runs;
ghost use Rattle.mau_rules.specs.Telling.{TellsRules};
ghost use Rattle.mau_ruleitems.specs.RuleItems.{run_answer_in, TellsRun};

use mau_api::{EvalEnd, Evaluator, Lister, Program, Reduced, StepWatcher};
use mau_results::{RunKind, shown_sort};
use mau_rules::{RuleEnd, RuleRun};
use mau_store::Store;
use mau_terms::{NoMemory, Vars};

/// A rule run of this kind, with its term in a store of its own and the variables of the command that began it.
#[derive(Drop)]
pub struct Running {
    pub kind: RunKind,
    pub store: Store,
    pub run: RuleRun,
    pub vars: Vars,
}

/// What a rule run with the budget of an item answers.
#[derive(Clone, Copy, Debug, PartialEq, Eq)]
pub enum RunAnswer {
    /// How it ended, the sort that is shown for its term, and how many applications led to it, or 2^64 - 1 where there are more.
    Value(RuleEnd, u32, u64),
    /// An application is due, and the budget is used up.
    Stopped,
    /// A level over 2,000 or a normal form that is deeper than 1,000 is needed.
    TooDeep,
    /// The successor of the greatest numeral is needed, or a native operator overflows.
    Overflow,
}

/// Runs rules, in this way, by as many as are asked for or by any number of them.
fn run_rules<E: Evaluator, L: Lister + Drop, W: StepWatcher>(
    run: &mut RuleRun,
    kind: RunKind,
    program: &Program,
    store: &mut Store,
    evaluator: &mut E,
    most: Option<u64>,
    budget: u64,
    watcher: &mut W,
) -> Result<(RuleEnd, Reduced), EvalEnd>
    requires contexts { L.with_context ≡ true }
    requires runnable { IsRunnable program.now }
    requires goes_by { GoesBy program.now (E.meanings evaluator.old) }
    requires fits { E.fits evaluator.old store.old }
    requires run { IsRunOf program.now store.old run.old }
    ensures exact { uses_results (E.meanings evaluator.old) (W.wanted watcher.old) ≡ false →
        IsRunExactly (E.meanings evaluator.old) (run_by (E.meanings evaluator.old) kind most (stand_of store.old run.old)) budget store.new run.new result }
    ensures allowed { Runs.MayRun (E.meanings evaluator.old) (run_by (E.meanings evaluator.old) kind most (stand_of store.old run.old)) budget store.new run.new result }
    ensures term { IfOk result (λ x. x.1.term ≡ run.new.term) }
    ensures settled { IfOk result (λ x. AreSettled program.now.sig store.new (E.table evaluator.new) (tree_at store.new x.1.term.0)) }
    ensures run { IsRunOf program.now store.new run.new }
    ensures extends { Extends store.old store.new }
    ensures fits { E.fits evaluator.new store.new }
    ensures kept { KeepsEntries (E.table evaluator.old) (E.table evaluator.new) }
    ensures meanings { E.meanings evaluator.new ≡ E.meanings evaluator.old }
    ensures told { W.wanted watcher.old ≡ true → IfOk result (λ x.
        TellsRules program.now (E.meanings evaluator.old).hooks store.new (E.table evaluator.new) (W.told watcher.old) (W.told watcher.new)
        (tree_at store.old run.old.term.0) (tree_at store.new run.new.term.0) x.1.rewrites) }
    ensures before { W.wanted watcher.old ≡ true → TellsMore (W.told watcher.old) (W.told watcher.new) }
    ensures silent { W.wanted watcher.old ≡ false → W.told watcher.new ≡ W.told watcher.old }
    ensures wanted { W.wanted watcher.new ≡ W.wanted watcher.old }
{
    match kind {
        RunKind::Rewriting => {
            run.rewrite::<E, L, W>(program, store, evaluator, most, budget, watcher)
        }
        RunKind::Fair(gas) => {
            run.frewrite::<E, L, W>(program, store, evaluator, most, gas, budget, watcher)
        }
    }
}

/// Runs rules on the term of a run with the budget of an item, in this way, by as many as are asked for or by any number of them. Where the
/// watcher wants steps, it is told of the run where there is a value; else what was told before stays in front.
pub fn run_item<E: Evaluator, L: Lister + Drop, W: StepWatcher>(
    run: &mut RuleRun,
    kind: RunKind,
    program: &Program,
    store: &mut Store,
    evaluator: &mut E,
    most: Option<u64>,
    limit: u64,
    watcher: &mut W,
) -> Result<RunAnswer, NoMemory>
    requires contexts { L.with_context ≡ true }
    requires runnable { IsRunnable program.now }
    requires goes_by { GoesBy program.now (E.meanings evaluator.old) }
    requires fits { E.fits evaluator.old store.old }
    requires run { IsRunOf program.now store.old run.old }
    requires limit { limit ≡ (E.meanings evaluator.old).limit }
    ensures allowed { IfOk result (λ a. MayRun (E.meanings evaluator.old) (uses_results (E.meanings evaluator.old) (W.wanted watcher.old))
        (run_by (E.meanings evaluator.old) kind most (stand_of store.old run.old)) (run_answer_in store.new run.new a)) }
    ensures run { IsRunOf program.now store.new run.new }
    ensures extends { Extends store.old store.new }
    ensures fits { E.fits evaluator.new store.new }
    ensures kept { KeepsEntries (E.table evaluator.old) (E.table evaluator.new) }
    ensures meanings { E.meanings evaluator.new ≡ E.meanings evaluator.old }
    ensures told { W.wanted watcher.old ≡ true → IfOk result (TellsRun program.now (E.meanings evaluator.old).hooks store.new (E.table evaluator.new)
        (W.told watcher.old) (W.told watcher.new) (tree_at store.old run.old.term.0) run.new) }
    ensures before { W.wanted watcher.old ≡ true → TellsMore (W.told watcher.old) (W.told watcher.new) }
    ensures silent { W.wanted watcher.old ≡ false → W.told watcher.new ≡ W.told watcher.old }
    ensures wanted { W.wanted watcher.new ≡ W.wanted watcher.old }
{
    match run_rules::<E, L, W>(run, kind, program, store, evaluator, most, limit, watcher) {
        Ok((end, value)) => {
            let sort = shown_sort(&program.sig, store, evaluator.sorts(), value.term);
            Ok(RunAnswer::Value(end, sort, value.rewrites))
        }
        Err(EvalEnd::Stopped) => Ok(RunAnswer::Stopped),
        Err(EvalEnd::TooDeep) => Ok(RunAnswer::TooDeep),
        Err(EvalEnd::Overflow) => Ok(RunAnswer::Overflow),
        Err(EvalEnd::NoMemory) => Err(NoMemory),
    }
}
