//! The loop.
ghost use Rattle.std.specs.Prelude.{◌≡◌, ◌≤◌, ◌+◌, ◌++◌, ◌∷◌, [], ℕ, true, false, Some, None, IfOk, IfErr, IfSome, IfNone, OnOk};
ghost use Rattle.std.specs.Option.{option_map};
ghost use Rattle.mau_evaluation.specs.Run.{done, counted_if};
ghost use Rattle.mau_machine.specs.Words.{Comes, ComesToEnd, greatest_count, eval_on, solve_from, kind_of, IsSolution};
ghost use Rattle.mau_machine.specs.Machine.{whole};
ghost use Rattle.mau_machine.specs.Known.{Due, value_of, answer_to, HoldsIn};
ghost use Rattle.mau_evaluation.specs.Evaluation.{look_up};
ghost use Rattle.mau_api.specs.Told.{TellsEvaluation, TellsCondition, TellsMore};
ghost use Rattle.mau_machine.specs.Steps.{
  Follows,
  AreAnswered,
  StayKnown,
  AreHeld,
  StayTold,
  AreTold,
  StayFront,
  IsWatched,
};

use crate::steps::step;
use crate::telling::{back, enter_whole, leave, mark};
use crate::{Condition, Control, Frame, World};
use mau_api::{EvalEnd, Reduced, StepWatcher};
use mau_store::Store;
use mau_terms::{NoMemory, TermId};
use std::alloc::Global;

/// What waits, and how many applications were counted since the last frame began that counts apart.
#[derive(Drop)]
pub struct Machine<A, C, S, D> {
    pub frames: Vec<Frame<A, C, S, D>>,
    pub rewrites: u64,
}

impl<A: Drop, C: Drop, S: Drop, D: Drop> Machine<A, C, S, D> {
    /// A machine in which nothing waits.
    pub fn new(alloc: Global) -> Machine<A, C, S, D>
        ensures frames { result.frames.items ≡ [] }
        ensures rewrites { result.rewrites ≡ 0 }
    {
        Machine {
            frames: Vec::new(alloc),
            rewrites: 0,
        }
    }

    /// A frame begins to wait.
    pub fn wait(&mut self, frame: Frame<A, C, S, D>) -> Result<(), NoMemory>
        ensures frames { OnOk result (self.new.frames.items ≡ self.old.frames.items ++ frame ∷ []) }
        ensures rewrites { self.new.rewrites ≡ self.old.rewrites }
    {
        match self.frames.push(frame) {
            Ok(()) => Ok(()),
            Err(_) => Err(NoMemory),
        }
    }
}

/// The value of a term by `level` levels, or by more where sorts were derived before. After an end the budget is what it was.
pub fn evaluate<W: World, T: StepWatcher>(
    alloc: Global,
    world: &mut W,
    store: &mut Store,
    term: TermId,
    level: u32,
    budget: &mut u64,
    watcher: &mut T,
) -> Result<Reduced, EvalEnd>
    requires ready { W.ready world.old store.old }
    requires term { (W.words world.old store.old).knows_term term.0 }
    ensures value { IfOk result (λ x. Comes (W.words world.old store.old).rules.program
        (λ n. eval_on (W.words world.old store.old).rules (level + n) ((W.words world.old store.old).tree term.0) budget.old)
        (done ((W.words world.new store.new).tree x.term.0) x.rewrites budget.new)) }
    ensures ends { IfErr result (ComesToEnd (W.words world.old store.old).rules.program
        (λ n. eval_on (W.words world.old store.old).rules (level + n) ((W.words world.old store.old).tree term.0) budget.old)) }
    ensures known { IfOk result (λ x. (W.words world.new store.new).knows_value x.term.0) }
    ensures kind { IfOk result (λ x. kind_of (W.words world.new store.new) x.term.0 ≡ kind_of (W.words world.old store.old) term.0) }
    ensures falls { budget.new ≤ budget.old }
    ensures grows { W.grows world.old store.old world.new store.new }
    ensures told { T.wanted watcher.old ≡ true → IfOk result (λ x. TellsEvaluation (W.words world.new store.new).rules.written
        (W.words world.new store.new).rules.hooks
        store.new (W.table world.new) (T.told watcher.old) (T.told watcher.new) term x.term x.rewrites) }
    ensures before { T.wanted watcher.old ≡ true → TellsMore (T.told watcher.old) (T.told watcher.new) }
    ensures silent { T.wanted watcher.old ≡ false → T.told watcher.new ≡ T.told watcher.old }
    ensures wanted { T.wanted watcher.new ≡ T.wanted watcher.old }
{
    enter_whole(watcher, term)?;
    let mut machine = Machine::new(alloc);
    let mut left = *budget;
    match run::<W, T>(
        world,
        store,
        &mut machine,
        Control::Eval(level, term),
        &mut left,
        watcher,
    ) {
        Ok(Control::Value(value)) => {
            leave(watcher, value)?;
            *budget = left;
            Ok(Reduced {
                term: value,
                rewrites: machine.rewrites,
            })
        }
        // Never: what was asked comes.
        Ok(_) => Err(EvalEnd::NoMemory),
        Err(end) => Err(end),
    }
}

/// The first solution of a condition, or the first one behind another one, by `level` levels, or by more where sorts were derived before,
/// and how many applications led to it. After an end the budget is what it was.
pub fn solve<W: World, T: StepWatcher>(
    alloc: Global,
    world: &mut W,
    store: &mut Store,
    condition: usize,
    binding: W::Binding,
    behind: Option<Box<W::Binding>>,
    level: u32,
    budget: &mut u64,
    watcher: &mut T,
) -> Result<Option<(W::Binding, u64)>, EvalEnd>
    requires ready { W.ready world.old store.old }
    requires binding { (W.words world.old store.old).knows_binding condition 0 binding }
    requires behind { IfSome behind (λ x. (W.words world.old store.old).knows_last x.value) }
    ensures some { IfOk result (λ o. IfSome o (λ x. Comes (W.words world.old store.old).rules.program
        (λ n. solve_from (W.words world.old store.old).rules (option_map (λ x. (W.words world.old store.old).bound x.value) behind)
        (level + n) condition 0 ((W.words world.old store.old).bound binding) budget.old)
        (done (Some ((W.words world.new store.new).bound x.0)) x.1 budget.new))) }
    ensures none { IfOk result (λ o. IfNone o (Comes (W.words world.old store.old).rules.program
        (λ n. counted_if 0 (solve_from (W.words world.old store.old).rules (option_map (λ x. (W.words world.old store.old).bound x.value) behind)
        (level + n) condition 0 ((W.words world.old store.old).bound binding) budget.old)) (done None 0 budget.new))) }
    ensures ends { IfErr result (ComesToEnd (W.words world.old store.old).rules.program
        (λ n. solve_from (W.words world.old store.old).rules (option_map (λ x. (W.words world.old store.old).bound x.value) behind)
        (level + n) condition 0 ((W.words world.old store.old).bound binding) budget.old)) }
    ensures known { IfOk result (λ o. IfSome o (λ x. IsSolution (W.words world.new store.new) condition x.0)) }
    ensures falls { budget.new ≤ budget.old }
    ensures grows { W.grows world.old store.old world.new store.new }
    ensures told { T.wanted watcher.old ≡ true → IfOk result (λ o. IfSome o
        (λ x. TellsCondition (W.words world.new store.new).rules.written (W.words world.new store.new).rules.hooks
        store.new (W.table world.new) (T.told watcher.old) (T.told watcher.new) (look_up ((W.words world.new store.new).bound x.0))
        ((W.words world.new store.new).rules.fragments condition) x.1)) }
    ensures untold { T.wanted watcher.old ≡ true → IfOk result (λ o. IfNone o (T.told watcher.new ≡ T.told watcher.old)) }
    ensures before { T.wanted watcher.old ≡ true → TellsMore (T.told watcher.old) (T.told watcher.new) }
    ensures silent { T.wanted watcher.old ≡ false → T.told watcher.new ≡ T.told watcher.old }
    ensures wanted { T.wanted watcher.new ≡ T.wanted watcher.old }
{
    let mut machine = Machine::new(alloc);
    let task = Control::Solve(Condition {
        level,
        condition,
        at: 0,
        binding,
        behind,
    });
    let mark = mark(watcher);
    let mut left = *budget;
    match run::<W, T>(world, store, &mut machine, task, &mut left, watcher) {
        Ok(Control::Held(_, solution)) => {
            *budget = left;
            Ok(Some((solution, machine.rewrites)))
        }
        Ok(Control::Failed(_)) => {
            back(watcher, mark);
            *budget = left;
            Ok(None)
        }
        // Never: what was asked comes.
        Ok(_) => Err(EvalEnd::NoMemory),
        Err(end) => Err(end),
    }
}

/// Does what is next until nothing waits.
fn run<W: World, T: StepWatcher>(
    world: &mut W,
    store: &mut Store,
    machine: &mut Machine<W::Attempts, W::Choices, W::Binding, W::Settling>,
    task: Control<W::Attempts, W::Choices, W::Binding, W::Settling>,
    budget: &mut u64,
    watcher: &mut T,
) -> Result<Control<W::Attempts, W::Choices, W::Binding, W::Settling>, EvalEnd>
    requires ready { W.ready world.old store.old }
    requires held { AreHeld (W.words world.old store.old) machine.old.frames.items task }
    requires answered { AreAnswered (W.words world.old store.old) machine.old.frames.items task machine.old.rewrites budget.old }
    requires told { T.wanted watcher.old ≡ true → AreTold (W.words world.old store.old) store.old
        (W.table world.old) machine.old.frames.items task machine.old.rewrites (T.told watcher.old) }
    ensures goes { IfOk result (λ last. Follows (W.words world.old store.old).rules.program
        (λ n. whole (W.words world.old store.old) n machine.old.frames.items task machine.old.rewrites budget.old)
        (λ n. whole (W.words world.new store.new) n [] last machine.new.rewrites budget.new)) }
    ensures ends { IfErr result (ComesToEnd (W.words world.old store.old).rules.program
        (λ n. whole (W.words world.old store.old) n machine.old.frames.items task machine.old.rewrites budget.old)) }
    ensures known { IfOk result (StayKnown (W.words world.old store.old) (W.words world.new store.new) machine.old.frames.items task []) }
    ensures small { OnOk result (machine.new.rewrites ≤ greatest_count) }
    ensures grows { W.grows world.old store.old world.new store.new }
    ensures told { T.wanted watcher.old ≡ true → IfOk result (λ last. StayTold (W.words world.old store.old)
        (W.words world.new store.new) store.old store.new (W.table world.old) (W.table world.new)
        machine.old.frames.items task machine.old.rewrites (T.told watcher.old) [] last machine.new.rewrites (T.told watcher.new)) }
    ensures front { T.wanted watcher.old ≡ true → (StayFront (W.words world.old store.old) store.old
        (W.table world.old) machine.old.frames.items task machine.old.rewrites (T.told watcher.old) (T.told watcher.new)) }
    ensures watched { IsWatched (T.wanted watcher.old) (T.wanted watcher.new) (T.told watcher.old) (T.told watcher.new) }
{
    let _rewrites = machine.rewrites;
    let _budget = *budget;
    let mut task = task;
    for _ in 0..u64::MAX {
        if is_last(&task) && machine.frames.as_slice().is_empty() {
            let _rewrites = machine.rewrites;
            return Ok(task);
        }
        match step::<W, T>(world, store, machine, task, budget, watcher) {
            Ok(next) => task = next,
            Err(end) => return Err(end),
        }
    }
    Err(EvalEnd::NoMemory)
}

/// Whether it is a value, or what became of a condition.
fn is_last<A, C, S, D>(task: &Control<A, C, S, D>) -> bool {
    matches!(
        task,
        Control::Value(_) | Control::Held(_, _) | Control::Failed(_)
    )
}
