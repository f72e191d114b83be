//! What the last frame does with a value, or with what became of a condition.
ghost use Rattle.std.specs.Prelude.{◌≡◌, ◌≤◌, ◌+◌, ℕ, suc, List, length, take, Bool, true, IfOk, IfErr, IfSome, OnErr};
ghost use Rattle.std.specs.Option.{option_map};
ghost use Rattle.mau_evaluation.specs.Run.{Outcome, counted_if, where_true};
ghost use Rattle.mau_machine.specs.Words.{IsEnd, ComesToEnd, solve_from, PassesOn, IsUnchosen, IsExtension, IsAnswered};
ghost use Rattle.mau_machine.specs.Machine.{Reply, as_answer, last_in, choose_behind, comes, task_in, whole};
ghost use Rattle.mau_machine.specs.Known.{Due, answer_to, KnowsLast, IsKnownNext, comes_to};
ghost use Rattle.mau_evaluation.specs.Evaluation.{Binding};
ghost use Rattle.mau_api.specs.Events.{Event};
ghost use Rattle.mau_api.specs.Told.{TellsMore, shown_count};
ghost use Rattle.mau_machine.specs.Telling.{solving, IsShown, TellsTask, Counts};
ghost use Rattle.mau_machine.specs.Steps.{AreAnswered, Goes, IsSettledOn, StayKnown, AreHeld, StayTold, AreTold, TaskStays, IsWatched};

use crate::machine::Machine;
use crate::steps::side;
use crate::telling::{back, begin, fragment_at, leave, make};
use crate::{Arguments, Choosing, Condition, Control, Frame, Settled, World};
use mau_api::{EvalEnd, StepWatcher};
use mau_store::Store;
use mau_terms::TermId;

/// The last frame is given a value.
pub fn give<W: World, T: StepWatcher>(
    world: &mut W,
    store: &mut Store,
    machine: &mut Machine<W::Attempts, W::Choices, W::Binding, W::Settling>,
    value: TermId,
    watcher: &mut T,
) -> Result<Control<W::Attempts, W::Choices, W::Binding, W::Settling>, EvalEnd>
    requires ready { W.ready world.old store.old }
    requires held { AreHeld (W.words world.old store.old) machine.old.frames.items (Control.Value value) }
    ensures goes { (b : ℕ) → IfOk result (λ next. Goes (W.words world.new store.new) machine.old.frames.items
        (Control.Value value) machine.old.rewrites b machine.new.frames.items next machine.new.rewrites b) }
    ensures ends { (b : ℕ) → IfErr result (ComesToEnd (W.words world.new store.new).rules.program
        (λ n. whole (W.words world.new store.new) n machine.old.frames.items (Control.Value value) machine.old.rewrites b)) }
    ensures known { IfOk result (StayKnown (W.words world.old store.old) (W.words world.new store.new) machine.old.frames.items
        (Control.Value value) machine.new.frames.items) }
    ensures grows { W.grows world.old store.old world.new store.new }
    ensures told { T.wanted watcher.old ≡ true → IfOk result (λ next. StayTold (W.words world.old store.old)
        (W.words world.new store.new) store.old store.new (W.table world.old) (W.table world.new)
        machine.old.frames.items (Control.Value value) machine.old.rewrites
        (T.told watcher.old) machine.new.frames.items next machine.new.rewrites (T.told watcher.new)) }
    ensures more { OnErr result (TellsMore (T.told watcher.old) (T.told watcher.new)) }
    ensures watched { IsWatched (T.wanted watcher.old) (T.wanted watcher.new) (T.told watcher.old) (T.told watcher.new) }
{
    leave(watcher, value)?;
    match machine.frames.pop() {
        Some(Frame::Argument(arguments, place)) => {
            let mut arguments = arguments;
            if place >= arguments.args.len() {
                return Ok(Control::Evaluating(arguments));
            }
            arguments.args[place] = value;
            Ok(Control::Evaluating(arguments))
        }
        Some(Frame::Again(_)) => Ok(Control::Value(value)),
        Some(Frame::Left(condition)) => {
            let level = condition.level;
            match side::<W>(world, store, &condition, true) {
                Ok(term) => {
                    let place = fragment_at(condition.at, 1)?;
                    begin(
                        machine,
                        watcher,
                        Frame::Right(condition, value),
                        term,
                        place,
                    )?;
                    Ok(Control::Eval(level, term))
                }
                Err(end) => Err(end),
            }
        }
        Some(Frame::Right(condition, left)) => {
            let holds = world.same(store, left, value);
            proceed::<W>(world, store, condition, holds)
        }
        Some(Frame::Sorting(condition)) => match world.sorted(
            store,
            condition.condition,
            condition.at,
            value,
        ) {
            Ok(holds) => proceed::<W>(world, store, condition, holds),
            Err(_) => Err(EvalEnd::NoMemory),
        },
        Some(Frame::Matching(condition)) => match world.choices(
            store,
            condition.condition,
            condition.at,
            condition.binding,
            value,
        ) {
            Ok(choices) => {
                let choosing = Choosing {
                    level: condition.level,
                    condition: condition.condition,
                    at: condition.at,
                    choices,
                    before: machine.rewrites,
                };
                Ok(chosen::<W>(world, store, choosing, condition.behind))
            }
            Err(_) => Err(EvalEnd::NoMemory),
        },
        // Never: the last frame is given what it waits for.
        _ => Err(EvalEnd::NoMemory),
    }
}

/// The first solution of a fragment is tried next, or that which a solution of the condition has there.
fn chosen<W: World>(
    world: &W,
    store: &Store,
    choosing: Choosing<W::Choices>,
    behind: Option<Box<W::Binding>>,
) -> Control<W::Attempts, W::Choices, W::Binding, W::Settling>
    requires choices { (W.words world.now store.now).knows_choices choosing.condition choosing.at choosing.choices }
    requires last { IfSome behind (λ x. (W.words world.now store.now).knows_last x.value) }
    requires unchosen { IsUnchosen (W.words world.now store.now) choosing.condition choosing.at
        ((W.words world.now store.now).chosen_from choosing.choices) ((W.words world.now store.now).chosen_value choosing.choices)
        choosing.choices }
    ensures goes { (r b n : ℕ) → as_answer (counted_if choosing.before (choose_behind (W.words world.now store.now).rules
        (option_map (λ x. (W.words world.now store.now).bound x.value) behind) (choosing.level + n) choosing.condition choosing.at
        ((W.words world.now store.now).chosen_from choosing.choices) ((W.words world.now store.now).chosen_value choosing.choices) b))
        ≡ comes (W.words world.now store.now).rules (task_in (W.words world.now store.now) n result) r b }
    ensures known { IsKnownNext (W.words world.now store.now) result
        × (comes_to (W.words world.now store.now) result ≡ answer_to choosing.condition) }
    ensures told { TaskStays (W.words world.now store.now) store.now (W.table world.now) (Control.Choose choosing) result }
{
    match behind {
        None => Control::Choose(choosing),
        Some(last) => Control::Own(choosing, last),
    }
}

/// The fragments behind one that holds, or a failure.
fn proceed<W: World>(
    world: &W,
    store: &Store,
    condition: Condition<W::Binding>,
    holds: bool,
) -> Result<Control<W::Attempts, W::Choices, W::Binding, W::Settling>, EvalEnd>
    requires binding { (W.words world.now store.now).knows_binding condition.condition condition.at condition.binding }
    requires last { KnowsLast (W.words world.now store.now) condition }
    requires passes { PassesOn (W.words world.now store.now).rules condition.condition condition.at }
    ensures goes { (r b n : ℕ) → IfOk result (λ next. as_answer (counted_if r (where_true holds
        (solve_from (W.words world.now store.now).rules (last_in (W.words world.now store.now) condition) (condition.level + n) condition.condition (suc condition.at)
        ((W.words world.now store.now).bound condition.binding)) b))
        ≡ comes (W.words world.now store.now).rules (task_in (W.words world.now store.now) n next) r b) }
    ensures ends { (o : Outcome Reply) → IfErr result (IsEnd o) }
    ensures known { IfOk result (λ next. IsKnownNext (W.words world.now store.now) next
        × (comes_to (W.words world.now store.now) next ≡ answer_to condition.condition)) }
    ensures told { IfOk result (λ next. (r n e i : ℕ) (σ : Binding) (es : List Event) → r ≡ shown_count n
        → (holds ≡ true → IsShown (W.words world.now store.now).rules store.now (W.table world.now) e i (condition.at + 1)
        ((W.words world.now store.now).bound condition.binding) es)
        → condition.condition ≡ e → IsExtension σ ((W.words world.now store.now).bound condition.binding)
        → TellsTask (W.words world.now store.now) store.now (W.table world.now) (solving e i σ) next es × Counts next r n) }
{
    if !holds {
        return Ok(Control::Failed(condition.condition));
    }
    match condition.at.checked_add(1) {
        Some(at) => Ok(Control::Solve(Condition {
            level: condition.level,
            condition: condition.condition,
            at,
            binding: condition.binding,
            behind: condition.behind,
        })),
        None => Err(EvalEnd::NoMemory),
    }
}

/// The last frame is told that a condition holds.
pub fn hold<W: World, T: StepWatcher>(
    world: &mut W,
    store: &mut Store,
    machine: &mut Machine<W::Attempts, W::Choices, W::Binding, W::Settling>,
    condition: usize,
    binding: W::Binding,
    budget: &mut u64,
    watcher: &mut T,
) -> Result<Control<W::Attempts, W::Choices, W::Binding, W::Settling>, EvalEnd>
    requires ready { W.ready world.old store.old }
    requires held { AreHeld (W.words world.old store.old) machine.old.frames.items (Control.Held condition binding) }
    requires answered { AreAnswered (W.words world.old store.old) machine.old.frames.items (Control.Held condition binding)
        machine.old.rewrites budget.old }
    requires told { T.wanted watcher.old ≡ true → AreTold (W.words world.old store.old) store.old
        (W.table world.old) machine.old.frames.items (Control.Held condition binding) machine.old.rewrites (T.told watcher.old) }
    ensures goes { IfOk result (λ next. Goes (W.words world.new store.new) machine.old.frames.items
        (Control.Held condition binding) machine.old.rewrites budget.old machine.new.frames.items next machine.new.rewrites budget.new) }
    ensures ends { IfErr result (ComesToEnd (W.words world.new store.new).rules.program
        (λ n. whole (W.words world.new store.new) n machine.old.frames.items (Control.Held condition binding) machine.old.rewrites
        budget.old)) }
    ensures known { IfOk result (StayKnown (W.words world.old store.old) (W.words world.new store.new) machine.old.frames.items
        (Control.Held condition binding) machine.new.frames.items) }
    ensures grows { W.grows world.old store.old world.new store.new }
    ensures told { T.wanted watcher.old ≡ true → IfOk result (λ next. StayTold (W.words world.old store.old)
        (W.words world.new store.new) store.old store.new (W.table world.old) (W.table world.new)
        machine.old.frames.items (Control.Held condition binding) machine.old.rewrites
        (T.told watcher.old) machine.new.frames.items next machine.new.rewrites (T.told watcher.new)) }
    ensures more { OnErr result (TellsMore (T.told watcher.old) (T.told watcher.new)) }
    ensures watched { IsWatched (T.wanted watcher.old) (T.wanted watcher.new) (T.told watcher.old) (T.told watcher.new) }
{
    match machine.frames.pop() {
        Some(Frame::Choice(choosing, mark)) => {
            machine.rewrites = choosing.before.saturating_add(machine.rewrites);
            Ok(Control::Held(condition, binding))
        }
        Some(Frame::Trying(trial, before, mark)) => {
            if *budget == 0 {
                return Err(EvalEnd::Stopped);
            }
            *budget -= 1;
            match trial.level.checked_add(1) {
                Some(level) => match make::<W, T>(world, store, &trial, &binding, watcher) {
                    Ok(term) => {
                        machine.rewrites = before
                            .saturating_add(machine.rewrites)
                            .saturating_add(1);
                        Ok(Control::Eval(level, term))
                    }
                    Err(end) => Err(end),
                },
                None => Err(EvalEnd::NoMemory),
            }
        }
        Some(Frame::Deriving(settled, mark)) => Ok(settle_on::<W, T>(
            world, store, machine, settled, true, mark, budget, watcher,
        )),
        // Never: the last frame is given what it waits for.
        _ => Err(EvalEnd::NoMemory),
    }
}

/// The settling of a term goes on, whether the condition that it asked for holds. Nothing is told of that condition.
fn settle_on<W: World, T: StepWatcher>(
    world: &W,
    store: &Store,
    machine: &mut Machine<W::Attempts, W::Choices, W::Binding, W::Settling>,
    settled: Settled<W::Settling>,
    holds: bool,
    mark: usize,
    budget: &mut u64,
    watcher: &mut T,
) -> Control<W::Attempts, W::Choices, W::Binding, W::Settling>
    requires ready { W.ready world.now store.now }
    requires answered { (σ : Binding) × (W.words world.now store.now).knows_asking settled.term.0 settled.condition σ settled.settling
        × IsAnswered (W.words world.now store.now).rules settled.condition σ holds }
    requires mark { T.wanted watcher.old ≡ true → mark ≤ length (T.told watcher.old) }
    ensures settles { IsSettledOn (W.words world.now store.now) settled result }
    ensures frames { machine.new.frames.items ≡ machine.old.frames.items }
    ensures rewrites { machine.new.rewrites ≡ settled.before }
    ensures budget { budget.new ≡ settled.budget }
    ensures told { T.wanted watcher.old ≡ true → T.told watcher.new ≡ take mark (T.told watcher.old) }
    ensures watched { IsWatched (T.wanted watcher.old) (T.wanted watcher.new) (T.told watcher.old) (T.told watcher.new) }
{
    let mut settled = settled;
    world.told(
        store,
        settled.term,
        settled.condition,
        holds,
        &mut settled.settling,
    );
    back(watcher, mark);
    machine.rewrites = settled.before;
    *budget = settled.budget;
    Control::Settle(settled.level, settled.term, settled.settling)
}

/// The last frame is told that a condition has no solution, or no further one.
pub fn fail<W: World, T: StepWatcher>(
    world: &W,
    store: &Store,
    machine: &mut Machine<W::Attempts, W::Choices, W::Binding, W::Settling>,
    condition: usize,
    budget: &mut u64,
    watcher: &mut T,
) -> Result<Control<W::Attempts, W::Choices, W::Binding, W::Settling>, EvalEnd>
    requires ready { W.ready world.now store.now }
    requires held { AreHeld (W.words world.now store.now) machine.old.frames.items (Control.Failed condition) }
    requires answered { AreAnswered (W.words world.now store.now) machine.old.frames.items (Control.Failed condition)
        machine.old.rewrites budget.old }
    requires told { T.wanted watcher.old ≡ true → AreTold (W.words world.now store.now) store.now
        (W.table world.now) machine.old.frames.items (Control.Failed condition) machine.old.rewrites (T.told watcher.old) }
    ensures goes { IfOk result (λ next. Goes (W.words world.now store.now) machine.old.frames.items (Control.Failed condition)
        machine.old.rewrites budget.old machine.new.frames.items next machine.new.rewrites budget.new) }
    ensures ends { (o : Outcome Reply) → IfErr result (IsEnd o) }
    ensures known { IfOk result (StayKnown (W.words world.now store.now) (W.words world.now store.now) machine.old.frames.items
        (Control.Failed condition) machine.new.frames.items) }
    ensures told { T.wanted watcher.old ≡ true → IfOk result (λ next. StayTold (W.words world.now store.now)
        (W.words world.now store.now) store.now store.now (W.table world.now) (W.table world.now)
        machine.old.frames.items (Control.Failed condition) machine.old.rewrites
        (T.told watcher.old) machine.new.frames.items next machine.new.rewrites (T.told watcher.new)) }
    ensures more { OnErr result (TellsMore (T.told watcher.old) (T.told watcher.new)) }
    ensures watched { IsWatched (T.wanted watcher.old) (T.wanted watcher.new) (T.told watcher.old) (T.told watcher.new) }
{
    match machine.frames.pop() {
        Some(Frame::Choice(choosing, mark)) => {
            back(watcher, mark);
            Ok(Control::Choose(choosing))
        }
        Some(Frame::Trying(trial, before, mark)) => {
            back(watcher, mark);
            machine.rewrites = before;
            Ok(Control::Attempt(trial))
        }
        Some(Frame::Deriving(settled, mark)) => Ok(settle_on::<W, T>(
            world, store, machine, settled, false, mark, budget, watcher,
        )),
        // Never: the last frame is given what it waits for.
        _ => Err(EvalEnd::NoMemory),
    }
}
