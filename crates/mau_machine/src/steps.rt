//! The steps of the loop: each does one thing.
ghost use Rattle.std.specs.Prelude.{◌≡◌, ◌≤◌, ◌+◌, ℕ, true, length, IfOk, IfErr, OnErr};
ghost use Rattle.mau_evaluation.specs.Run.{Outcome};
ghost use Rattle.mau_terms.specs.Norm.{norm};
ghost use Rattle.mau_machine.specs.Words.{IsEnd, ComesToEnd, eval_on, kind_of, side_of, Asks, HasSide};
ghost use Rattle.mau_machine.specs.declared.goal.Goal.{Goal};
ghost use Rattle.mau_machine.specs.Machine.{Reply, comes, task_in, whole};
ghost use Rattle.mau_machine.specs.Known.{value_of, answer_to, KnowsLast, IsKnownNext, comes_to};
ghost use Rattle.mau_api.specs.Told.{TellsMore};
ghost use Rattle.mau_machine.specs.Steps.{
  Follows,
  AreAnswered,
  Goes,
  StayKnown,
  AreHeld,
  StayTold,
  AreTold,
  TaskStays,
  IsWatched,
};

use crate::machine::Machine;
use crate::replies::{fail, give, hold};
use crate::telling::{argument_at, begin, fragment_at, mark};
use crate::{Arguments, Choosing, Condition, Control, Frame, Goal, Settled, Trial, World};
use mau_api::{EvalEnd, Place, StepWatcher};
use mau_store::Store;
use mau_terms::TermId;

/// One step.
pub fn step<W: World, T: StepWatcher>(
    world: &mut W,
    store: &mut Store,
    machine: &mut Machine<W::Attempts, W::Choices, W::Binding, W::Settling>,
    task: Control<W::Attempts, W::Choices, W::Binding, W::Settling>,
    budget: &mut u64,
    watcher: &mut T,
) -> Result<Control<W::Attempts, W::Choices, W::Binding, W::Settling>, EvalEnd>
    requires ready { W.ready world.old store.old }
    requires held { AreHeld (W.words world.old store.old) machine.old.frames.items task }
    requires answered { AreAnswered (W.words world.old store.old) machine.old.frames.items task machine.old.rewrites budget.old }
    requires told { T.wanted watcher.old ≡ true → AreTold (W.words world.old store.old) store.old
        (W.table world.old) machine.old.frames.items task machine.old.rewrites (T.told watcher.old) }
    ensures goes { IfOk result (λ next. Goes (W.words world.new store.new) machine.old.frames.items task machine.old.rewrites
        budget.old machine.new.frames.items next machine.new.rewrites budget.new) }
    ensures ends { IfErr result (ComesToEnd (W.words world.new store.new).rules.program
        (λ n. whole (W.words world.new store.new) n machine.old.frames.items task machine.old.rewrites budget.old)) }
    ensures known { IfOk result (StayKnown (W.words world.old store.old)
        (W.words world.new store.new) machine.old.frames.items task machine.new.frames.items) }
    ensures grows { W.grows world.old store.old world.new store.new }
    ensures told { T.wanted watcher.old ≡ true → IfOk result (λ next. StayTold (W.words world.old store.old)
        (W.words world.new store.new) store.old store.new (W.table world.old) (W.table world.new)
        machine.old.frames.items task machine.old.rewrites (T.told watcher.old) machine.new.frames.items next machine.new.rewrites
        (T.told watcher.new)) }
    ensures more { OnErr result (TellsMore (T.told watcher.old) (T.told watcher.new)) }
    ensures watched { IsWatched (T.wanted watcher.old) (T.wanted watcher.new) (T.told watcher.old) (T.told watcher.new) }
{
    let _budget = *budget;
    match task {
        Control::Eval(level, term) => open::<W>(world, store, level, term),
        Control::Evaluating(arguments) => go_on::<W, T>(world, store, machine, arguments, watcher),
        Control::Top(level, term) => look::<W>(world, store, level, term),
        Control::Settle(level, term, settling) => derive::<W, T>(
            world, store, machine, level, term, settling, budget, watcher,
        ),
        Control::Ready(level, term) => apply::<W>(world, store, level, term),
        Control::Attempt(trial) => attempt::<W, T>(world, store, machine, trial, watcher),
        Control::Solve(condition) => solve::<W, T>(world, store, machine, condition, watcher),
        Control::Choose(choosing) => choose::<W, T>(world, store, machine, choosing, watcher),
        Control::Own(choosing, last) => {
            own::<W, T>(world, store, machine, choosing, last, watcher)
        }
        Control::Value(value) => give::<W, T>(world, store, machine, value, watcher),
        Control::Held(condition, binding) => hold::<W, T>(
            world, store, machine, condition, binding, budget, watcher,
        ),
        Control::Failed(condition) => {
            fail::<W, T>(world, store, machine, condition, budget, watcher)
        }
    }
}

/// A term is taken apart, unless it is known to be its own value.
fn open<W: World>(
    world: &W,
    store: &Store,
    level: u32,
    term: TermId,
) -> Result<Control<W::Attempts, W::Choices, W::Binding, W::Settling>, EvalEnd>
    requires ready { W.ready world.now store.now }
    requires term { (W.words world.now store.now).knows_term term.0 }
    ensures goes { (r b : ℕ) → IfOk result (λ next. Follows (W.words world.now store.now).rules.program
        (λ n. comes (W.words world.now store.now).rules (task_in (W.words world.now store.now) n (Control.Eval level term)) r b)
        (λ n. comes (W.words world.now store.now).rules (task_in (W.words world.now store.now) n next) r b)) }
    ensures ends { (r b : ℕ) → IfErr result (ComesToEnd (W.words world.now store.now).rules.program
        (λ n. comes (W.words world.now store.now).rules (task_in (W.words world.now store.now) n (Control.Eval level term)) r b)) }
    ensures known { IfOk result (λ next. IsKnownNext (W.words world.now store.now) next
        × (comes_to (W.words world.now store.now) next ≡ value_of (kind_of (W.words world.now store.now) term.0))) }
    ensures told { IfOk result (TaskStays (W.words world.now store.now) store.now (W.table world.now) (Control.Eval level term)) }
{
    if level == 0 {
        return Err(EvalEnd::TooDeep);
    }
    if world.rests(store, term, level) {
        return Ok(Control::Value(term));
    }
    match world.arguments(store, term) {
        Ok(Some((op, args, order))) => Ok(Control::Evaluating(Arguments {
            level: level - 1,
            op,
            args,
            order,
            next: 0,
        })),
        Ok(None) => Ok(Control::Top(level - 1, term)),
        Err(_) => Err(EvalEnd::NoMemory),
    }
}

/// The next argument is evaluated, or the term is rebuilt.
fn go_on<W: World, T: StepWatcher>(
    world: &mut W,
    store: &mut Store,
    machine: &mut Machine<W::Attempts, W::Choices, W::Binding, W::Settling>,
    arguments: Arguments,
    watcher: &mut T,
) -> Result<Control<W::Attempts, W::Choices, W::Binding, W::Settling>, EvalEnd>
    requires ready { W.ready world.old store.old }
    requires operands { (W.words world.old store.old).knows_operands arguments.op.0 arguments.args.items }
    ensures goes { (b : ℕ) → IfOk result (λ next. Goes (W.words world.new store.new) machine.old.frames.items
        (Control.Evaluating arguments) machine.old.rewrites b machine.new.frames.items next machine.new.rewrites b) }
    ensures ends { (b : ℕ) → IfErr result (ComesToEnd (W.words world.new store.new).rules.program
        (λ n. whole (W.words world.new store.new) n machine.old.frames.items (Control.Evaluating arguments) machine.old.rewrites b)) }
    ensures known { IfOk result (StayKnown (W.words world.old store.old) (W.words world.new store.new) machine.old.frames.items
        (Control.Evaluating arguments) machine.new.frames.items) }
    ensures grows { W.grows world.old store.old world.new store.new }
    ensures told { T.wanted watcher.old ≡ true → IfOk result (λ next. StayTold (W.words world.old store.old)
        (W.words world.new store.new) store.old store.new (W.table world.old) (W.table world.new)
        machine.old.frames.items (Control.Evaluating arguments) machine.old.rewrites
        (T.told watcher.old) machine.new.frames.items next machine.new.rewrites (T.told watcher.new)) }
    ensures more { OnErr result (TellsMore (T.told watcher.old) (T.told watcher.new)) }
    ensures watched { IsWatched (T.wanted watcher.old) (T.wanted watcher.new) (T.told watcher.old) (T.told watcher.new) }
{
    let mut arguments = arguments;
    if arguments.next >= arguments.order.len() {
        return rebuild::<W, T>(world, store, machine, arguments, watcher);
    }
    let place = arguments.order[arguments.next];
    let level = arguments.level;
    arguments.next += 1;
    if place >= arguments.args.len() {
        return Ok(Control::Evaluating(arguments));
    }
    let term = arguments.args[place];
    let at = argument_at(place)?;
    begin(
        machine,
        watcher,
        Frame::Argument(arguments, place),
        term,
        at,
    )?;
    Ok(Control::Eval(level, term))
}

/// A term is rebuilt over its arguments.
fn rebuild<W: World, T: StepWatcher>(
    world: &mut W,
    store: &mut Store,
    machine: &mut Machine<W::Attempts, W::Choices, W::Binding, W::Settling>,
    arguments: Arguments,
    watcher: &mut T,
) -> Result<Control<W::Attempts, W::Choices, W::Binding, W::Settling>, EvalEnd>
    requires ready { W.ready world.old store.old }
    requires operands { (W.words world.old store.old).knows_operands arguments.op.0 arguments.args.items }
    requires last { length arguments.order.items ≤ arguments.next }
    ensures goes { (b : ℕ) → IfOk result (λ next. Goes (W.words world.new store.new) machine.old.frames.items
        (Control.Evaluating arguments) machine.old.rewrites b machine.new.frames.items next machine.new.rewrites b) }
    ensures ends { (b : ℕ) → IfErr result (ComesToEnd (W.words world.new store.new).rules.program
        (λ n. whole (W.words world.new store.new) n machine.old.frames.items (Control.Evaluating arguments) machine.old.rewrites b)) }
    ensures known { IfOk result (StayKnown (W.words world.old store.old) (W.words world.new store.new) machine.old.frames.items
        (Control.Evaluating arguments) machine.new.frames.items) }
    ensures grows { W.grows world.old store.old world.new store.new }
    ensures told { T.wanted watcher.old ≡ true → IfOk result (λ next. StayTold (W.words world.old store.old)
        (W.words world.new store.new) store.old store.new (W.table world.old) (W.table world.new)
        machine.old.frames.items (Control.Evaluating arguments) machine.old.rewrites
        (T.told watcher.old) machine.new.frames.items next machine.new.rewrites (T.told watcher.new)) }
    ensures more { OnErr result (TellsMore (T.told watcher.old) (T.told watcher.new)) }
    ensures watched { IsWatched (T.wanted watcher.old) (T.wanted watcher.new) (T.told watcher.old) (T.told watcher.new) }
{
    match world.build(store, arguments.op, &arguments.args, &arguments.order) {
        Ok((term, true)) => {
            begin(machine, watcher, Frame::Again(term), term, Place::Whole)?;
            Ok(Control::Eval(arguments.level, term))
        }
        Ok((term, false)) => Ok(Control::Top(arguments.level, term)),
        Err(end) => Err(end),
    }
}

/// The sorts of a term begin to be settled.
fn look<W: World>(
    world: &mut W,
    store: &mut Store,
    level: u32,
    term: TermId,
) -> Result<Control<W::Attempts, W::Choices, W::Binding, W::Settling>, EvalEnd>
    requires ready { W.ready world.old store.old }
    requires term { (W.words world.old store.old).knows_term term.0 }
    ensures goes { (r b : ℕ) → IfOk result (λ next. Follows (W.words world.new store.new).rules.program
        (λ n. comes (W.words world.new store.new).rules (task_in (W.words world.new store.new) n (Control.Top level term)) r b)
        (λ n. comes (W.words world.new store.new).rules (task_in (W.words world.new store.new) n next) r b)) }
    ensures ends { (o : Outcome Reply) → IfErr result (IsEnd o) }
    ensures known { IfOk result (λ next. IsKnownNext (W.words world.new store.new) next
        × (comes_to (W.words world.new store.new) next ≡ value_of (kind_of (W.words world.new store.new) term.0))) }
    ensures told { IfOk result (TaskStays (W.words world.new store.new) store.new (W.table world.new) (Control.Top level term)) }
    ensures grows { W.grows world.old store.old world.new store.new }
{
    match world.settling(store, term) {
        Ok(settling) => Ok(Control::Settle(level, term, settling)),
        Err(_) => Err(EvalEnd::NoMemory),
    }
}

/// The sorts of a term are settled further: the next condition is solved, by a budget of its own, or there is none.
fn derive<W: World, T: StepWatcher>(
    world: &mut W,
    store: &mut Store,
    machine: &mut Machine<W::Attempts, W::Choices, W::Binding, W::Settling>,
    level: u32,
    term: TermId,
    settling: W::Settling,
    budget: &mut u64,
    watcher: &mut T,
) -> Result<Control<W::Attempts, W::Choices, W::Binding, W::Settling>, EvalEnd>
    requires ready { W.ready world.old store.old }
    requires term { (W.words world.old store.old).knows_term term.0 }
    requires settling { (W.words world.old store.old).knows_settling term.0 settling }
    ensures goes { IfOk result (λ next. Goes (W.words world.new store.new) machine.old.frames.items
        (Control.Settle level term settling) machine.old.rewrites budget.old machine.new.frames.items next machine.new.rewrites budget.new) }
    ensures ends { (o : Outcome Reply) → IfErr result (IsEnd o) }
    ensures known { IfOk result (StayKnown (W.words world.old store.old) (W.words world.new store.new) machine.old.frames.items
        (Control.Settle level term settling) machine.new.frames.items) }
    ensures grows { W.grows world.old store.old world.new store.new }
    ensures told { T.wanted watcher.old ≡ true → IfOk result (λ next. StayTold (W.words world.old store.old)
        (W.words world.new store.new) store.old store.new (W.table world.old) (W.table world.new)
        machine.old.frames.items (Control.Settle level term settling) machine.old.rewrites
        (T.told watcher.old) machine.new.frames.items next machine.new.rewrites (T.told watcher.new)) }
    ensures more { OnErr result (TellsMore (T.told watcher.old) (T.told watcher.new)) }
    ensures watched { IsWatched (T.wanted watcher.old) (T.wanted watcher.new) (T.told watcher.old) (T.told watcher.new) }
{
    let mut settling = settling;
    match world.settle(store, term, &mut settling) {
        Ok(None) => Ok(Control::Ready(level, term)),
        Ok(Some((condition, binding))) => {
            let settled = Settled {
                level,
                term,
                condition,
                settling,
                budget: *budget,
                before: machine.rewrites,
            };
            let mark = mark(watcher);
            machine.wait(Frame::Deriving(settled, mark))?;
            machine.rewrites = 0;
            *budget = world.limit();
            Ok(Control::Solve(Condition {
                level,
                condition,
                at: 0,
                binding,
                behind: None,
            }))
        }
        Err(_) => Err(EvalEnd::NoMemory),
    }
}

/// An application at the top of a term whose sorts are settled is looked for.
fn apply<W: World>(
    world: &mut W,
    store: &mut Store,
    level: u32,
    term: TermId,
) -> Result<Control<W::Attempts, W::Choices, W::Binding, W::Settling>, EvalEnd>
    requires ready { W.ready world.old store.old }
    requires value { (W.words world.old store.old).knows_value term.0 }
    ensures goes { (r b : ℕ) → IfOk result (λ next. Follows (W.words world.new store.new).rules.program
        (λ n. comes (W.words world.new store.new).rules (task_in (W.words world.new store.new) n (Control.Ready level term)) r b)
        (λ n. comes (W.words world.new store.new).rules (task_in (W.words world.new store.new) n next) r b)) }
    ensures ends { (o : Outcome Reply) → IfErr result (IsEnd o) }
    ensures known { IfOk result (λ next. IsKnownNext (W.words world.new store.new) next
        × (comes_to (W.words world.new store.new) next ≡ value_of (kind_of (W.words world.new store.new) term.0))) }
    ensures told { IfOk result (TaskStays (W.words world.new store.new) store.new (W.table world.new) (Control.Ready level term)) }
    ensures grows { W.grows world.old store.old world.new store.new }
{
    match world.attempts(store, term) {
        Ok(attempts) => Ok(Control::Attempt(Trial {
            level,
            term,
            condition: 0,
            attempts,
        })),
        Err(_) => Err(EvalEnd::NoMemory),
    }
}

/// The condition of the next candidate is solved, or there is none and the term is the value.
fn attempt<W: World, T: StepWatcher>(
    world: &mut W,
    store: &mut Store,
    machine: &mut Machine<W::Attempts, W::Choices, W::Binding, W::Settling>,
    trial: Trial<W::Attempts>,
    watcher: &mut T,
) -> Result<Control<W::Attempts, W::Choices, W::Binding, W::Settling>, EvalEnd>
    requires ready { W.ready world.old store.old }
    requires value { (W.words world.old store.old).knows_value trial.term.0 }
    requires attempts { (W.words world.old store.old).knows_attempts trial.term.0 trial.attempts }
    ensures goes { (b : ℕ) → IfOk result (λ next. Goes (W.words world.new store.new) machine.old.frames.items
        (Control.Attempt trial) machine.old.rewrites b machine.new.frames.items next machine.new.rewrites b) }
    ensures ends { (b : ℕ) → IfErr result (ComesToEnd (W.words world.new store.new).rules.program
        (λ n. whole (W.words world.new store.new) n machine.old.frames.items (Control.Attempt trial) machine.old.rewrites b)) }
    ensures known { IfOk result (StayKnown (W.words world.old store.old) (W.words world.new store.new) machine.old.frames.items
        (Control.Attempt trial) machine.new.frames.items) }
    ensures grows { W.grows world.old store.old world.new store.new }
    ensures told { T.wanted watcher.old ≡ true → IfOk result (λ next. StayTold (W.words world.old store.old)
        (W.words world.new store.new) store.old store.new (W.table world.old) (W.table world.new)
        machine.old.frames.items (Control.Attempt trial) machine.old.rewrites
        (T.told watcher.old) machine.new.frames.items next machine.new.rewrites (T.told watcher.new)) }
    ensures more { OnErr result (TellsMore (T.told watcher.old) (T.told watcher.new)) }
    ensures watched { IsWatched (T.wanted watcher.old) (T.wanted watcher.new) (T.told watcher.old) (T.told watcher.new) }
{
    let mut trial = trial;
    match world.attempt(store, trial.term, &mut trial.attempts) {
        Ok(None) => Ok(Control::Value(trial.term)),
        Ok(Some((condition, binding))) => {
            let level = trial.level;
            let before = machine.rewrites;
            trial.condition = condition;
            let mark = mark(watcher);
            machine.wait(Frame::Trying(trial, before, mark))?;
            machine.rewrites = 0;
            Ok(Control::Solve(Condition {
                level,
                condition,
                at: 0,
                binding,
                behind: None,
            }))
        }
        Err(end) => Err(end),
    }
}

/// The next fragment of a condition.
fn solve<W: World, T: StepWatcher>(
    world: &mut W,
    store: &mut Store,
    machine: &mut Machine<W::Attempts, W::Choices, W::Binding, W::Settling>,
    condition: Condition<W::Binding>,
    watcher: &mut T,
) -> Result<Control<W::Attempts, W::Choices, W::Binding, W::Settling>, EvalEnd>
    requires ready { W.ready world.old store.old }
    requires binding { (W.words world.old store.old).knows_binding condition.condition condition.at condition.binding }
    requires last { KnowsLast (W.words world.old store.old) condition }
    ensures goes { (b : ℕ) → IfOk result (λ next. Goes (W.words world.new store.new) machine.old.frames.items
        (Control.Solve condition) machine.old.rewrites b machine.new.frames.items next machine.new.rewrites b) }
    ensures ends { (b : ℕ) → IfErr result (ComesToEnd (W.words world.new store.new).rules.program
        (λ n. whole (W.words world.new store.new) n machine.old.frames.items (Control.Solve condition) machine.old.rewrites b)) }
    ensures known { IfOk result (StayKnown (W.words world.old store.old) (W.words world.new store.new) machine.old.frames.items
        (Control.Solve condition) machine.new.frames.items) }
    ensures grows { W.grows world.old store.old world.new store.new }
    ensures told { T.wanted watcher.old ≡ true → IfOk result (λ next. StayTold (W.words world.old store.old)
        (W.words world.new store.new) store.old store.new (W.table world.old) (W.table world.new)
        machine.old.frames.items (Control.Solve condition) machine.old.rewrites
        (T.told watcher.old) machine.new.frames.items next machine.new.rewrites (T.told watcher.new)) }
    ensures more { OnErr result (TellsMore (T.told watcher.old) (T.told watcher.new)) }
    ensures watched { IsWatched (T.wanted watcher.old) (T.wanted watcher.new) (T.told watcher.old) (T.told watcher.new) }
{
    let level = condition.level;
    match world.goal(condition.condition, condition.at) {
        Goal::Nothing => Ok(solved::<W>(world, store, condition)),
        Goal::Reaching => Ok(Control::Failed(condition.condition)),
        Goal::Equality => match side::<W>(world, store, &condition, false) {
            Ok(term) => {
                let place = fragment_at(condition.at, 0)?;
                begin(machine, watcher, Frame::Left(condition), term, place)?;
                Ok(Control::Eval(level, term))
            }
            Err(end) => Err(end),
        },
        Goal::Sort => match side::<W>(world, store, &condition, false) {
            Ok(term) => {
                let place = fragment_at(condition.at, 0)?;
                begin(machine, watcher, Frame::Sorting(condition), term, place)?;
                Ok(Control::Eval(level, term))
            }
            Err(end) => Err(end),
        },
        Goal::Matching => match side::<W>(world, store, &condition, true) {
            Ok(term) => {
                let place = fragment_at(condition.at, 1)?;
                begin(machine, watcher, Frame::Matching(condition), term, place)?;
                Ok(Control::Eval(level, term))
            }
            Err(end) => Err(end),
        },
    }
}

/// What becomes of a condition of which all fragments are solved. A solution is not given again behind itself.
fn solved<W: World>(
    world: &W,
    store: &Store,
    condition: Condition<W::Binding>,
) -> Control<W::Attempts, W::Choices, W::Binding, W::Settling>
    requires asks { Asks (W.words world.now store.now).rules condition.condition condition.at Goal.Nothing }
    requires binding { (W.words world.now store.now).knows_binding condition.condition condition.at condition.binding }
    ensures goes { (r b n : ℕ) → comes (W.words world.now store.now).rules (task_in (W.words world.now store.now) n (Control.Solve condition)) r b
        ≡ comes (W.words world.now store.now).rules (task_in (W.words world.now store.now) n result) r b }
    ensures known { IsKnownNext (W.words world.now store.now) result
        × (comes_to (W.words world.now store.now) result ≡ answer_to condition.condition) }
    ensures told { TaskStays (W.words world.now store.now) store.now (W.table world.now) (Control.Solve condition) result }
{
    match condition.behind {
        None => Control::Held(condition.condition, condition.binding),
        Some(_) => Control::Failed(condition.condition),
    }
}

/// A side of the next fragment, which can be evaluated by some levels only.
pub fn side<W: World>(
    world: &mut W,
    store: &mut Store,
    condition: &Condition<W::Binding>,
    right: bool,
) -> Result<TermId, EvalEnd>
    requires ready { W.ready world.old store.old }
    requires side { HasSide (W.words world.old store.old).rules condition.now.condition condition.now.at right }
    requires binding { (W.words world.old store.old).knows_binding condition.now.condition condition.now.at condition.now.binding }
    ensures value { (n b : ℕ) → IfOk result (λ t. eval_on (W.words world.new store.new).rules (condition.now.level + n)
        (side_of (W.words world.new store.new).rules condition.now.condition condition.now.at right
        ((W.words world.new store.new).bound condition.now.binding)) b
        ≡ eval_on (W.words world.new store.new).rules (condition.now.level + n) ((W.words world.new store.new).tree t.0) b) }
    ensures ends { (b : ℕ) → IfErr result (ComesToEnd (W.words world.new store.new).rules.program
        (λ n. eval_on (W.words world.new store.new).rules (condition.now.level + n)
        (side_of (W.words world.new store.new).rules condition.now.condition condition.now.at right
        ((W.words world.new store.new).bound condition.now.binding)) b)) }
    ensures is { IfOk result (λ t. (W.words world.new store.new).tree t.0 ≡ norm (W.words world.new store.new).rules.program.sign.theory
        (side_of (W.words world.new store.new).rules condition.now.condition condition.now.at right
        ((W.words world.new store.new).bound condition.now.binding))) }
    ensures known { IfOk result (λ t. (W.words world.new store.new).knows_term t.0) }
    ensures grows { W.grows world.old store.old world.new store.new }
{
    if condition.level == 0 {
        return Err(EvalEnd::TooDeep);
    }
    world.side(
        store,
        condition.condition,
        condition.at,
        right,
        &condition.binding,
    )
}

/// The fragments behind `p := u` are solved for its next solution, or there is none.
fn choose<W: World, T: StepWatcher>(
    world: &mut W,
    store: &mut Store,
    machine: &mut Machine<W::Attempts, W::Choices, W::Binding, W::Settling>,
    choosing: Choosing<W::Choices>,
    watcher: &mut T,
) -> Result<Control<W::Attempts, W::Choices, W::Binding, W::Settling>, EvalEnd>
    requires ready { W.ready world.old store.old }
    requires choices { (W.words world.old store.old).knows_choices choosing.condition choosing.at choosing.choices }
    ensures goes { (b : ℕ) → IfOk result (λ next. Goes (W.words world.new store.new) machine.old.frames.items
        (Control.Choose choosing) machine.old.rewrites b machine.new.frames.items next machine.new.rewrites b) }
    ensures ends { (b : ℕ) → IfErr result (ComesToEnd (W.words world.new store.new).rules.program
        (λ n. whole (W.words world.new store.new) n machine.old.frames.items (Control.Choose choosing) machine.old.rewrites b)) }
    ensures known { IfOk result (StayKnown (W.words world.old store.old) (W.words world.new store.new) machine.old.frames.items
        (Control.Choose choosing) machine.new.frames.items) }
    ensures grows { W.grows world.old store.old world.new store.new }
    ensures told { T.wanted watcher.old ≡ true → IfOk result (λ next. StayTold (W.words world.old store.old)
        (W.words world.new store.new) store.old store.new (W.table world.old) (W.table world.new)
        machine.old.frames.items (Control.Choose choosing) machine.old.rewrites
        (T.told watcher.old) machine.new.frames.items next machine.new.rewrites (T.told watcher.new)) }
    ensures more { OnErr result (TellsMore (T.told watcher.old) (T.told watcher.new)) }
    ensures watched { IsWatched (T.wanted watcher.old) (T.wanted watcher.new) (T.told watcher.old) (T.told watcher.new) }
{
    let mut choosing = choosing;
    match world.choose(
        store,
        choosing.condition,
        choosing.at,
        &mut choosing.choices,
    ) {
        Ok(None) => Ok(Control::Failed(choosing.condition)),
        Ok(Some(binding)) => {
            let level = choosing.level;
            let condition = choosing.condition;
            match choosing.at.checked_add(1) {
                Some(at) => {
                    let mark = mark(watcher);
                    machine.wait(Frame::Choice(choosing, mark))?;
                    machine.rewrites = 0;
                    Ok(Control::Solve(Condition {
                        level,
                        condition,
                        at,
                        binding,
                        behind: None,
                    }))
                }
                None => Err(EvalEnd::NoMemory),
            }
        }
        Err(_) => Err(EvalEnd::NoMemory),
    }
}

/// The fragments behind `p := u` are solved behind a solution, for the solution that it has of this fragment. What stands in front of that
/// one is passed over.
fn own<W: World, T: StepWatcher>(
    world: &mut W,
    store: &mut Store,
    machine: &mut Machine<W::Attempts, W::Choices, W::Binding, W::Settling>,
    choosing: Choosing<W::Choices>,
    last: Box<W::Binding>,
    watcher: &mut T,
) -> Result<Control<W::Attempts, W::Choices, W::Binding, W::Settling>, EvalEnd>
    requires ready { W.ready world.old store.old }
    requires choices { (W.words world.old store.old).knows_choices choosing.condition choosing.at choosing.choices }
    requires last { (W.words world.old store.old).knows_last last.value }
    ensures goes { (b : ℕ) → IfOk result (λ next. Goes (W.words world.new store.new) machine.old.frames.items
        (Control.Own choosing last) machine.old.rewrites b machine.new.frames.items next machine.new.rewrites b) }
    ensures ends { (o : Outcome Reply) → IfErr result (IsEnd o) }
    ensures known { IfOk result (StayKnown (W.words world.old store.old) (W.words world.new store.new) machine.old.frames.items
        (Control.Own choosing last) machine.new.frames.items) }
    ensures grows { W.grows world.old store.old world.new store.new }
    ensures told { T.wanted watcher.old ≡ true → IfOk result (λ next. StayTold (W.words world.old store.old)
        (W.words world.new store.new) store.old store.new (W.table world.old) (W.table world.new)
        machine.old.frames.items (Control.Own choosing last) machine.old.rewrites
        (T.told watcher.old) machine.new.frames.items next machine.new.rewrites (T.told watcher.new)) }
    ensures more { OnErr result (TellsMore (T.told watcher.old) (T.told watcher.new)) }
    ensures watched { IsWatched (T.wanted watcher.old) (T.wanted watcher.new) (T.told watcher.old) (T.told watcher.new) }
{
    let mut choosing = choosing;
    match world.own(
        store,
        choosing.condition,
        choosing.at,
        &mut choosing.choices,
        &*last,
    ) {
        Ok(binding) => {
            let level = choosing.level;
            let condition = choosing.condition;
            match choosing.at.checked_add(1) {
                Some(at) => {
                    let mark = mark(watcher);
                    machine.wait(Frame::Choice(choosing, mark))?;
                    machine.rewrites = 0;
                    Ok(Control::Solve(Condition {
                        level,
                        condition,
                        at,
                        binding,
                        behind: Some(last),
                    }))
                }
                None => Err(EvalEnd::NoMemory),
            }
        }
        Err(_) => Err(EvalEnd::NoMemory),
    }
}
