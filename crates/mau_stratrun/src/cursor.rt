//! A cursor for an entry whose successors are what its first strategy yields.
ghost use Rattle.std.specs.Prelude.{◌≡◌, ◌<◌, ℕ, ◌∷◌, ◌++◌, [], List, length, map, slice_get, Some, None, IsSome, All, IfOk, true};
ghost use Rattle.mau_terms.specs.Tree.{Tree};
ghost use Rattle.mau_evaluation.specs.Configs.{Todo as Doing};
ghost use Rattle.mau_strat.specs.declared.forms.Form.{Form};
ghost use Rattle.mau_strat.specs.Sharing.{list_at};
ghost use Rattle.mau_strat.specs.Interned.{Interned, Grows};
ghost use Rattle.mau_stratrun.specs.Settings.{Setting};
ghost use Rattle.mau_stratrun.specs.Yields.{Yield, after};
ghost use Rattle.mau_stratrun.specs.Worlds.{World, LeavesGrow, yield_of};
ghost use Rattle.mau_stratrun.specs.States.{State, IsState, IsConfig, config_in, todos_in, frames_in};
ghost use Rattle.mau_stratrun.specs.Moves.{state_of, made_in, GoesTo};
ghost use Rattle.mau_stratrun.specs.Courses.{HasBodies, HasFacts, IsKept, IsAsked, IsSettled, IsGiven, IsDefined, term_on, values_on};

use crate::ahead::{First, enter};
use crate::leaves::{LeafEnd, Leaves, Yielded};
use mau_strat::{BindingId, Bound, Config, Interner, StrategyId, Todo, TodosId};
use mau_terms::{NoMemory, TermId};
use std::alloc::Global;

/// A cursor for a configuration: the numbers of the successors that were given, and what was yielded and has no number yet.
#[derive(Drop)]
pub struct Kept<C> {
    pub config: usize,
    pub given: Vec<usize>,
    pub pending: Option<Yielded>,
    pub cursor: C,
}

/// The variables of a binding with their values.
pub(crate) fn values_of(
    alloc: Global,
    interner: &Interner,
    id: BindingId,
) -> Result<Vec<Bound>, NoMemory>
    requires { id.0 < length interner.now.bindings }
    ensures { IfOk result (λ v. v.items ≡ list_at interner.now.bindings id.0) }
{
    let mut values = Vec::new(alloc);
    let mut rest = id;
    while let Some((first, behind)) = interner.bound_parts(rest) {
        values.push(first)?;
        rest = behind;
    }
    Ok(values)
}

/// The number of the binding with these variables and values.
fn put_values(interner: &mut Interner, values: &[Bound]) -> Result<BindingId, NoMemory>
    requires { slice_get interner.old.bindings 0 ≡ Some [] }
    ensures id { IfOk result (λ id. id.0 < length interner.new.bindings) }
    ensures list { IfOk result (λ id. list_at interner.new.bindings id.0 ≡ values.now) }
    ensures grows { Grows interner.old interner.new }
    ensures goes { (g : Setting) (forms : List Form) (term : ℕ) → IsState (state_of g forms interner.old) →
        All (λ b. b.value.0 < g.terms) values.now →
        GoesTo g forms interner.old forms interner.new term values.now }
{
    let mut id = BindingId(0);
    for place in 0..values.len() {
        let bound = values[values.len() - 1 - place];
        id = interner.add_bound(bound, id)?;
    }
    Ok(id)
}

/// The number of the configuration that goes on from what was yielded.
fn enter_yield(
    interner: &mut Interner,
    bodies: &[StrategyId],
    config: Config,
    own: Todo,
    rest: TodosId,
    yielded: &Yielded,
) -> Result<usize, NoMemory>
    requires frames { config.frames.0 < length interner.old.frames }
    requires values { own.values.0 < length interner.old.bindings }
    requires rest { rest.0 < length interner.old.todos }
    requires empty { slice_get interner.old.bindings 0 ≡ Some [] }
    requires defined { IsDefined (length bodies.now) yielded.now }
    ensures number { IfOk result (λ n. n < length interner.new.configs) }
    ensures config { (g : Setting) (forms : List Form) → IsState (state_of g forms interner.old) →
        HasBodies bodies.now (state_of g forms interner.old) →
        term_on config yielded.now < g.terms → All (λ b. b.value.0 < g.terms) (values_on yielded.now) →
        IfOk result (λ n. config_in (state_of g forms interner.new) n ≡ after (todos_in (state_of g forms interner.old) rest.0)
        (frames_in (state_of g forms interner.old) config.frames.0) (yield_of g (g.tree config.term.0) yielded.now)) }
    ensures goes { (g : Setting) (forms : List Form) → IsState (state_of g forms interner.old) →
        HasBodies bodies.now (state_of g forms interner.old) →
        term_on config yielded.now < g.terms → All (λ b. b.value.0 < g.terms) (values_on yielded.now) →
        GoesTo g forms interner.old forms interner.new (term_on config yielded.now) (values_on yielded.now) }
{
    match yielded {
        Yielded::Term(term) => enter(interner, *term, First::Nothing, own, rest, config.frames),
        Yielded::Body(body) => {
            let values = match put_values(interner, &body.values) {
                Ok(values) => values,
                Err(_) => return Err(NoMemory),
            };
            let form = bodies[body.definition];
            let todo = Todo {
                form,
                calls: body.calls,
                values,
            };
            enter(
                interner,
                config.term,
                First::One(form),
                todo,
                rest,
                config.frames,
            )
        }
    }
}

/// Asks for one more, if none is pending. Whether there is one.
fn ask<X: Leaves>(leaves: &mut X, kept: &mut Kept<X::Cursor>) -> Result<bool, LeafEnd>
    requires ready { X.is_ready leaves.old }
    requires yields { (d : Doing) × (t : Tree) × (ys : List Yield) × (X.world leaves.old).yields kept.old.cursor d t ys }
    ensures asked { (forms : List Form) (i : Interned) → IsState (state_of (X.world leaves.old).setting forms i) →
        IsKept (X.world leaves.old) forms i kept.old →
        IsAsked (X.world leaves.new) forms i kept.old kept.new result }
    ensures ready { X.is_ready leaves.new }
    ensures grows { LeavesGrow (X.world leaves.old) (X.world leaves.new) }
{
    if kept.pending.is_some() {
        return Ok(true);
    }
    match leaves.next(&mut kept.cursor) {
        Ok(Some(yielded)) => {
            kept.pending = Some(yielded);
            Ok(true)
        }
        Ok(None) => Ok(false),
        Err(end) => Err(end),
    }
}

/// Gives what is pending its number.
fn settle<X: Leaves>(
    leaves: &X,
    interner: &mut Interner,
    bodies: &[StrategyId],
    kept: &mut Kept<X::Cursor>,
    config: Config,
    own: Todo,
    rest: TodosId,
) -> Result<usize, NoMemory>
    requires ready { X.is_ready leaves.now }
    requires frames { config.frames.0 < length interner.old.frames }
    requires values { own.values.0 < length interner.old.bindings }
    requires rest { rest.0 < length interner.old.todos }
    requires parts { list_at interner.old.todos config.todo.0 ≡ own ∷ list_at interner.old.todos rest.0 }
    requires config { slice_get interner.old.configs kept.old.config ≡ Some config }
    requires facts { (forms : List Form) × HasFacts (X.world leaves.now) forms interner.old bodies.now ×
        IsKept (X.world leaves.now) forms interner.old kept.old }
    ensures settled { (forms : List Form) → HasFacts (X.world leaves.now) forms interner.old bodies.now →
        IsKept (X.world leaves.now) forms interner.old kept.old →
        IsSettled (X.world leaves.now) forms interner.old bodies.now interner.new kept.old kept.new result }
{
    let _ = leaves;
    let yielded = match &kept.pending {
        Some(yielded) => yielded,
        None => return Err(NoMemory),
    };
    let number = match enter_yield(interner, bodies, config, own, rest, yielded) {
        Ok(number) => number,
        Err(_) => return Err(NoMemory),
    };
    if kept.given.push(number).is_err() {
        return Err(NoMemory);
    }
    kept.pending = None;
    Ok(number)
}

/// The successor at a place of the configuration for which a cursor is kept.
pub(crate) fn by_cursor<X: Leaves>(
    leaves: &mut X,
    interner: &mut Interner,
    bodies: &[StrategyId],
    kept: &mut Kept<X::Cursor>,
    config: Config,
    own: Todo,
    rest: TodosId,
    at: usize,
) -> Result<Option<usize>, LeafEnd>
    requires ready { X.is_ready leaves.old }
    requires frames { config.frames.0 < length interner.old.frames }
    requires values { own.values.0 < length interner.old.bindings }
    requires rest { rest.0 < length interner.old.todos }
    requires parts { list_at interner.old.todos config.todo.0 ≡ own ∷ list_at interner.old.todos rest.0 }
    requires config { slice_get interner.old.configs kept.old.config ≡ Some config }
    requires facts { (forms : List Form) × HasFacts (X.world leaves.old) forms interner.old bodies.now ×
        IsKept (X.world leaves.old) forms interner.old kept.old }
    ensures answer { (forms : List Form) → HasFacts (X.world leaves.old) forms interner.old bodies.now →
        IsKept (X.world leaves.old) forms interner.old kept.old →
        IsGiven (X.world leaves.old) forms interner.old bodies.now (X.world leaves.new) interner.new kept.old kept.new at result }
    ensures ready { X.is_ready leaves.new }
    ensures grows { LeavesGrow (X.world leaves.old) (X.world leaves.new) }
{
    let known = kept.given.len();
    if at < known {
        return Ok(Some(kept.given[at]));
    }
    if at > known {
        return Err(LeafEnd::NoMemory);
    }
    match ask(leaves, kept) {
        Ok(true) => match settle(leaves, interner, bodies, kept, config, own, rest) {
            Ok(number) => Ok(Some(number)),
            Err(_) => Err(LeafEnd::NoMemory),
        },
        Ok(false) => Ok(None),
        Err(end) => Err(end),
    }
}
