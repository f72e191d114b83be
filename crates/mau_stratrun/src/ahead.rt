//! Configurations that go on from a term: what is to be done first, and then a rest.
ghost use Rattle.std.specs.Prelude.{[], ◌≡◌, ◌<◌, ◌∷◌, ◌++◌, map, length, All, IfOk, OnErr};
ghost use Rattle.mau_strat.specs.declared.forms.Form.{Form};
ghost use Rattle.std.specs.Prelude.{List};
ghost use Rattle.mau_evaluation.specs.Configs.{on};
ghost use Rattle.mau_strat.specs.Interned.{Grows};
ghost use Rattle.mau_stratrun.specs.Settings.{Setting};
ghost use Rattle.mau_stratrun.specs.States.{IsState, IsConfig, todos_in, frames_in, config_in};
ghost use Rattle.mau_stratrun.specs.Turns.{ids_of};
ghost use Rattle.mau_stratrun.specs.Moves.{state_of, todo_by, GoesTo};

use mau_strat::{Config, FramesId, Interner, StrategyId, Todo, TodosId};
use mau_terms::{NoMemory, TermId};

/// What is to be done first.
#[derive(Clone, Copy)]
pub enum First {
    Nothing,
    One(StrategyId),
    Two(StrategyId, StrategyId),
}

/// A strategy before the rest, with the calls and the values of another.
fn put(
    interner: &mut Interner,
    form: StrategyId,
    own: Todo,
    rest: TodosId,
) -> Result<TodosId, NoMemory>
    requires values { own.values.0 < length interner.old.bindings }
    requires rest { rest.0 < length interner.old.todos }
    ensures todos { (g : Setting) (forms : List Form) → IsState (state_of g forms interner.old) → IfOk result (λ id.
        todos_in (state_of g forms interner.new) id.0 ≡ todo_by (state_of g forms interner.old) own form.0 ∷ todos_in (state_of g forms
        interner.old) rest.0) }
    ensures id { IfOk result (λ id. id.0 < length interner.new.todos) }
    ensures state { (g : Setting) (forms : List Form) → IsState (state_of g forms interner.old) → form.0 < length forms →
        IsState (state_of g forms interner.new) }
    ensures grows { Grows interner.old interner.new }
    ensures bindings { interner.new.bindings ≡ interner.old.bindings }
    ensures frames { interner.new.frames ≡ interner.old.frames }
    ensures configs { interner.new.configs ≡ interner.old.configs }
{
    let first = Todo {
        form,
        calls: own.calls,
        values: own.values,
    };
    interner.add_todo(first, rest)
}

/// What is to be done first, before the rest.
fn ahead(
    interner: &mut Interner,
    first: First,
    own: Todo,
    rest: TodosId,
) -> Result<TodosId, NoMemory>
    requires values { own.values.0 < length interner.old.bindings }
    requires rest { rest.0 < length interner.old.todos }
    ensures todos { (g : Setting) (forms : List Form) → IsState (state_of g forms interner.old) →
        All (λ e. e < length forms) (ids_of first) → IfOk result (λ id.
        todos_in (state_of g forms interner.new) id.0 ≡ map (todo_by (state_of g forms interner.old) own) (ids_of first) ++ todos_in
        (state_of g forms interner.old) rest.0) }
    ensures id { IfOk result (λ id. id.0 < length interner.new.todos) }
    ensures state { (g : Setting) (forms : List Form) → IsState (state_of g forms interner.old) →
        All (λ e. e < length forms) (ids_of first) → IsState (state_of g forms interner.new) }
    ensures grows { Grows interner.old interner.new }
    ensures bindings { interner.new.bindings ≡ interner.old.bindings }
    ensures frames { interner.new.frames ≡ interner.old.frames }
    ensures configs { interner.new.configs ≡ interner.old.configs }
{
    match first {
        First::Nothing => Ok(rest),
        First::One(form) => put(interner, form, own, rest),
        First::Two(form, next) => {
            let behind = match put(interner, next, own, rest) {
                Ok(behind) => behind,
                Err(_) => return Err(NoMemory),
            };
            put(interner, form, own, behind)
        }
    }
}

/// The number of the configuration on a term, inside a chain of frames: what is to be done first, and then the rest.
pub(crate) fn enter(
    interner: &mut Interner,
    term: TermId,
    first: First,
    own: Todo,
    rest: TodosId,
    frames: FramesId,
) -> Result<usize, NoMemory>
    requires values { own.values.0 < length interner.old.bindings }
    requires rest { rest.0 < length interner.old.todos }
    requires frames { frames.0 < length interner.old.frames }
    ensures config { (g : Setting) (forms : List Form) → IsState (state_of g forms interner.old) →
        All (λ e. e < length forms) (ids_of first) → IfOk result (λ n.
        config_in (state_of g forms interner.new) n ≡ on (g.tree term.0) (map (todo_by (state_of g forms interner.old) own) (ids_of
        first) ++ todos_in (state_of g forms interner.old) rest.0) (frames_in (state_of g forms interner.old) frames.0)) }
    ensures number { IfOk result (λ n. n < length interner.new.configs) }
    ensures goes { (g : Setting) (forms : List Form) → IsState (state_of g forms interner.old) →
        All (λ e. e < length forms) (ids_of first) → term.0 < g.terms →
        GoesTo g forms interner.old forms interner.new term.0 [] }
{
    let todo = match ahead(interner, first, own, rest) {
        Ok(todo) => todo,
        Err(_) => return Err(NoMemory),
    };
    interner.add_config(Config { term, todo, frames })
}
