//! Configurations in which nothing is left to do, and those whose first strategy has a fixed list of successors.
ghost use Rattle.std.specs.Prelude.{◌≡◌, ◌<◌, ◌∷◌, [], List, length, slice_get, Some, All};
ghost use Rattle.mau_strat.specs.declared.forms.Form.{Form};
ghost use Rattle.mau_strat.specs.Sharing.{list_at, Extends};
ghost use Rattle.mau_strat.specs.Forms.{LeafIn};
ghost use Rattle.mau_stratrun.specs.Settings.{Setting};
ghost use Rattle.mau_stratrun.specs.States.{IsState, strategy_in};
ghost use Rattle.mau_stratrun.specs.Turns.{HasTurns};
ghost use Rattle.mau_stratrun.specs.Moves.{state_of, made_in, Answers, GoesTo};

use crate::ahead::{First, enter};
use crate::turns::turn_at;
use mau_strat::{Config, Form, Forms, Interner, Todo, TodosId};
use mau_terms::NoMemory;

/// The successor at a place where nothing is left to do: it goes on outside the innermost frame, and there is none of a solution.
pub(crate) fn outside(
    interner: &mut Interner,
    config: Config,
    at: usize,
) -> Result<Option<usize>, NoMemory>
    requires frames { config.frames.0 < length interner.old.frames }
    requires done { list_at interner.old.todos config.todo.0 ≡ [] }
    ensures answer { (g : Setting) (forms : List Form) → IsState (state_of g forms interner.old) → config.term.0 < g.terms →
        Answers (state_of g forms interner.old) (made_in (state_of g forms interner.old) config) at (state_of g forms interner.new) result }
    ensures goes { (g : Setting) (forms : List Form) → IsState (state_of g forms interner.old) → config.term.0 < g.terms →
        GoesTo g forms interner.old forms interner.new config.term.0 [] }
{
    match interner.frame_parts(config.frames) {
        None => Ok(None),
        Some((frame, rest)) => {
            if at != 0 {
                return Ok(None);
            }
            match enter(
                interner,
                config.term,
                First::One(frame.after.form),
                frame.after,
                frame.behind,
                rest,
            ) {
                Ok(number) => Ok(Some(number)),
                Err(_) => Err(NoMemory),
            }
        }
    }
}

/// The successor at a place where the first strategy has a fixed list of successors.
pub(crate) fn by_turns(
    forms: &mut Forms,
    interner: &mut Interner,
    config: Config,
    form: Form,
    own: Todo,
    rest: TodosId,
    at: usize,
) -> Result<Option<usize>, NoMemory>
    requires form { slice_get forms.old own.form.0 ≡ Some form }
    requires inner { LeafIn 0 form }
    requires frames { config.frames.0 < length interner.old.frames }
    requires values { own.values.0 < length interner.old.bindings }
    requires rest { rest.0 < length interner.old.todos }
    requires parts { list_at interner.old.todos config.todo.0 ≡ own ∷ list_at interner.old.todos rest.0 }
    ensures answer { (g : Setting) → IsState (state_of g forms.old interner.old) → config.term.0 < g.terms →
        HasTurns (strategy_in (state_of g forms.old interner.old) own.form.0) →
        Answers (state_of g forms.old interner.old) (made_in (state_of g forms.old interner.old) config) at (state_of g forms.new
        interner.new) result }
    ensures goes { (g : Setting) → IsState (state_of g forms.old interner.old) → config.term.0 < g.terms →
        HasTurns (strategy_in (state_of g forms.old interner.old) own.form.0) →
        GoesTo g forms.old interner.old forms.new interner.new config.term.0 [] }
{
    match turn_at(forms, form, own.form, at) {
        Ok(Some(first)) => match enter(interner, config.term, first, own, rest, config.frames) {
            Ok(number) => Ok(Some(number)),
            Err(_) => Err(NoMemory),
        },
        Ok(None) => Ok(None),
        Err(_) => Err(NoMemory),
    }
}
