//! The successors of `E ? F : G`: inside first, and then G, where no result was listed inside.
ghost use Rattle.std.specs.Prelude.{◌≡◌, ◌↔◌, ◌<◌, ◌∷◌, [], List, length, slice_get, Some, All, IsTrue, IfOk};
ghost use Rattle.mau_strat.specs.declared.forms.Form.{Form};
ghost use Rattle.mau_strat.specs.Sharing.{list_at};
ghost use Rattle.mau_strat.specs.Interned.{Grows};
ghost use Rattle.mau_stratrun.specs.Settings.{Setting};
ghost use Rattle.mau_stratrun.specs.States.{IsState, frames_in};
ghost use Rattle.mau_stratrun.specs.Moves.{state_of, made_in, Answers, GoesTo};
ghost use Rattle.mau_stratrun.specs.Branches.{frame_on, HasResult, IsResult, IsBranchAt, IsAtPlace};

use crate::ahead::{First, enter};
use mau_strat::{Config, Frame, FramesId, Interner, Listed, StrategyId, Todo, TodosId};
use mau_terms::NoMemory;

/// The parts of `E ? F : G`.
#[derive(Clone, Copy)]
pub struct Branch {
    pub test: StrategyId,
    pub then: StrategyId,
    pub other: StrategyId,
}

/// Whether nothing is left to do on a configuration inside this chain of frames.
fn is_result(interner: &Interner, config: Config, frames: FramesId) -> bool
    requires { config.todo.0 < length interner.now.todos }
    ensures { IsTrue result ↔ IsResult interner.now frames.0 config }
{
    if config.frames.0 != frames.0 {
        return false;
    }
    interner.todo_parts(config.todo).is_none()
}

/// Whether one of the listed configurations is a result inside this chain of frames.
fn has_result(interner: &Interner, listed: &Listed, frames: FramesId) -> bool
    requires { All (λ c. c < length interner.now.configs) listed.now }
    ensures { IsTrue result ↔ HasResult interner.now listed.now frames.0 }
{
    let _ = interner.len();
    for place in 0..listed.len() {
        let config = interner.config(listed.at(place));
        if is_result(interner, config, frames) {
            return true;
        }
    }
    false
}

/// The chain of frames inside the test.
fn frames_of(
    interner: &mut Interner,
    config: Config,
    own: Todo,
    rest: TodosId,
    then: StrategyId,
) -> Result<FramesId, NoMemory>
    requires frames { config.frames.0 < length interner.old.frames }
    requires values { own.values.0 < length interner.old.bindings }
    requires rest { rest.0 < length interner.old.todos }
    ensures id { IfOk result (λ id. id.0 < length interner.new.frames) }
    ensures frames { (g : Setting) (forms : List Form) → IsState (state_of g forms interner.old) → IfOk result (λ id.
        frames_in (state_of g forms interner.new) id.0 ≡ frame_on (state_of g forms interner.old) config.term.0 own rest.0 then.0 ∷
        frames_in (state_of g forms interner.old) config.frames.0) }
    ensures goes { (g : Setting) (forms : List Form) → IsState (state_of g forms interner.old) → config.term.0 < g.terms →
        own.form.0 < length forms → then.0 < length forms →
        GoesTo g forms interner.old forms interner.new config.term.0 [] }
    ensures configs { interner.new.configs ≡ interner.old.configs }
    ensures grows { Grows interner.old interner.new }
{
    let after = Todo {
        form: then,
        calls: own.calls,
        values: own.values,
    };
    let frame = Frame {
        test: own,
        after,
        begun: config.term,
        behind: rest,
    };
    interner.add_frame(frame, config.frames)
}

/// The first successor of `E ? F : G`.
fn inside(
    interner: &mut Interner,
    config: Config,
    own: Todo,
    rest: TodosId,
    parts: Branch,
) -> Result<Option<usize>, NoMemory>
    requires frames { config.frames.0 < length interner.old.frames }
    requires values { own.values.0 < length interner.old.bindings }
    requires rest { rest.0 < length interner.old.todos }
    requires todos { 0 < length interner.old.todos }
    requires own { list_at interner.old.todos config.todo.0 ≡ own ∷ list_at interner.old.todos rest.0 }
    ensures answer { (g : Setting) (forms : List Form) → IsState (state_of g forms interner.old) → config.term.0 < g.terms →
        IsBranchAt (state_of g forms interner.old) own.form.0 parts →
        Answers (state_of g forms interner.old) (made_in (state_of g forms interner.old) config) 0 (state_of g forms interner.new) result }
    ensures goes { (g : Setting) (forms : List Form) → IsState (state_of g forms interner.old) → config.term.0 < g.terms →
        IsBranchAt (state_of g forms interner.old) own.form.0 parts →
        GoesTo g forms interner.old forms interner.new config.term.0 [] }
{
    let frames = match frames_of(interner, config, own, rest, parts.then) {
        Ok(frames) => frames,
        Err(_) => return Err(NoMemory),
    };
    match enter(
        interner,
        config.term,
        First::One(parts.test),
        own,
        TodosId(0),
        frames,
    ) {
        Ok(number) => Ok(Some(number)),
        Err(_) => Err(NoMemory),
    }
}

/// The second successor of `E ? F : G`, where no result is listed inside.
fn otherwise(
    listed: &Listed,
    interner: &mut Interner,
    config: Config,
    own: Todo,
    rest: TodosId,
    parts: Branch,
) -> Result<Option<usize>, NoMemory>
    requires listed { All (λ c. c < length interner.old.configs) listed.now }
    requires frames { config.frames.0 < length interner.old.frames }
    requires values { own.values.0 < length interner.old.bindings }
    requires rest { rest.0 < length interner.old.todos }
    requires own { list_at interner.old.todos config.todo.0 ≡ own ∷ list_at interner.old.todos rest.0 }
    ensures answer { (g : Setting) (forms : List Form) → IsState (state_of g forms interner.old) → config.term.0 < g.terms →
        IsBranchAt (state_of g forms interner.old) own.form.0 parts →
        IsAtPlace (state_of g forms interner.old) (made_in (state_of g forms interner.old) config) listed.now 1 →
        Answers (state_of g forms interner.old) (made_in (state_of g forms interner.old) config) 1 (state_of g forms interner.new) result }
    ensures goes { (g : Setting) (forms : List Form) → IsState (state_of g forms interner.old) → config.term.0 < g.terms →
        IsBranchAt (state_of g forms interner.old) own.form.0 parts →
        GoesTo g forms interner.old forms interner.new config.term.0 [] }
{
    let frames = match frames_of(interner, config, own, rest, parts.then) {
        Ok(frames) => frames,
        Err(_) => return Err(NoMemory),
    };
    if has_result(interner, listed, frames) {
        return Ok(None);
    }
    match enter(
        interner,
        config.term,
        First::One(parts.other),
        own,
        rest,
        config.frames,
    ) {
        Ok(number) => Ok(Some(number)),
        Err(_) => Err(NoMemory),
    }
}

/// The successor of `E ? F : G` at a place.
pub(crate) fn by_branch(
    listed: &Listed,
    interner: &mut Interner,
    config: Config,
    own: Todo,
    rest: TodosId,
    parts: Branch,
    at: usize,
) -> Result<Option<usize>, NoMemory>
    requires listed { All (λ c. c < length interner.old.configs) listed.now }
    requires frames { config.frames.0 < length interner.old.frames }
    requires values { own.values.0 < length interner.old.bindings }
    requires rest { rest.0 < length interner.old.todos }
    requires todos { 0 < length interner.old.todos }
    requires own { list_at interner.old.todos config.todo.0 ≡ own ∷ list_at interner.old.todos rest.0 }
    ensures answer { (g : Setting) (forms : List Form) → IsState (state_of g forms interner.old) → config.term.0 < g.terms →
        IsBranchAt (state_of g forms interner.old) own.form.0 parts →
        IsAtPlace (state_of g forms interner.old) (made_in (state_of g forms interner.old) config) listed.now at →
        Answers (state_of g forms interner.old) (made_in (state_of g forms interner.old) config) at (state_of g forms interner.new) result }
    ensures goes { (g : Setting) (forms : List Form) → IsState (state_of g forms interner.old) → config.term.0 < g.terms →
        IsBranchAt (state_of g forms interner.old) own.form.0 parts →
        GoesTo g forms interner.old forms interner.new config.term.0 [] }
{
    if at == 0 {
        return inside(interner, config, own, rest, parts);
    }
    if at == 1 {
        return otherwise(listed, interner, config, own, rest, parts);
    }
    let _ = interner.len();
    Ok(None)
}
