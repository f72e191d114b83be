//! What is told to a watcher, where it wants to be told.
ghost use Rattle.std.specs.Prelude.{◌≡◌, ◌≤◌, ◌++◌, ◌∷◌, [], ℕ, suc, true, false, length, take, IfOk, IfErr, OnOk, OnErr};
ghost use Rattle.mau_terms.specs.Norm.{norm};
ghost use Rattle.mau_listing.specs.Asked.{HasEntry};
ghost use Rattle.mau_api.specs.Events.{entered, left, made};
ghost use Rattle.mau_api.specs.Told.{TellsMore};
ghost use Rattle.mau_machine.specs.Words.{IsEnd, eval_on, kind_of, IsSolution};
ghost use Rattle.mau_machine.specs.Steps.{IsWatched, TellsUse};

use crate::machine::Machine;
use crate::{Frame, Trial, World};
use mau_api::{EvalEnd, Place, StepWatcher};
use mau_store::Store;
use mau_terms::{NoMemory, TermId};

/// A frame waits for the value of a term, which is entered at a place.
pub fn begin<A: Drop, C: Drop, S: Drop, D: Drop, T: StepWatcher>(
    machine: &mut Machine<A, C, S, D>,
    watcher: &mut T,
    frame: Frame<A, C, S, D>,
    term: TermId,
    place: Place,
) -> Result<(), NoMemory>
    ensures frames { OnOk result (machine.new.frames.items ≡ machine.old.frames.items ++ frame ∷ []) }
    ensures rewrites { machine.new.rewrites ≡ machine.old.rewrites }
    ensures told { T.wanted watcher.old ≡ true → OnOk result (T.told watcher.new ≡ T.told watcher.old ++ entered term place ∷ []) }
    ensures more { OnErr result (TellsMore (T.told watcher.old) (T.told watcher.new)) }
    ensures watched { IsWatched (T.wanted watcher.old) (T.wanted watcher.new) (T.told watcher.old) (T.told watcher.new) }
{
    if watcher.wants() {
        watcher.enter(term, place)?;
        return machine.wait(frame);
    }
    machine.wait(frame)
}

/// The evaluation of a whole term begins.
pub fn enter_whole<T: StepWatcher>(watcher: &mut T, term: TermId) -> Result<(), NoMemory>
    ensures told { T.wanted watcher.old ≡ true → OnOk result (T.told watcher.new ≡ T.told watcher.old ++ entered term Place.Whole ∷ []) }
    ensures more { OnErr result (TellsMore (T.told watcher.old) (T.told watcher.new)) }
    ensures watched { IsWatched (T.wanted watcher.old) (T.wanted watcher.new) (T.told watcher.old) (T.told watcher.new) }
{
    if watcher.wants() {
        return watcher.enter(term, Place::Whole);
    }
    Ok(())
}

/// The evaluation that was entered last has a value.
pub fn leave<T: StepWatcher>(watcher: &mut T, value: TermId) -> Result<(), NoMemory>
    ensures told { T.wanted watcher.old ≡ true → OnOk result (T.told watcher.new ≡ T.told watcher.old ++ left value ∷ []) }
    ensures more { OnErr result (TellsMore (T.told watcher.old) (T.told watcher.new)) }
    ensures watched { IsWatched (T.wanted watcher.old) (T.wanted watcher.new) (T.told watcher.old) (T.told watcher.new) }
{
    if watcher.wants() {
        return watcher.leave(value);
    }
    Ok(())
}

/// How much was told.
pub fn mark<T: StepWatcher>(watcher: &T) -> usize
    ensures { T.wanted watcher.now ≡ true → result ≡ length (T.told watcher.now) }
{
    if watcher.wants() {
        return watcher.mark();
    }
    0
}

/// What was told behind a mark is taken back.
pub fn back<T: StepWatcher>(watcher: &mut T, mark: usize)
    requires { T.wanted watcher.old ≡ true → mark ≤ length (T.told watcher.old) }
    ensures told { T.wanted watcher.old ≡ true → T.told watcher.new ≡ take mark (T.told watcher.old) }
    ensures watched { IsWatched (T.wanted watcher.old) (T.wanted watcher.new) (T.told watcher.old) (T.told watcher.new) }
{
    if watcher.wants() {
        watcher.back(mark);
    }
}

/// What the last candidate makes of the term, where its condition holds. The step is told.
pub fn make<W: World, T: StepWatcher>(
    world: &mut W,
    store: &mut Store,
    trial: &Trial<W::Attempts>,
    binding: &W::Binding,
    watcher: &mut T,
) -> Result<TermId, EvalEnd>
    requires ready { W.ready world.old store.old }
    requires term { (W.words world.old store.old).knows_value trial.now.term.0 }
    requires candidate { (W.words world.old store.old).knows_candidate trial.now.term.0 trial.now.condition trial.now.attempts }
    requires solution { IsSolution (W.words world.old store.old) trial.now.condition binding.now }
    ensures value { (k b : ℕ) → IfOk result (λ t.
        eval_on (W.words world.new store.new).rules (suc k) ((W.words world.new store.new).makes trial.now.attempts
        ((W.words world.new store.new).bound binding.now)) b
        ≡ eval_on (W.words world.new store.new).rules (suc k) ((W.words world.new store.new).tree t.0) b) }
    ensures ends { (k b : ℕ) → IfErr result (IsEnd (eval_on (W.words world.new store.new).rules (suc k)
        ((W.words world.new store.new).makes trial.now.attempts ((W.words world.new store.new).bound binding.now)) b)) }
    ensures known { IfOk result (λ t. (W.words world.new store.new).knows_term t.0) }
    ensures kind { IfOk result (λ t. kind_of (W.words world.new store.new) t.0 ≡ kind_of (W.words world.new store.new) trial.now.term.0) }
    ensures grows { W.grows world.old store.old world.new store.new }
    ensures told { T.wanted watcher.old ≡ true → IfOk result (λ t. TellsUse (W.words world.new store.new) store.new (W.table world.new)
        trial.now.condition ((W.words world.new store.new).bound binding.now) trial.now.term t (T.told watcher.old) (T.told watcher.new)) }
    ensures more { OnErr result (TellsMore (T.told watcher.old) (T.told watcher.new)) }
    ensures watched { IsWatched (T.wanted watcher.old) (T.wanted watcher.new) (T.told watcher.old) (T.told watcher.new) }
{
    let after = match world.replace(store, trial.term, trial.condition, &trial.attempts, binding) {
        Ok(after) => after,
        Err(end) => return Err(end),
    };
    if !watcher.wants() {
        return Ok(after);
    }
    match world.step(
        store,
        trial.term,
        trial.condition,
        &trial.attempts,
        binding,
        after,
    ) {
        Ok(step) => {
            watcher.step(step)?;
            Ok(after)
        }
        Err(_) => Err(EvalEnd::NoMemory),
    }
}

/// The place of a fragment's side.
pub fn fragment_at(at: usize, side: u32) -> Result<Place, NoMemory>
    ensures { IfOk result (λ place. place ≡ Place.Fragment at side) }
{
    match u32::try_from(at) {
        Ok(number) => Ok(Place::Fragment(number, side)),
        Err(_) => Err(NoMemory),
    }
}

/// The place of an argument.
pub fn argument_at(at: usize) -> Result<Place, NoMemory>
    ensures { IfOk result (λ place. place ≡ Place.Argument at) }
{
    match u32::try_from(at) {
        Ok(number) => Ok(Place::Argument(number)),
        Err(_) => Err(NoMemory),
    }
}
