//! Who is told of steps.
ghost use Rattle.std.specs.Prelude.{◌≡◌, ◌≤◌, ◌++◌, ◌∷◌, [], List, Bool, true, length, take, OnOk, OnErr};
ghost use Rattle.mau_api.specs.Events.{Event, entered, left, made};

use crate::{Place, Step};
use mau_terms::{NoMemory, TermId};

/// Keeps what it is told of evaluations, if it wants to be told. Where it wants nothing, nothing is told.
pub trait StepWatcher {
    /// Whether steps are told. It never changes.
    ghost wanted: { Self → Bool };

    /// What was told and is kept.
    ghost told: { Self → List Event };

    fn wants(&self) -> bool
        ensures { result ≡ wanted self.now };

    /// How much is kept.
    fn mark(&self) -> usize
        ensures { result ≡ length (told self.now) };

    /// Keeps a step. Out of memory nothing changes.
    fn step(&mut self, step: Step) -> Result<(), NoMemory>
        ensures kept { OnOk result (wanted self.old ≡ true → told self.new ≡ told self.old ++ made step ∷ []) }
        ensures unchanged { OnErr result (told self.new ≡ told self.old) }
        ensures same { wanted self.new ≡ wanted self.old };

    /// An evaluation begins.
    fn enter(&mut self, term: TermId, place: Place) -> Result<(), NoMemory>
        ensures kept { OnOk result (wanted self.old ≡ true → told self.new ≡ told self.old ++ entered term place ∷ []) }
        ensures unchanged { OnErr result (told self.new ≡ told self.old) }
        ensures same { wanted self.new ≡ wanted self.old };

    /// The evaluation that was entered last and not yet left ends with a value.
    fn leave(&mut self, value: TermId) -> Result<(), NoMemory>
        ensures kept { OnOk result (wanted self.old ≡ true → told self.new ≡ told self.old ++ left value ∷ []) }
        ensures unchanged { OnErr result (told self.new ≡ told self.old) }
        ensures same { wanted self.new ≡ wanted self.old };

    /// Forgets what was told behind a mark.
    fn back(&mut self, mark: usize)
        requires { mark ≤ length (told self.old) }
        ensures kept { told self.new ≡ take mark (told self.old) }
        ensures same { wanted self.new ≡ wanted self.old };
}

/// Wants nothing, and keeps nothing.
#[derive(Clone, Copy, Debug)]
pub struct Unwatched;

impl StepWatcher for Unwatched {
    ghost use Rattle.std.specs.Prelude.{false, []};

    ghost wanted = { λ _. false };

    ghost told = { λ _. [] };

    fn wants(&self) -> bool {
        false
    }

    fn mark(&self) -> usize {
        0
    }

    fn step(&mut self, _: Step) -> Result<(), NoMemory> {
        Ok(())
    }

    fn enter(&mut self, _: TermId, _: Place) -> Result<(), NoMemory> {
        Ok(())
    }

    fn leave(&mut self, _: TermId) -> Result<(), NoMemory> {
        Ok(())
    }

    fn back(&mut self, _: usize) {}
}
