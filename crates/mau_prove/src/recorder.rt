//! A watcher that keeps all that it is told.
ghost use Rattle.std.specs.Prelude.{◌≡◌, [], true};
ghost use Rattle.mau_prove.specs.Recorded.{events_of};

use mau_api::{Place, Step, StepWatcher};
use mau_terms::{NoMemory, TermId};
use std::alloc::Global;

/// What was told: an evaluation or a pass began or ended, or a step was made.
#[derive(Drop, Debug)]
pub enum Told {
    Entered(TermId, Place),
    Left(TermId),
    Made(Step),
}

/// Keeps what it is told of a run, for a proof of what the run leads to.
#[derive(Drop, Debug)]
pub struct Recorder {
    events: Vec<Told>,
}

impl Recorder {
    /// A recorder that was told nothing.
    pub fn new(alloc: Global) -> Recorder
        ensures { events_of result.events.items ≡ [] }
    {
        Recorder {
            events: Vec::new(alloc),
        }
    }

    /// What it was told, in order.
    pub fn events(&self) -> &[Told]
        ensures { result.now ≡ self.now.events.items }
    {
        &self.events
    }
}

impl StepWatcher for Recorder {
    ghost use Rattle.std.specs.Prelude.{true};
    ghost use Rattle.mau_prove.specs.Recorded.{events_of};

    ghost wanted = { λ _. true };

    ghost told = { λ r. events_of r.events.items };

    fn wants(&self) -> bool {
        true
    }

    fn mark(&self) -> usize {
        self.events.len()
    }

    fn step(&mut self, step: Step) -> Result<(), NoMemory> {
        self.events.push(Told::Made(step))?;
        Ok(())
    }

    fn enter(&mut self, term: TermId, place: Place) -> Result<(), NoMemory> {
        self.events.push(Told::Entered(term, place))?;
        Ok(())
    }

    fn leave(&mut self, value: TermId) -> Result<(), NoMemory> {
        self.events.push(Told::Left(value))?;
        Ok(())
    }

    fn back(&mut self, mark: usize) {
        self.events.truncate(mark)
    }
}
