//! From which entry each one was entered.
ghost use Rattle.std.specs.Prelude.{◌≡◌, ℕ, suc, ◌-◌, ◌≤◌, [], ◌∷◌, ◌++◌, length, take, drop, slice_get, Some, IfOk, OnOk, OnErr};
ghost use Rattle.mau_strat.specs.Traces.{IsWay};

use crate::listed::Listed;
use mau_terms::NoMemory;
use std::alloc::Global;
use std::marker::Model;

/// For each entry behind the start the place of the entry from which it was entered, and the way to a solution, for which there is
/// always room.
#[derive(Drop)]
pub struct Trace {
    parents: Vec<usize>,
    /// Its last `shown` elements are the way. There are as many as entries.
    room: Vec<usize>,
    shown: usize,
}

impl Model for Trace {
    ghost use Rattle.mau_strat.specs.Traces.{TraceOf};

    ghost Value = { TraceOf };

    ghost use Rattle.std.specs.Prelude.{◌≡◌, ◌-◌, ◌≤◌, suc, drop, length};

    ghost view = { λ t. record { parents = t.parents.items; way = drop (length t.room.items - t.shown) t.room.items } };

    ghost invariant = { λ t. (length t.room.items ≡ suc (length t.parents.items)) × (t.shown ≤ length t.room.items) };
}

/// Fills the room from its end with the way to the last entry: where it begins.
fn fill(room: &mut [usize], parents: &[usize], listed: &Listed) -> usize
    requires room { length room.old ≡ length listed.now }
    requires parents { length listed.now ≡ suc (length parents.now) }
    requires earlier { (j p : ℕ) → slice_get parents.now j ≡ Some p → p ≤ j }
    ensures within { result ≤ length room.new }
    ensures way { IsWay listed.now parents.now 0 (drop result room.new) }
{
    let mut place = parents.len();
    let mut begin = place;
    room[begin] = listed.at(place);
    while place > 0 {
        place = parents[place - 1];
        begin -= 1;
        room[begin] = listed.at(place);
    }
    begin
}

impl Trace {
    /// The start alone, and no way.
    pub(crate) fn new(alloc: Global) -> Result<Trace, NoMemory>
        ensures parents { IfOk result (λ t. t.parents ≡ []) }
        ensures way { IfOk result (λ t. t.way ≡ []) }
    {
        let mut room = Vec::new(alloc);
        room.push(0)?;
        Ok(Trace {
            parents: Vec::new(alloc),
            room,
            shown: 0,
        })
    }

    /// Another entry, entered from the one at this place. There is no way from then on. Out of memory, there is no further entry.
    pub(crate) fn enter(&mut self, from: usize) -> Result<(), NoMemory>
        ensures ok { OnOk result (self.new.parents ≡ self.old.parents ++ from ∷ []) }
        ensures err { OnErr result (self.new.parents ≡ self.old.parents) }
        ensures way { self.new.way ≡ [] }
    {
        self.shown = 0;
        if self.room.push(0).is_err() {
            return Err(NoMemory);
        }
        if self.parents.push(from).is_err() {
            self.room.pop();
            return Err(NoMemory);
        }
        Ok(())
    }

    /// Takes the last entry back.
    pub(crate) fn leave(&mut self)
        ensures parents { self.new.parents ≡ take (length self.old.parents - 1) self.old.parents }
        ensures way { self.new.way ≡ [] }
    {
        self.shown = 0;
        if self.parents.pop().is_some() {
            self.room.pop();
        }
    }

    /// No way.
    pub(crate) fn clear(&mut self)
        ensures parents { self.new.parents ≡ self.old.parents }
        ensures way { self.new.way ≡ [] }
    {
        self.shown = 0;
    }

    /// The way to the entry that is listed last.
    pub(crate) fn show(&mut self, listed: &Listed)
        requires listed { length listed.now ≡ suc (length self.old.parents) }
        requires earlier { (j p : ℕ) → slice_get self.old.parents j ≡ Some p → p ≤ j }
        ensures parents { self.new.parents ≡ self.old.parents }
        ensures way { IsWay listed.now self.old.parents 0 self.new.way }
    {
        let begin = fill(&mut self.room, &self.parents, listed);
        self.shown = self.room.len() - begin;
    }

    /// The entries on the way to the solution that was given last, the start first.
    pub fn way(&self) -> &[usize]
        ensures { result.now ≡ self.now.way }
    {
        let begin = self.room.len() - self.shown;
        &self.room[begin..]
    }
}
