//! Where a row has two facts of an item already, so that no more are looked for.
ghost use Rattle.std.specs.Prelude.{◌≡◌, ◌⊎◌, ◌↔◌, ◌<◌, ◌≤◌, ℕ, List, [], Some, OnOk, IfOk, IsTrue, true, false, get_or, length, max};
ghost use Rattle.std.specs.List.{slice_get};
ghost use Rattle.mau_chart.specs.declared.places.Place.{Place};
ghost use Rattle.mau_chart.specs.Chart.{Edge};
ghost use Rattle.mau_chart.specs.Marks.{AllMarked};
ghost use Rattle.mau_chart.specs.Places.{IsStretch};

use crate::grammar::Item;
use crate::places::{Group, Mark, Place};
use mau_terms::NoMemory;
use std::alloc::Global;

/// So many marks, and at least one, of nothing.
pub fn no_marks(alloc: Global, count: usize) -> Result<Vec<Mark>, NoMemory>
    ensures count { IfOk result (λ marks. length marks.items ≡ max count 1) }
    ensures marked { IfOk result (λ marks. (rows : ℕ → List Edge) → AllMarked rows marks.items) }
{
    let mut marks = Vec::new(alloc);
    marks.push(no_mark(alloc))?;
    for _ in 1..count {
        marks.push(no_mark(alloc))?;
    }
    Ok(marks)
}

fn no_mark(alloc: Global) -> Mark
    ensures { result.full.items ≡ [] }
{
    Mark {
        row: 0,
        item: Item::Whole(0, 0),
        full: Vec::new(alloc),
        low: 0,
        high: 0,
    }
}

impl Mark {
    /// Makes it one of this row and item, with ends below the width. It stays as it is where it is one.
    pub fn turn(&mut self, row: usize, item: Item, width: usize) -> Result<(), NoMemory>
        ensures row { OnOk result (self.new.row ≡ row) }
        ensures item { OnOk result (self.new.item ≡ item) }
        ensures full { OnOk result ((self.new ≡ self.old) ⊎ ((e : ℕ) → get_or self.new.full.items e false ≡ false)) }
        ensures width { OnOk result ((self.new ≡ self.old) ⊎ (length self.new.full.items ≡ width)) }
    {
        if self.row == row && self.item.is(item) {
            return Ok(());
        }
        self.low = 0;
        self.high = 0;
        self.full.clear();
        self.full.resize(width, false)?;
        self.row = row;
        self.item = item;
        Ok(())
    }

    /// Marks an end.
    pub fn set(&mut self, end: usize)
        ensures row { self.new.row ≡ self.old.row }
        ensures item { self.new.item ≡ self.old.item }
        ensures full { (e : ℕ) → get_or self.new.full.items e false ≡ true → (get_or self.old.full.items e false ≡ true) ⊎ (e ≡ end) }
        ensures set { end < length self.old.full.items → get_or self.new.full.items end false ≡ true }
    {
        if end < self.full.len() {
            self.full[end] = true;
            self.widen(end);
        }
    }

    /// Widens the stretch by this end, and by what is marked beside it.
    fn widen(&mut self, end: usize)
        ensures row { self.new.row ≡ self.old.row }
        ensures item { self.new.item ≡ self.old.item }
        ensures full { self.new.full ≡ self.old.full }
    {
        if self.low == self.high {
            self.low = end;
            self.high = end;
        }
        if self.high == end {
            self.high = marked_to(&self.full, end);
        }
        if end < self.low && self.low - end == 1 {
            self.low = marked_from(&self.full, self.low);
        }
    }

    /// Whether the ends of all places of the group are marked, as far as the stretch tells.
    pub fn has_all(&self, group: &Group) -> bool
        ensures stretch { IsTrue result ↔ ((self.now.low ≤ group.now.low) × (group.now.high < self.now.high)) }
        ensures all { IsTrue result → (z : ℕ) (p : Place) → slice_get group.now.parts.items z ≡ Some p → get_or self.now.full.items p.end false ≡ true }
    {
        self.low <= group.low && group.high < self.high
    }
}

/// The first end from this one on that is not marked.
fn marked_to(full: &[bool], from: usize) -> usize
    ensures later { from ≤ result }
    ensures marked { IsStretch full.now from result }
{
    for e in from..full.len() {
        if !full[e] {
            return e;
        }
    }
    from.max(full.len())
}

/// The first end of those marked ones that stand side by side below this one.
fn marked_from(full: &[bool], to: usize) -> usize
    ensures earlier { result ≤ to }
    ensures marked { IsStretch full.now result to }
{
    let mut e = to;
    while e > 0 {
        if e > full.len() {
            return e;
        }
        if !full[e - 1] {
            return e;
        }
        e -= 1;
    }
    e
}

/// The next of these places whose end is not marked.
pub fn next_open(full: &[bool], places: &[Place], from: usize) -> usize
    requires { from ≤ length places.now }
    ensures within { result ≤ length places.now }
    ensures later { from ≤ result }
    ensures marked { (y : ℕ) (p : Place) → from ≤ y → y < result → slice_get places.now y ≡ Some p → get_or full.now p.end false ≡ true }
    ensures open { (p : Place) → slice_get places.now result ≡ Some p → get_or full.now p.end false ≡ false }
{
    for z in from..places.len() {
        let end = places[z].end;
        if end >= full.len() {
            return z;
        }
        if !full[end] {
            return z;
        }
    }
    places.len()
}
