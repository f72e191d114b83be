//! Contiguous parts of a list.
ghost use Rattle.std.specs.Prelude.{◌≡◌, ◌⊎◌, ◌+◌, ◌≤◌, length, take, drop, min, Some, None, IfSome, IfNone, IfOk};
ghost use Rattle.std.specs.Borrow.{sem};
ghost use Rattle.std.specs.Cmp.Lexicographic.{slice_cmp};
ghost use Rattle.mau_store.specs.View.{numbers};
ghost use Rattle.mau_lists.specs.Lists.{IsPart};
ghost use Rattle.mau_lists.specs.Terms.{by_tree, IsNextPart};
ghost use Rattle.mau_lists.specs.Following.{next_part, least_of, cut, FitsIn};
ghost use Rattle.mau_lists.specs.Fronts.{ShareFront, AreFronts, BeginAlike};
ghost use Rattle.mau_lists.specs.Place.{at_first, IsStep};
ghost use Rattle.mau_lists.specs.Ends.{SegmentsEndAs};

use crate::fronts::{Window, fill_fronts, front_at, further};
use mau_store::Store;
use mau_terms::{NoMemory, TermId};
use std::alloc::Global;
use std::cmp::Ordering;
use std::marker::Model;

/// The contiguous parts of a list of terms, as lists, ascending, each once: the empty one first, the whole list among them.
///
/// It keeps the items and the part that is due. The terms are compared in the store that is handed in; between two calls it may
/// grow.
#[derive(Drop)]
pub struct Segments {
    items: Vec<TermId>,
    // Room for how much of a part, or of any list, stands at each of its own places. It is written anew by each call.
    fronts: Vec<usize>,
    // The part that comes next: where it begins, and how long it is; none after the last part.
    due: Option<(usize, usize)>,
}

impl Model for Segments {
    ghost use Rattle.std.specs.Option.{option_map};
    ghost use Rattle.mau_store.specs.View.{numbers};
    ghost use Rattle.mau_lists.specs.Place.{Place};
    ghost use Rattle.mau_lists.specs.Following.{cut};
    ghost use Rattle.mau_lists.specs.Kept.{HoldsTable};

    ghost Value = { Place };

    ghost view = { λ s. record { items = numbers s.items.items; due = option_map numbers (cut s.items.items s.due) } };

    ghost invariant = { λ s. HoldsTable s.items.items s.fronts.items s.due };
}

impl Segments {
    /// A listing of the parts of these items. It makes all the room that the listing needs.
    pub fn new(alloc: Global, items: &[TermId]) -> Result<Segments, NoMemory>
        ensures ok { IfOk result (λ parts. parts ≡ at_first (numbers items.now)) }
    {
        Ok(Segments {
            items: Vec::from_slice(alloc, items)?,
            fronts: vec![in alloc; 0; items.len()]?,
            due: Some((0, 0)),
        })
    }

    /// The next part, and none after the last. It takes no memory, and time linear in the items, by the Z algorithm (Main and
    /// Lorentz; Gusfield): of each place it finds how much of the last part stands there.
    pub fn next(&mut self, store: &Store) -> Option<&[TermId]>
        ensures* step { sem 𝓛 (SegmentsEndAs self.entry (IsStep (IsNextPart store.now) self.old)) }
        ensures value { IfSome result (λ list. self.old.due ≡ Some (numbers list.now)) }
        ensures part { IfSome result (λ list. IsPart (numbers list.now) self.old.items) }
        ensures none { IfNone result (self.old.due ≡ None) }
    {
        let Some((start, len)) = self.due else {
            return None;
        };
        let last = &self.items[start..start + len];
        self.due = part_behind(store, &self.items, last, &mut self.fronts);
        Some(&self.items[start..start + len])
    }

    /// Goes on at the least part behind a list, whether that list is a part or not. It walks to no other, takes no memory, and
    /// time linear in the items and the list.
    pub fn after(&mut self, store: &Store, list: &[TermId])
        ensures kept { self.new.items ≡ self.old.items }
        ensures due { IsNextPart store.now self.old.items (numbers list.now) self.new.due }
    {
        self.due = part_behind(store, &self.items, list, &mut self.fronts);
    }
}

/// The next part behind the last one: where it begins, and how long it is. The table is written anew.
fn part_behind(
    store: &Store,
    items: &[TermId],
    last: &[TermId],
    fronts: &mut [usize],
) -> Option<(usize, usize)>
    requires room { length fronts.old ≡ length items.now }
    ensures next { next_part (by_tree store.now) last.now items.now ≡ cut items.now result }
    ensures room { FitsIn items.now result }
    ensures len { length fronts.new ≡ length fronts.old }
{
    fill_fronts(store, last, fronts);
    least_behind(store, items, last, fronts)
}

/// The next part behind the last one, where a table tells how much of that one stands at its own places. The shortest front
/// behind it at a place is made of what stands there and one element more.
fn least_behind(
    store: &Store,
    items: &[TermId],
    last: &[TermId],
    fronts: &[usize],
) -> Option<(usize, usize)>
    requires table { AreFronts store.now last.now fronts.now (min (length last.now) (length fronts.now)) }
    requires room { length fronts.now ≡ length items.now }
    ensures next { next_part (by_tree store.now) last.now items.now ≡ cut items.now result }
    ensures room { FitsIn items.now result }
{
    let mut best: Option<(usize, usize)> = None;
    let mut window = Window { from: 0, len: 0 };
    for i in 0..items.len() {
        let (shared, is_behind) = front_at(store, last, fronts, items, i, window);
        window = further(window, i, shared);
        if is_behind {
            best = lesser(store, items, i, shared + 1, best);
        }
    }
    best
}

/// The lesser of the best part so far and another one that begins alike, but for the last element of the shorter one.
fn lesser(
    store: &Store,
    items: &[TermId],
    start: usize,
    len: usize,
    best: Option<(usize, usize)>,
) -> Option<(usize, usize)>
    requires part { start + len ≤ length items.now }
    requires best { FitsIn items.now best }
    requires alike { BeginAlike store.now items.now start len best }
    ensures least { cut items.now result ≡ least_of (by_tree store.now) (cut items.now best) (Some (take len (drop start items.now))) }
    ensures one { (result ≡ best) ⊎ (result ≡ Some (start, len)) }
{
    let Some((s, l)) = best else {
        return Some((start, len));
    };
    let shared = len.min(l).saturating_sub(1);
    match compare_lists(store, &items[s..s + l], &items[start..start + len], shared) {
        Ordering::Greater => Some((start, len)),
        _ => best,
    }
}

/// The order of two lists that begin alike so far: the first place where they differ decides, and a proper front comes first.
fn compare_lists(store: &Store, first: &[TermId], second: &[TermId], shared: usize) -> Ordering
    requires shared { ShareFront store.now first.now second.now shared }
    ensures order { result ≡ slice_cmp (by_tree store.now) first.now second.now }
{
    for i in shared..first.len() {
        if i == second.len() {
            return Ordering::Greater;
        }
        match store.compare(first[i], second[i]) {
            Ordering::Equal => {}
            order => return order,
        }
    }
    first.len().cmp(&second.len())
}
