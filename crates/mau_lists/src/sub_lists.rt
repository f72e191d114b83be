//! Sub-multisets of a sorted list.
ghost use Rattle.std.specs.Prelude.{◌≡◌, ◌<◌, ◌≤◌, ◌+◌, length, take, Some, None, IfSome, IfNone, IfOk};
ghost use Rattle.std.specs.Borrow.{sem};
ghost use Rattle.mau_store.specs.Node.{AreOf};
ghost use Rattle.mau_store.specs.View.{numbers};
ghost use Rattle.mau_lists.specs.Lists.{IsSubList};
ghost use Rattle.mau_lists.specs.Terms.{by_tree, no_term, AreSorted, IsNextSubList};
ghost use Rattle.mau_lists.specs.Following.{first_above, IsAboveLast, next_sub_list, replaced, fallen, HasRoom};
ghost use Rattle.mau_lists.specs.Place.{at_first, IsStep, IsWithin, front_of};
ghost use Rattle.mau_lists.specs.Ends.{SubListsEndAs};

use mau_store::Store;
use mau_terms::{NoMemory, TermId};
use std::alloc::Global;
use std::cmp::Ordering;
use std::marker::Model;

/// The sub-multisets of a sorted list of terms, as sorted lists, ascending, each once: the empty one first, the whole list among
/// them. Equal numbers are one element, so three equal items have four sub-multisets.
///
/// It keeps the items and the list that is due. The terms are compared in the store that is handed in; between two calls it may
/// grow.
#[derive(Drop)]
pub struct SubLists {
    items: Vec<TermId>,
    // The list that was given last stands at the front.
    given: Vec<TermId>,
    // The list that comes next stands at the front.
    due: Vec<TermId>,
    // How long that one is; none after the last list.
    due_len: Option<usize>,
}

impl Model for SubLists {
    ghost use Rattle.std.specs.Option.{option_map};
    ghost use Rattle.mau_store.specs.View.{numbers};
    ghost use Rattle.mau_lists.specs.Place.{Place, front_of};
    ghost use Rattle.mau_lists.specs.Kept.{HoldsRoom};

    ghost Value = { Place };

    ghost view = { λ s. record { items = numbers s.items.items; due = option_map numbers (front_of s.due_len s.due.items) } };

    ghost invariant = { λ s. HoldsRoom s.items.items s.given.items s.due.items s.due_len };
}

impl SubLists {
    /// A listing of the sub-multisets of these items. It makes all the room that the listing needs.
    pub fn new(alloc: Global, items: &[TermId]) -> Result<SubLists, NoMemory>
        ensures ok { IfOk result (λ lists. lists ≡ at_first (numbers items.now)) }
    {
        Ok(SubLists {
            items: Vec::from_slice(alloc, items)?,
            given: Vec::from_slice(alloc, items)?,
            due: Vec::from_slice(alloc, items)?,
            due_len: Some(0),
        })
    }

    /// The next sub-multiset, and none after the last. It takes no memory, and time linear in the items.
    pub fn next(&mut self, store: &Store) -> Option<&[TermId]>
        requires items { AreOf store.now self.old.items }
        requires sorted { AreSorted store.now self.old.items }
        ensures* step { sem 𝓛 (SubListsEndAs self.entry (IsStep (IsNextSubList store.now) self.old)) }
        ensures value { IfSome result (λ list. self.old.due ≡ Some (numbers list.now)) }
        ensures part { IfSome result (λ list. IsSubList (numbers list.now) self.old.items) }
        ensures none { IfNone result (self.old.due ≡ None) }
    {
        let Some(len) = self.due_len else {
            return None;
        };
        copy_front(&mut self.given, &self.due, len);
        self.due_len = put_behind(store, &self.items, &mut self.due, &self.given[..len]);
        Some(&self.given[..len])
    }

    /// Goes on at the least sub-multiset behind a list, whether that list is a sub-multiset or not. It walks to no other, takes no
    /// memory, and time linear in the items.
    pub fn after(&mut self, store: &Store, list: &[TermId])
        requires items { AreOf store.now self.old.items }
        requires sorted { AreSorted store.now self.old.items }
        requires list { AreOf store.now (numbers list.now) }
        ensures kept { self.new.items ≡ self.old.items }
        ensures due { IsNextSubList store.now self.old.items (numbers list.now) self.new.due }
    {
        self.due_len = put_behind(store, &self.items, &mut self.due, list);
    }
}

/// Copies so many elements.
fn copy_front(to: &mut [TermId], from: &[TermId], len: usize)
    requires { (length to.old ≡ length from.now) × (len ≤ length from.now) }
    ensures front { take len to.new ≡ take len from.now }
    ensures len { length to.new ≡ length to.old }
{
    to[..len].copy_from_slice(&from[..len]);
}

/// Puts the next sub-multiset behind a list into the front of `due`. The answer is its length, if there is one.
fn put_behind(store: &Store, items: &[TermId], due: &mut [TermId], list: &[TermId]) -> Option<usize>
    requires items { AreOf store.now (numbers items.now) }
    requires list { AreOf store.now (numbers list.now) }
    requires room { length due.old ≡ length items.now }
    ensures due { front_of result due.new ≡ next_sub_list (by_tree store.now) list.now items.now }
    ensures part { IfSome (next_sub_list (by_tree store.now) list.now items.now) (λ next. IsSubList next items.now) }
    ensures room { IsWithin result (length items.now) }
    ensures len { length due.new ≡ length due.old }
{
    let (depth, z) = sub_list_behind(store, items, list)?;
    due[..depth].copy_from_slice(&list[..depth]);
    due[depth] = z;
    Some(depth + 1)
}

/// The next sub-multiset behind the last one: how much of that one stays, and the element behind it.
fn sub_list_behind(store: &Store, items: &[TermId], last: &[TermId]) -> Option<(usize, TermId)>
    requires items { AreOf store.now (numbers items.now) }
    requires last { AreOf store.now (numbers last.now) }
    ensures next { next_sub_list (by_tree store.now) last.now items.now ≡ replaced last.now result }
    ensures part { IfSome (replaced last.now result) (λ list. IsSubList list items.now) }
    ensures room { HasRoom last.now items.now result }
{
    let mut depth: usize = 0;
    let mut best: Option<(usize, TermId)> = None;
    let mut above: Option<TermId> = None;
    for (i, y) in items.iter().enumerate() {
        if depth == last.len() {
            return Some((depth, *y));
        }
        above = above_next(store, items, i, above);
        match store.compare(last[depth], *y) {
            Ordering::Less => return Some((depth, *y)),
            Ordering::Equal => {
                best = fallback(depth, above, best);
                depth += 1;
            }
            Ordering::Greater => {}
        }
    }
    best
}

/// The element above, behind a front of `depth` elements, if there is one, or else the best so far.
fn fallback(
    depth: usize,
    above: Option<TermId>,
    best: Option<(usize, TermId)>,
) -> Option<(usize, TermId)>
    ensures value { result ≡ fallen depth best above }
{
    match above {
        Some(z) => Some((depth, z)),
        None => best,
    }
}

/// The first item behind place i that is above the one there, where `above` is that of the place before. Equal items that stand
/// side by side share it, so the items of a sorted list are looked at twice in all.
fn above_next(store: &Store, items: &[TermId], i: usize, above: Option<TermId>) -> Option<TermId>
    requires place { i < length items.now }
    requires last { IsAboveLast (by_tree store.now) no_term items.now i above }
    ensures next { IsAboveLast (by_tree store.now) no_term items.now (i + 1) result }
{
    if i > 0 && items[i - 1] == items[i] {
        return above;
    }
    element_above(store, &items[i + 1..], items[i])
}

/// The first item above x.
fn element_above(store: &Store, items: &[TermId], x: TermId) -> Option<TermId>
    ensures first { result ≡ first_above (by_tree store.now) x items.now }
{
    for y in items {
        if store.compare(x, *y) == Ordering::Less {
            return Some(*y);
        }
    }
    None
}
