//! How much of a list stands at each place of some items once more.
ghost use Rattle.std.specs.Prelude.{◌≡◌, ◌⊎◌, ◌+◌, ◌-◌, ◌^◌, ◌<◌, ◌≤◌, length, take, drop, min, slice_index, IsTrue, Some, None, if◌then◌else◌};
ghost use Rattle.mau_lists.specs.Terms.{by_tree};
ghost use Rattle.mau_lists.specs.Following.{next_front};
ghost use Rattle.mau_lists.specs.Fronts.{ShareFront, AreFronts, KnowsPlace};

use mau_store::Store;
use mau_terms::TermId;
use std::cmp::Ordering;

/// Where a front of a list stands once more: from where on, and how many elements of it.
#[derive(Clone, Copy)]
pub struct Window {
    pub from: usize,
    pub len: usize,
}

/// Tells of each place of the list but the first how much of the list stands there once more, as far as the table reaches.
///
/// This is the Z algorithm (Main and Lorentz; Gusfield). What the window that reaches furthest shows of a place is not looked at
/// again, so the time is linear in the list.
pub fn fill_fronts(store: &Store, list: &[TermId], fronts: &mut [usize])
    ensures fronts { AreFronts store.now list.now fronts.new (min (length list.now) (length fronts.new)) }
    ensures len { length fronts.new ≡ length fronts.old }
{
    let mut window = Window { from: 0, len: 0 };
    for i in 1..list.len().min(fronts.len()) {
        let (shared, _) = front_at(store, list, fronts, list, i, window);
        fronts[i] = shared;
        window = further(window, i, shared);
    }
}

/// How much of the list stands at a place of the items, and whether the shortest front of the items from there on that is behind
/// the list has one element more; else there is none behind it. The window stands at an earlier place, and `fronts` tells how
/// much of the list stands within the window; so much is not compared again.
pub fn front_at(
    store: &Store,
    list: &[TermId],
    fronts: &[usize],
    items: &[TermId],
    i: usize,
    window: Window,
) -> (usize, bool)
    requires place { i ≤ length items.now }
    requires window { ShareFront store.now list.now (drop window.from items.now) window.len }
    requires reached { window.from ≤ i }
    requires table { KnowsPlace store.now list.now fronts.now (i - window.from) window.len }
    ensures next { next_front (by_tree store.now) list.now (drop i items.now) ≡ (if result.1 then Some (take (result.0 + 1) (drop i items.now)) else None) }
    ensures shared { ShareFront store.now list.now (drop i items.now) result.0 }
    ensures room { IsTrue result.1 → i + result.0 < length items.now }
{
    let known = known_front(fronts, i - window.from, window.len);
    front_behind(store, &items[i..], list, known)
}

/// How much of a list is known to stand at a place that is so far within a window.
fn known_front(fronts: &[usize], shift: usize, len: usize) -> usize
    requires { 0 < shift → shift < len → shift < length fronts.now }
    ensures { (result ≡ 0) ⊎ ((0 < shift) × (shift < len) × (result ≤ slice_index fronts.now shift) × (shift + result ≤ len)) }
{
    if 0 < shift && shift < len {
        fronts[shift].min(len - shift)
    } else {
        0
    }
}

/// How much of the last list the items begin with, where so much is known, and whether their shortest front behind it has one
/// element more; else no front is behind it.
fn front_behind(store: &Store, items: &[TermId], last: &[TermId], known: usize) -> (usize, bool)
    requires known { ShareFront store.now last.now items.now known }
    ensures next { next_front (by_tree store.now) last.now items.now ≡ (if result.1 then Some (take (result.0 + 1) items.now) else None) }
    ensures shared { ShareFront store.now last.now items.now result.0 }
    ensures room { IsTrue result.1 → result.0 < length items.now }
{
    for i in known..items.len() {
        if i == last.len() {
            return (i, true);
        }
        match store.compare(last[i], items[i]) {
            Ordering::Less => return (i, true),
            Ordering::Equal => {}
            Ordering::Greater => return (i, false),
        }
    }
    (items.len(), false)
}

/// The window that reaches further.
pub fn further(window: Window, from: usize, len: usize) -> Window
    requires old { window.from + window.len < 2 ^ 64 }
    requires new { from + len < 2 ^ 64 }
    ensures { (result ≡ window) ⊎ (result ≡ record { from = from; len = len }) }
{
    if window.from + window.len < from + len {
        Window { from, len }
    } else {
        window
    }
}
