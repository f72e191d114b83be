//! The least list of two items or more behind another list.
ghost use Rattle.std.specs.Prelude.{◌≡◌, ◌≢◌, ◌≤◌, length, take, IsPermutation, IfOk, IfSome};
ghost use Rattle.std.specs.Option.{option_map};
ghost use Rattle.mau_terms.specs.Order.{sort_trees};
ghost use Rattle.mau_signature.specs.Signature.{theory_at};
ghost use Rattle.mau_store.specs.Node.{AreOf};
ghost use Rattle.mau_store.specs.Trees.{trees_at};
ghost use Rattle.mau_store.specs.View.{numbers};
ghost use Rattle.mau_canon.specs.Standing.{StandWithin};
ghost use Rattle.mau_lists.specs.Lists.{IsSubList, IsFront, IsPart, IsNextOrEnd};
ghost use Rattle.mau_lists.specs.Terms.{IsBefore, by_tree, AreSorted, IsNextSubList, IsNextPart};
ghost use Rattle.mau_lists.specs.Following.{next_front};
ghost use Rattle.mau_domains.specs.Stored.{reach_of, list_in, is_short_list};
ghost use Rattle.mau_domains.specs.Lists.{IsLong, IsLongIn};

use crate::Reach;
use mau_lists::{Segments, SubLists};
use mau_signature::Signature;
use mau_store::Store;
use mau_terms::{NoMemory, TermId};
use std::cmp::Ordering;

/// Terms in ascending order.
fn sorted(store: &Store, items: &[TermId]) -> Result<Vec<TermId>, NoMemory>
    ensures sorted { IfOk result (λ list. trees_at store.now (numbers list.items) ≡ sort_trees (trees_at store.now (numbers items.now))) }
    ensures same { IfOk result (λ list. IsPermutation items.now list.items) }
{
    let mut list = Vec::from_slice(store.allocator(), items)?;
    list.sort_by(|first, second| store.compare(*first, *second))?;
    Ok(list)
}

/// The least sub-multiset of sorted items behind a list.
fn next_sub_list(
    store: &Store,
    items: &[TermId],
    last: &[TermId],
) -> Result<Option<Vec<TermId>>, NoMemory>
    requires items { AreOf store.now (numbers items.now) }
    requires sorted { AreSorted store.now (numbers items.now) }
    requires last { AreOf store.now (numbers last.now) }
    ensures next { IfOk result (λ list. IsNextSubList store.now (numbers items.now) (numbers last.now) (option_map (λ v. numbers v.items) list)) }
    ensures part { IfOk result (λ list. IfSome list (λ v. IsSubList (numbers v.items) (numbers items.now))) }
{
    let mut lists = SubLists::new(store.allocator(), items)?;
    lists.after(store, last);
    match lists.next(store) {
        Some(list) => Ok(Some(Vec::from_slice(store.allocator(), list)?)),
        None => Ok(None),
    }
}

/// The least contiguous part of items behind a list.
fn next_part(
    store: &Store,
    items: &[TermId],
    last: &[TermId],
) -> Result<Option<Vec<TermId>>, NoMemory>
    ensures next { IfOk result (λ list. IsNextPart store.now (numbers items.now) (numbers last.now) (option_map (λ v. numbers v.items) list)) }
    ensures part { IfOk result (λ list. IfSome list (λ v. IsPart (numbers v.items) (numbers items.now))) }
{
    let mut parts = Segments::new(store.allocator(), items)?;
    parts.after(store, last);
    match parts.next(store) {
        Some(list) => Ok(Some(Vec::from_slice(store.allocator(), list)?)),
        None => Ok(None),
    }
}

/// How long the shortest front of the items is that is behind a list, if one is.
fn front_behind(store: &Store, items: &[TermId], last: &[TermId]) -> Option<usize>
    ensures next { next_front (by_tree store.now) last.now items.now ≡ option_map (λ n. take n items.now) result }
    ensures room { IfSome result (λ n. n ≤ length items.now) }
{
    for i in 0..items.len() {
        if i == last.len() {
            return Some(i + 1);
        }
        match store.compare(last[i], items[i]) {
            Ordering::Less => return Some(i + 1),
            Ordering::Equal => {}
            Ordering::Greater => return None,
        }
    }
    None
}

/// Whether there is a list, of one item or none.
fn is_short(list: &Option<Vec<TermId>>) -> bool
    ensures { result ≡ is_short_list list.now }
{
    match list {
        Some(items) => items.len() < 2,
        None => false,
    }
}

/// The least sub-multiset of sorted items behind a list, if there is a list.
fn sub_list_behind(
    store: &Store,
    items: &[TermId],
    last: Option<Vec<TermId>>,
) -> Result<Option<Vec<TermId>>, NoMemory>
    requires items { AreOf store.now (numbers items.now) }
    requires sorted { AreSorted store.now (numbers items.now) }
    requires last { IfSome last (λ v. AreOf store.now (numbers v.items)) }
    ensures next { IfOk result (λ list. IfSome last (λ v. IsNextSubList store.now (numbers items.now) (numbers v.items) (option_map (λ w. numbers w.items) list))) }
    ensures part { IfOk result (λ list. IfSome list (λ v. IsSubList (numbers v.items) (numbers items.now))) }
{
    match last {
        Some(list) => next_sub_list(store, items, &list),
        None => Ok(None),
    }
}

/// The least sub-multiset of two items or more behind a list, of sorted items. At most one shorter one is behind the list.
fn next_long_sub_list(
    store: &Store,
    items: &[TermId],
    last: &[TermId],
) -> Result<Option<Vec<TermId>>, NoMemory>
    requires items { AreOf store.now (numbers items.now) }
    requires sorted { AreSorted store.now (numbers items.now) }
    requires last { AreOf store.now (numbers last.now) }
    ensures next { IfOk result (λ list. IsNextOrEnd IsBefore (IsLong (λ xs. IsSubList xs (trees_at store.now (numbers items.now)))) (trees_at store.now (numbers last.now)) (list_in store.now list)) }
    ensures part { IfOk result (λ list. IfSome list (λ v. IsSubList (numbers v.items) (numbers items.now))) }
{
    let list = next_sub_list(store, items, last)?;
    if is_short(&list) {
        sub_list_behind(store, items, list)
    } else {
        Ok(list)
    }
}

/// The least front of two items or more behind a list. At most one shorter one is behind the list.
fn next_long_front(store: &Store, items: &[TermId], last: &[TermId]) -> Option<usize>
    ensures next { IsNextOrEnd IsBefore (IsLong (λ xs. IsFront xs (trees_at store.now (numbers items.now)))) (trees_at store.now (numbers last.now)) (option_map (λ n. trees_at store.now (numbers (take n items.now))) result) }
    ensures room { IfSome result (λ n. n ≤ length items.now) }
{
    let Some(len) = front_behind(store, items, last) else {
        return None;
    };
    if len < 2 {
        front_behind(store, items, &items[..len])
    } else {
        Some(len)
    }
}

/// The least contiguous part of items behind a list, if there is a list.
fn part_behind(
    store: &Store,
    items: &[TermId],
    last: Option<Vec<TermId>>,
) -> Result<Option<Vec<TermId>>, NoMemory>
    ensures next { IfOk result (λ list. IfSome last (λ v. IsNextPart store.now (numbers items.now) (numbers v.items) (option_map (λ w. numbers w.items) list))) }
    ensures part { IfOk result (λ list. IfSome list (λ v. IsPart (numbers v.items) (numbers items.now))) }
{
    match last {
        Some(list) => next_part(store, items, &list),
        None => Ok(None),
    }
}

/// The least contiguous part of two items or more behind a list. There may be one shorter part for each item.
fn next_long_part(
    store: &Store,
    items: &[TermId],
    last: &[TermId],
) -> Result<Option<Vec<TermId>>, NoMemory>
    ensures next { IfOk result (λ list. IsNextOrEnd IsBefore (IsLong (λ xs. IsPart xs (trees_at store.now (numbers items.now)))) (trees_at store.now (numbers last.now)) (list_in store.now list)) }
    ensures part { IfOk result (λ list. IfSome list (λ v. IsPart (numbers v.items) (numbers items.now))) }
{
    let mut list = next_part(store, items, last)?;
    while is_short(&list) {
        list = part_behind(store, items, list)?;
    }
    Ok(list)
}

/// The least sub-multiset of two items or more behind a list.
fn next_long_multiset(
    store: &Store,
    sig: &Signature,
    items: &[TermId],
    last: &[TermId],
) -> Result<Option<Vec<TermId>>, NoMemory>
    requires items { StandWithin (theory_at sig.now) store.now (numbers items.now) }
    requires last { AreOf store.now (numbers last.now) }
    ensures next { IfOk result (λ list. IsNextOrEnd IsBefore (IsLong (λ xs. IsSubList xs (sort_trees (trees_at store.now (numbers items.now))))) (trees_at store.now (numbers last.now)) (list_in store.now list)) }
    ensures stand { IfOk result (λ list. IfSome list (λ v. StandWithin (theory_at sig.now) store.now (numbers v.items))) }
{
    let items = sorted(store, items)?;
    next_long_sub_list(store, &items, last)
}

/// The least front of two items or more behind a list, as a list.
fn next_long_front_list(
    store: &Store,
    sig: &Signature,
    items: &[TermId],
    last: &[TermId],
) -> Result<Option<Vec<TermId>>, NoMemory>
    requires items { StandWithin (theory_at sig.now) store.now (numbers items.now) }
    ensures next { IfOk result (λ list. IsNextOrEnd IsBefore (IsLong (λ xs. IsFront xs (trees_at store.now (numbers items.now)))) (trees_at store.now (numbers last.now)) (list_in store.now list)) }
    ensures stand { IfOk result (λ list. IfSome list (λ v. StandWithin (theory_at sig.now) store.now (numbers v.items))) }
{
    match next_long_front(store, items, last) {
        Some(len) => Ok(Some(Vec::from_slice(store.allocator(), &items[..len])?)),
        None => Ok(None),
    }
}

/// The least list of two items or more that is so much of some items, behind a list.
pub fn next_long(
    store: &Store,
    sig: &Signature,
    comm: bool,
    reach: Reach,
    items: &[TermId],
    last: &[TermId],
) -> Result<Option<Vec<TermId>>, NoMemory>
    requires reach { reach ≢ Reach.Whole }
    requires items { StandWithin (theory_at sig.now) store.now (numbers items.now) }
    requires last { AreOf store.now (numbers last.now) }
    ensures next { IfOk result (λ list. IsNextOrEnd IsBefore (IsLongIn comm (reach_of reach) (trees_at store.now (numbers items.now))) (trees_at store.now (numbers last.now)) (list_in store.now list)) }
    ensures stand { IfOk result (λ list. IfSome list (λ v. StandWithin (theory_at sig.now) store.now (numbers v.items))) }
{
    if comm {
        return next_long_multiset(store, sig, items, last);
    }
    match reach {
        Reach::Inside => next_long_part(store, items, last),
        Reach::Front => next_long_front_list(store, sig, items, last),
        Reach::Whole => Ok(None),
    }
}
