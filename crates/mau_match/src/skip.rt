//! Values that are too short for an answer: how far they are passed over in the order of values.
ghost use Rattle.std.specs.Prelude.{◌≡◌, ◌⊎◌, ◌++◌, ◌+◌, ◌-◌, ◌<◌, ◌≤◌, length, drop, true, List, All, IsPermutation, Some, IfOk, IfSome, if◌then◌else◌};
ghost use Rattle.std.specs.Option.{option_map};
ghost use Rattle.mau_terms.specs.Tree.{Tree};
ghost use Rattle.mau_terms.specs.Order.{sort_trees};
ghost use Rattle.mau_terms.specs.Solution.{value_key};
ghost use Rattle.mau_signature.specs.Signature.{theory_at};
ghost use Rattle.mau_store.specs.Node.{Node, Extends};
ghost use Rattle.mau_store.specs.Trees.{tree_at, trees_at};
ghost use Rattle.mau_store.specs.View.{numbers};
ghost use Rattle.mau_canon.specs.Standing.{StandsWithin, StandWithin};
ghost use Rattle.mau_lists.specs.Lists.{IsSubList};
ghost use Rattle.mau_lists.specs.Terms.{AreSorted};
ghost use Rattle.mau_listing.specs.Places.{operator_number};
ghost use Rattle.mau_domains.specs.Stored.{IsListOperator, IsPartOver};
ghost use Rattle.mau_match.specs.Skipped.{rest_of, IsCut, IsFar, IsPassed, IsPassedBy, IsFurther};
ghost use Rattle.mau_match.specs.Values.{IsValueOfAny};
ghost use Rattle.mau_match.specs.Walked.{parts_in};

use crate::lists::copy_of;
use mau_canon::{BuildFault, from_list, list_of};
use mau_domains::Part;
use mau_listing::{compare_lists, is_lawful, value_key_of};
use mau_signature::Signature;
use mau_store::Store;
use mau_terms::{NoMemory, OpId, TermId};
use std::alloc::Global;
use std::slice;

/// One more, if that is so.
fn counted(count: usize, more: bool, limit: usize) -> usize
    requires { count < limit }
    ensures { result ≡ (if more then count + 1 else count) }
{
    if more && count < limit {
        count + 1
    } else {
        count
    }
}

/// How many items stand before what follows a list in them, where each element of the list stands at the first place where it may.
fn rest_from(store: &Store, items: &[TermId], list: &[TermId]) -> Option<usize>
    ensures rest { option_map (λ n. trees_at store.now (numbers (drop n items.now))) result ≡ rest_of (trees_at store.now (numbers list.now)) (trees_at store.now (numbers items.now)) }
    ensures room { IfSome result (λ n. n ≤ length items.now) }
{
    let mut taken: usize = 0;
    for i in 0..items.len() {
        if taken >= list.len() {
            return Some(i);
        }
        let same = store.compare(list[taken], items[i]).is_eq();
        taken = counted(taken, same, list.len());
    }
    if taken >= list.len() {
        return Some(items.len());
    }
    None
}

/// A list, and some items behind it.
pub fn joined(alloc: Global, list: &[TermId], more: &[TermId]) -> Result<Vec<TermId>, NoMemory>
    ensures { IfOk result (λ out. out.items ≡ list.now ++ more.now) }
{
    let mut out = copy_of(alloc, list)?;
    out.extend_from_slice(more)?;
    Ok(out)
}

/// A list that is too short, and as many of the items that follow it as leave it too short.
fn grown_list(
    store: &Store,
    sig: &Signature,
    items: &[TermId],
    list: &[TermId],
    least: usize,
    from: usize,
) -> Result<Vec<TermId>, NoMemory>
    requires items { StandWithin (theory_at sig.now) store.now (numbers items.now) }
    requires list { StandWithin (theory_at sig.now) store.now (numbers list.now) }
    requires sorted { AreSorted store.now (numbers items.now) }
    requires rest { rest_of (trees_at store.now (numbers list.now)) (trees_at store.now (numbers items.now)) ≡ Some (trees_at store.now (numbers (drop from items.now))) }
    requires room { from ≤ length items.now }
    requires short { length list.now < least }
    requires enough { least ≤ length list.now + (length items.now - from) }
    ensures far { IfOk result (λ far. IsFar (trees_at store.now (numbers items.now)) (trees_at store.now (numbers list.now)) least (trees_at store.now (numbers far.items))) }
    ensures within { IfOk result (λ far. StandWithin (theory_at sig.now) store.now (numbers far.items)) }
{
    let more = least - 1 - list.len();
    joined(store.allocator(), list, &items[from..from + more])
}

/// How many of the first elements of a list behind which too few items follow each long enough list behind it is past: as few as can be told.
fn cut_of(store: &Store, items: &[TermId], list: &[TermId], least: usize, from: usize) -> usize
    requires sorted { AreSorted store.now (numbers items.now) }
    requires rest { rest_of (trees_at store.now (numbers list.now)) (trees_at store.now (numbers items.now)) ≡ Some (trees_at store.now (numbers (drop from items.now))) }
    requires room { from ≤ length items.now }
    requires some { 1 ≤ length list.now }
    requires few { length list.now + (length items.now - from) < least }
    ensures cut { IsCut (trees_at store.now (numbers items.now)) (trees_at store.now (numbers list.now)) least result }
    ensures within { result < length list.now }
{
    let mut cut = list.len() - 1;
    while cut > 0 {
        let Some(after) = rest_from(store, items, &list[..cut]) else {
            return cut;
        };
        if items.len() - after > least - cut {
            return cut;
        }
        cut -= 1;
    }
    cut
}

/// A list behind which too few items follow: its first elements, as few as can be told, and the greatest item.
fn other_last(
    store: &Store,
    sig: &Signature,
    items: &[TermId],
    list: &[TermId],
    least: usize,
    from: usize,
) -> Result<Vec<TermId>, NoMemory>
    requires items { StandWithin (theory_at sig.now) store.now (numbers items.now) }
    requires list { StandWithin (theory_at sig.now) store.now (numbers list.now) }
    requires sorted { AreSorted store.now (numbers items.now) }
    requires rest { rest_of (trees_at store.now (numbers list.now)) (trees_at store.now (numbers items.now)) ≡ Some (trees_at store.now (numbers (drop from items.now))) }
    requires room { from ≤ length items.now }
    requires some { 1 ≤ length list.now }
    requires any { 1 ≤ length items.now }
    requires few { length list.now + (length items.now - from) < least }
    ensures far { IfOk result (λ far. IsFar (trees_at store.now (numbers items.now)) (trees_at store.now (numbers list.now)) least (trees_at store.now (numbers far.items))) }
    ensures within { IfOk result (λ far. StandWithin (theory_at sig.now) store.now (numbers far.items)) }
{
    let cut = cut_of(store, items, list, least, from);
    let last = items[items.len() - 1];
    joined(store.allocator(), &list[..cut], slice::from_ref(&last))
}

/// A list up to which no sub-list of the items that is so long stands behind a shorter list, if there is one.
fn far_list(
    store: &Store,
    sig: &Signature,
    items: &[TermId],
    list: &[TermId],
    least: usize,
) -> Result<Option<Vec<TermId>>, NoMemory>
    requires items { StandWithin (theory_at sig.now) store.now (numbers items.now) }
    requires list { StandWithin (theory_at sig.now) store.now (numbers list.now) }
    requires sorted { AreSorted store.now (numbers items.now) }
    requires short { length list.now < least }
    ensures far { IfOk result (λ o. IfSome o (λ far. IsFar (trees_at store.now (numbers items.now)) (trees_at store.now (numbers list.now)) least (trees_at store.now (numbers far.items)))) }
    ensures within { IfOk result (λ o. IfSome o (λ far. StandWithin (theory_at sig.now) store.now (numbers far.items))) }
{
    let Some(from) = rest_from(store, items, list) else {
        return Ok(None);
    };
    if items.len() - from >= least - list.len() {
        let far = grown_list(store, sig, items, list, least, from)?;
        return Ok(Some(far));
    }
    if list.is_empty() || items.is_empty() {
        return Ok(None);
    }
    let far = other_last(store, sig, items, list, least, from)?;
    Ok(Some(far))
}

/// Terms in ascending order.
fn sorted(store: &Store, items: &[TermId]) -> Result<Vec<TermId>, NoMemory>
    ensures sorted { IfOk result (λ list. trees_at store.now (numbers list.items) ≡ sort_trees (trees_at store.now (numbers items.now))) }
    ensures same { IfOk result (λ list. IsPermutation items.now list.items) }
{
    let mut list = Vec::from_slice(store.allocator(), items)?;
    list.sort_by(|first, second| store.compare(*first, *second))?;
    Ok(list)
}

/// Whether a term is compared as a list, and stands behind a value.
fn is_further(
    store: &Store,
    sig: &Signature,
    op: OpId,
    list: &[TermId],
    value: TermId,
    id: TermId,
) -> bool
    requires operator { IsListOperator sig.now op.0 }
    requires value { StandsWithin (theory_at sig.now) store.now value.0 }
    requires id { StandsWithin (theory_at sig.now) store.now id.0 }
    ensures { result ≡ true → IsFurther (theory_at sig.now) op.0 (tree_at store.now value.0) (trees_at store.now (numbers list.now)) (tree_at store.now id.0) }
{
    let key = value_key_of(store, sig, Some(op), &id);
    if !compare_lists(store, key, list).is_eq() {
        return false;
    }
    compare_lists(store, value_key_of(store, sig, Some(op), &value), key).is_lt()
}

/// The operator over a list, where it is compared as that list and stands behind a value; else that value.
pub fn value_over(
    store: &mut Store,
    sig: &Signature,
    op: OpId,
    list: &[TermId],
    value: TermId,
) -> Result<TermId, NoMemory>
    requires operator { IsListOperator sig.now op.0 }
    requires list { StandWithin (theory_at sig.now) store.old (numbers list.now) }
    requires value { StandsWithin (theory_at sig.now) store.old value.0 }
    ensures over { IfOk result (λ id. (id ≡ value) ⊎ IsFurther (theory_at sig.now) op.0 (tree_at store.old value.0) (trees_at store.old (numbers list.now)) (tree_at store.new id.0)) }
    ensures within { IfOk result (λ id. StandsWithin (theory_at sig.now) store.new id.0) }
    ensures extends { Extends store.old store.new }
{
    is_lawful(sig);
    match from_list(store, sig, op, list) {
        Ok(id) => {
            if is_further(store, sig, op, list, value, id) {
                return Ok(id);
            }
            Ok(value)
        }
        Err(BuildFault::NoMemory) => Err(NoMemory),
        Err(BuildFault::TooDeep) => Ok(value),
        Err(BuildFault::Overflow) => Ok(value),
    }
}

/// The items of the only part, where it is a list of a commutative operator.
pub fn only_items<'a>(sig: &Signature, op: OpId, parts: &'a [Part]) -> Option<&'a [TermId]>
    requires operator { IsListOperator sig.now op.0 }
    ensures values { (nodes : List Node) → IfSome result (λ ids. (u : Tree) → IsValueOfAny (theory_at sig.now) (parts_in nodes parts.entry.now) u →
        IsSubList (value_key (theory_at sig.now) (Some op.0) u) (sort_trees (trees_at nodes (numbers ids.now)))) }
    ensures within { (nodes : List Node) → All (IsPartOver sig.now nodes) parts.entry.now → IfSome result (λ ids. StandWithin (theory_at sig.now) nodes (numbers ids.now)) }
{
    is_lawful(sig);
    if parts.len() != 1 {
        return None;
    }
    match &parts[0] {
        Part::One(_) => None,
        Part::ListOf(_, top, items) => {
            if *top == op {
                if sig.theory(op).comm {
                    return Some(items.items());
                }
            }
            None
        }
    }
}

/// How far a value may be passed over, where values are lists of some items under a commutative operator, and need so many elements.
fn passed_list(
    store: &mut Store,
    sig: &Signature,
    op: OpId,
    items: &[TermId],
    least: usize,
    value: TermId,
) -> Result<TermId, NoMemory>
    requires operator { IsListOperator sig.now op.0 }
    requires items { StandWithin (theory_at sig.now) store.old (numbers items.now) }
    requires value { StandsWithin (theory_at sig.now) store.old value.0 }
    ensures passed { IfOk result (λ id. IsPassedBy (theory_at sig.now) op.0 (sort_trees (trees_at store.old (numbers items.now))) least (tree_at store.old value.0) (tree_at store.new id.0)) }
    ensures within { IfOk result (λ id. StandsWithin (theory_at sig.now) store.new id.0) }
    ensures extends { Extends store.old store.new }
{
    let list = copy_of(store.allocator(), list_of(store, sig, op, &value))?;
    if least <= list.len() {
        return Ok(value);
    }
    let items = sorted(store, items)?;
    match far_list(store, sig, &items, &list, least)? {
        Some(far) => value_over(store, sig, op, &far, value),
        None => Ok(value),
    }
}

/// How far a value of some parts may be passed over, where it leads to no answer, and values of answers have so many elements.
pub fn passed(
    store: &mut Store,
    sig: &Signature,
    under: Option<OpId>,
    parts: &[Part],
    least: usize,
    value: TermId,
) -> Result<TermId, NoMemory>
    requires under { IfSome under (λ op. IsListOperator sig.now op.0) }
    requires parts { All (IsPartOver sig.now store.old) parts.now }
    requires value { StandsWithin (theory_at sig.now) store.old value.0 }
    ensures passed { IfOk result (λ id. IsPassed (theory_at sig.now) (operator_number under) (IsValueOfAny (theory_at sig.now) (parts_in store.old parts.now)) least (tree_at store.old value.0) (tree_at store.new id.0)) }
    ensures within { IfOk result (λ id. StandsWithin (theory_at sig.now) store.new id.0) }
    ensures extends { Extends store.old store.new }
{
    let Some(op) = under else {
        return Ok(value);
    };
    match only_items(sig, op, parts) {
        Some(items) => passed_list(store, sig, op, items, least, value),
        None => Ok(value),
    }
}
