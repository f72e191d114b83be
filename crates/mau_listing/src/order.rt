//! The order of solutions.
ghost use Rattle.std.specs.Prelude.{◌≡◌, ◌≤◌, length, IfSome};
ghost use Rattle.std.specs.Cmp.Lexicographic.{slice_cmp};
ghost use Rattle.mau_terms.specs.Solution.{list_cmp, value_key, value_keys};
ghost use Rattle.mau_signature.specs.Signature.{IsOperator, theory_at};
ghost use Rattle.mau_store.specs.Trees.{tree_at, trees_at};
ghost use Rattle.mau_store.specs.View.{numbers};
ghost use Rattle.mau_canon.specs.Standing.{StandsWithin, StandWithin};
ghost use Rattle.mau_listing.specs.Places.{operator_number, under_all, AreUnderOperators};

use crate::places::Place;
use mau_canon::list_of;
use mau_signature::Signature;
use mau_store::Store;
use mau_terms::{OpId, TermId};
use std::cmp::Ordering;
use std::slice;

/// The order of two lists of terms: the first two terms at one place that are different decide, and a proper front comes first.
pub fn compare_lists(store: &Store, first: &[TermId], second: &[TermId]) -> Ordering
    ensures { result ≡ list_cmp (trees_at store.now (numbers first.now)) (trees_at store.now (numbers second.now)) }
{
    let count = first.len().min(second.len());
    for i in 0..count {
        let order = store.compare(first[i], second[i]);
        if order != Ordering::Equal {
            return order;
        }
    }
    first.len().cmp(&second.len())
}

/// How a value is compared: as its list under the associative operator where its variable first occurs, and else as it is.
pub fn value_key_of<'a>(
    store: &'a Store,
    sig: &Signature,
    under: Option<OpId>,
    value: &'a TermId,
) -> &'a [TermId]
    requires operator { IfSome under (λ op. IsOperator sig.now op.0) }
    requires value { StandsWithin (theory_at sig.now) store.now value.now.0 }
    ensures { trees_at store.now (numbers result.now) ≡ value_key (theory_at sig.now) (operator_number under) (tree_at store.now value.entry.now.0) }
{
    match under {
        Some(op) => list_of(store, sig, op, value),
        None => slice::from_ref(value),
    }
}

/// The order of two lists of values for the same variables.
pub fn compare_values(
    store: &Store,
    sig: &Signature,
    places: &[Place],
    first: &[TermId],
    second: &[TermId],
) -> Ordering
    requires operators { AreUnderOperators sig.now places.now }
    requires first { StandWithin (theory_at sig.now) store.now (numbers first.now) }
    requires second { StandWithin (theory_at sig.now) store.now (numbers second.now) }
    requires first_each { length first.now ≡ length places.now }
    requires second_each { length second.now ≡ length places.now }
    ensures { result ≡ slice_cmp list_cmp (value_keys (theory_at sig.now) (under_all places.now) (trees_at store.now (numbers first.now)))
        (value_keys (theory_at sig.now) (under_all places.now) (trees_at store.now (numbers second.now))) }
{
    for i in 0..places.len() {
        let under = places[i].under;
        let left = value_key_of(store, sig, under, &first[i]);
        let right = value_key_of(store, sig, under, &second[i]);
        let order = compare_lists(store, left, right);
        if order != Ordering::Equal {
            return order;
        }
    }
    Ordering::Equal
}
