//! Whether a value may be that of a variable.
ghost use Rattle.std.specs.Prelude.{◌≡◌, ◌↔◌, All, Some, None, IsTrue};
ghost use Rattle.mau_signature.specs.Faults.{IsSort};
ghost use Rattle.mau_signature.specs.Signature.{theory_at};
ghost use Rattle.mau_sorts.specs.SortSets.{SortsOf, IsIn};
ghost use Rattle.mau_sorts.specs.Table.{AreOver, entry_at};
ghost use Rattle.mau_store.specs.View.{numbers};
ghost use Rattle.mau_canon.specs.Standing.{StandsWithin, StandWithin};
ghost use Rattle.mau_trial.specs.Tried.{HoldsAtEach, IsFor, IsOfKindAt};

use crate::kinds::is_of_kind;
use mau_listing::Place;
use mau_signature::Signature;
use mau_sorts::SortTable;
use mau_store::Store;
use mau_terms::{TermId, VarId};

/// Whether the entry of a value has a sort.
fn has_sort(sig: &Signature, sorts: &SortTable, value: TermId, sort: u32) -> bool
    requires over { AreOver sig.now.hierarchy sorts.now }
    requires sort { IsSort sig.now.hierarchy sort }
    ensures { IsTrue result ↔ ((e : SortsOf) × (entry_at sorts.now value.0 ≡ Some e) × IsIn sig.now.hierarchy e sort) }
{
    match sorts.has(sig, value, sort) {
        Some(has) => has,
        None => false,
    }
}

/// Whether a value is the one that its variable has beforehand, if that has one.
fn agrees(bound: &[(VarId, TermId)], variable: VarId, value: TermId) -> bool
    ensures { IsTrue result ↔ All (λ b. b.0 ≡ variable → b.1 ≡ value) bound.now }
{
    for pair in bound {
        if pair.0 == variable && pair.1 != value {
            return false;
        }
    }
    true
}

/// Whether a value has its variable's sort, and is the one that this has beforehand, if it has one.
pub fn is_for(
    sig: &Signature,
    sorts: &SortTable,
    bound: &[(VarId, TermId)],
    place: Place,
    value: TermId,
) -> bool
    requires over { AreOver sig.now.hierarchy sorts.now }
    requires sort { IsSort sig.now.hierarchy place.variable.sort }
    ensures { IsTrue result ↔ IsFor sig.now.hierarchy sorts.now bound.now place value }
{
    has_sort(sig, sorts, value, place.variable.sort) && agrees(bound, place.variable, value)
}

/// Whether each value is for its place.
pub fn are_for(
    sig: &Signature,
    sorts: &SortTable,
    bound: &[(VarId, TermId)],
    places: &[Place],
    values: &[TermId],
) -> bool
    requires over { AreOver sig.now.hierarchy sorts.now }
    requires sorts { All (λ p. IsSort sig.now.hierarchy p.variable.sort) places.now }
    ensures { IsTrue result ↔ HoldsAtEach (IsFor sig.now.hierarchy sorts.now bound.now) places.now values.now }
{
    if values.len() != places.len() {
        return false;
    }
    for i in 0..places.len() {
        if !is_for(sig, sorts, bound, places[i], values[i]) {
            return false;
        }
    }
    true
}

/// Whether a value, read as a bare term, is of its variable's kind.
fn is_of_kind_at(store: &Store, sig: &Signature, place: Place, value: TermId) -> bool
    requires value { StandsWithin (theory_at sig.now) store.now value.0 }
    requires sort { IsSort sig.now.hierarchy place.variable.sort }
    ensures { IsTrue result ↔ IsOfKindAt sig.now store.now place value }
{
    let kind = sig.poset().kind_of(place.variable.sort);
    is_of_kind(store, sig, value, kind)
}

/// Whether each value, read as a bare term, is of its variable's kind.
pub fn are_of_kinds_at(store: &Store, sig: &Signature, places: &[Place], values: &[TermId]) -> bool
    requires values { StandWithin (theory_at sig.now) store.now (numbers values.now) }
    requires sorts { All (λ p. IsSort sig.now.hierarchy p.variable.sort) places.now }
    ensures { IsTrue result ↔ HoldsAtEach (IsOfKindAt sig.now store.now) places.now values.now }
{
    if values.len() != places.len() {
        return false;
    }
    for i in 0..places.len() {
        if !is_of_kind_at(store, sig, places[i], values[i]) {
            return false;
        }
    }
    true
}
