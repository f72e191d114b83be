//! The least of some values behind another one.
ghost use Rattle.std.specs.Prelude.{◌≡◌, Some, None, IfSome, if◌then◌else◌};
ghost use Rattle.mau_signature.specs.Signature.{theory_at};
ghost use Rattle.mau_store.specs.Trees.{tree_at, trees_at};
ghost use Rattle.mau_store.specs.View.{numbers};
ghost use Rattle.mau_canon.specs.Standing.{StandsWithin, StandWithin};
ghost use Rattle.mau_listing.specs.Places.{operator_number};
ghost use Rattle.mau_domains.specs.Search.{first_of};
ghost use Rattle.mau_domains.specs.Values.{by_key};
ghost use Rattle.mau_domains.specs.Stored.{tree_in, IsListOperator};
ghost use Rattle.mau_domains.specs.Nearest.{only_behind, nearest_of};

use crate::key::key_of;
use mau_listing::compare_lists;
use mau_signature::Signature;
use mau_store::Store;
use mau_terms::{OpId, TermId};
use std::cmp::Ordering;

/// The order of two values.
fn compare(
    store: &Store,
    sig: &Signature,
    under: Option<OpId>,
    first: TermId,
    second: TermId,
) -> Ordering
    requires under { IfSome under (λ op. IsListOperator sig.now op.0) }
    requires first { StandsWithin (theory_at sig.now) store.now first.0 }
    requires second { StandsWithin (theory_at sig.now) store.now second.0 }
    ensures { result ≡ by_key (theory_at sig.now) (operator_number under) 0 (tree_at store.now first.0) (tree_at store.now second.0) }
{
    let left = key_of(store, sig, under, &first);
    let right = key_of(store, sig, under, &second);
    compare_lists(store, left, right)
}

/// The lesser of the best value so far and another one.
fn lesser(
    store: &Store,
    sig: &Signature,
    under: Option<OpId>,
    best: Option<TermId>,
    value: TermId,
) -> TermId
    requires under { IfSome under (λ op. IsListOperator sig.now op.0) }
    requires best { IfSome best (λ id. StandsWithin (theory_at sig.now) store.now id.0) }
    requires value { StandsWithin (theory_at sig.now) store.now value.0 }
    ensures value { Some (tree_at store.now result.0) ≡ first_of (by_key (theory_at sig.now) (operator_number under)) 0 (tree_in store.now best) (Some (tree_at store.now value.0)) }
    ensures within { StandsWithin (theory_at sig.now) store.now result.0 }
{
    match best {
        Some(id) => match compare(store, sig, under, id, value) {
            Ordering::Greater => value,
            _ => id,
        },
        None => value,
    }
}

/// Whether a value is behind the last one, if there is a last one.
fn is_behind(
    store: &Store,
    sig: &Signature,
    under: Option<OpId>,
    after: Option<TermId>,
    value: TermId,
) -> bool
    requires under { IfSome under (λ op. IsListOperator sig.now op.0) }
    requires after { IfSome after (λ id. StandsWithin (theory_at sig.now) store.now id.0) }
    requires value { StandsWithin (theory_at sig.now) store.now value.0 }
    ensures { only_behind (by_key (theory_at sig.now) (operator_number under)) 0 (tree_in store.now after) (tree_at store.now value.0)
        ≡ (if result then Some (tree_at store.now value.0) else None) }
{
    match after {
        Some(last) => compare(store, sig, under, last, value).is_lt(),
        None => true,
    }
}

/// The lesser of the best value so far and another one, which counts only where it is behind the last one.
fn nearer(
    store: &Store,
    sig: &Signature,
    under: Option<OpId>,
    after: Option<TermId>,
    best: Option<TermId>,
    value: TermId,
) -> Option<TermId>
    requires under { IfSome under (λ op. IsListOperator sig.now op.0) }
    requires after { IfSome after (λ id. StandsWithin (theory_at sig.now) store.now id.0) }
    requires best { IfSome best (λ id. StandsWithin (theory_at sig.now) store.now id.0) }
    requires value { StandsWithin (theory_at sig.now) store.now value.0 }
    ensures value { tree_in store.now result ≡ first_of (by_key (theory_at sig.now) (operator_number under)) 0 (tree_in store.now best)
        (only_behind (by_key (theory_at sig.now) (operator_number under)) 0 (tree_in store.now after) (tree_at store.now value.0)) }
    ensures within { IfSome result (λ id. StandsWithin (theory_at sig.now) store.now id.0) }
{
    if is_behind(store, sig, under, after, value) {
        Some(lesser(store, sig, under, best, value))
    } else {
        best
    }
}

/// The least of the values that are behind the last one.
pub fn nearest_behind(
    store: &Store,
    sig: &Signature,
    under: Option<OpId>,
    after: Option<TermId>,
    values: &[TermId],
) -> Option<TermId>
    requires under { IfSome under (λ op. IsListOperator sig.now op.0) }
    requires after { IfSome after (λ id. StandsWithin (theory_at sig.now) store.now id.0) }
    requires values { StandWithin (theory_at sig.now) store.now (numbers values.now) }
    ensures value { tree_in store.now result ≡ nearest_of (by_key (theory_at sig.now) (operator_number under)) 0 (tree_in store.now after) None (trees_at store.now (numbers values.now)) }
    ensures within { IfSome result (λ id. StandsWithin (theory_at sig.now) store.now id.0) }
{
    let mut best = None;
    for value in values {
        best = nearer(store, sig, under, after, best, *value);
    }
    best
}
