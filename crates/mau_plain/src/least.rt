//! Lists of values in order.
ghost use Rattle.std.specs.Prelude.{◌≡◌, ◌↔◌, ◌<◌, [], All, get_or, length, IfSome, IfNone, IsTrue};
ghost use Rattle.std.specs.declared.cmp.Ordering.TheVariants.{Less};
ghost use Rattle.mau_signature.specs.Signature.{theory_at};
ghost use Rattle.mau_store.specs.View.{numbers};
ghost use Rattle.mau_canon.specs.Standing.{StandWithin};
ghost use Rattle.mau_listing.specs.Places.{under_all, AreUnderOperators};
ghost use Rattle.mau_plain.specs.Least.{values_cmp, IsBehindLast, IsLeastOf};

use mau_listing::{Place, Solution, compare_values};
use mau_signature::Signature;
use mau_store::Store;
use mau_terms::{Seq, TermId};
use std::cmp::Ordering;

/// Whether the first list of values comes before the second.
fn comes_before(
    store: &Store,
    sig: &Signature,
    places: &[Place],
    first: &[TermId],
    second: &[TermId],
) -> bool
    requires operators { AreUnderOperators sig.now places.now }
    requires first { StandWithin (theory_at sig.now) store.now (numbers first.now) }
    requires second { StandWithin (theory_at sig.now) store.now (numbers second.now) }
    requires first_each { length first.now ≡ length places.now }
    requires second_each { length second.now ≡ length places.now }
    ensures { IsTrue result ↔ (values_cmp (theory_at sig.now) (under_all places.now) store.now first.now second.now ≡ Less) }
{
    compare_values(store, sig, places, first, second) == Ordering::Less
}

/// Whether values come behind those of the last solution, if there is one.
pub fn is_behind(
    store: &Store,
    sig: &Signature,
    places: &[Place],
    last: &Option<Solution>,
    values: &[TermId],
) -> bool
    requires operators { AreUnderOperators sig.now places.now }
    requires last { IfSome last.now (λ s. StandWithin (theory_at sig.now) store.now (numbers s.values)) }
    requires last_each { IfSome last.now (λ s. length s.values ≡ length places.now) }
    requires values { StandWithin (theory_at sig.now) store.now (numbers values.now) }
    requires each { length values.now ≡ length places.now }
    ensures { IsTrue result ↔ IsBehindLast (theory_at sig.now) (under_all places.now) store.now last.now values.now }
{
    match last {
        None => true,
        Some(last) => comes_before(store, sig, places, last.values.items(), values),
    }
}

/// The place of the least of some lists of values; there is none where there are no lists.
pub fn least_of(
    store: &Store,
    sig: &Signature,
    places: &[Place],
    lists: &[Seq<TermId>],
) -> Option<usize>
    requires operators { AreUnderOperators sig.now places.now }
    requires values { All (λ l. StandWithin (theory_at sig.now) store.now (numbers l)) lists.now }
    requires each { All (λ l. length l ≡ length places.now) lists.now }
    ensures none { IfNone result (lists.now ≡ []) }
    ensures some { IfSome result (λ i. i < length lists.now) }
    ensures least { IfSome result (λ i. IsLeastOf (theory_at sig.now) (under_all places.now) store.now lists.now (get_or lists.now i [])) }
{
    if lists.is_empty() {
        return None;
    }
    let mut best = 0;
    for i in 0..lists.len() {
        if comes_before(store, sig, places, lists[i].items(), lists[best].items()) {
            best = i;
        }
    }
    Some(best)
}
