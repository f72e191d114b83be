//! The order of solutions with contexts, and which contexts leave enough.
ghost use Rattle.std.specs.Prelude.{◌≡◌, ◌↔◌, length, Option, IfSome, IsTrue};
ghost use Rattle.std.specs.Option.{option_map};
ghost use Rattle.mau_terms.specs.Tree.{Tree};
ghost use Rattle.mau_terms.specs.Solution.{places as places_by};
ghost use Rattle.mau_signature.specs.Signature.{IsOperator, theory_at};
ghost use Rattle.mau_store.specs.Node.{IsOf};
ghost use Rattle.mau_store.specs.Trees.{tree_at};
ghost use Rattle.mau_store.specs.View.{numbers};
ghost use Rattle.mau_canon.specs.Standing.{StandWithin};
ghost use Rattle.mau_listing.specs.Places.{under_all, AreUnderOperators};
ghost use Rattle.mau_listing.specs.Asked.{matcher_in};
ghost use Rattle.mau_listing.specs.Next.{matcher_cmp, IsBehind};
ghost use Rattle.mau_extend.specs.Widened.{IsWide};

use mau_canon::list_of;
use mau_listing::{Place, Solution, compare_lists, compare_values};
use mau_signature::Signature;
use mau_store::Store;
use mau_terms::{OpId, TermId};
use std::cmp::Ordering;

/// The order of two solutions of a pattern: the left context decides first, and then the values.
pub fn compare_found(
    store: &Store,
    sig: &Signature,
    places: &[Place],
    one: &Solution,
    other: &Solution,
) -> Ordering
    requires operators { AreUnderOperators sig.now places.now }
    requires one { StandWithin (theory_at sig.now) store.now (numbers one.now.values) }
    requires other { StandWithin (theory_at sig.now) store.now (numbers other.now.values) }
    requires one_each { length one.now.values ≡ length places.now }
    requires other_each { length other.now.values ≡ length places.now }
    ensures { (p : Tree) → under_all places.now ≡ places_by (theory_at sig.now) p → result ≡ matcher_cmp (theory_at sig.now) p (matcher_in store.now one.now) (matcher_in store.now other.now) }
{
    let order = compare_lists(store, one.left.items(), other.left.items());
    if order != Ordering::Equal {
        return order;
    }
    compare_values(store, sig, places, one.values.items(), other.values.items())
}

/// Whether a solution stands behind the last one, if there is one.
pub fn is_behind(
    store: &Store,
    sig: &Signature,
    places: &[Place],
    last: &Option<Solution>,
    solution: &Solution,
) -> bool
    requires operators { AreUnderOperators sig.now places.now }
    requires last { IfSome last.now (λ x. StandWithin (theory_at sig.now) store.now (numbers x.values)) }
    requires solution { StandWithin (theory_at sig.now) store.now (numbers solution.now.values) }
    requires last_each { IfSome last.now (λ x. length x.values ≡ length places.now) }
    requires each { length solution.now.values ≡ length places.now }
    ensures { (p : Tree) → under_all places.now ≡ places_by (theory_at sig.now) p →
        IsTrue result ↔ IsBehind (matcher_cmp (theory_at sig.now) p) (option_map (matcher_in store.now) last.now) (matcher_in store.now solution.now) }
{
    match last {
        Some(last) => compare_found(store, sig, places, last, solution) == Ordering::Less,
        None => true,
    }
}

/// Whether the contexts leave two elements of the subject at least, or are empty.
pub fn is_wide(
    store: &Store,
    sig: &Signature,
    op: OpId,
    subject: TermId,
    solution: &Solution,
) -> bool
    requires operator { IsOperator sig.now op.0 }
    requires subject { IsOf store.now subject.0 }
    ensures { IsTrue result ↔ IsWide (theory_at sig.now op.0) op.0 (tree_at store.now subject.0) (matcher_in store.now solution.now) }
{
    let whole = list_of(store, sig, op, &subject).len();
    let contexts = solution.left.items().len() + solution.right.items().len();
    contexts == 0 || contexts + 2 <= whole
}
