//! The laws of the order, as contracts.
ghost use Rattle.mau_poset.specs.Laws.{OrderIsReflexive, OrderIsTransitive, OrderIsAntisymmetric, SortsHaveOneKind, KindsAreJoinedSorts, KindsAreNumberedByFirstSort, LeastIsOne};

/// Each sort and each kind is at or below itself.
pub fn order_is_reflexive()
    ensures { OrderIsReflexive }
{}

/// What is at or below b is at or below all that b is at or below, where the pairs name only sorts that are there.
pub fn order_is_transitive()
    ensures { OrderIsTransitive }
{}

/// Two that are at or below one another are one, where no sort is on a cycle.
pub fn order_is_antisymmetric()
    ensures { OrderIsAntisymmetric }
{}

/// A sort is below its own kind and below no other.
pub fn sorts_have_one_kind()
    ensures { SortsHaveOneKind }
{}

/// Two sorts have one kind exactly where pairs, each in either direction, join them.
pub fn kinds_are_joined_sorts()
    ensures { KindsAreJoinedSorts }
{}

/// The kinds have the numbers from the number of sorts on, in the order of their first sorts.
pub fn kinds_are_numbered_by_first_sort()
    ensures { KindsAreNumberedByFirstSort }
{}

/// A list of sorts and kinds has at most one least.
pub fn least_is_one()
    ensures { LeastIsOne }
{}
