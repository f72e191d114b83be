//! What is proved of the sorts of terms. Each function does nothing and has a law for its contract; the laws are stated in
//! `specs/Laws.antt`.
ghost use Rattle.mau_sorts.specs.Laws.{KeptAreMinimal, LeastIsShown, EntriesExtended, LeastSorts, ListsNestAnyhow};

/// The minimal sorts that a table keeps are exactly the minimal sorts of the term.
pub fn kept_are_minimal()
    ensures { KeptAreMinimal }
{}

/// Where a term has a least sort, it is the one that is shown.
pub fn least_is_shown()
    ensures { LeastIsShown }
{}

/// The entries for a store hold in each store that extends it.
pub fn entries_extended()
    ensures { EntriesExtended }
{}

/// Over an accepted signature each term has a least sort by declarations.
pub fn least_sorts()
    ensures { LeastSorts }
{}

/// Over an accepted signature the sorts of a list do not depend on how it is nested.
pub fn lists_nest_anyhow()
    ensures { ListsNestAnyhow }
{}
