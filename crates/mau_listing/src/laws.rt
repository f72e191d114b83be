//! What is proved of listings. Each function does nothing and has a law for its contract; the laws are stated in `specs/Laws.antt`.
ghost use Rattle.mau_listing.specs.Laws.{AnswersAreSolutions, WholesAreParts, MatchersAreOrdered, TiesAreOne, EntriesAreSorts, ListingsGoOn, ClosedStay, ClosedBelow, CountFalls, CountStays, AllAreListed, FirstAscend};

/// Solutions without context are the answers by normal forms.
pub fn answers_are_solutions()
    ensures { AnswersAreSolutions }
{}

/// Solutions with empty contexts are the solutions without contexts.
pub fn wholes_are_parts()
    ensures { WholesAreParts }
{}

/// The order of solutions is total.
pub fn matchers_are_ordered()
    ensures { MatchersAreOrdered }
{}

/// Two solutions of a question that tie are one.
pub fn ties_are_one()
    ensures { TiesAreOne }
{}

/// The entries of a table say what sorts the terms have.
pub fn entries_are_sorts()
    ensures { EntriesAreSorts }
{}

/// What lets a listing go on stays in a store and a table of sorts that grow.
pub fn listings_go_on()
    ensures { ListingsGoOn }
{}

/// A closed table stays closed in a store that grows.
pub fn closed_stay()
    ensures { ClosedStay }
{}

/// All that is below a settled term of a closed table is settled.
pub fn closed_below()
    ensures { ClosedBelow }
{}

/// The number of what may be left falls with each solution.
pub fn count_falls()
    ensures { CountFalls }
{}

/// The number of what may be left stays in a store that grows.
pub fn count_stays()
    ensures { CountStays }
{}

/// Where none is left behind the first solutions of a listing, these are all.
pub fn all_are_listed()
    ensures { AllAreListed }
{}

/// The first solutions of a listing are solutions in ascending order, so each is there once.
pub fn first_ascend()
    ensures { FirstAscend }
{}
