//! What is proved of sub-multisets and parts. Each function does nothing and has a law for its contract; the laws are stated in
//! `specs/Laws.antt`.
ghost use Rattle.mau_lists.specs.Laws.{SubListsAreSubMultisets, PartsStandBetween, FrontsStandFirst, SortedWhereAscending, AreListed, SubListsAreNext, FrontsAreNext, PartsAreNext, NextIsOne, RunsGiveAllSubLists, RunsGoOnBehindSubLists, RunsGiveAllParts, RunsGoOnBehindParts, SubListCallsLeaveFewer, PartCallsLeaveFewer};

/// The sub-lists of a sorted list are its sub-multisets, as sorted lists.
pub fn sub_lists_are_sub_multisets()
    ensures { SubListsAreSubMultisets }
{}

/// A part of a list is what stands between some of its elements and some others.
pub fn parts_stand_between()
    ensures { PartsStandBetween }
{}

/// A front of a list is a part with nothing before it.
pub fn fronts_stand_first()
    ensures { FrontsStandFirst }
{}

/// A list of terms is sorted exactly where it is ascending.
pub fn sorted_where_ascending()
    ensures { SortedWhereAscending }
{}

/// The plain programs write down all sub-lists, fronts and parts, and nothing else.
pub fn are_listed()
    ensures { AreListed }
{}

/// The computed sub-list is the first one behind a list, and there is none exactly after the last.
pub fn sub_lists_are_next()
    ensures { SubListsAreNext }
{}

/// The same of fronts.
pub fn fronts_are_next()
    ensures { FrontsAreNext }
{}

/// The same of parts.
pub fn parts_are_next()
    ensures { PartsAreNext }
{}

/// The next list is one: what `next` and `after` promise determines what they give.
pub fn next_is_one()
    ensures { NextIsOne }
{}

/// Calls of `SubLists::next`, from the first on, give all sub-multisets of the items, ascending, each once, however the store grows
/// between them.
pub fn runs_give_all_sub_lists()
    ensures { RunsGiveAllSubLists }
{}

/// Calls behind a list give all sub-multisets behind it, ascending, each once, whether that list is one of them or not.
pub fn runs_go_on_behind_sub_lists()
    ensures { RunsGoOnBehindSubLists }
{}

/// Calls of `Segments::next`, from the first on, give all parts of the items, ascending, each once, however the store grows between
/// them.
pub fn runs_give_all_parts()
    ensures { RunsGiveAllParts }
{}

/// Calls behind a list give all parts behind it, ascending, each once, whether that list is one of them or not.
pub fn runs_go_on_behind_parts()
    ensures { RunsGoOnBehindParts }
{}

/// Each call of `SubLists::next` that gives a list leaves fewer: so a loop over all of them ends.
pub fn sub_list_calls_leave_fewer()
    ensures { SubListCallsLeaveFewer }
{}

/// Each call of `Segments::next` that gives a part leaves fewer: so a loop over all of them ends.
pub fn part_calls_leave_fewer()
    ensures { PartCallsLeaveFewer }
{}
