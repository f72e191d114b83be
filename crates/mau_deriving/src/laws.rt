//! What is proved of derived sorts. Each function does nothing and has a law for its contract.
ghost use Rattle.mau_deriving.specs.Laws.{DerivationsBegin, AnswersGoOn, MembershipsGoOn, DerivationsFinish, ConditionsEndSorts, ConstantsAskOnce, EntriesAreDerived, ArgumentsEndSorts, SettledAreKnown, IdentitiesEndSettling, SortsEndSettling, SettlingIsKnown};
ghost use Rattle.mau_deriving.specs.Outliving.{StandingOutlives, DerivationsOutlive, AnswersOutlive, EntriesOutlive};

/// A derivation begins with what the first membership asks.
pub fn derivations_begin()
    ensures { DerivationsBegin }
{}

/// With the answer to a condition it goes on.
pub fn answers_go_on()
    ensures { AnswersGoOn }
{}

/// It goes on with the next membership.
pub fn memberships_go_on()
    ensures { MembershipsGoOn }
{}

/// Behind the last membership all is found that memberships give.
pub fn derivations_finish()
    ensures { DerivationsFinish }
{}

/// Where a condition ends that is asked, the sorts of the term end so too.
pub fn conditions_end_sorts()
    ensures { ConditionsEndSorts }
{}

/// Of a constant a membership asks its condition once, where the normal form of its head is the constant.
pub fn constants_ask_once()
    ensures { ConstantsAskOnce }
{}

/// A term that gets what declarations and memberships give leaves an evaluator's table one.
pub fn entries_are_derived()
    ensures { EntriesAreDerived }
{}

/// Where the sorts of an argument end, and those of the arguments before it are known, the sorts of the term end so too.
pub fn arguments_end_sorts()
    ensures { ArgumentsEndSorts }
{}

/// The sorts of a settled term are known.
pub fn settled_are_known()
    ensures { SettledAreKnown }
{}

/// Where the sorts of an identity end, and those of the identities before it are known, settling ends so too.
pub fn identities_end_settling()
    ensures { IdentitiesEndSettling }
{}

/// Where those of all identities are known, settling ends where the sorts of the term end.
pub fn sorts_end_settling()
    ensures { SortsEndSettling }
{}

/// And it is known where they are known.
pub fn settling_is_known()
    ensures { SettlingIsKnown }
{}

/// A derivation stands where the store and the table have grown.
pub fn standing_outlives()
    ensures { StandingOutlives }
{}

/// And it derives what it derived.
pub fn derivations_outlive()
    ensures { DerivationsOutlive }
{}

/// What was answered is answered so with a larger budget of each condition.
pub fn answers_outlive()
    ensures { AnswersOutlive }
{}

/// An evaluator's table is one with a larger budget of each condition.
pub fn entries_outlive()
    ensures { EntriesOutlive }
{}
