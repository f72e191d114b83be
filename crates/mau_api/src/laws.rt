//! What is proved of the definitions of this crate. Each function does nothing and has a law for its contract.
ghost use Rattle.mau_api.specs.BuiltIns.{BuiltInsAreNamed, AnswersOfReadings};
ghost use Rattle.mau_api.specs.Exact.{SubsortsAreChains, SortsAboveAreAll, NumeralSortsAreAll, DeclaredSortsAreAll};
ghost use Rattle.mau_api.specs.Remaining.{NextIsFirst, RestIsLeft, ListedAreLeft, WholesAreKept};
ghost use Rattle.mau_api.specs.KnownSorts.{ValuesAreKnown, ListingsKeepDerived};
ghost use Rattle.mau_api.specs.Meanings.{MeaningsAreLawful};
ghost use Rattle.mau_api.specs.Told.{RunsGoOn, RunsStay, ConditionsStay};

/// The order of sorts that a program has is that by chains of subsort pairs, with the kinds on top.
pub fn subsorts_are_chains()
    ensures { SubsortsAreChains }
{}

/// The sorts above one are all.
pub fn sorts_above_are_all()
    ensures { SortsAboveAreAll }
{}

/// The sorts of a numeral are all.
pub fn numeral_sorts_are_all()
    ensures { NumeralSortsAreAll }
{}

/// What declarations give over arguments are all sorts that the term has by them.
pub fn declared_sorts_are_all()
    ensures { DeclaredSortsAreAll }
{}

/// Just that is built in of an operator which its name says, by the native operators of the table.
pub fn built_ins_are_named()
    ensures { BuiltInsAreNamed }
{}

/// What is built in gives the same over the arguments of a normal form, read as bare terms.
pub fn answers_of_readings()
    ensures { AnswersOfReadings }
{}

/// The listed solutions that are accepted are just what a listing has to give.
pub fn listed_are_left()
    ensures { ListedAreLeft }
{}

/// The next solution is the first of what is left.
pub fn next_is_first()
    ensures { NextIsFirst }
{}

/// Behind it is left what stands behind it.
pub fn rest_is_left()
    ensures { RestIsLeft }
{}

/// The solutions without contexts are those with contexts whose contexts are empty.
pub fn wholes_are_kept()
    ensures { WholesAreKept }
{}

/// Where the sorts of a term are settled, those of the values of its solutions are known.
pub fn values_are_known()
    ensures { ValuesAreKnown }
{}

/// What a listing settles keeps an evaluator's table one.
pub fn listings_keep_derived()
    ensures { ListingsKeepDerived }
{}

/// The meanings by the definitions of evaluation have the laws of meanings.
pub fn meanings_are_lawful()
    ensures { MeaningsAreLawful }
{}

/// A told run and then another are one.
pub fn runs_go_on()
    ensures { RunsGoOn }
{}

/// A told run stays one in a store and a table of sorts that grow.
pub fn runs_stay()
    ensures { RunsStay }
{}

/// So does a condition that is told.
pub fn conditions_stay()
    ensures { ConditionsStay }
{}
