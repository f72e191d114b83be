//! What is proved of built terms. Each function does nothing and has a law for its contract; the laws are stated in
//! `specs/Laws.antt`.
ghost use Rattle.mau_canon.specs.Laws.{OneNumberWhereEqual, ListStandsForNested, ArgumentsStandWithin, ArgumentsAreWithin, StandsWithinExtended};

/// Two bare terms over a lawful signature get one number exactly where they are equal modulo the axioms.
pub fn one_number_where_equal()
    ensures { OneNumberWhereEqual }
{}

/// A list under an associative operator stands for the nested uses of the operator.
pub fn list_stands_for_nested()
    ensures { ListStandsForNested }
{}

/// The arguments of a normal form within the limits are normal forms within the limits.
pub fn arguments_stand_within()
    ensures { ArgumentsStandWithin }
{}

/// What is within the limits was built of normal forms within the limits.
pub fn arguments_are_within()
    ensures { ArgumentsAreWithin }
{}

/// A number that stands for a normal form within the limits does so in every extension of its store.
pub fn stands_within_extended()
    ensures { StandsWithinExtended }
{}
