//! What is proved of matching without axioms. Each function does nothing and has a law for its contract; the laws are stated in
//! `specs/Laws.antt`.
ghost use Rattle.mau_syntactic.specs.Laws.{MatchIsOne, ValuesAreBelow, MatchesAreSolutions, MatchesAreListed};

/// A pattern matches a term by one list of values at most.
pub fn match_is_one()
    ensures { MatchIsOne }
{}

/// Each value is the term or stands below it.
pub fn values_are_below()
    ensures { ValuesAreBelow }
{}

/// Where the operators of a pattern are free, its solutions are what matches, with the sorts and the values that were given.
pub fn matches_are_solutions()
    ensures { MatchesAreSolutions }
{}

/// The computed lists of solutions of such a pattern hold just what matches.
pub fn matches_are_listed()
    ensures { MatchesAreListed }
{}
