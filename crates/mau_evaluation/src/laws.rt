//! The laws of evaluation, conditions and sorts, as contracts of calls that do nothing.
ghost use Rattle.mau_evaluation.specs.Laws.{EvaluationStays, SortsStay, SolvingStays, SolvingAfterStays, ValuesAreOne, YesExcludesNo, BudgetsFall, EvaluationGoesOn};
ghost use Rattle.mau_evaluation.specs.Irreducible.{ValuesAreIrreducible, ValuesStay};
ghost use Rattle.mau_evaluation.specs.Higher.{BudgetsAlone, LevelsAlone};
ghost use Rattle.mau_evaluation.specs.HasSort.{KnownSortsAreDerived, DerivedSortsAreKnown, FuelIsEnough};
ghost use Rattle.mau_evaluation.specs.Listing.{SolutionsAreListed, SolutionsWithinAreListed};

/// Where an evaluation has a value or an overflow, it has the same under larger limits.
pub fn evaluation_stays()
    ensures { EvaluationStays }
{}

/// Known sorts stay the same under larger limits.
pub fn sorts_stay()
    ensures { SortsStay }
{}

/// A condition that is Yes or No stays so under larger limits.
pub fn solving_stays()
    ensures { SolvingStays }
{}

/// The same behind a solution.
pub fn solving_after_stays()
    ensures { SolvingAfterStays }
{}

/// What comes for some limits is one value, with one count.
pub fn values_are_one()
    ensures { ValuesAreOne }
{}

/// A condition that is Yes for some limits is No for none.
pub fn yes_excludes_no()
    ensures { YesExcludesNo }
{}

/// A value admits no built-in and no executable equation at active places.
pub fn values_are_irreducible()
    ensures { ValuesAreIrreducible }
{}

/// Without conditions a value evaluates to itself.
pub fn values_stay()
    ensures { ValuesStay }
{}

/// What is counted and what is left are together at most the budget.
pub fn budgets_fall()
    ensures { BudgetsFall }
{}

/// An evaluation is a round and then an evaluation with what is left.
pub fn evaluation_goes_on()
    ensures { EvaluationGoesOn }
{}

/// The list of a pattern and a subject holds just the solutions, ascending, each class once.
pub fn solutions_are_listed()
    ensures { SolutionsAreListed }
{}

/// The same with extension.
pub fn solutions_within_are_listed()
    ensures { SolutionsWithinAreListed }
{}

/// Known sorts have derivations.
pub fn known_sorts_are_derived()
    ensures { KnownSortsAreDerived }
{}

/// Where sorts are known, each that has a derivation is among them.
pub fn derived_sorts_are_known()
    ensures { DerivedSortsAreKnown }
{}

/// Any fuel from a term's size on gives its sorts.
pub fn fuel_is_enough()
    ensures { FuelIsEnough }
{}

/// What is not too deep stays as it is under more levels, whatever it is.
pub fn levels_alone()
    ensures { LevelsAlone }
{}

/// What is not stopped stays as it is under larger budgets, whatever it is.
pub fn budgets_alone()
    ensures { BudgetsAlone }
{}
