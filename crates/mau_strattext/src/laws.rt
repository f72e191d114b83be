//! What holds of texts of strategies: the function's contract is a law, and its body is empty.
ghost use Rattle.mau_strattext.specs.Laws.{StrategiesAreOne};

/// The words of a strategy are one strategy, or have one first fault, but for the two trees of an ambiguity.
pub fn strategies_are_one()
    ensures { StrategiesAreOne }
{}
