//! What holds of allowed answers: each function's contract is a law, and its body is empty.
ghost use Rattle.mau_results.specs.Laws.{LeastSortsAreShown, AnswersAreOne, RunAnswersAreOne};

/// A least sort is the one that is shown.
pub fn least_sorts_are_shown()
    ensures { LeastSortsAreShown }
{}

/// Where nothing is remembered and nothing derived, a term has one answer.
pub fn answers_are_one()
    ensures { AnswersAreOne }
{}

/// So has a rule run.
pub fn run_answers_are_one()
    ensures { RunAnswersAreOne }
{}
