//! What holds of listings with conditions: each function's contract is a law, and its body is empty.
ghost use Rattle.mau_conditional.specs.Laws.{ShownOnce};

/// What is shown is determined.
pub fn shown_once()
    ensures { ShownOnce }
{}
