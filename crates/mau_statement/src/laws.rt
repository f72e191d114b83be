//! What holds of statements that are read: the function's contract is a law, and its body is empty.
ghost use Rattle.mau_statement.specs.Laws.{StatementsAreOne};

/// The text of a statement says one statement, or has one fault, but for the two trees of an ambiguity.
pub fn statements_are_one()
    ensures { StatementsAreOne }
{}
