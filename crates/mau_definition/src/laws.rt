//! What holds of definitions of strategies: the function's contract is a law, and its body is empty.
ghost use Rattle.mau_definition.specs.Laws.{DefinitionsAreOne};

/// A definition of a text is one definition, or has one first fault, but for the two trees of an ambiguity.
pub fn definitions_are_one()
    ensures { DefinitionsAreOne }
{}
