//! What is proved of programs: the function's contract is a law, and its body is empty.
ghost use Rattle.mau_program.specs.Laws.{AcceptedAreWellDeclared};

/// A signature that was built and accepted has declarations for each operator, over its sorts and alike.
pub fn accepted_are_well_declared()
    ensures { AcceptedAreWellDeclared }
{}
