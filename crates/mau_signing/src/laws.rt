//! What holds of declarations that are signed: the function's contract is a law, and its body is empty.
ghost use Rattle.mau_signing.specs.Laws.{SignaturesAreOne};

/// Declarations over names of sorts are one signature, or have one text of what is at fault.
pub fn signatures_are_one()
    ensures { SignaturesAreOne }
{}
