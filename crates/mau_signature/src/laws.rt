//! What is proved of signatures. Each function does nothing and has a law for its contract; the laws are stated in `specs/Laws.antt`.
ghost use Rattle.mau_signature.specs.Laws.{FaultlessAreLawful, FaultlessHaveNone, FaultsAreOne};

/// Declarations without a fault make a signature that is lawful: its operators have the kinds that their axioms need.
pub fn faultless_are_lawful()
    ensures { FaultlessAreLawful }
{}

/// Declarations have one fault at most, so each answer of `Signature::build` comes where its cause holds.
pub fn faults_are_one()
    ensures { FaultsAreOne }
{}

/// Where no declaration is at fault, there is no fault.
pub fn faultless_have_none()
    ensures { FaultlessHaveNone }
{}
