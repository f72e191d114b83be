//! What holds of signatures that are judged: each function's contract is a law, and its body is empty.
ghost use Rattle.mau_sigcheck.specs.Laws.{FirstFaultsAreOne, AcceptedHaveNoFault};

/// A signature has one first fault at most.
pub fn first_faults_are_one()
    ensures { FirstFaultsAreOne }
{}

/// An accepted signature, within the limit on tuples, has no fault.
pub fn accepted_have_no_fault()
    ensures { AcceptedHaveNoFault }
{}
