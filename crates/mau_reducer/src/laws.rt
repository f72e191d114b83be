//! What is proved of the evaluator's answers. Each function does nothing and has a law for its contract.
ghost use Rattle.mau_reducer.specs.Irreducible.{ValuesAdmitNone};

/// What an evaluation by a lawful program gives admits no built-in and no equation.
pub fn values_admit_none()
    ensures { ValuesAdmitNone }
{}
