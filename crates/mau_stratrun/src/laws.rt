//! What leaves and calls yield. Each function does nothing and has a law for its contract.
ghost use Rattle.mau_stratrun.specs.Laws.{LeavesYield, CallsYield};

/// First results of a leaf are what it yields first, and all results are all.
pub fn leaves_yield()
    ensures { LeavesYield }
{}

/// First bodies of a call are what it yields first, and all bodies are all.
pub fn calls_yield()
    ensures { CallsYield }
{}
