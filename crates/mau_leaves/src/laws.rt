//! What holds of the uses of rules: each function's contract is a law, and its body is empty.
ghost use Rattle.mau_leaves.specs.Laws.{UsesLeadToResults};

/// The results of rules at a place are the values that their uses there lead to.
pub fn uses_lead_to_results()
    ensures { UsesLeadToResults }
{}
