//! What a run keeps of its fragments, and what it answers.

use mau_terms::{TermId, VarId};

/// A matching fragment whose value was told: its place, the value, and how many variables were bound before it.
#[derive(Clone, Copy, Debug)]
pub struct Station {
    pub at: usize,
    pub value: TermId,
    pub bound: usize,
}

/// What was told of the first undecided fragment.
#[derive(Clone, Copy, Debug)]
pub enum Stage {
    /// Nothing.
    Open,
    /// The value of `t` in `t = u` or in `t : s`.
    First(TermId),
    /// Both values of `t = u`.
    Both(TermId, TermId),
    /// The next solution of a matching fragment is due.
    Due(Station),
    /// No matching fragment is left to go back to.
    Failed,
}

/// What a run of a condition lacks, or what has become of it.
#[derive(Drop, Debug)]
pub enum Ask {
    /// The value of a term.
    Evaluate(TermId),
    /// The next solution of the fragment with this number in this value.
    Match(u32, TermId),
    /// The condition holds for these values of its variables.
    Holds(Vec<(VarId, TermId)>),
    /// There is no further solution.
    Fails,
}
