//! What the fragments of a condition ask.

/// What comes next in a condition.
#[derive(Clone, Copy, Debug, PartialEq, Eq)]
pub enum Goal {
    /// No fragment is left.
    Nothing,
    /// `t = u`
    Equality,
    /// `t : s`
    Sort,
    /// `p := u`
    Matching,
    /// `t => u`, which is solved nowhere here
    Reaching,
}
