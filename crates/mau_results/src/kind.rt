//! The kinds of rule runs.

/// How a run applies rules.
#[derive(Clone, Copy, Debug, PartialEq, Eq)]
pub enum RunKind {
    /// One after another, each at the first place at which one applies.
    Rewriting,
    /// Fairly: in passes over all places, with up to so many rewrites at the top of each.
    Fair(u64),
}
