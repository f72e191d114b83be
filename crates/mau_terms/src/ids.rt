//! The numbers by which operators, variables and shared terms are named.

/// The number of an operator in its signature.
#[derive(Clone, Copy, PartialEq, Eq, PartialOrd, Ord, Hash, Debug)]
pub struct OpId(pub u32);

/// A variable: its place in the list of its item, and the number of its sort. Variables are ordered by index and then by
/// sort.
#[derive(Clone, Copy, PartialEq, Eq, PartialOrd, Ord, Hash, Debug)]
pub struct VarId {
    pub index: u32,
    pub sort: u32,
}

/// The number of a shared term in its store.
#[derive(Clone, Copy, PartialEq, Eq, PartialOrd, Ord, Hash, Debug)]
pub struct TermId(pub usize);
