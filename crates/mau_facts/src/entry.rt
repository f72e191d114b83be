//! What a line of a section says.

use crate::document::{Fact, TermLine};
use mau_terms::Text;

/// A line of a section.
#[derive(Drop, Debug)]
pub enum Entry {
    /// The first line: an item and a module.
    Begin(u32, Text),
    Term(TermLine),
    Fact(Fact),
    /// The last line.
    End,
}

/// Where a line stands.
#[derive(Clone, Copy, PartialEq, Eq, Debug)]
pub enum Place {
    /// In no section.
    Outside,
    /// In a section that has no facts so far.
    AmongTerms,
    /// In a section that has facts.
    AmongFacts,
}
