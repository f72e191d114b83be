//! Productions: the ways to write a term of a kind.
ghost use Rattle.std.specs.Prelude.{◌≡◌, IfOk};
ghost use Rattle.mau_grammar.specs.Production.{any, word};

use mau_terms::{NoMemory, OpId, Seq, Text};
use std::alloc::Global;

/// A place for a term of a kind, whose level is at most `upto`.
#[derive(Clone, Copy, Debug, PartialEq, Eq)]
pub struct Hole {
    pub kind: u32,
    pub upto: u32,
}

/// What stands at one place of a production: a word, or a place for a term.
#[derive(Drop, Debug)]
pub enum Part {
    Word(Text),
    Hole(Hole),
}

/// A way to write a term of a kind: its parts in order. With an operator it is that operator over the terms at its
/// places, without one it is the term at its one place. Its level is 0 in parentheses, and otherwise one more than its precedence.
#[derive(Drop, Debug)]
pub struct Production {
    pub kind: u32,
    pub level: u32,
    pub op: Option<OpId>,
    pub parts: Seq<Part>,
}

impl Part {
    /// A word.
    pub(crate) fn word(alloc: Global, text: &str) -> Result<Part, NoMemory>
        ensures { IfOk result (λ p. p ≡ word text.now) }
    {
        Ok(Part::Word(Text::new(alloc, text)?))
    }

    /// A place that admits every term of the kind.
    pub(crate) fn any(kind: u32) -> Part
        ensures { result ≡ any kind }
    {
        Part::Hole(Hole { kind, upto: 256 })
    }
}
