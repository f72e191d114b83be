//! Productions over words and kinds, and what tokens are by themselves.
use mau_terms::{OpId, VarId};

/// What stands for itself in a production: a word of a text, or a term of a kind, whose level is at most `upto`.
#[derive(Clone, Copy, PartialEq, Eq, Debug)]
pub struct Piece {
    pub kind: usize,
    pub upto: u32,
}

/// A way to write a term of a kind: its pieces in order. With an operator it is that operator over the terms of
/// its pieces, without one it is these terms.
#[derive(Drop)]
pub struct Production {
    pub kind: usize,
    pub level: u32,
    pub op: Option<OpId>,
    pub pieces: Vec<Piece>,
}

/// What was or may be found: a word or a term by its kind and level, or the pieces of a production from a
/// number on.
#[derive(Clone, Copy, PartialEq, Eq, Debug)]
pub enum Item {
    Whole(usize, u32),
    Part(usize, usize),
}

/// What tokens say by themselves.
#[derive(Clone, Copy, PartialEq, Eq, Debug)]
pub enum Said {
    Word,
    Var(VarId),
    Num(u128),
}

/// Tokens that are a word or a term by themselves.
#[derive(Clone, Copy, PartialEq, Eq, Debug)]
pub struct Leaf {
    pub kind: usize,
    pub level: u32,
    pub start: usize,
    pub end: usize,
    pub said: Said,
}

impl Item {
    ghost use Rattle.std.specs.Prelude.{◌≡◌, ◌↔◌, ◌<◌, ℕ, suc, IsTrue};
    ghost use Rattle.mau_chart.specs.declared.grammar.Item.TheVariants.{Part};

    /// Whether the two are one item.
    pub fn is(self, other: Item) -> bool
        ensures { IsTrue result ↔ (self ≡ other) }
    {
        self == other
    }

    /// Whether it is a part of a production with a piece before it.
    pub fn waits(self) -> bool
        ensures where_part { (k d : ℕ) → self ≡ Part k (suc d) → IsTrue result }
        ensures only { IsTrue result → (k : ℕ) × ((d : ℕ) × (self ≡ Part k (suc d))) }
    {
        match self {
            Item::Part(_, dot) => dot > 0,
            Item::Whole(_, _) => false,
        }
    }
}
