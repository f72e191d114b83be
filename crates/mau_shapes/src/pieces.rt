//! The pieces of a strategy's text.
ghost use Rattle.std.specs.Prelude.{◌≡◌, ◌++◌, ◌∷◌, [], OnOk};

use mau_terms::NoMemory;
use std::alloc::Global;
use std::marker::Model;

/// Words of a text: from one place up to another. Places are counted in words, from 0.
#[derive(Clone, Copy, Debug, PartialEq, Eq)]
pub struct Part {
    pub start: usize,
    pub end: usize,
}

/// A piece of a strategy's text, with the place of its word. What is made of strategies stands behind these, as in `E F ;` for `E ; F`.
#[derive(Clone, Copy, Debug, PartialEq, Eq)]
pub enum Piece {
    /// A word that is a strategy by itself.
    Plain(usize),
    /// A label behind which values of variables stand: `Variable` and `Value` by turns.
    Label(usize),
    Variable(Part),
    Value(Part),
    /// A name behind which arguments stand, and then `Called`.
    Call(usize),
    Argument(Part),
    Called,
    /// The word of a test, behind which its `Pattern` stands, and the fragments of its condition.
    Test(usize),
    Pattern(Part),
    Fragment(Part),
    /// `top`, `not`, `try` or `test`, behind which a strategy stands, and then `Wrapped`.
    Wrapper(usize),
    Wrapped(usize),
    /// `*`, `+` or `!`, which is for the strategy before it.
    Marked(usize),
    /// `;`, `|` or `or-else`, which is for the two before it.
    Joined(usize),
    /// `E ? F : G`, of the three before it.
    Chosen,
}

/// Pieces in order.
#[derive(Drop, Debug)]
pub struct Pieces {
    items: Vec<Piece>,
}

impl Model for Pieces {
    ghost use Rattle.std.specs.Prelude.{List};
    ghost use Rattle.mau_shapes.specs.declared.pieces.Piece.{Piece as One};

    ghost Value = { List One };

    ghost view = { λ p. p.items.items };
}

impl Pieces {
    /// No pieces.
    pub fn new(alloc: Global) -> Pieces
        ensures { result ≡ [] }
    {
        Pieces {
            items: Vec::new(alloc),
        }
    }

    /// The pieces.
    pub fn items(&self) -> &[Piece]
        ensures { result.now ≡ self.now }
    {
        &self.items
    }

    /// One more, behind the others.
    pub fn push(&mut self, piece: Piece) -> Result<(), NoMemory>
        ensures { OnOk result (self.new ≡ self.old ++ piece ∷ []) }
    {
        self.items.push(piece)?;
        Ok(())
    }
}
