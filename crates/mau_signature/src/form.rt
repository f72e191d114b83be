//! Forms of operators: words, and holes for the arguments.
ghost use Rattle.std.specs.Prelude.{◌≡◌, IfOk};
ghost use Rattle.mau_signature.specs.Form.{holes, same_piece, same_form};

use mau_terms::{NoMemory, Text};
use std::alloc::Global;
use std::marker::Model;

/// A piece of a form: a hole for an argument, or a word.
#[derive(Drop, Debug)]
pub enum Piece {
    Hole,
    Word(Text),
}

impl Piece {
    /// An equal piece.
    pub fn copy(&self, alloc: Global) -> Result<Piece, NoMemory>
        ensures { IfOk result (λ p. p ≡ self.now) }
    {
        match self {
            Piece::Hole => Ok(Piece::Hole),
            Piece::Word(word) => Ok(Piece::Word(word.copy(alloc)?)),
        }
    }

    /// Whether the two are one piece.
    pub fn same(&self, other: &Piece) -> bool
        ensures { result ≡ same_piece self.now other.now }
    {
        match (self, other) {
            (Piece::Hole, Piece::Hole) => true,
            (Piece::Word(a), Piece::Word(b)) => a.as_str() == b.as_str(),
            _ => false,
        }
    }
}

/// The form of an operator, seen as the list of its pieces.
#[derive(Drop, Debug)]
pub struct Form {
    pieces: Vec<Piece>,
}

impl Model for Form {
    ghost use Rattle.std.specs.Prelude.{List};
    ghost use Rattle.mau_signature.specs.declared.form.Piece.{Piece};

    ghost Value = { List Piece };

    ghost view = { λ f. f.pieces.items };
}

impl Form {
    /// The form of these pieces.
    pub fn new(pieces: Vec<Piece>) -> Form
        ensures { result ≡ pieces.items }
    {
        Form { pieces }
    }

    /// The pieces in order.
    pub fn pieces(&self) -> &[Piece]
        ensures { result.now ≡ self.now }
    {
        &self.pieces
    }

    /// An equal form.
    pub fn copy(&self, alloc: Global) -> Result<Form, NoMemory>
        ensures { IfOk result (λ f. f ≡ self.now) }
    {
        let mut pieces = Vec::with_capacity(alloc, self.pieces.len())?;
        for piece in &self.pieces {
            pieces.push(piece.copy(alloc)?)?;
        }
        Ok(Form { pieces })
    }

    /// Whether the two are one form.
    pub fn same(&self, other: &Form) -> bool
        ensures { result ≡ same_form self.now other.now }
    {
        if self.pieces.len() != other.pieces.len() {
            return false;
        }
        for i in 0..self.pieces.len() {
            if !self.pieces[i].same(&other.pieces[i]) {
                return false;
            }
        }
        true
    }

    /// How many holes the form has.
    pub fn holes(&self) -> usize
        ensures { result ≡ holes self.now }
    {
        self.pieces
            .iter()
            .filter(|piece| matches!(piece, Piece::Hole))
            .count()
    }
}
