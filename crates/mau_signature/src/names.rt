//! The operators of some declarations, numbered by their first declarations.
ghost use Rattle.std.specs.Prelude.{◌≡◌, ◌+◌, ◌<◌, ◌≤◌, [], length, map, All, is_some, IfOk, OnOk, IfSome};
ghost use Rattle.mau_poset.specs.Order.{kind_of};
ghost use Rattle.mau_signature.specs.Names.{operator_of, constant_of, same_operator, with_operator, place_of};
ghost use Rattle.std.specs.List.{list_any};
ghost use Rattle.mau_signature.specs.Distinct.{AreDistinct};
ghost use Rattle.mau_signature.specs.Faults.{HasSorts, IsSort};
ghost use Rattle.mau_signature.specs.Keys.{operator_of_key, piece_of, pieces_of};

use crate::{Decl, Form, Piece};
use indexmap::IndexSet;
use mau_poset::Poset;
use mau_terms::NoMemory;
use std::alloc::Global;
use std::marker::Model;

/// What tells operators apart. A hole of the form is `None`.
#[derive(Drop, PartialEq, Eq, Hash)]
pub struct Key {
    form: Vec<Option<String>>,
    arguments: Vec<u32>,
    constant: Option<u32>,
}

// The pieces of a form, for a key.
fn key_pieces(alloc: Global, form: &Form) -> Result<Vec<Option<String>>, NoMemory>
    ensures { IfOk result (λ pieces. pieces_of pieces.items ≡ form.now) }
{
    let mut pieces = Vec::with_capacity(alloc, form.pieces().len())?;
    for piece in form.pieces() {
        pieces.push(key_piece(alloc, piece)?)?;
    }
    Ok(pieces)
}

fn key_piece(alloc: Global, piece: &Piece) -> Result<Option<String>, NoMemory>
    ensures { IfOk result (λ p. piece_of p ≡ piece.now) }
{
    match piece {
        Piece::Hole => Ok(None),
        Piece::Word(word) => Ok(Some(String::from_str(alloc, word.as_str())?)),
    }
}

// The kinds of some sorts.
fn kinds_of(alloc: Global, poset: &Poset, sorts: &[u32]) -> Result<Vec<u32>, NoMemory>
    requires { All (IsSort poset.now) sorts.now }
    ensures { IfOk result (λ kinds. kinds.items ≡ map (kind_of poset.now) sorts.now) }
{
    let mut kinds = Vec::with_capacity(alloc, sorts.len())?;
    for sort in sorts {
        kinds.push(poset.kind_of(*sort))?;
    }
    Ok(kinds)
}

impl Key {
    /// The operator of a declaration.
    pub fn of(alloc: Global, poset: &Poset, decl: &Decl) -> Result<Key, NoMemory>
        requires { HasSorts poset.now decl.now }
        ensures { IfOk result (λ key. operator_of_key key ≡ operator_of poset.now decl.now) }
    {
        let sorts = decl.args.items();
        let constant = if sorts.is_empty() {
            Some(poset.kind_of(decl.result))
        } else {
            None
        };
        Ok(Key {
            form: key_pieces(alloc, &decl.form)?,
            arguments: kinds_of(alloc, poset, sorts)?,
            constant,
        })
    }

    /// The constant with a form in a kind.
    pub fn constant(alloc: Global, form: &Form, kind: u32) -> Result<Key, NoMemory>
        ensures { IfOk result (λ key. operator_of_key key ≡ constant_of form.now kind) }
    {
        Ok(Key {
            form: key_pieces(alloc, form)?,
            arguments: Vec::new(alloc),
            constant: Some(kind),
        })
    }
}

/// Operators in order, each once.
#[derive(Drop)]
pub struct Names {
    keys: IndexSet<Key>,
}

impl Model for Names {
    ghost use Rattle.std.specs.Prelude.{List, map};
    ghost use Rattle.mau_signature.specs.Names.{Operator};

    ghost Value = { List Operator };

    ghost use Rattle.mau_signature.specs.Keys.{operator_of_key};
    ghost use Rattle.mau_signature.specs.Distinct.{AreDistinct};

    ghost view = { λ n. map operator_of_key n.keys.keys };

    ghost invariant = { λ n. AreDistinct (map operator_of_key n.keys.keys) };
}

impl Names {
    /// No operators.
    pub fn new(alloc: Global) -> Names
        ensures { result ≡ [] }
    {
        Names {
            keys: IndexSet::new(alloc),
        }
    }

    /// How many operators there are.
    pub fn len(&self) -> usize
        ensures counted { result ≡ length self.now }
        ensures distinct { AreDistinct self.now }
    {
        self.keys.len()
    }

    /// Adds an operator at the end, unless it is there.
    pub fn add(&mut self, key: Key) -> Result<(), NoMemory>
        ensures names { OnOk result (self.new ≡ with_operator self.old (operator_of_key key)) }
        ensures few { OnOk result (length self.new ≤ length self.old + 1) }
    {
        self.keys.insert_full(key)?;
        Ok(())
    }

    /// The place of an operator, counted from 0.
    pub fn place(&self, key: &Key) -> Option<usize>
        ensures value { result ≡ place_of self.now (operator_of_key key.now) }
        ensures found { is_some result ≡ list_any (same_operator (operator_of_key key.now)) self.now }
        ensures within { IfSome result (λ i. i < length self.now) }
    {
        self.keys.get_index_of(key)
    }
}
