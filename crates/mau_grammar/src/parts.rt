//! The parts in which a term of an operator is written.
ghost use Rattle.std.specs.Prelude.{◌≡◌, ◌<◌, ◌++◌, get_or, OnOk, IfOk};
ghost use Rattle.mau_grammar.specs.Parts.{in_parentheses, mark_of};

use crate::precedence::{is_hole, upto};
use crate::production::{Hole, Part};
use mau_signature::{Decl, Form, Piece};
use mau_terms::NoMemory;
use std::alloc::Global;

/// The kind at a place, or 0 where there are not so many.
fn kind_at(kinds: &[u32], n: usize) -> u32
    ensures { result ≡ get_or kinds.now n 0 }
{
    match kinds.get(n) {
        Some(kind) => *kind,
        None => 0,
    }
}

/// The part for a piece of the form of a declaration, with so many holes before it.
fn part_of(
    alloc: Global,
    decl: &Decl,
    kinds: &[u32],
    piece: &Piece,
    hole: usize,
) -> Result<Part, NoMemory>
    requires { hole < 18446744073709551615 }
    ensures { IfOk result (λ p. p ≡ Rattle.mau_grammar.specs.Parts.part_of decl.now kinds.now piece.now hole) }
{
    match piece {
        Piece::Word(text) => Ok(Part::Word(text.copy(alloc)?)),
        Piece::Hole => Ok(Part::Hole(Hole {
            kind: kind_at(kinds, hole),
            upto: upto(decl, hole),
        })),
    }
}

/// The words and arguments of a form in order; the arguments have these kinds.
pub fn parts_in_order(alloc: Global, decl: &Decl, kinds: &[u32]) -> Result<Vec<Part>, NoMemory>
    ensures { IfOk result (λ ps. ps.items ≡ Rattle.mau_grammar.specs.Parts.parts_in_order decl.now kinds.now) }
{
    let mut parts = Vec::new(alloc);
    let mut hole: usize = 0;
    let pieces = decl.form.pieces();
    for piece in pieces {
        parts.push(part_of(alloc, decl, kinds, piece, hole)?)?;
        if is_hole(piece) {
            hole += 1;
        }
    }
    Ok(parts)
}

/// The words of a form.
pub fn words_of(alloc: Global, form: &Form) -> Result<Vec<Part>, NoMemory>
    ensures { IfOk result (λ ps. ps.items ≡ Rattle.mau_grammar.specs.Parts.words_of form.now) }
{
    let mut parts = Vec::new(alloc);
    let pieces = form.pieces();
    for piece in pieces {
        match piece {
            Piece::Word(text) => {
                parts.push(Part::Word(text.copy(alloc)?))?;
            }
            Piece::Hole => {}
        }
    }
    Ok(parts)
}

/// What stands before an argument in parentheses.
fn mark(is_first: bool) -> &'static str
    ensures { result.now ≡ mark_of is_first }
{
    if is_first { "(" } else { "," }
}

/// Puts terms of these kinds in parentheses, with commas, behind other parts.
pub fn push_arguments(alloc: Global, parts: &mut Vec<Part>, kinds: &[u32]) -> Result<(), NoMemory>
    ensures { OnOk result (parts.new.items ≡ parts.old.items ++ in_parentheses kinds.now) }
{
    let mut is_first = true;
    for kind in kinds {
        parts.push(Part::word(alloc, mark(is_first))?)?;
        parts.push(Part::any(*kind))?;
        is_first = false;
    }
    parts.push(Part::word(alloc, ")")?)?;
    Ok(())
}
