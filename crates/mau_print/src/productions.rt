//! The production of an operator with holes, among those of its grammar.
ghost use Rattle.std.specs.Prelude.{◌≡◌, ◌≤◌, ◌∷◌, [], ℕ, List, false, is_some, length, IfOk};
ghost use Rattle.std.specs.Option.{option_map_or};
ghost use Rattle.mau_poset.specs.Order.{Hierarchy};
ghost use Rattle.mau_signature.specs.declared.decl.Decl.{Decl};
ghost use Rattle.mau_signature.specs.declared.form.Piece.{Piece};
ghost use Rattle.mau_grammar.specs.Parts;
ghost use Rattle.mau_grammar.specs.Productions;
ghost use Rattle.mau_grammar.specs.Productions.{of_operator};

use mau_grammar::Part;
use mau_signature::{Decl, Form, Piece};
use mau_terms::NoMemory;
use std::alloc::Global;

/// Whether the word is one of the characters that are tokens of their own.
fn is_special(word: &str) -> bool
    ensures { result ≡ Parts.is_special word.now }
{
    matches!(word, "(" | ")" | "[" | "]" | "{" | "}" | ",")
}

/// Whether the last of the pieces is a word that a further word cannot follow, where it is `piece` and this holds of those
/// before it. None where it cannot follow them itself.
fn name_step(after_word: bool, piece: &Piece) -> Option<bool>
    ensures { (name : List ℕ) (ps : List Piece) → is_some (Parts.name_from name after_word (piece.now ∷ ps)) ≡ option_map_or (λ b. is_some (Parts.name_from [] b ps)) result false }
{
    match piece {
        Piece::Hole => Some(false),
        Piece::Word(word) => {
            if is_special(word.as_str()) {
                return Some(false);
            }
            if after_word {
                return None;
            }
            Some(true)
        }
    }
}

/// Whether one token is cut into the pieces of the form.
fn has_name(form: &Form) -> bool
    ensures { result ≡ is_some (Parts.prefix_name form.now) }
{
    let mut after_word = false;
    let pieces = form.pieces();
    for piece in pieces {
        match name_step(after_word, piece) {
            Some(is_word) => after_word = is_word,
            None => return false,
        }
    }
    true
}

/// Whether the form has a prefix form.
fn has_head(form: &Form) -> bool
    ensures { result ≡ is_some (Parts.head_of form.now) }
{
    if form.holes() == 0 {
        return true;
    }
    has_name(form)
}

/// Whether a term of the operator is written with its words and arguments in order.
fn is_written(decl: &Decl) -> bool
    ensures { result ≡ Productions.is_written decl.now }
{
    !decl.form.pieces().is_empty() && (decl.form.holes() != 0 || decl.args.items().is_empty())
}

/// How many productions the prefix form of an operator has.
fn prefixed_count(decl: &Decl) -> usize
    ensures few { result ≤ 3 }
    ensures value { (h : Hierarchy) (f : ℕ) → result ≡ length (Productions.prefixed h f decl.now) }
{
    if decl.args.items().is_empty() {
        return 0;
    }
    if !has_head(&decl.form) {
        return 0;
    }
    if decl.attrs.assoc { 3 } else { 1 }
}

/// How many productions an operator with this first declaration has.
pub fn productions_count(decl: &Decl) -> usize
    ensures value { (h : Hierarchy) (f : ℕ) (ds : List Decl) → result ≡ length (of_operator h f (decl.now ∷ ds)) }
    ensures few { result ≤ 4 }
{
    let prefixed = prefixed_count(decl);
    if is_written(decl) {
        return prefixed + 1;
    }
    prefixed
}

/// An equal part.
fn copy_part(alloc: Global, part: &Part) -> Result<Part, NoMemory>
    ensures { IfOk result (λ p. p ≡ part.now) }
{
    match part {
        Part::Word(word) => Ok(Part::Word(word.copy(alloc)?)),
        Part::Hole(hole) => Ok(Part::Hole(*hole)),
    }
}

/// Equal parts.
pub fn copy_parts(alloc: Global, parts: &[Part]) -> Result<Vec<Part>, NoMemory>
    ensures { IfOk result (λ ps. ps.items ≡ parts.now) }
{
    let mut copies = Vec::with_capacity(alloc, parts.len())?;
    for part in parts {
        copies.push(copy_part(alloc, part)?)?;
    }
    Ok(copies)
}
