//! What stands before the parentheses of a prefix form.
ghost use Rattle.std.specs.Prelude.{◌≡◌, ◌++◌, IfOk, string_bytes};
ghost use Rattle.std.specs.Option.{option_map};
ghost use Rattle.mau_grammar.specs.Parts;

use crate::parts::words_of;
use crate::production::Part;
use mau_signature::{Form, Piece};
use mau_terms::NoMemory;
use std::alloc::Global;

/// Whether the word is one of the characters that are tokens of their own.
pub fn is_special(word: &str) -> bool
    ensures { result ≡ Rattle.mau_grammar.specs.Parts.is_special word.now }
{
    matches!(word, "(" | ")" | "[" | "]" | "{" | "}" | ",")
}

/// The one token that is cut into the pieces of the form, if there is one.
fn prefix_name(alloc: Global, form: &Form) -> Result<Option<String>, NoMemory>
    ensures { IfOk result (λ name. option_map string_bytes name ≡ Rattle.mau_grammar.specs.Parts.prefix_name form.now) }
{
    let mut name = String::new(alloc);
    let mut after_word = false;
    let pieces = form.pieces();
    for piece in pieces {
        match piece {
            Piece::Hole => {
                name.push_str("_")?;
                after_word = false;
            }
            Piece::Word(text) => {
                if is_special(text.as_str()) {
                    name.push_str("`")?;
                    name.push_str(text.as_str())?;
                    after_word = false;
                } else {
                    if after_word {
                        return Ok(None);
                    }
                    name.push_str(text.as_str())?;
                    after_word = true;
                }
            }
        }
    }
    Ok(Some(name))
}

/// What stands before the parentheses, if the form has a prefix form.
pub fn head_of(alloc: Global, form: &Form) -> Result<Option<Vec<Part>>, NoMemory>
    ensures { IfOk result (λ head. option_map (λ ps. ps.items) head ≡ Rattle.mau_grammar.specs.Parts.head_of form.now) }
{
    if form.holes() == 0 {
        return Ok(Some(words_of(alloc, form)?));
    }
    match prefix_name(alloc, form)? {
        None => Ok(None),
        Some(name) => {
            let mut parts = Vec::new(alloc);
            parts.push(Part::word(alloc, name.as_str())?)?;
            Ok(Some(parts))
        }
    }
}
