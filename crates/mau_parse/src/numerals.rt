//! Numerals among words.
ghost use Rattle.std.specs.Prelude.{◌<◌, ◌↔◌, ℕ, IsTrue, length, IfSome, IfNone};
ghost use Rattle.mau_parse.specs.TooLarge.{IsTooLarge, IsFirstTooLarge};

use crate::words::Words;
use mau_numerals::{great_number, is_numeral};

/// Whether the word is a numeral of 2^128 or more.
fn is_too_large(words: &Words, i: usize) -> bool
    requires { i < length words.now }
    ensures { IsTrue result ↔ IsTooLarge words.now i }
{
    let bytes = words.text(i).as_bytes();
    is_numeral(bytes) && great_number(bytes).is_none()
}

/// The place of the first word that is a numeral of 2^128 or more.
pub fn first_too_large(words: &Words) -> Option<usize>
    ensures some { IfSome result (IsFirstTooLarge words.now) }
    ensures none { IfNone result ((i : ℕ) → IsTooLarge words.now i → ⊥) }
{
    for i in 0..words.len() {
        if is_too_large(words, i) {
            return Some(i);
        }
    }
    None
}
