//! Why words are no term.
use mau_terms::{Bare, NoMemory};

/// Why some words are not read as a term. A place is that of the first byte of a word in its text, counted from 0: that of the numeral
/// where one is too large, and otherwise that of the first word.
#[derive(Debug, Drop)]
pub enum ParseFault {
    /// The words have no tree.
    NoParse(u32),
    /// They have two different trees, which are these terms. The terms have the variables that the item would have if those of the
    /// first were added and then those of the second.
    Ambiguous(u32, Bare, Bare),
    /// There are more than 1,000 words: so many.
    TooManyTokens(usize),
    /// Where there are numerals, this is the first numeral of 2^128 or more.
    NumberTooLarge(u32),
    /// The one tree has the successor directly over the greatest numeral.
    SuccessorTooLarge(u32),
    /// Memory was wanted and not found.
    NoMemory,
}

impl From<NoMemory> for ParseFault {
    ghost use Rattle.std.specs.Prelude.{◌≡◌};
    ghost use Rattle.mau_parse.specs.declared.fault.ParseFault.TheVariants.{NoMemory};

    ghost from_gives = { λ _ fault. fault ≡ NoMemory };

    fn from(_: NoMemory) -> ParseFault {
        ParseFault::NoMemory
    }
}
