//! Tokens, and why a text has none.
ghost use Rattle.std.specs.Prelude.{◌≡◌};
ghost use Rattle.mau_tokens.specs.declared.token.TokenFault.TheVariants.{NoMemory as OutOfMemory};

use std::alloc::{AllocError, AllocFailed};

/// A token of a text: the bytes from `start`, which are counted from 0, to just before `end`.
#[derive(Clone, Copy, Debug, PartialEq, Eq)]
pub struct Token {
    /// The place of its first byte.
    pub start: u32,
    /// The place behind its last byte.
    pub end: u32,
}

/// The first fault of a text, with its place in bytes from 0.
#[derive(Clone, Copy, Debug, PartialEq, Eq)]
pub enum TokenFault {
    /// The text is not UTF-8: the bytes before this place are the longest front of it that is.
    NotUtf8(u32),
    /// A comment `***(` or `---(` begins here, and its parenthesis is never closed.
    OpenComment(u32),
    /// A string begins here, and no quote ends it.
    OpenString(u32),
    /// A token of more than 1,024 bytes begins here.
    TokenTooLong(u32),
    /// No memory was left for the tokens.
    NoMemory,
}

impl From<AllocError> for TokenFault {
    ghost from_gives = { λ _ fault. fault ≡ OutOfMemory };

    fn from(_error: AllocError) -> TokenFault {
        TokenFault::NoMemory
    }
}

impl<T: Drop> From<AllocFailed<T>> for TokenFault {
    ghost from_gives = { λ _ fault. fault ≡ OutOfMemory };

    fn from(_error: AllocFailed<T>) -> TokenFault {
        TokenFault::NoMemory
    }
}
