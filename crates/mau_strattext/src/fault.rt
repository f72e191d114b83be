//! Why words are no strategy.

use mau_parse::ParseFault;
use mau_terms::NoMemory;
use std::alloc::{AllocError, AllocFailed};

/// Why words are no strategy. A place is that of the first byte of a word in its text.
#[derive(Debug, Drop)]
pub enum StratFault {
    /// More than 1,000 words: so many.
    TooManyTokens(usize),
    /// The word here is the first with which no strategy goes on, or the last of a strategy that ends too early.
    Unexpected(u32),
    /// The word here names no strategy and no rule, or no sort.
    UnknownName(u32),
    /// The term or the fragment that begins here is none; the fault of its term says why. Never want of memory.
    Parse(u32, ParseFault),
    /// The strategy that is named here takes another number of arguments.
    Arity(u32),
    /// Memory was wanted and not found.
    NoMemory,
}

impl From<NoMemory> for StratFault {
    ghost use Rattle.std.specs.Prelude.{◌≡◌};
    ghost use Rattle.mau_strattext.specs.declared.fault.StratFault.TheVariants.{NoMemory as OutOfMemory};

    ghost from_gives = { λ _ e. e ≡ OutOfMemory };

    fn from(_: NoMemory) -> StratFault {
        StratFault::NoMemory
    }
}

impl From<AllocError> for StratFault {
    ghost use Rattle.std.specs.Prelude.{◌≡◌};
    ghost use Rattle.mau_strattext.specs.declared.fault.StratFault.TheVariants.{NoMemory as OutOfMemory};

    ghost from_gives = { λ _ e. e ≡ OutOfMemory };

    fn from(_: AllocError) -> StratFault {
        StratFault::NoMemory
    }
}

impl<T: Drop> From<AllocFailed<T>> for StratFault {
    ghost use Rattle.std.specs.Prelude.{◌≡◌};
    ghost use Rattle.mau_strattext.specs.declared.fault.StratFault.TheVariants.{NoMemory as OutOfMemory};

    ghost from_gives = { λ _ e. e ≡ OutOfMemory };

    fn from(_: AllocFailed<T>) -> StratFault {
        StratFault::NoMemory
    }
}
