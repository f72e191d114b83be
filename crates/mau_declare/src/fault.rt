//! Why elements are not read.

use mau_terms::NoMemory;
use std::alloc::{AllocError, AllocFailed};

/// Why elements are not read.
#[derive(Clone, Copy, Debug, PartialEq, Eq)]
pub enum ElementFault {
    /// The token at this place in the text names no sort.
    UnknownSort(u32),
    NoMemory,
}

impl From<NoMemory> for ElementFault {
    ghost use Rattle.std.specs.Prelude.{◌≡◌};
    ghost use Rattle.mau_declare.specs.declared.fault.ElementFault.TheVariants.{NoMemory as OutOfMemory};

    ghost from_gives = { λ _ e. e ≡ OutOfMemory };

    fn from(_: NoMemory) -> ElementFault {
        ElementFault::NoMemory
    }
}

impl From<AllocError> for ElementFault {
    ghost use Rattle.std.specs.Prelude.{◌≡◌};
    ghost use Rattle.mau_declare.specs.declared.fault.ElementFault.TheVariants.{NoMemory as OutOfMemory};

    ghost from_gives = { λ _ e. e ≡ OutOfMemory };

    fn from(_: AllocError) -> ElementFault {
        ElementFault::NoMemory
    }
}

impl<T: Drop> From<AllocFailed<T>> for ElementFault {
    ghost use Rattle.std.specs.Prelude.{◌≡◌};
    ghost use Rattle.mau_declare.specs.declared.fault.ElementFault.TheVariants.{NoMemory as OutOfMemory};

    ghost from_gives = { λ _ e. e ≡ OutOfMemory };

    fn from(_: AllocFailed<T>) -> ElementFault {
        ElementFault::NoMemory
    }
}
