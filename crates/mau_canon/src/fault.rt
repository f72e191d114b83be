//! Why a term is not built.
ghost use Rattle.std.specs.Prelude.{◌≡◌};

use mau_terms::NoMemory;
use std::alloc::AllocError;

/// Why a term is not built: its normal form is deeper than 1,000, or else it holds the successor of the greatest numeral, or
/// memory is wanting.
#[derive(Clone, Copy, PartialEq, Eq, Debug)]
pub enum BuildFault {
    TooDeep,
    Overflow,
    NoMemory,
}

impl From<NoMemory> for BuildFault {
    ghost use Rattle.mau_canon.specs.declared.fault.BuildFault.{BuildFault};

    ghost from_gives = { λ _ f. f ≡ BuildFault.NoMemory };

    fn from(_: NoMemory) -> BuildFault {
        BuildFault::NoMemory
    }
}

impl From<AllocError> for BuildFault {
    ghost use Rattle.mau_canon.specs.declared.fault.BuildFault.{BuildFault};

    ghost from_gives = { λ _ f. f ≡ BuildFault.NoMemory };

    fn from(_: AllocError) -> BuildFault {
        BuildFault::NoMemory
    }
}
