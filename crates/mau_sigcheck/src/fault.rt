//! Why a signature is not accepted.

use mau_terms::{NoMemory, OpId, Seq};
use std::alloc::{AllocError, AllocFailed};

/// Why a signature is not accepted: the first operator that is not, with its first fault in the order of these variants; or
/// that memory is used up.
#[derive(Drop, Debug)]
pub enum CheckFault {
    /// The operator has more tuples than the limit: so many, or more where this is the greatest number.
    TooManyTuples(OpId, u64),
    /// The declarations that apply to this tuple, the first such, have no least result.
    NotPreregular(OpId, Seq<u32>),
    /// The two bracketings of this triple, the first such, have not one sort.
    NotAssociativeSorts(OpId, [u32; 3]),
    /// With the identity and a term of this sort, the first such, the operator has a sort strictly below it.
    IdentityLowersSort(OpId, u32),
    NoMemory,
}

impl From<NoMemory> for CheckFault {
    ghost use Rattle.std.specs.Prelude.{◌≡◌};
    ghost use Rattle.mau_sigcheck.specs.declared.fault.CheckFault.TheVariants.{NoMemory};

    ghost from_gives = { λ _ fault. fault ≡ NoMemory };

    fn from(_: NoMemory) -> CheckFault {
        CheckFault::NoMemory
    }
}

impl From<AllocError> for CheckFault {
    ghost use Rattle.std.specs.Prelude.{◌≡◌};
    ghost use Rattle.mau_sigcheck.specs.declared.fault.CheckFault.TheVariants.{NoMemory};

    ghost from_gives = { λ _ fault. fault ≡ NoMemory };

    fn from(_: AllocError) -> CheckFault {
        CheckFault::NoMemory
    }
}

impl<T: Drop> From<AllocFailed<T>> for CheckFault {
    ghost use Rattle.std.specs.Prelude.{◌≡◌};
    ghost use Rattle.mau_sigcheck.specs.declared.fault.CheckFault.TheVariants.{NoMemory};

    ghost from_gives = { λ _ fault. fault ≡ NoMemory };

    fn from(_: AllocFailed<T>) -> CheckFault {
        CheckFault::NoMemory
    }
}
