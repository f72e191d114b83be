//! Why there is no signature of some declarations.

use mau_terms::NoMemory;
use std::alloc::{AllocError, AllocFailed};

/// Why there is no signature: the first declaration at fault, counted from 0, with its first fault in the order `Arity`,
/// `KindMismatch`, `AttrConflict`, `BadStrat`, `IdNotConstant`; or that memory is used up.
#[derive(Clone, Copy, PartialEq, Eq, Debug)]
pub enum SigFault {
    /// An earlier declaration of the operator has a result in another kind.
    KindMismatch(u32),
    /// Two values of one attribute, or an attribute that does not suit the arguments.
    AttrConflict(u32),
    /// The strategy is not a list of distinct arguments and a last 0, or names one of two arguments of an associative operator.
    BadStrat(u32),
    /// The identity is no constant of the operator's kind, or a numeral where that kind has none.
    IdNotConstant(u32),
    /// More than 16 arguments, or holes in another number.
    Arity(u32),
    NoMemory,
}

impl From<NoMemory> for SigFault {
    ghost use Rattle.std.specs.Prelude.{◌≡◌};
    ghost use Rattle.mau_signature.specs.declared.fault.SigFault.TheVariants.{NoMemory};

    ghost from_gives = { λ _ fault. fault ≡ NoMemory };

    fn from(_: NoMemory) -> SigFault {
        SigFault::NoMemory
    }
}

impl From<AllocError> for SigFault {
    ghost use Rattle.std.specs.Prelude.{◌≡◌};
    ghost use Rattle.mau_signature.specs.declared.fault.SigFault.TheVariants.{NoMemory};

    ghost from_gives = { λ _ fault. fault ≡ NoMemory };

    fn from(_: AllocError) -> SigFault {
        SigFault::NoMemory
    }
}

impl<T: Drop> From<AllocFailed<T>> for SigFault {
    ghost use Rattle.std.specs.Prelude.{◌≡◌};
    ghost use Rattle.mau_signature.specs.declared.fault.SigFault.TheVariants.{NoMemory};

    ghost from_gives = { λ _ fault. fault ≡ NoMemory };

    fn from(_: AllocFailed<T>) -> SigFault {
        SigFault::NoMemory
    }
}
