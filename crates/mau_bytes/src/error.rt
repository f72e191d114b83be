//! How a call of this crate can be refused.
ghost use Rattle.std.specs.Prelude.{◌≡◌};
ghost use Rattle.mau_bytes.specs.declared.error.ReadEnd.TheVariants.{Fault};

use std::alloc::{AllocError, AllocFailed};

/// A source or a sink has failed.
#[derive(Clone, Copy, Debug, PartialEq, Eq)]
pub struct Failed;

/// No memory was left.
#[derive(Clone, Copy, Debug, PartialEq, Eq)]
pub struct NoMemory;

impl From<AllocError> for NoMemory {
    fn from(_error: AllocError) -> NoMemory {
        NoMemory
    }
}

impl<T: Drop> From<AllocFailed<T>> for NoMemory {
    fn from(_error: AllocFailed<T>) -> NoMemory {
        NoMemory
    }
}

/// Why a source was not read to its end.
#[derive(Clone, Copy, Debug, PartialEq, Eq)]
pub enum ReadEnd {
    /// A read failed.
    Fault,
    /// More bytes than the limit were there.
    TooLong,
    /// No memory was left for the bytes.
    NoMemory,
}

impl From<Failed> for ReadEnd {
    ghost from_gives = { λ _ e. e ≡ Fault };

    fn from(_error: Failed) -> ReadEnd {
        ReadEnd::Fault
    }
}
