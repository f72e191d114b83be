//! Why bytes are no document.
ghost use Rattle.std.specs.Prelude.{◌≡◌};
ghost use Rattle.mau_facts.specs.FaultLines.{fault_at};

use mau_terms::NoMemory;
use std::alloc::{AllocError, AllocFailed};

/// Why bytes are no document. A fault names the first line that no document has there, counted from 1.
#[derive(Clone, Copy, PartialEq, Eq, Debug)]
pub enum FactFault {
    /// The line is none that may stand there.
    Unexpected(u64),
    /// It would be one with other numbers.
    BadNumber(u64),
    NoMemory,
}

impl From<AllocError> for FactFault {
    ghost use Rattle.std.specs.Prelude.{◌≡◌};
    ghost use Rattle.mau_facts.specs.declared.fault.FactFault.TheVariants.{NoMemory as Wanting};

    ghost from_gives = { λ _ e. e ≡ Wanting };

    fn from(_: AllocError) -> FactFault {
        FactFault::NoMemory
    }
}

/// What is wrong with a line.
#[derive(Clone, Copy, PartialEq, Eq, Debug)]
pub enum LineFault {
    Unexpected,
    BadNumber,
}

impl LineFault {
    /// This fault of a line with a number.
    pub fn at(self, line: u64) -> FactFault
        ensures { result ≡ fault_at line self }
    {
        match self {
            LineFault::Unexpected => FactFault::Unexpected(line),
            LineFault::BadNumber => FactFault::BadNumber(line),
        }
    }
}

/// Where the lines of sections are read no further.
#[derive(Drop, Debug)]
pub enum Stop {
    /// In front of the byte at a place.
    At(usize, LineFault),
    NoMemory,
}

impl From<NoMemory> for Stop {
    ghost use Rattle.std.specs.Prelude.{◌≡◌};
    ghost use Rattle.mau_facts.specs.declared.fault.Stop.TheVariants.{NoMemory as Wanting};

    ghost from_gives = { λ _ e. e ≡ Wanting };

    fn from(_: NoMemory) -> Stop {
        Stop::NoMemory
    }
}

/// Why a line was not read.
#[derive(Drop, Debug)]
pub enum LineError {
    Fault(LineFault),
    NoMemory,
}

impl From<NoMemory> for LineError {
    ghost use Rattle.std.specs.Prelude.{◌≡◌};
    ghost use Rattle.mau_facts.specs.declared.fault.LineError.TheVariants.{NoMemory as Wanting};

    ghost from_gives = { λ _ e. e ≡ Wanting };

    fn from(_: NoMemory) -> LineError {
        LineError::NoMemory
    }
}

impl From<AllocError> for LineError {
    ghost use Rattle.std.specs.Prelude.{◌≡◌};
    ghost use Rattle.mau_facts.specs.declared.fault.LineError.TheVariants.{NoMemory as Wanting};

    ghost from_gives = { λ _ e. e ≡ Wanting };

    fn from(_: AllocError) -> LineError {
        LineError::NoMemory
    }
}

impl<T: Drop> From<AllocFailed<T>> for LineError {
    ghost use Rattle.std.specs.Prelude.{◌≡◌};
    ghost use Rattle.mau_facts.specs.declared.fault.LineError.TheVariants.{NoMemory as Wanting};

    ghost from_gives = { λ _ e. e ≡ Wanting };

    fn from(_: AllocFailed<T>) -> LineError {
        LineError::NoMemory
    }
}
