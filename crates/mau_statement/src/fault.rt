//! Why a text is no statement.

use mau_parse::ParseFault;
use mau_terms::NoMemory;
use std::alloc::{AllocError, AllocFailed};

/// What a statement has too many of.
#[derive(Clone, Copy, Debug, PartialEq, Eq)]
pub enum Limit {
    Variables,
    Fragments,
}

/// Why a text is no statement.
#[derive(Debug, Drop)]
pub enum StatementFault {
    /// More variables or fragments than a statement may have.
    LimitExceeded(Limit),
    /// A part is no term. Never want of memory.
    Parse(ParseFault),
    /// The token here should name a sort.
    UnknownSort(u32),
    /// The left side of an equation is a variable by its axioms.
    LhsVariable,
    /// The head of a membership is none.
    MembershipHead,
    /// A variable is used that nothing before it binds.
    UnboundVariable,
    /// Memory was wanted and not found.
    NoMemory,
}

impl From<ParseFault> for StatementFault {
    ghost use Rattle.std.specs.Prelude.{◌≡◌};
    ghost use Rattle.mau_statement.specs.Faults.{fault_of};

    ghost from_gives = { λ f e. e ≡ fault_of f };

    fn from(fault: ParseFault) -> StatementFault {
        match fault {
            ParseFault::NoMemory => StatementFault::NoMemory,
            other => StatementFault::Parse(other),
        }
    }
}

impl From<NoMemory> for StatementFault {
    ghost use Rattle.std.specs.Prelude.{◌≡◌};
    ghost use Rattle.mau_statement.specs.declared.fault.StatementFault.TheVariants.{NoMemory as OutOfMemory};

    ghost from_gives = { λ _ e. e ≡ OutOfMemory };

    fn from(_: NoMemory) -> StatementFault {
        StatementFault::NoMemory
    }
}

impl From<AllocError> for StatementFault {
    ghost use Rattle.std.specs.Prelude.{◌≡◌};
    ghost use Rattle.mau_statement.specs.declared.fault.StatementFault.TheVariants.{NoMemory as OutOfMemory};

    ghost from_gives = { λ _ e. e ≡ OutOfMemory };

    fn from(_: AllocError) -> StatementFault {
        StatementFault::NoMemory
    }
}

impl<T: Drop> From<AllocFailed<T>> for StatementFault {
    ghost use Rattle.std.specs.Prelude.{◌≡◌};
    ghost use Rattle.mau_statement.specs.declared.fault.StatementFault.TheVariants.{NoMemory as OutOfMemory};

    ghost from_gives = { λ _ e. e ≡ OutOfMemory };

    fn from(_: AllocFailed<T>) -> StatementFault {
        StatementFault::NoMemory
    }
}
