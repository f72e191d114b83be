//! What an evaluation answers.
ghost use Rattle.std.specs.Prelude.{◌≡◌};

use mau_canon::BuildFault;
use mau_terms::{NoMemory, TermId};
use std::alloc::AllocError;

/// The value of a term, and how many applications led to it, or 2^64 - 1 where there are more.
#[derive(Clone, Copy, Debug, PartialEq, Eq)]
pub struct Reduced {
    pub term: TermId,
    pub rewrites: u64,
}

/// Why an evaluation has no value.
#[derive(Clone, Copy, Debug, PartialEq, Eq)]
pub enum EvalEnd {
    /// An application is due, and the budget is used up.
    Stopped,
    /// A level over 2,000 or a normal form that is deeper than 1,000 is needed.
    TooDeep,
    /// The successor of the greatest numeral is needed, or a native operator overflows.
    Overflow,
    NoMemory,
}

impl From<NoMemory> for EvalEnd {
    ghost use Rattle.mau_api.specs.declared.results.EvalEnd.{EvalEnd};

    ghost from_gives = { λ _ e. e ≡ EvalEnd.NoMemory };

    fn from(_: NoMemory) -> EvalEnd {
        EvalEnd::NoMemory
    }
}

impl From<AllocError> for EvalEnd {
    ghost use Rattle.mau_api.specs.declared.results.EvalEnd.{EvalEnd};

    ghost from_gives = { λ _ e. e ≡ EvalEnd.NoMemory };

    fn from(_: AllocError) -> EvalEnd {
        EvalEnd::NoMemory
    }
}

impl From<BuildFault> for EvalEnd {
    ghost use Rattle.mau_api.specs.Faults.{end_of};

    ghost from_gives = { λ f e. e ≡ end_of f };

    fn from(fault: BuildFault) -> EvalEnd {
        match fault {
            BuildFault::TooDeep => EvalEnd::TooDeep,
            BuildFault::Overflow => EvalEnd::Overflow,
            BuildFault::NoMemory => EvalEnd::NoMemory,
        }
    }
}
