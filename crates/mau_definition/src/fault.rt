//! Why a definition of a strategy is none.
ghost use Rattle.std.specs.Prelude.{◌≡◌};
ghost use Rattle.mau_definition.specs.Faults;

use mau_statement::StatementFault;
use mau_strattext::StratFault;
use mau_terms::NoMemory;
use std::alloc::{AllocError, AllocFailed};

/// Why a definition of a strategy is none.
#[derive(Debug, Drop)]
pub enum DefinitionFault {
    /// Its condition, a limit, or a variable is at fault, as in other statements. Never want of memory.
    Statement(StatementFault),
    /// The call that it defines, or its strategy, is none. Never want of memory.
    Strategy(StratFault),
    /// Memory was wanted and not found.
    NoMemory,
}

impl From<NoMemory> for DefinitionFault {
    ghost use Rattle.std.specs.Prelude.{◌≡◌};
    ghost use Rattle.mau_definition.specs.declared.fault.DefinitionFault.TheVariants.{NoMemory as OutOfMemory};

    ghost from_gives = { λ _ e. e ≡ OutOfMemory };

    fn from(_: NoMemory) -> DefinitionFault {
        DefinitionFault::NoMemory
    }
}

impl From<AllocError> for DefinitionFault {
    ghost use Rattle.std.specs.Prelude.{◌≡◌};
    ghost use Rattle.mau_definition.specs.declared.fault.DefinitionFault.TheVariants.{NoMemory as OutOfMemory};

    ghost from_gives = { λ _ e. e ≡ OutOfMemory };

    fn from(_: AllocError) -> DefinitionFault {
        DefinitionFault::NoMemory
    }
}

impl<T: Drop> From<AllocFailed<T>> for DefinitionFault {
    ghost use Rattle.std.specs.Prelude.{◌≡◌};
    ghost use Rattle.mau_definition.specs.declared.fault.DefinitionFault.TheVariants.{NoMemory as OutOfMemory};

    ghost from_gives = { λ _ e. e ≡ OutOfMemory };

    fn from(_: AllocFailed<T>) -> DefinitionFault {
        DefinitionFault::NoMemory
    }
}

/// The fault of a condition, as one of a definition.
pub fn of_statement(fault: StatementFault) -> DefinitionFault
    ensures { result ≡ Faults.of_statement fault }
{
    match fault {
        StatementFault::NoMemory => DefinitionFault::NoMemory,
        fault => DefinitionFault::Statement(fault),
    }
}

/// The fault of a strategy, as one of a definition.
pub fn of_strategy(fault: StratFault) -> DefinitionFault
    ensures { result ≡ Faults.of_strategy fault }
{
    match fault {
        StratFault::NoMemory => DefinitionFault::NoMemory,
        fault => DefinitionFault::Strategy(fault),
    }
}

/// Whether memory was wanted for a strategy.
pub fn is_memory_of_strategy(fault: &StratFault) -> bool
    ensures { result ≡ Faults.is_memory_of_strategy fault.now }
{
    match fault {
        StratFault::NoMemory => true,
        _ => false,
    }
}

/// Whether memory was wanted.
pub fn is_memory(fault: &DefinitionFault) -> bool
    ensures { result ≡ Faults.is_memory fault.now }
{
    match fault {
        DefinitionFault::NoMemory => true,
        _ => false,
    }
}
