//! Why a module of a text is not accepted.

use mau_definition::DefinitionFault;
use mau_statement::StatementFault;
use mau_strattext::StratFault;
use mau_terms::{NoMemory, Seq, Text};
use std::alloc::{AllocError, AllocFailed};

/// What a module has too many of.
#[derive(Clone, Copy, Debug, PartialEq, Eq)]
pub enum Limit {
    Sorts,
    Declarations,
    Statements,
}

/// Why a module of a text is not accepted. The faults are tried in this order.
#[derive(Drop, Debug)]
pub enum ModuleFault {
    /// No module has the name.
    UnknownModule(Text),
    /// The imports are deeper than 32.
    ImportTooDeep,
    TooLarge(Limit),
    /// The token at this place names no sort.
    UnknownSort(u32),
    /// Sorts, declarations or operators are at fault: the text of the refusal, behind `refused: `.
    Signed(Seq<u8>),
    /// The fault of a statement. Those of the module itself are counted from 1; 0 is one of a module that it includes.
    Statement(usize, StatementFault),
    /// The call or the strategy of a definition is none, in the statement with this number.
    Strategy(usize, StratFault),
    NoMemory,
}

impl From<NoMemory> for ModuleFault {
    ghost use Rattle.std.specs.Prelude.{◌≡◌};
    ghost use Rattle.mau_module.specs.declared.fault.ModuleFault.TheVariants.{NoMemory as OutOfMemory};

    ghost from_gives = { λ _ e. e ≡ OutOfMemory };

    fn from(_: NoMemory) -> ModuleFault {
        ModuleFault::NoMemory
    }
}

impl From<AllocError> for ModuleFault {
    ghost use Rattle.std.specs.Prelude.{◌≡◌};
    ghost use Rattle.mau_module.specs.declared.fault.ModuleFault.TheVariants.{NoMemory as OutOfMemory};

    ghost from_gives = { λ _ e. e ≡ OutOfMemory };

    fn from(_: AllocError) -> ModuleFault {
        ModuleFault::NoMemory
    }
}

impl<T: Drop> From<AllocFailed<T>> for ModuleFault {
    ghost use Rattle.std.specs.Prelude.{◌≡◌};
    ghost use Rattle.mau_module.specs.declared.fault.ModuleFault.TheVariants.{NoMemory as OutOfMemory};

    ghost from_gives = { λ _ e. e ≡ OutOfMemory };

    fn from(_: AllocFailed<T>) -> ModuleFault {
        ModuleFault::NoMemory
    }
}

impl ModuleFault {
    ghost use Rattle.std.specs.Prelude.{◌≡◌};
    ghost use Rattle.mau_statement.specs.Faults.{IfFault};
    ghost use Rattle.mau_module.specs.Faults.{statement_fault};

    /// The fault of the statement with a number.
    pub fn of_statement(number: usize, fault: StatementFault) -> ModuleFault
        ensures fault { IfFault (λ f. result ≡ ModuleFault.Statement number f) fault }
        ensures memory { fault ≡ StatementFault.NoMemory → result ≡ ModuleFault.NoMemory }
    {
        match fault {
            StatementFault::NoMemory => ModuleFault::NoMemory,
            fault => ModuleFault::Statement(number, fault),
        }
    }

    /// The fault of the module's own statement with a number.
    pub fn of_stated(number: usize, fault: DefinitionFault) -> ModuleFault
        ensures { result ≡ statement_fault number fault }
    {
        match fault {
            DefinitionFault::Statement(fault) => ModuleFault::Statement(number, fault),
            DefinitionFault::Strategy(fault) => ModuleFault::Strategy(number, fault),
            DefinitionFault::NoMemory => ModuleFault::NoMemory,
        }
    }
}
