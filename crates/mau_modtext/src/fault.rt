//! Why words don't read.
ghost use Rattle.std.specs.Prelude.{◌≡◌, Ok, Err};
ghost use Rattle.mau_modtext.specs.Faults;
ghost use Rattle.mau_modtext.specs.Faults.{OrFault, Reads};

use mau_terms::NoMemory;
use std::alloc::{AllocError, AllocFailed};

/// A form that this reader knows by its name alone.
#[derive(Clone, Copy, Debug, PartialEq, Eq)]
pub enum Feature {
    Load,
    In,
    View,
    Fth,
    Th,
    Sth,
    Search,
    Srewrite,
    Srew,
    Unify,
    Narrow,
    Omod,
    Show,
    SetInclude,
    SetProtect,
    SetExtend,
    Idem,
    Iter,
    Poly,
    Special,
    Config,
    Object,
    Msg,
    Portal,
    Pconst,
    LeftId,
    RightId,
    Print,
    Variant,
}

impl Feature {
    ghost use Rattle.std.specs.Prelude.{◌≡◌};
    ghost use Rattle.mau_modtext.specs.Features.{name_of};

    /// Its name.
    pub fn name(self) -> &'static str
        ensures { result.now ≡ name_of self }
    {
        match self {
            Feature::Load => "load",
            Feature::In => "in",
            Feature::View => "view",
            Feature::Fth => "fth",
            Feature::Th => "th",
            Feature::Sth => "sth",
            Feature::Search => "search",
            Feature::Srewrite => "srewrite",
            Feature::Srew => "srew",
            Feature::Unify => "unify",
            Feature::Narrow => "narrow",
            Feature::Omod => "omod",
            Feature::Show => "show",
            Feature::SetInclude => "set include",
            Feature::SetProtect => "set protect",
            Feature::SetExtend => "set extend",
            Feature::Idem => "idem",
            Feature::Iter => "iter",
            Feature::Poly => "poly",
            Feature::Special => "special",
            Feature::Config => "config",
            Feature::Object => "object",
            Feature::Msg => "msg",
            Feature::Portal => "portal",
            Feature::Pconst => "pconst",
            Feature::LeftId => "left id:",
            Feature::RightId => "right id:",
            Feature::Print => "print",
            Feature::Variant => "variant",
        }
    }
}

/// Why words don't read, with a place in the text.
#[derive(Clone, Copy, Debug, PartialEq, Eq)]
pub enum Fault {
    /// The word here leaves the grammar.
    Unexpected(u32),
    /// A form that is known by its name alone begins here.
    Unsupported(Feature, u32),
}

/// Why words were not read.
#[derive(Clone, Copy, Debug, PartialEq, Eq)]
pub enum ReadFault {
    Fault(Fault),
    NoMemory,
}

impl From<NoMemory> for ReadFault {
    ghost use Rattle.std.specs.Prelude.{◌≡◌};
    ghost use Rattle.mau_modtext.specs.declared.fault.ReadFault.TheVariants.{NoMemory as OutOfMemory};

    ghost from_gives = { λ _ e. e ≡ OutOfMemory };

    fn from(_: NoMemory) -> ReadFault {
        ReadFault::NoMemory
    }
}

impl From<AllocError> for ReadFault {
    ghost use Rattle.std.specs.Prelude.{◌≡◌};
    ghost use Rattle.mau_modtext.specs.declared.fault.ReadFault.TheVariants.{NoMemory as OutOfMemory};

    ghost from_gives = { λ _ e. e ≡ OutOfMemory };

    fn from(_: AllocError) -> ReadFault {
        ReadFault::NoMemory
    }
}

impl<T: Drop> From<AllocFailed<T>> for ReadFault {
    ghost use Rattle.std.specs.Prelude.{◌≡◌};
    ghost use Rattle.mau_modtext.specs.declared.fault.ReadFault.TheVariants.{NoMemory as OutOfMemory};

    ghost from_gives = { λ _ e. e ≡ OutOfMemory };

    fn from(_: AllocFailed<T>) -> ReadFault {
        ReadFault::NoMemory
    }
}

/// The place of a fault.
fn fault_place(fault: Fault) -> u32
    ensures { result ≡ Faults.fault_place fault }
{
    match fault {
        Fault::Unexpected(at) | Fault::Unsupported(_, at) => at,
    }
}

/// The fault at the lesser place.
fn earlier(first: Fault, second: Fault) -> Fault
    ensures { result ≡ Faults.earlier first second }
{
    if fault_place(second) < fault_place(first) {
        second
    } else {
        first
    }
}

/// Two readings side by side: of two faults the earlier is named.
pub fn both<X: Drop, Y: Drop>(
    first: Result<X, ReadFault>,
    second: Result<Y, ReadFault>,
) -> Result<(X, Y), ReadFault>
    ensures { (r : OrFault X) → (s : OrFault Y) → Reads first r → Reads second s → Reads result (Faults.both r s) }
{
    match first {
        Ok(x) => match second {
            Ok(y) => Ok((x, y)),
            Err(fault) => Err(fault),
        },
        Err(ReadFault::NoMemory) => Err(ReadFault::NoMemory),
        Err(ReadFault::Fault(fault)) => match second {
            Ok(_y) => Err(ReadFault::Fault(fault)),
            Err(ReadFault::NoMemory) => Err(ReadFault::NoMemory),
            Err(ReadFault::Fault(other)) => Err(ReadFault::Fault(earlier(fault, other))),
        },
    }
}
