// Why a poset is not made.
use std::alloc::AllocError;

/// Why `Poset::build` made no poset.
#[derive(Clone, Copy, PartialEq, Eq, Debug)]
pub enum PosetFault {
    /// Chains of pairs lead from the first sort to the second and back. The two are the least such sorts, and so one
    /// sort, twice: the least that is on a cycle.
    Cycle(u32, u32),
    /// Memory was wanted and not found.
    NoMemory,
}

impl From<AllocError> for PosetFault {
    ghost use Rattle.std.specs.Prelude.{◌≡◌};
    ghost use Rattle.mau_poset.specs.declared.fault.PosetFault.TheVariants.{NoMemory};

    ghost from_gives = { λ _ fault. fault ≡ NoMemory };

    fn from(_: AllocError) -> PosetFault {
        PosetFault::NoMemory
    }
}
