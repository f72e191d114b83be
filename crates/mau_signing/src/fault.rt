//! Why declarations make no signature.

use mau_terms::{NoMemory, Seq};

/// Why declarations make no signature.
#[derive(Drop, Debug)]
pub enum SignFault {
    /// Sorts, a declaration or an operator are at fault: the text of the refusal, behind `refused: `.
    Refused(Seq<u8>),
    NoMemory,
}

impl From<NoMemory> for SignFault {
    ghost use Rattle.std.specs.Prelude.{◌≡◌};
    ghost use Rattle.mau_signing.specs.declared.fault.SignFault.TheVariants.{NoMemory as OutOfMemory};

    ghost from_gives = { λ _ e. e ≡ OutOfMemory };

    fn from(_: NoMemory) -> SignFault {
        SignFault::NoMemory
    }
}
