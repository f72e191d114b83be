//! Where bytes come from.
ghost use Rattle.std.specs.Prelude.{◌≡◌, ◌≤◌, ◌<◌, ℕ, List, Option, length, take, IfOk, OnErr};
ghost use Rattle.std.specs.Io.KnownBytes.{prepend_known, IsAtEnd};
ghost use Rattle.mau_bytes.specs.Faults.{Rose};

use crate::Failed;

/// Bytes that come in pieces of any size. A read may fail.
pub trait Source {
    /// The bytes that reads will give from here on, or `None`, which tells nothing.
    ghost left: { Self → Option (List ℕ) };

    /// How often the source has failed. A count that has reached 18446744073709551615 may stand
    /// still.
    ghost faults: { Self → ℕ };

    /// Puts the next bytes into the front of `buf` and answers how many those are, from 0 to the
    /// length of `buf`: 0 only at the end of the input, or where `buf` is empty. `Failed` only where
    /// `faults` rose; then no byte was taken, and the call may be made again.
    fn read(&mut self, buf: &mut [u8]) -> Result<usize, Failed>
        ensures within { IfOk result (λ n. n ≤ length buf.old) }
        ensures taken { IfOk result (λ n.
            left self.old ≡ prepend_known (take n buf.new) (left self.new)) }
        ensures end { IfOk result (λ n. n ≡ 0 → 0 < length buf.old → IsAtEnd (left self.new)) }
        ensures failed { OnErr result (Rose (faults self.old) (faults self.new)) }
        ensures kept { OnErr result (left self.new ≡ left self.old) }
        ensures counted { faults self.old ≤ faults self.new };
}
