//! Where bytes go.
ghost use Rattle.std.specs.Prelude.{◌≡◌, ◌≤◌, ◌<◌, ℕ, List, Option, length, take, IfOk, OnErr};
ghost use Rattle.std.specs.Io.KnownBytes.{append_known};
ghost use Rattle.mau_bytes.specs.Faults.{Rose};

use crate::Failed;

/// A place for bytes, which takes them in pieces of any size. A write may fail.
pub trait Sink {
    /// The bytes that were written, or `None`, which tells nothing.
    ghost written: { Self → Option (List ℕ) };

    /// How often the sink has failed. A count that has reached 18446744073709551615 may stand
    /// still.
    ghost faults: { Self → ℕ };

    /// Appends the front of `bytes` and answers how many bytes that is: at most the length of `bytes`,
    /// and at least 1 where `bytes` is not empty. `Failed` only where `faults` rose; then nothing was
    /// written, and the call may be made again.
    fn write(&mut self, bytes: &[u8]) -> Result<usize, Failed>
        ensures within { IfOk result (λ n. n ≤ length bytes.now) }
        ensures some { IfOk result (λ n. 0 < length bytes.now → 0 < n) }
        ensures appended { IfOk result (λ n.
            written self.new ≡ append_known (written self.old) (take n bytes.now)) }
        ensures failed { OnErr result (Rose (faults self.old) (faults self.new)) }
        ensures kept { OnErr result (written self.new ≡ written self.old) }
        ensures counted { faults self.old ≤ faults self.new };
}
