//! What bytes are written to.
ghost use Rattle.std.specs.Prelude.{◌<◌, ◌≤◌, ℕ, List, Option, length, take, IfOk, OnErr, IsErr};
ghost use Rattle.std.specs.Io.KnownBytes.{Appends, Keeps};
ghost use Rattle.pol_streams.specs.Faults.{Rose};

use crate::Failed;

/// What bytes are written to, each behind those before it (profile).
pub trait Sink {
    /// The bytes that were written, where the sink tells them.
    ghost written: { Self → Option (List ℕ) };

    /// How many faults it has had. It never falls, and stands still at the end of a `u64`.
    ghost faults: { Self → ℕ };

    /// Appends bytes from the front of `bytes`, one at least, and answers how many.
    /// It answers `Failed` only at a fault, with nothing appended.
    fn write(&mut self, bytes: &[u8]) -> Result<usize, Failed>
        requires { 0 < length bytes.now }
        ensures some { IfOk result (λ n. 0 < n) }
        ensures bound { IfOk result (λ n. n ≤ length bytes.now) }
        ensures appended { IfOk result (λ n.
            Appends (written self.old) (written self.new) (take n bytes.now)) }
        ensures kept { OnErr result (Keeps (written self.old) (written self.new)) }
        ensures failed { IsErr result → Rose (faults self.old) (faults self.new) }
        ensures never_falls { faults self.old ≤ faults self.new };
}
