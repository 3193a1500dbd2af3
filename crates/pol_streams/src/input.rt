//! What bytes are read from.
ghost use Rattle.std.specs.Prelude.{◌≡◌, ◌<◌, ◌≤◌, ℕ, List, Option, length, take, IfOk, OnErr, IsErr};
ghost use Rattle.std.specs.Io.KnownBytes.{Consumes, IsAtEnd, Keeps};
ghost use Rattle.pol_streams.specs.Faults.{Rose};

use crate::Failed;

/// What bytes are read from, once each, from the first to the last (profile).
pub trait Source {
    /// The bytes that are left, where the source tells them.
    ghost left: { Self → Option (List ℕ) };

    /// How many faults it has had. It never falls, and stands still at the end of a `u64`.
    ghost faults: { Self → ℕ };

    /// Moves bytes from the front of those that are left to the front of `into`, and answers how many.
    /// It answers 0 only at the end, and `Failed` only at a fault, with nothing moved. What stands in `into`
    /// behind them is open.
    fn read(&mut self, into: &mut [u8]) -> Result<usize, Failed>
        requires { 0 < length into.old }
        ensures bound { IfOk result (λ n. n ≤ length into.new) }
        ensures moved { IfOk result (λ n.
            Consumes (left self.old) (left self.new) (take n into.new)) }
        ensures end { IfOk result (λ n. n ≡ 0 → IsAtEnd (left self.new)) }
        ensures kept { OnErr result (Keeps (left self.old) (left self.new)) }
        ensures failed { IsErr result → Rose (faults self.old) (faults self.new) }
        ensures never_falls { faults self.old ≤ faults self.new };
}
