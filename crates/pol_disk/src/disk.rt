//! The trait.
ghost use Rattle.std.specs.Prelude.{◌≡◌, ◌+◌, ◌^◌, ◌<◌, ◌≤◌, ℕ, List, drop, length, take, IsErr, OnErr, OnOk};
ghost use Rattle.pol_streams.specs.Faults.{Rose, next_count};
ghost use Rattle.pol_disk.specs.Calls.{Asked, Reads, Writes, Cuts, Syncs};
ghost use Rattle.pol_disk.specs.Images.{CutShort, Elapses, Follows, Only, Torn, overwritten};

use pol_streams::Failed;

/// One file whose bytes are read and written at places, counted from 0 (profile). An image is what the file holds after a crash.
pub trait Disk {
    /// The bytes that a read gives.
    ghost seen: { Self → List ℕ };

    /// The images that a crash now may leave.
    ghost may_leave: { Self → List ℕ → Type 0 };

    /// The moment, as a number that doesn't fall.
    ghost moment: { Self → ℕ };

    /// The images that a crash at some moment since that one may have left, during a call or between two.
    ghost left_since: { Self → ℕ → List ℕ → Type 0 };

    /// How many calls of `read`, `write_at`, `cut` and `sync` there were. It stands still at the end of a `u64`.
    ghost clock: { Self → ℕ };

    /// How many faults it has had. It never falls, and stands still at the end of a `u64`.
    ghost faults: { Self → ℕ };

    /// The call leads from the one state to the other, and does what it should.
    ghost does: { Self → Asked → Self → Type 0 };

    /// The call leads from the one state to the other, and fails.
    ghost fails: { Self → Asked → Self → Type 0 };

    /// How many bytes there are.
    fn len(&self) -> u64
        ensures { result ≡ length (seen self.now) };

    /// Reads the bytes from `at` on. After `Failed`, which comes only at a fault, `into` is open.
    fn read(&mut self, at: u64, into: &mut [u8]) -> Result<(), Failed>
        requires { at + length into.old ≤ length (seen self.old) }
        ensures read { OnOk result (into.new ≡ take (length into.old) (drop at (seen self.old))) }
        ensures same { OnOk result (seen self.new ≡ seen self.old) }
        ensures does { OnOk result (does self.old (Reads at (length into.old)) self.new) }
        ensures fails { OnErr result (fails self.old (Reads at (length into.old)) self.new) }

        // What a crash may leave, since when, and the counts.
        ensures crash { (c : List ℕ) → may_leave self.new c → may_leave self.old c }
        ensures time { Elapses (moment self.old)
            (moment self.new) (left_since self.old) (left_since self.new) (may_leave self.new) }
        ensures counted { clock self.new ≡ next_count (clock self.old) }
        ensures failed { IsErr result → Rose (faults self.old) (faults self.new) }
        ensures never_falls { faults self.old ≤ faults self.new };

    /// Writes over the bytes from `at` on, and past the end. Until a sync a crash may leave any bytes there, and past the old end
    /// any of any length up to the new one. `Failed` comes only at a fault, and always where the write would end past byte 2^63.
    fn write_at(&mut self, at: u64, bytes: &[u8]) -> Result<(), Failed>
        requires place { at ≤ length (seen self.old) }
        requires some { 0 < length bytes.now }
        ensures written { OnOk result (seen self.new ≡ overwritten (seen self.old) at bytes.now) }
        ensures too_far { 2 ^ 63 < at + length bytes.now → IsErr result }
        ensures does { OnOk result (does self.old (Writes at bytes.now) self.new) }
        ensures fails { OnErr result (fails self.old (Writes at bytes.now) self.new) }

        // What a crash may leave, since when, and the counts.
        ensures crash { Follows (Torn at (length bytes.now)) (may_leave self.old) (may_leave self.new) }
        ensures time { Elapses (moment self.old)
            (moment self.new) (left_since self.old) (left_since self.new) (may_leave self.new) }
        ensures counted { clock self.new ≡ next_count (clock self.old) }
        ensures failed { IsErr result → Rose (faults self.old) (faults self.new) }
        ensures never_falls { faults self.old ≤ faults self.new };

    /// Cuts the bytes to this length. Until a sync a crash may leave the old length or the new one. `Failed` comes only at a fault.
    fn cut(&mut self, len: u64) -> Result<(), Failed>
        requires { len ≤ length (seen self.old) }
        ensures cut { OnOk result (seen self.new ≡ take len (seen self.old)) }
        ensures does { OnOk result (does self.old (Cuts len) self.new) }
        ensures fails { OnErr result (fails self.old (Cuts len) self.new) }

        // What a crash may leave, since when, and the counts.
        ensures crash { Follows (CutShort len) (may_leave self.old) (may_leave self.new) }
        ensures time { Elapses (moment self.old)
            (moment self.new) (left_since self.old) (left_since self.new) (may_leave self.new) }
        ensures counted { clock self.new ≡ next_count (clock self.old) }
        ensures failed { IsErr result → Rose (faults self.old) (faults self.new) }
        ensures never_falls { faults self.old ≤ faults self.new };

    /// After `Ok` a crash leaves what a read gives. `Failed` comes only at a fault.
    fn sync(&mut self) -> Result<(), Failed>
        ensures same { OnOk result (seen self.new ≡ seen self.old) }
        ensures durable { OnOk result (Only (seen self.new) (may_leave self.new)) }
        ensures does { OnOk result (does self.old Syncs self.new) }
        ensures fails { OnErr result (fails self.old Syncs self.new) }

        // What a crash may leave, since when, and the counts.
        ensures crash { (c : List ℕ) → may_leave self.new c → may_leave self.old c }
        ensures time { Elapses (moment self.old)
            (moment self.new) (left_since self.old) (left_since self.new) (may_leave self.new) }
        ensures counted { clock self.new ≡ next_count (clock self.old) }
        ensures failed { IsErr result → Rose (faults self.old) (faults self.new) }
        ensures never_falls { faults self.old ≤ faults self.new };

    /// A process that dies leaves what it had written, so that is one of the images.
    ghost seen_may_stay: { (disk : Self) → may_leave disk (seen disk) };

    /// This moment is one of those since an earlier one.
    ghost counts_now: { (disk : Self) (t : ℕ) (c : List ℕ) → t ≤ moment disk → may_leave disk c → left_since disk t c };

    /// Since this moment there is no other.
    ghost only_now: { (disk : Self) (c : List ℕ) → left_since disk (moment disk) c → may_leave disk c };
}
