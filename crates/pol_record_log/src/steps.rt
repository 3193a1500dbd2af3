//! The steps of a log.
ghost use Rattle.std.specs.Prelude.{◌≡◌, ◌+◌, ◌<◌, ◌≤◌, ℕ, List, [], ◌∷◌, ◌++◌, length, take, IsErr, OnOk};
ghost use Rattle.pol_streams.specs.Faults.{Rose};
ghost use Rattle.pol_disk.specs.Calls.{Makes};
ghost use Rattle.pol_disk.specs.Images.{LeavesOnly, Only};
ghost use Rattle.pol_record_log.specs.Steps.{EndsClosed, IsAppended, IsOnDisk, before_gate, calls_later, calls_of_append, calls_of_start};

use crate::write_synced;
use pol_disk::Disk;
use pol_streams::Failed;

/// A closed gate.
const CLOSED: u8 = 0;
/// The gate that is written where one is opened.
const OPEN: u8 = 1;

/// Makes an empty log of at most one byte, by two calls. `Failed` comes only at a fault.
pub fn start<D: Disk>(disk: &mut D) -> Result<(), Failed>
    requires short { length (D.seen disk.old) ≤ 1 }
    requires settled { Only (D.seen disk.old) (D.may_leave disk.old) }
    ensures ok { OnOk result (IsOnDisk D.seen D.may_leave disk.new (0 ∷ [])) }
    ensures any_moment { LeavesOnly D.moment D.left_since disk.old disk.new (λ c. length c ≤ 1) }

    // The calls, and the counts.
    ensures calls { Makes D.does D.fails calls_of_start disk.old result disk.new }
    ensures clock { OnOk result (D.clock disk.new ≡ calls_later 2 (D.clock disk.old)) }
    ensures failed { IsErr result → Rose (D.faults disk.old) (D.faults disk.new) }
    ensures never_falls { D.faults disk.old ≤ D.faults disk.new }
{
    write_synced(disk, 0, &[CLOSED])?;
    Ok(())
}

/// Puts a record behind the closed gate at the end of the bytes, by four calls: it is written with the closed gate behind it and
/// synced, and then the gate before it is opened and synced. `Failed` comes only at a fault.
pub fn append<D: Disk>(disk: &mut D, behind: &[u8]) -> Result<(), Failed>
    requires closed { EndsClosed (D.seen disk.old) }
    requires some { 0 < length behind.now }
    requires settled { Only (D.seen disk.old) (D.may_leave disk.old) }
    ensures ok { OnOk result (IsOnDisk D.seen D.may_leave disk.new (before_gate (D.seen disk.old) ++ 1 ∷ behind.now)) }

    // A crash at any moment leaves what was there before the gate, and then a closed gate or the whole record.
    ensures any_moment { LeavesOnly D.moment D.left_since disk.old disk.new
        (IsAppended (before_gate (D.seen disk.old)) behind.now) }

    // The calls, and the counts.
    ensures calls { Makes D.does D.fails
        (calls_of_append (length (D.seen disk.old)) behind.now) disk.old result disk.new }
    ensures clock { OnOk result (D.clock disk.new ≡ calls_later 4 (D.clock disk.old)) }
    ensures failed { IsErr result → Rose (D.faults disk.old) (D.faults disk.new) }
    ensures never_falls { D.faults disk.old ≤ D.faults disk.new }
{
    let end = disk.len();
    write_synced(disk, end, behind)?;
    write_synced(disk, end - 1, &[OPEN])?;
    Ok(())
}
