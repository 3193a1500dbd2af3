//! A call of a disk and the sync behind it, with all that a crash may leave meanwhile.
ghost use Rattle.std.specs.Prelude.{◌≡◌, ◌+◌, ◌<◌, ◌≤◌, ℕ, List, [], ◌∷◌, length, take, IfOk, IsErr, IsErrOf, OnErr, OnOk};
ghost use Rattle.pol_streams.specs.Faults.{Rose};
ghost use Rattle.pol_disk.specs.Calls.{Makes, Runs, StopsIn, Reads, Writes, Cuts, Syncs};
ghost use Rattle.pol_disk.specs.Images.{CutShort, LeavesOnly, Only, Torn, overwritten};
ghost use Rattle.pol_record_log.specs.Steps.{IsOnDisk, calls_later};
ghost use Rattle.pol_record_log.specs.declared.synced.ReadError.TheVariants as errors;

use pol_disk::Disk;
use pol_streams::Failed;
use std::alloc::{AllocError, Global};
use thiserror::Error;

/// Why the bytes of a disk weren't read.
#[derive(Clone, Copy, Debug, PartialEq, Eq, Error)]
pub enum ReadError {
    /// A call of the disk failed.
    #[error("a call of the disk failed")]
    Disk,
    /// Memory was refused.
    #[error("out of memory")]
    Memory,
}

impl From<Failed> for ReadError {
    ghost from_gives = { λ _ e. e ≡ errors.Disk };

    fn from(_: Failed) -> ReadError {
        ReadError::Disk
    }
}

impl From<AllocError> for ReadError {
    ghost from_gives = { λ _ e. e ≡ errors.Memory };

    fn from(_: AllocError) -> ReadError {
        ReadError::Memory
    }
}

/// What is read is on the disk. `Failed` comes only at a fault.
pub fn sync<D: Disk>(disk: &mut D) -> Result<(), Failed>
    ensures ok { OnOk result (IsOnDisk D.seen D.may_leave disk.new (D.seen disk.old)) }
    ensures any_moment { LeavesOnly D.moment D.left_since disk.old disk.new (D.may_leave disk.old) }

    // The calls, and the counts.
    ensures calls { Makes D.does D.fails (Syncs ∷ []) disk.old result disk.new }
    ensures clock { D.clock disk.new ≡ calls_later 1 (D.clock disk.old) }
    ensures failed { IsErr result → Rose (D.faults disk.old) (D.faults disk.new) }
    ensures never_falls { D.faults disk.old ≤ D.faults disk.new }
{
    disk.sync()?;
    Ok(())
}

/// All bytes, which are on the disk. `Disk` comes only at a fault.
pub fn read_bytes<D: Disk>(alloc: Global, disk: &mut D) -> Result<Vec<u8>, ReadError>
    ensures read { IfOk result (λ bytes. bytes.items ≡ D.seen disk.old) }
    ensures same { OnOk result (D.seen disk.new ≡ D.seen disk.old) }
    ensures crash { (c : List ℕ) → D.may_leave disk.new c → D.may_leave disk.old c }
    ensures any_moment { LeavesOnly D.moment D.left_since disk.old disk.new (D.may_leave disk.old) }

    // The calls, and the counts.
    ensures calls { OnOk result (Runs D.does D.fails disk.old (Reads 0 (length (D.seen disk.old)) ∷ []) disk.new) }
    ensures stops { IsErrOf result ReadError.Disk
        → StopsIn D.does D.fails disk.old (Reads 0 (length (D.seen disk.old)) ∷ []) disk.new }
    ensures untouched { IsErrOf result ReadError.Memory → disk.new ≡ disk.old }
    ensures failed { IsErrOf result ReadError.Disk → Rose (D.faults disk.old) (D.faults disk.new) }
    ensures never_falls { D.faults disk.old ≤ D.faults disk.new }
{
    let mut bytes = vec![in alloc; 0; disk.len() as usize]?;
    disk.read(0, bytes.as_mut_slice())?;
    Ok(bytes)
}

/// Writes these bytes and syncs. `Failed` comes only at a fault.
pub fn write_synced<D: Disk>(disk: &mut D, at: u64, bytes: &[u8]) -> Result<(), Failed>
    requires place { at ≤ length (D.seen disk.old) }
    requires some { 0 < length bytes.now }
    requires settled { Only (D.seen disk.old) (D.may_leave disk.old) }
    ensures ok { OnOk result (IsOnDisk D.seen D.may_leave disk.new (overwritten (D.seen disk.old) at bytes.now)) }
    ensures any_moment { LeavesOnly D.moment D.left_since disk.old disk.new
        (Torn at (length bytes.now) (D.seen disk.old)) }

    // The calls, and the counts.
    ensures calls { Makes D.does D.fails (Writes at bytes.now ∷ Syncs ∷ []) disk.old result disk.new }
    ensures clock { OnOk result (D.clock disk.new ≡ calls_later 2 (D.clock disk.old)) }
    ensures failed { IsErr result → Rose (D.faults disk.old) (D.faults disk.new) }
    ensures never_falls { D.faults disk.old ≤ D.faults disk.new }
{
    disk.write_at(at, bytes)?;
    disk.sync()?;
    Ok(())
}

/// Cuts to this length and syncs. `Failed` comes only at a fault.
pub fn cut_synced<D: Disk>(disk: &mut D, len: u64) -> Result<(), Failed>
    requires place { len ≤ length (D.seen disk.old) }
    requires settled { Only (D.seen disk.old) (D.may_leave disk.old) }
    ensures ok { OnOk result (IsOnDisk D.seen D.may_leave disk.new (take len (D.seen disk.old))) }
    ensures any_moment { LeavesOnly D.moment D.left_since disk.old disk.new (CutShort len (D.seen disk.old)) }

    // The calls, and the counts.
    ensures calls { Makes D.does D.fails (Cuts len ∷ Syncs ∷ []) disk.old result disk.new }
    ensures clock { OnOk result (D.clock disk.new ≡ calls_later 2 (D.clock disk.old)) }
    ensures failed { IsErr result → Rose (D.faults disk.old) (D.faults disk.new) }
    ensures never_falls { D.faults disk.old ≤ D.faults disk.new }
{
    disk.cut(len)?;
    disk.sync()?;
    Ok(())
}
