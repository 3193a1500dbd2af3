//! A journal is opened.
ghost use Rattle.std.specs.Prelude.{◌≡◌, ◌+◌, ◌<◌, ◌≤◌, ◌∷◌, ℕ, [], Err, IfErr, IfOk, IsErr, IsErrOf, OnErr, OnOk, length};
ghost use Rattle.pol_disk.specs.Calls.{Cuts, Makes, Reads, Runs, Syncs};
ghost use Rattle.pol_disk.specs.Images.{LeavesOnly, Only};
ghost use Rattle.pol_history.specs.Machine.{machine_start};
ghost use Rattle.pol_journal.specs.Journal.{IsJournal};
ghost use Rattle.pol_kept.specs.Calls.{FailsToOpen, StopsOpening, calls_of_open, calls_of_synced};
ghost use Rattle.pol_kept.specs.Keeps.{HoldsUnlessFailed, IsKept, IsOpened, KeepsJournal, SameJournal, TellsDamage, options_of, requests_in};
ghost use Rattle.pol_machine.specs.Stands.{Stands, options_in};
ghost use Rattle.pol_record_log.specs.Log.{last_gate};
ghost use Rattle.pol_record_log.specs.Steps.{calls_later, calls_of_start, cut_to_log};
ghost use Rattle.pol_streams.specs.Faults.{Rose};

use crate::config::KeptConfig;
use crate::error::OpenError;
use crate::replay::replay;
use pol_disk::Disk;
use pol_machine::Machine;
use pol_record_log::{ReadError, cut_synced, read_bytes, start, sync};
use std::alloc::Global;

/// An empty journal is begun where there is at most one byte, by two calls. The machine is the one before its first step.
fn open_short<D: Disk>(disk: &mut D, machine: &Machine) -> Result<(), OpenError>
    requires short { length (D.seen disk.old) ≤ 1 }
    requires settled { Only (D.seen disk.old) (D.may_leave disk.old) }
    requires start { Stands machine.now machine_start }
    ensures opened { IsOpened (options_in machine.now) (requests_in machine.now) machine.now }
    ensures journal { IsJournal (options_in machine.now) (requests_in machine.now) (D.seen disk.old) }
    ensures kept { OnOk result (IsKept D.seen D.may_leave disk.new machine.now) }
    ensures disk { OnErr result (result ≡ Err OpenError.Disk) }
    ensures failed { IsErr result → Rose (D.faults disk.old) (D.faults disk.new) }
    ensures any_moment { LeavesOnly D.moment D.left_since disk.old disk.new
        (SameJournal (options_in machine.now) (D.seen disk.old)) }
    ensures cut { OnOk result (D.seen disk.new ≡ cut_to_log (D.seen disk.old)) }
    ensures calls { Makes D.does D.fails calls_of_start disk.old result disk.new }
    ensures clock { OnOk result (D.clock disk.new ≡ calls_later 2 (D.clock disk.old)) }
    ensures never_falls { D.faults disk.old ≤ D.faults disk.new }
{
    let _ = machine;
    match start(disk) {
        Ok(()) => Ok(()),
        Err(_) => Err(OpenError::Disk),
    }
}

/// The machine before its first step commits the requests of these bytes, which are all of the disk's, and what stands behind their
/// closed gate is cut off.
fn open_bytes<D: Disk>(
    alloc: Global,
    disk: &mut D,
    machine: &mut Machine,
    bytes: &[u8],
) -> Result<(), OpenError>
    requires bytes { bytes.now ≡ D.seen disk.old }
    requires long { 1 < length (D.seen disk.old) }
    requires settled { Only (D.seen disk.old) (D.may_leave disk.old) }
    requires start { Stands machine.old machine_start }
    ensures opened { OnOk result (IsOpened (options_in machine.old) (requests_in machine.new) machine.new) }
    ensures journal { OnOk result (IsJournal (options_in machine.old) (requests_in machine.new) (D.seen disk.old)) }
    ensures kept { OnOk result (IsKept D.seen D.may_leave disk.new machine.new) }
    ensures damaged { IfErr result (TellsDamage (options_in machine.old) (D.seen disk.old)) }
    ensures failed { IsErrOf result OpenError.Disk → Rose (D.faults disk.old) (D.faults disk.new) }
    ensures any_moment { LeavesOnly D.moment D.left_since disk.old disk.new
        (SameJournal (options_in machine.old) (D.seen disk.old)) }
    ensures cut { OnOk result (D.seen disk.new ≡ cut_to_log (D.seen disk.old)) }
    ensures calls { OnOk result (Runs D.does D.fails disk.old
        (Cuts (last_gate (D.seen disk.old) + 1) ∷ Syncs ∷ []) disk.new) }
    ensures stops { IfErr result (λ why. FailsToOpen D.does D.fails []
        (Cuts (last_gate (D.seen disk.old) + 1) ∷ Syncs ∷ []) disk.old why disk.new) }
    ensures stays { IfErr result (λ why.
        HoldsUnlessFailed D.seen D.may_leave D.moment D.left_since disk.old why disk.new) }
    ensures never_falls { D.faults disk.old ≤ D.faults disk.new }
{
    match replay(alloc, machine, bytes) {
        Ok(end) => match cut_synced(disk, end as u64 + 1) {
            Ok(()) => Ok(()),
            Err(_) => Err(OpenError::Disk),
        },
        Err(why) => Err(why),
    }
}

/// That, of the bytes that are read.
fn open_long<D: Disk>(alloc: Global, disk: &mut D, machine: &mut Machine) -> Result<(), OpenError>
    requires long { 1 < length (D.seen disk.old) }
    requires settled { Only (D.seen disk.old) (D.may_leave disk.old) }
    requires start { Stands machine.old machine_start }
    ensures opened { OnOk result (IsOpened (options_in machine.old) (requests_in machine.new) machine.new) }
    ensures journal { OnOk result (IsJournal (options_in machine.old) (requests_in machine.new) (D.seen disk.old)) }
    ensures kept { OnOk result (IsKept D.seen D.may_leave disk.new machine.new) }
    ensures damaged { IfErr result (TellsDamage (options_in machine.old) (D.seen disk.old)) }
    ensures failed { IsErrOf result OpenError.Disk → Rose (D.faults disk.old) (D.faults disk.new) }
    ensures any_moment { LeavesOnly D.moment D.left_since disk.old disk.new
        (SameJournal (options_in machine.old) (D.seen disk.old)) }
    ensures cut { OnOk result (D.seen disk.new ≡ cut_to_log (D.seen disk.old)) }
    ensures calls { OnOk result (Runs D.does D.fails disk.old
        (Reads 0 (length (D.seen disk.old)) ∷ Cuts (last_gate (D.seen disk.old) + 1) ∷ Syncs ∷ []) disk.new) }
    ensures stops { IfErr result (λ why. FailsToOpen D.does D.fails (Reads 0 (length (D.seen disk.old)) ∷ [])
        (Reads 0 (length (D.seen disk.old)) ∷ Cuts (last_gate (D.seen disk.old) + 1) ∷ Syncs ∷ [])
        disk.old why disk.new) }
    ensures stays { IfErr result (λ why.
        HoldsUnlessFailed D.seen D.may_leave D.moment D.left_since disk.old why disk.new) }
    ensures never_falls { D.faults disk.old ≤ D.faults disk.new }
{
    match read_bytes(alloc, disk) {
        Ok(bytes) => open_bytes(alloc, disk, machine, bytes.as_slice()),
        Err(ReadError::Disk) => Err(OpenError::Disk),
        Err(ReadError::Memory) => Err(OpenError::Memory),
    }
}

/// Either, over a disk that is synced.
fn open_synced<D: Disk>(alloc: Global, disk: &mut D, machine: &mut Machine) -> Result<(), OpenError>
    requires settled { Only (D.seen disk.old) (D.may_leave disk.old) }
    requires start { Stands machine.old machine_start }
    ensures opened { OnOk result (IsOpened (options_in machine.old) (requests_in machine.new) machine.new) }
    ensures journal { OnOk result (IsJournal (options_in machine.old) (requests_in machine.new) (D.seen disk.old)) }
    ensures kept { OnOk result (IsKept D.seen D.may_leave disk.new machine.new) }
    ensures damaged { IfErr result (TellsDamage (options_in machine.old) (D.seen disk.old)) }
    ensures failed { IsErrOf result OpenError.Disk → Rose (D.faults disk.old) (D.faults disk.new) }
    ensures any_moment { LeavesOnly D.moment D.left_since disk.old disk.new
        (SameJournal (options_in machine.old) (D.seen disk.old)) }
    ensures cut { OnOk result (D.seen disk.new ≡ cut_to_log (D.seen disk.old)) }
    ensures calls { OnOk result (Runs D.does D.fails disk.old (calls_of_synced (D.seen disk.old)) disk.new) }
    ensures stops { IfErr result (λ why. FailsToOpen D.does D.fails (Reads 0 (length (D.seen disk.old)) ∷ [])
        (calls_of_synced (D.seen disk.old)) disk.old why disk.new) }
    ensures stays { IfErr result (λ why.
        HoldsUnlessFailed D.seen D.may_leave D.moment D.left_since disk.old why disk.new) }
    ensures clock { length (D.seen disk.old) ≤ 1 → OnOk result (D.clock disk.new ≡ calls_later 2 (D.clock disk.old)) }
    ensures never_falls { D.faults disk.old ≤ D.faults disk.new }
{
    if disk.len() <= 1 {
        open_short(disk, machine)
    } else {
        open_long(alloc, disk, machine)
    }
}

/// Either, once the disk is synced. The machine is the one before its first step.
fn open_with<D: Disk>(
    alloc: Global,
    disk: &mut D,
    mut machine: Machine,
) -> Result<Machine, OpenError>
    requires start { Stands machine machine_start }
    ensures opened { IfOk result (λ new. IsOpened (options_in machine) (requests_in new) new) }
    ensures journal { IfOk result (λ new. IsJournal (options_in machine) (requests_in new) (D.seen disk.old)) }
    ensures kept { IfOk result (λ new. IsKept D.seen D.may_leave disk.new new) }
    ensures damaged { IfErr result (TellsDamage (options_in machine) (D.seen disk.old)) }
    ensures failed { IsErrOf result OpenError.Disk → Rose (D.faults disk.old) (D.faults disk.new) }
    ensures any_moment { LeavesOnly D.moment D.left_since disk.old disk.new
        (KeepsJournal (options_in machine) (D.seen disk.old) (D.may_leave disk.old)) }
    ensures cut { OnOk result (D.seen disk.new ≡ cut_to_log (D.seen disk.old)) }
    ensures calls { OnOk result (Runs D.does D.fails disk.old (calls_of_open (D.seen disk.old)) disk.new) }
    ensures stops { IfErr result (λ why. StopsOpening D.does D.fails (D.seen disk.old) disk.old why disk.new) }
    ensures stays { IfErr result (λ why.
        HoldsUnlessFailed D.seen D.may_leave D.moment D.left_since disk.old why disk.new) }
    ensures clock { length (D.seen disk.old) ≤ 1 → OnOk result (D.clock disk.new ≡ calls_later 3 (D.clock disk.old)) }
    ensures never_falls { D.faults disk.old ≤ D.faults disk.new }
{
    match sync(disk) {
        Ok(()) => match open_synced(alloc, disk, &mut machine) {
            Ok(()) => Ok(machine),
            Err(why) => Err(why),
        },
        Err(_) => Err(OpenError::Disk),
    }
}

/// The machine of the journal on a disk that is lent for the call. It syncs. Where there is at most one byte, it writes a closed
/// gate and syncs; otherwise it reads, cuts behind the closed gate that ends the journal, and syncs.
///
/// `Damaged` comes exactly where the bytes aren't a journal, want of memory aside, if no call of the disk failed before that was known;
/// nothing is written then. `Disk` comes only at a fault of the disk. `Memory` is want of memory, and comes also where a request's list
/// is longer than a place has numbers for.
pub fn open_over<D: Disk>(
    alloc: Global,
    disk: &mut D,
    config: KeptConfig,
) -> Result<Machine, OpenError>
    requires limit { config.map_max ≤ 65536 }

    // On success the machine is the one that committed the journal's requests, and a crash leaves their records alone, cut behind the
    // closed gate that ends them.
    ensures opened { IfOk result (λ machine. IsOpened (options_of config) (requests_in machine) machine) }
    ensures journal { IfOk result (λ machine. IsJournal (options_of config) (requests_in machine) (D.seen disk.old)) }
    ensures kept { IfOk result (λ machine. IsKept D.seen D.may_leave disk.new machine) }
    ensures cut { OnOk result (D.seen disk.new ≡ cut_to_log (D.seen disk.old)) }

    // On failure. The disk holds what it held, unless one of its calls failed.
    ensures damaged { IfErr result (TellsDamage (options_of config) (D.seen disk.old)) }
    ensures failed { IsErrOf result OpenError.Disk → Rose (D.faults disk.old) (D.faults disk.new) }
    ensures stays { IfErr result (λ why.
        HoldsUnlessFailed D.seen D.may_leave D.moment D.left_since disk.old why disk.new) }

    // A crash at any moment leaves what it might have left before, or a journal of the same requests.
    ensures any_moment { LeavesOnly D.moment D.left_since disk.old disk.new
        (KeepsJournal (options_of config) (D.seen disk.old) (D.may_leave disk.old)) }

    // The calls, and the counts.
    ensures calls { OnOk result (Runs D.does D.fails disk.old (calls_of_open (D.seen disk.old)) disk.new) }
    ensures stops { IfErr result (λ why. StopsOpening D.does D.fails (D.seen disk.old) disk.old why disk.new) }
    ensures clock { length (D.seen disk.old) ≤ 1 → OnOk result (D.clock disk.new ≡ calls_later 3 (D.clock disk.old)) }
    ensures never_falls { D.faults disk.old ≤ D.faults disk.new }
{
    match Machine::new(alloc, config.mode, config.localhost, config.map_max) {
        Ok(machine) => open_with(alloc, disk, machine),
        Err(_) => Err(OpenError::Memory),
    }
}
