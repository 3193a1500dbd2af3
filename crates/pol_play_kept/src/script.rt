//! A script over a disk.
ghost use Rattle.std.specs.Prelude.{◌≡◌, ◌+◌, ◌≤◌, List, IfErr, IfOk, IsErrOf, IsTrue, OnOk, false, true, if◌then◌else◌};
ghost use Rattle.pol_disk.specs.Calls.{StopsIn};
ghost use Rattle.pol_disk.specs.Images.{LeavesOnly};
ghost use Rattle.pol_kept.specs.Calls.{calls_of_open};
ghost use Rattle.pol_kept.specs.Keeps.{HoldsStill, IsKept, options_of, requests_in};
ghost use Rattle.pol_machine.specs.Serial.{machine_of};
ghost use Rattle.pol_machine.specs.Stands.{Stands, options_in};
ghost use Rattle.pol_model.specs.declared.request.Request.{Request as AnyRequest};
ghost use Rattle.pol_play_kept.specs.Calls.{RunsFor, StopsAtCall, StopsOnceOpened, calls_to_keep, calls_to_open};
ghost use Rattle.pol_play_kept.specs.Images.{AllAre, IsJournalWithin};
ghost use Rattle.pol_play_kept.specs.Played.{HoldsAtGate, IsDamaged, IsSomeJournal, IsWhole, StopsAt, TellsGate};
ghost use Rattle.pol_run.specs.Run.{readings_of};
ghost use Rattle.pol_serial_run.specs.Accepted.{accepted};
ghost use Rattle.pol_status.specs.Limits.{fits_limits};
ghost use Rattle.pol_streams.specs.Faults.{Rose};

use crate::line::Stopped;
use crate::lines::play_lines;
use crate::progress::Progress;
use pol_data::{Memory, Steps};
use pol_disk::Disk;
use pol_kept::{KeptConfig, OpenError, open_over};
use pol_machine::Machine;
use std::alloc::Global;
use std::marker::Brand;
use std::sync::ledger::{Blank, Ledger};

/// The answers to a script over a disk.
#[derive(Debug, Drop)]
pub struct KeptText {
    /// Their texts, one behind another; where the disk failed, of the lines before that of the request that isn't acknowledged.
    pub text: Vec<u8>,
    /// Whether one of them is a refusal, `notyet` or `noendpoint`.
    pub marked: bool,
    /// Whether a call of the disk failed.
    pub lost: bool,
}

/// Why a script isn't answered.
#[derive(Clone, Copy, Debug, PartialEq, Eq)]
pub enum ScriptError {
    /// The bytes on the disk aren't a journal: they are damaged at this gate.
    Damaged {
        /// The place of the gate, from 0.
        at: u64,
    },
    /// A call of the disk failed while the journal was opened.
    Disk,
    /// Want of memory. What was committed stays.
    Memory,
}

/// The lines of a script are answered after the requests of an opened machine.
fn play_opened<L: Ledger, D: Disk>(
    blank: Blank,
    alloc: Global,
    disk: &mut D,
    mut machine: Machine,
    script: &[u8],
) -> Result<KeptText, Memory>
    requires name { blank.name ≡ L.name }
    requires parts { blank.parts ≡ L.parts }
    requires some { blank.parts ≡ 1 }
    requires kept { IsKept D.seen D.may_leave disk.old machine }
    requires opened { Stands machine (machine_of (options_in machine) (requests_in machine)) }
    requires within { IsTrue (fits_limits script.now) }

    ensures whole { IfOk result (λ kept. kept.lost ≡ false → IsWhole (options_in machine) (requests_in machine)
        (readings_of script.now) (D.may_leave disk.new) kept.text.items (if kept.marked then 1 else 0)) }
    ensures stops { IfOk result (λ kept. kept.lost ≡ true → StopsAt
        (options_in machine) (requests_in machine) (readings_of script.now) (D.may_leave disk.new) kept.text.items) }
    ensures any_moment { LeavesOnly D.moment D.left_since disk.old disk.new (IsJournalWithin (options_in machine)
        (requests_in machine) (accepted (options_in machine) (requests_in machine) (readings_of script.now))) }

    // The disk's calls.
    ensures calls { IfOk result (λ kept. kept.lost ≡ false → RunsFor D.does D.fails (calls_to_keep
        (accepted (options_in machine) (requests_in machine) (readings_of script.now))) disk.old disk.new) }
    ensures stops_at_call { IfOk result (λ kept.
        kept.lost ≡ true → StopsAtCall D.does D.fails D.seen D.may_leave (options_in machine)
        (requests_in machine) (readings_of script.now) kept.marked kept.text.items disk.old disk.new) }

    // The disk's faults.
    ensures lost { IfOk result (λ kept. kept.lost ≡ true → Rose (D.faults disk.old) (D.faults disk.new)) }
    ensures never_falls { D.faults disk.old ≤ D.faults disk.new }
{
    let mut steps = Steps::<L>::new(blank);
    let mut progress = Progress::start(alloc);
    match play_lines(alloc, disk, &mut machine, &mut progress, script, &mut steps) {
        Ok(()) => Ok(KeptText {
            text: progress.text,
            marked: progress.marked,
            lost: false,
        }),
        Err(Stopped::Disk) => Ok(KeptText {
            text: progress.text,
            marked: progress.marked,
            lost: true,
        }),
        Err(Stopped::Memory) => Err(Memory),
    }
}

/// The journal on the disk is opened, and the lines of a script are answered in order after its requests: what is accepted is kept
/// before it is told ('profile'). Where a call of the disk fails, the lines before are told.
///
/// `Damaged` comes exactly where the bytes aren't a journal, want of memory aside, if no call of the disk failed before that was known.
/// `Disk` comes only at a fault of the disk, and so does a text that is `lost`. `Memory` is want of memory; bytes that aren't a journal
/// stay as they are then too.
pub fn play_script<D: Disk>(
    alloc: Global,
    disk: &mut D,
    config: KeptConfig,
    script: &[u8],
) -> Result<KeptText, ScriptError>
    requires limit { config.map_max ≤ 65536 }
    requires within { IsTrue (fits_limits script.now) }

    // Where each image was a journal of the same requests.
    ensures whole { (start : List AnyRequest) → AllAre (options_of config) start (D.may_leave disk.old)
        → IfOk result (λ kept. kept.lost ≡ false → IsWhole (options_of config) start
        (readings_of script.now) (D.may_leave disk.new) kept.text.items (if kept.marked then 1 else 0)) }
    ensures stops { (start : List AnyRequest)
        → AllAre (options_of config) start (D.may_leave disk.old) → IfOk result (λ kept. kept.lost ≡ true
        → StopsAt (options_of config) start (readings_of script.now) (D.may_leave disk.new) kept.text.items) }
    ensures not_opened { (start : List AnyRequest) → AllAre (options_of config) start (D.may_leave disk.old)
        → IsErrOf result ScriptError.Disk → AllAre (options_of config) start (D.may_leave disk.new) }
    ensures any_moment { (start : List AnyRequest)
        → AllAre (options_of config) start (D.may_leave disk.old) → LeavesOnly D.moment D.left_since disk.old disk.new
        (IsJournalWithin (options_of config) start (accepted (options_of config) start (readings_of script.now))) }

    // The disk's calls: those that open the journal, and then four for each request that is accepted, up to one that failed.
    ensures calls { (start : List AnyRequest)
        → AllAre (options_of config) start (D.may_leave disk.old) → IfOk result (λ kept.
        kept.lost ≡ false → RunsFor D.does D.fails (calls_to_open (D.seen disk.old) + calls_to_keep
        (accepted (options_of config) start (readings_of script.now))) disk.old disk.new) }
    ensures stops_at_call { (start : List AnyRequest) → AllAre (options_of config) start (D.may_leave disk.old)
        → IfOk result (λ kept. kept.lost ≡ true → StopsOnceOpened D.does D.fails D.seen D.may_leave
        (options_of config) start (readings_of script.now) kept.marked kept.text.items disk.old disk.new) }
    ensures stops_opening { IsErrOf result ScriptError.Disk
        → StopsIn D.does D.fails disk.old (calls_of_open (D.seen disk.old)) disk.new }

    // Which bytes are opened. A damaged journal stays as it was.
    ensures journal { OnOk result (IsSomeJournal (options_of config) (D.seen disk.old)) }
    ensures damaged { IfErr result (TellsGate (options_of config) (D.seen disk.old)) }
    ensures damaged_stays { IfErr result (λ why.
        HoldsAtGate D.seen D.may_leave D.moment D.left_since disk.old why disk.new) }
    ensures memory_stays { IsErrOf result ScriptError.Memory → IsDamaged (options_of config) (D.seen disk.old)
        → HoldsStill D.seen D.may_leave D.moment D.left_since disk.old disk.new }

    // The disk's faults.
    ensures failed { IsErrOf result ScriptError.Disk → Rose (D.faults disk.old) (D.faults disk.new) }
    ensures lost { IfOk result (λ kept. kept.lost ≡ true → Rose (D.faults disk.old) (D.faults disk.new)) }
    ensures never_falls { D.faults disk.old ≤ D.faults disk.new }
{
    match open_over(alloc, disk, config) {
        Ok(machine) => match play_opened::<Brand, D>(Blank::new(1), alloc, disk, machine, script) {
            Ok(kept) => Ok(kept),
            Err(_) => Err(ScriptError::Memory),
        },
        Err(OpenError::Damaged { at }) => Err(ScriptError::Damaged { at }),
        Err(OpenError::Disk) => Err(ScriptError::Disk),
        Err(OpenError::Memory) => Err(ScriptError::Memory),
    }
}
