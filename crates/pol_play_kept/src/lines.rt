//! The lines of a script, one after another.
ghost use Rattle.std.specs.Prelude.{◌≡◌, ◌++◌, ◌-◌, ◌^◌, ◌<◌, ◌≤◌, [], ◌∷◌, List, IfNone, IfSome, IsErrOf, IsTrue, OnOk, false, length};
ghost use Rattle.pol_disk.specs.Images.{LeavesOnly};
ghost use Rattle.pol_kept.specs.Keeps.{IsKept, requests_in};
ghost use Rattle.pol_machine.specs.Serial.{machine_of};
ghost use Rattle.pol_machine.specs.Stands.{Stands, options_in};
ghost use Rattle.pol_model.specs.declared.options.Options.{Options as AllOptions};
ghost use Rattle.pol_model.specs.declared.request.Request.{Request as AnyRequest};
ghost use Rattle.pol_play_kept.specs.Images.{IsJournalOrMore, IsJournalWithin};
ghost use Rattle.pol_play_kept.specs.Answering.{IsSoFar, StopsHere};
ghost use Rattle.pol_play_kept.specs.Calls.{RunsFor, StopsAtCall, StopsKeeping, calls_to_keep};
ghost use Rattle.pol_play_kept.specs.Played.{StopsAt};
ghost use Rattle.pol_run.specs.Run.{readings_of};
ghost use Rattle.pol_run.specs.Spots.{Reading as AnyReading};
ghost use Rattle.pol_script.specs.Lines.{lines_of};
ghost use Rattle.pol_script.specs.Reading.{reading_of};
ghost use Rattle.pol_serial_run.specs.Accepted.{accepted, accepted_by};
ghost use Rattle.pol_serial_run.specs.SerialRun.{machine_after_lines};
ghost use Rattle.pol_status.specs.Limits.{fits_limits};
ghost use Rattle.pol_streams.specs.Faults.{Rose};

use crate::line::{Stopped, answer_line};
use crate::progress::Progress;
use memchr::memchr;
use pol_data::Steps;
use pol_disk::Disk;
use pol_machine::Machine;
use std::alloc::Global;
use std::sync::ledger::Ledger;

/// The first line, without its newline, and the bytes behind it; none where there is no line.
fn split_line(bytes: &[u8]) -> Option<(&[u8], &[u8])>
    ensures none { IfNone result (lines_of bytes.now ≡ []) }
    ensures line { IfSome result (λ parts. lines_of bytes.now ≡ parts.0.now ∷ lines_of parts.1.now) }
    ensures shorter { IfSome result (λ parts. length parts.1.now < length bytes.now) }
{
    match memchr(b'\n', bytes) {
        Some(end) => Some((&bytes[..end], &bytes[end + 1..])),
        None => {
            if bytes.is_empty() {
                None
            } else {
                Some((bytes, &bytes[bytes.len()..]))
            }
        }
    }
}

/// One line is answered behind those before.
pub(crate) fn play_line<D: Disk, L: Ledger>(
    alloc: Global,
    disk: &mut D,
    machine: &mut Machine,
    progress: &mut Progress,
    line: &[u8],
    steps: &mut Steps<L>,
) -> Result<(), Stopped>
    requires kept { IsKept D.seen D.may_leave disk.old machine.old }
    requires phase { progress.old.phase < 2 ^ 64 - 1 }

    // Whatever lines were answered before.
    ensures goes_on { (options : AllOptions) (start : List AnyRequest) (readings : List AnyReading)
        → IsSoFar D.seen D.may_leave options start readings progress.old disk.old machine.old
        → OnOk result (IsSoFar D.seen D.may_leave options start
        (readings ++ reading_of line.now ∷ []) progress.new disk.new machine.new) }
    ensures stops { (options : AllOptions) (start : List AnyRequest) (readings : List AnyReading)
        → IsSoFar D.seen D.may_leave options start readings progress.old disk.old machine.old
        → IsErrOf result Stopped.Disk
        → StopsHere D.seen D.may_leave options start readings (reading_of line.now) progress.new disk.new }
    ensures any_moment { (options : AllOptions) (start : List AnyRequest) (readings : List AnyReading)
        → IsSoFar D.seen D.may_leave options start readings progress.old disk.old machine.old
        → LeavesOnly D.moment D.left_since disk.old disk.new
        (IsJournalOrMore options (start ++ accepted options start readings)
        (accepted_by options (machine_after_lines options (machine_of options start) readings) (reading_of line.now))) }

    // The disk's calls.
    ensures calls { (options : AllOptions) (start : List AnyRequest) (readings : List AnyReading)
        → IsSoFar D.seen D.may_leave options start readings progress.old disk.old machine.old
        → OnOk result (RunsFor D.does D.fails (calls_to_keep (accepted_by options
        (machine_after_lines options (machine_of options start) readings) (reading_of line.now))) disk.old disk.new) }
    ensures stops_keeping { IsErrOf result Stopped.Disk
        → StopsKeeping D.does D.fails D.seen line.now disk.old disk.new }

    // The disk's faults.
    ensures failed { IsErrOf result Stopped.Disk → Rose (D.faults disk.old) (D.faults disk.new) }
    ensures never_falls { D.faults disk.old ≤ D.faults disk.new }
{
    match answer_line(alloc, disk, machine, progress.phase, line, steps) {
        Ok(told) => match progress.push(alloc, told) {
            Ok(()) => Ok(()),
            Err(_) => Err(Stopped::Memory),
        },
        Err(stopped) => Err(stopped),
    }
}

/// All lines of a script are answered, after the requests of a machine that has done nothing else.
pub(crate) fn play_lines<D: Disk, L: Ledger>(
    alloc: Global,
    disk: &mut D,
    machine: &mut Machine,
    progress: &mut Progress,
    script: &[u8],
    steps: &mut Steps<L>,
) -> Result<(), Stopped>
    requires so_far { IsSoFar D.seen D.may_leave
        (options_in machine.old) (requests_in machine.old) [] progress.old disk.old machine.old }
    requires within { IsTrue (fits_limits script.now) }

    ensures whole { OnOk result (IsSoFar D.seen D.may_leave
        (options_in machine.old) (requests_in machine.old) (readings_of script.now) progress.new disk.new machine.new) }
    ensures stops { IsErrOf result Stopped.Disk → StopsAt (options_in machine.old)
        (requests_in machine.old) (readings_of script.now) (D.may_leave disk.new) progress.new.text.items }
    ensures any_moment { LeavesOnly D.moment D.left_since disk.old disk.new
        (IsJournalWithin (options_in machine.old) (requests_in machine.old)
        (accepted (options_in machine.old) (requests_in machine.old) (readings_of script.now))) }

    // The disk's calls.
    ensures calls { OnOk result (RunsFor D.does D.fails (calls_to_keep
        (accepted (options_in machine.old) (requests_in machine.old) (readings_of script.now))) disk.old disk.new) }
    ensures stops_at_call { IsErrOf result Stopped.Disk
        → StopsAtCall D.does D.fails D.seen D.may_leave (options_in machine.old) (requests_in machine.old)
        (readings_of script.now) progress.new.marked progress.new.text.items disk.old disk.new }

    // The disk's faults.
    ensures failed { IsErrOf result Stopped.Disk → Rose (D.faults disk.old) (D.faults disk.new) }
    ensures never_falls { D.faults disk.old ≤ D.faults disk.new }
{
    let mut rest = script;
    while let Some((line, behind)) = split_line(rest) {
        match play_line(alloc, disk, machine, progress, line, steps) {
            Ok(()) => rest = behind,
            Err(stopped) => return Err(stopped),
        }
    }
    Ok(())
}
