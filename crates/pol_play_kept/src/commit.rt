//! A line that commits a request.
ghost use Rattle.std.specs.Prelude.{◌≡◌, ◌≤◌, ℕ, IsErrOf, Ok, OnOk, Some};
ghost use Rattle.pol_history.specs.Machine.{Machine as OneMachine};
ghost use Rattle.pol_journal.specs.Journal.{asked_in};
ghost use Rattle.pol_kept.specs.Keeps.{IsKept};
ghost use Rattle.pol_machine.specs.Stands.{Stands, options_in};
ghost use Rattle.pol_play_kept.specs.Answering.{PlaysLine};
ghost use Rattle.pol_play_kept.specs.Calls.{RunsFor, StopsKeeping, calls_to_keep};
ghost use Rattle.pol_script.specs.Reading.{reading_of};
ghost use Rattle.pol_script.specs.declared.command.Command.TheVariants as asked;
ghost use Rattle.pol_serial_run.specs.Accepted.{accepted_by};
ghost use Rattle.pol_streams.specs.Faults.{Rose};

use crate::line::Stopped;
use pol_answer::Answer;
use pol_data::Steps;
use pol_disk::Disk;
use pol_kept::{KeptError, commit_over};
use pol_machine::Machine;
use pol_model::Request;
use std::alloc::Global;
use std::sync::ledger::Ledger;

/// The request of a line is committed and kept, and answered.
pub(crate) fn commit_line<D: Disk, L: Ledger>(
    alloc: Global,
    disk: &mut D,
    machine: &mut Machine,
    line: &[u8],
    request: Request,
    steps: &mut Steps<L>,
) -> Result<Answer, Stopped>
    requires read { asked_in line.now ≡ Some request }
    requires kept { IsKept D.seen D.may_leave disk.old machine.old }
    ensures options { options_in machine.new ≡ options_in machine.old }
    ensures plays { (m : OneMachine) (session phase : ℕ)
        → Stands machine.old m → reading_of line.now ≡ Ok (asked.Commit session request)
        → PlaysLine D.seen D.may_leave D.moment D.left_since m phase
        (reading_of line.now) disk.old machine.old disk.new machine.new result }
    ensures kept { OnOk result (IsKept D.seen D.may_leave disk.new machine.new) }

    // The disk's calls.
    ensures calls { (m : OneMachine) (session : ℕ) → Stands machine.old m
        → reading_of line.now ≡ Ok (asked.Commit session request) → OnOk result (RunsFor D.does D.fails
        (calls_to_keep (accepted_by (options_in machine.old) m (reading_of line.now))) disk.old disk.new) }
    ensures stops { IsErrOf result Stopped.Disk → StopsKeeping D.does D.fails D.seen line.now disk.old disk.new }

    // The disk's faults.
    ensures failed { IsErrOf result Stopped.Disk → Rose (D.faults disk.old) (D.faults disk.new) }
    ensures never_falls { D.faults disk.old ≤ D.faults disk.new }
{
    match commit_over(alloc, disk, machine, line, request, steps) {
        Ok(done) => Ok(Answer::Committed {
            revision: done.revision,
            identity: done.identity,
        }),
        Err(KeptError::Refused(refused)) => Ok(Answer::Refused(refused)),
        Err(KeptError::Memory) => Err(Stopped::Memory),
        Err(KeptError::Disk) => Err(Stopped::Disk),
    }
}
