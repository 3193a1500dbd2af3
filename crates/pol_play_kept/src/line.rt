//! One line.
ghost use Rattle.std.specs.Prelude.{◌≡◌, ◌≤◌, IsErrOf, Ok, OnOk, false};
ghost use Rattle.pol_answer.specs.declared.answer.Answer.TheVariants as answer;
ghost use Rattle.pol_history.specs.Machine.{Machine as OneMachine};
ghost use Rattle.pol_kept.specs.Keeps.{IsKept};
ghost use Rattle.pol_machine.specs.Stands.{Stands, options_in};
ghost use Rattle.pol_play_kept.specs.Answering.{PlaysLine};
ghost use Rattle.pol_play_kept.specs.Calls.{RunsFor, StopsKeeping, calls_to_keep};
ghost use Rattle.pol_script.specs.Reading.{reading_of};
ghost use Rattle.pol_serial_run.specs.Accepted.{accepted_by};
ghost use Rattle.pol_serial_run.specs.Asking.{is_commit};
ghost use Rattle.pol_streams.specs.Faults.{Rose};

use crate::commit::commit_line;
use pol_answer::Answer;
use pol_data::Steps;
use pol_disk::Disk;
use pol_machine::Machine;
use pol_script::{Command, LineError, LineFault, read_line};
use pol_serial_run::answer_command;
use std::alloc::Global;
use std::sync::ledger::Ledger;

/// Why a line wasn't answered.
#[derive(Clone, Copy, Debug, PartialEq, Eq)]
pub enum Stopped {
    /// A call of the disk failed. After a crash the request of the line is there or it isn't.
    Disk,
    /// Want of memory.
    Memory,
}

/// A line that commits nothing is answered. The disk is untouched.
fn answer_other<D: Disk, L: Ledger>(
    alloc: Global,
    _disk: &mut D,
    machine: &mut Machine,
    phase: u64,
    _line: &[u8],
    command: Command,
    steps: &mut Steps<L>,
) -> Result<Answer, Stopped>
    requires read { reading_of _line.now ≡ Ok command }
    requires other { is_commit command ≡ false }
    requires kept { IsKept D.seen D.may_leave _disk.old machine.old }
    ensures options { options_in machine.new ≡ options_in machine.old }
    ensures plays { (m : OneMachine) → Stands machine.old m → PlaysLine D.seen D.may_leave D.moment D.left_since m phase
        (reading_of _line.now) _disk.old machine.old _disk.new machine.new result }
    ensures kept { OnOk result (IsKept D.seen D.may_leave _disk.new machine.new) }
    ensures calls { (m : OneMachine) → Stands machine.old m → OnOk result (RunsFor D.does D.fails
        (calls_to_keep (accepted_by (options_in machine.old) m (reading_of _line.now))) _disk.old _disk.new) }
    ensures memory { IsErrOf result Stopped.Disk → ⊥ }
    ensures same { _disk.new ≡ _disk.old }
{
    match answer_command(alloc, machine, phase, command, steps) {
        Ok(told) => Ok(told),
        Err(_) => Err(Stopped::Memory),
    }
}

/// A line that was read is answered.
fn answer_read<D: Disk, L: Ledger>(
    alloc: Global,
    disk: &mut D,
    machine: &mut Machine,
    phase: u64,
    line: &[u8],
    command: Command,
    steps: &mut Steps<L>,
) -> Result<Answer, Stopped>
    requires read { reading_of line.now ≡ Ok command }
    requires kept { IsKept D.seen D.may_leave disk.old machine.old }
    ensures options { options_in machine.new ≡ options_in machine.old }
    ensures plays { (m : OneMachine) → Stands machine.old m → PlaysLine D.seen D.may_leave D.moment D.left_since m phase
        (reading_of line.now) disk.old machine.old disk.new machine.new result }
    ensures kept { OnOk result (IsKept D.seen D.may_leave disk.new machine.new) }

    // The disk's calls.
    ensures calls { (m : OneMachine) → Stands machine.old m → OnOk result (RunsFor D.does D.fails
        (calls_to_keep (accepted_by (options_in machine.old) m (reading_of line.now))) disk.old disk.new) }
    ensures stops { IsErrOf result Stopped.Disk → StopsKeeping D.does D.fails D.seen line.now disk.old disk.new }

    // The disk's faults.
    ensures failed { IsErrOf result Stopped.Disk → Rose (D.faults disk.old) (D.faults disk.new) }
    ensures never_falls { D.faults disk.old ≤ D.faults disk.new }
{
    match command {
        Command::Commit {
            session: _,
            request,
        } => commit_line(alloc, disk, machine, line, request, steps),
        Command::Look { session, query } => {
            let look = Command::Look { session, query };
            answer_other(alloc, disk, machine, phase, line, look, steps)
        }
        Command::Trace { session, query } => {
            let trace = Command::Trace { session, query };
            answer_other(alloc, disk, machine, phase, line, trace, steps)
        }
        Command::Sync { session } => {
            let sync = Command::Sync { session };
            answer_other(alloc, disk, machine, phase, line, sync, steps)
        }
        Command::Phase => answer_other(alloc, disk, machine, phase, line, Command::Phase, steps),
    }
}

/// The answer to a faulty line.
fn answer_fault(fault: LineFault) -> Answer
    ensures { result ≡ answer.BadLine fault }
{
    Answer::BadLine(fault)
}

/// A line is answered in a phase by a machine whose requests are kept on the disk, as in the serial run: a commit once its request is
/// on the disk, and each other line by the machine ('profile').
///
/// `Disk` comes only at a fault of the disk, at the line of a request without a fault. `Memory` is want of memory; what was committed
/// stays.
pub fn answer_line<D: Disk, L: Ledger>(
    alloc: Global,
    disk: &mut D,
    machine: &mut Machine,
    phase: u64,
    line: &[u8],
    steps: &mut Steps<L>,
) -> Result<Answer, Stopped>
    requires kept { IsKept D.seen D.may_leave disk.old machine.old }
    ensures options { options_in machine.new ≡ options_in machine.old }

    // The answer is that of the serial run, and a crash at any moment leaves a journal of the requests before, or of these with what
    // the line accepts.
    ensures plays { (m : OneMachine) → Stands machine.old m → PlaysLine D.seen D.may_leave D.moment D.left_since m phase
        (reading_of line.now) disk.old machine.old disk.new machine.new result }
    ensures kept { OnOk result (IsKept D.seen D.may_leave disk.new machine.new) }

    // The disk's calls.
    ensures calls { (m : OneMachine) → Stands machine.old m → OnOk result (RunsFor D.does D.fails
        (calls_to_keep (accepted_by (options_in machine.old) m (reading_of line.now))) disk.old disk.new) }
    ensures stops { IsErrOf result Stopped.Disk → StopsKeeping D.does D.fails D.seen line.now disk.old disk.new }

    // The disk's faults.
    ensures failed { IsErrOf result Stopped.Disk → Rose (D.faults disk.old) (D.faults disk.new) }
    ensures never_falls { D.faults disk.old ≤ D.faults disk.new }
{
    match read_line(alloc, line) {
        Ok(command) => answer_read(alloc, disk, machine, phase, line, command, steps),
        Err(LineError::Fault(fault)) => Ok(answer_fault(fault)),
        Err(LineError::Memory) => Err(Stopped::Memory),
    }
}
