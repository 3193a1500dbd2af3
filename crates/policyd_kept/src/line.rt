//! One line is answered, and its answer is written.
ghost use Rattle.std.specs.Prelude.{◌≡◌, ◌⊎◌, ◌+◌, ◌-◌, ◌^◌, ◌<◌, ◌≤◌, ◌||◌, ◌∷◌, ℕ, [], List, IfErr, IsErrOf, OnOk};
ghost use Rattle.std.specs.Io.KnownBytes.{Appends};
ghost use Rattle.pol_answer.specs.Text.{text_of};
ghost use Rattle.pol_machine.specs.Stands.{options_in};
ghost use Rattle.pol_play_kept.specs.Answering.{phase_told};
ghost use Rattle.pol_run.specs.Run.{is_marked};
ghost use Rattle.pol_script.specs.Lines.{lines_of};
ghost use Rattle.pol_streams.specs.Bytes.{AppendsPart};
ghost use Rattle.pol_streams.specs.Faults.{Rose};
ghost use Rattle.policyd_kept.specs.Serving.{IsLineError, IsReady, IsServing, ServesOn, Story};

use crate::course::Course;
use pol_answer::{Answer, answer_text};
use pol_data::Steps;
use pol_disk::Disk;
use pol_machine::Machine;
use pol_play_kept::{Stopped, answer_line};
use pol_status::Status;
use pol_streams::{Failed, Sink, write_all};
use std::alloc::Global;
use std::sync::ledger::Ledger;

// The most lines of a script.
const LINES_MAX: u64 = 1_000_000;

/// The answer to the line that has come is written. The errors are `Memory`, with nothing written, and `Write`.
fn write_answer<K: Sink>(
    alloc: Global,
    sink: &mut K,
    course: &mut Course,
    told: &Answer,
) -> Result<(), Status>
    requires phase { course.old.phase < 2 ^ 64 - 1 }
    requires lines { course.old.lines < 2 ^ 64 - 1 }
    ensures written { OnOk result (Appends (K.written sink.old) (K.written sink.new) (text_of told.now)) }
    ensures phase { OnOk result (course.new.phase ≡ phase_told course.old.phase told.now) }
    ensures marked { OnOk result (course.new.marked ≡ (course.old.marked || is_marked told.now)) }
    ensures lines { OnOk result (course.new.lines ≡ course.old.lines + 1) }
    ensures begun { OnOk result (course.new.begun.items ≡ []) }
    ensures causes { IfErr result (λ status. (status ≡ Status.Memory) ⊎ (status ≡ Status.Write)) }
    ensures memory { IsErrOf result Status.Memory → sink.new ≡ sink.old }
    ensures part { IsErrOf result Status.Write
        → AppendsPart (K.written sink.old) (K.written sink.new) (text_of told.now) }
    ensures write { IsErrOf result Status.Write → Rose (K.faults sink.old) (K.faults sink.new) }
    ensures never_falls { K.faults sink.old ≤ K.faults sink.new }
{
    let text = match answer_text(alloc, told) {
        Ok(text) => text,
        Err(_) => return Err(Status::Memory),
    };
    match write_all(sink, text.as_slice()) {
        Ok(()) => {
            course.count(told);
            Ok(())
        }
        Err(Failed) => Err(Status::Write),
    }
}

/// The line that has come is answered, and its answer is written: that to an accepted request once it is on the disk. The errors are
/// `TooLong`, `Disk`, `Memory` and `Write`.
pub(crate) fn answer_begun<K: Sink, D: Disk, L: Ledger>(
    alloc: Global,
    disk: &mut D,
    machine: &mut Machine,
    sink: &mut K,
    course: &mut Course,
    steps: &mut Steps<L>,
) -> Result<(), Status>
    requires ready { IsReady D.seen D.may_leave course.old disk.old machine.old }
    ensures ready { OnOk result (IsReady D.seen D.may_leave course.new disk.new machine.new) }
    ensures begun { OnOk result (course.new.begun.items ≡ []) }

    // Whatever lines were answered before, and whatever comes behind.
    ensures serves { (story : Story D) (rest behind : List ℕ) → lines_of rest ≡ course.old.begun.items ∷ lines_of behind
        → IsServing D.moment D.left_since D.seen D.may_leave story rest course.old
        (K.written sink.old) disk.old machine.old
        → ServesOn D.moment D.left_since D.seen D.may_leave story behind course.new
        (K.written sink.new) disk.new machine.new result }

    // Causes.
    ensures causes { IfErr result IsLineError }
    ensures failed { IsErrOf result Status.Disk → Rose (D.faults disk.old) (D.faults disk.new) }
    ensures write { IsErrOf result Status.Write → Rose (K.faults sink.old) (K.faults sink.new) }
    ensures disk_never_falls { D.faults disk.old ≤ D.faults disk.new }
    ensures sink_never_falls { K.faults sink.old ≤ K.faults sink.new }
{
    let is_full = course.lines == LINES_MAX;
    if is_full {
        return Err(Status::TooLong);
    }
    let line = course.begun.as_slice();
    match answer_line(alloc, disk, machine, course.phase, line, steps) {
        Ok(told) => match write_answer(alloc, sink, course, &told) {
            Ok(()) => Ok(()),
            Err(status) => Err(status),
        },
        Err(Stopped::Disk) => Err(Status::Disk),
        Err(Stopped::Memory) => Err(Status::Memory),
    }
}
