//! The lines in a piece of the input.
ghost use Rattle.std.specs.Prelude.{◌≡◌, ◌<◌, ◌≤◌, ◌++◌, ◌∷◌, ℕ, List, IfErr, IfNone, IfSome, IsErrOf, IsTrue, OnOk, length};
ghost use Rattle.pol_script.specs.Lines.{is_one_line, newline};
ghost use Rattle.pol_streams.specs.Faults.{Rose};
ghost use Rattle.policyd_kept.specs.Serving.{IsLineError, IsReady, IsServing, ServesOn, Story};

use crate::course::Course;
use crate::line::answer_begun;
use memchr::memchr;
use pol_data::{Memory, Steps};
use pol_disk::Disk;
use pol_machine::Machine;
use pol_status::Status;
use pol_streams::Sink;
use std::alloc::Global;
use std::sync::ledger::Ledger;

/// The bytes before the first newline, and those behind it; none where there is no newline.
fn split_newline(bytes: &[u8]) -> Option<(&[u8], &[u8])>
    ensures none { IfNone result (IsTrue (is_one_line bytes.now)) }
    ensures parts { IfSome result (λ parts. bytes.now ≡ parts.0.now ++ newline ∷ parts.1.now) }
    ensures front { IfSome result (λ parts. IsTrue (is_one_line parts.0.now)) }
    ensures shorter { IfSome result (λ parts. length parts.1.now < length bytes.now) }
{
    match memchr(b'\n', bytes) {
        Some(end) => Some((&bytes[..end], &bytes[end + 1..])),
        None => None,
    }
}

/// These bytes of the line have come. The one error is want of memory.
fn go_on(course: &mut Course, bytes: &[u8]) -> Result<(), Memory>
    ensures begun { OnOk result (course.new.begun.items ≡ course.old.begun.items ++ bytes.now) }
    ensures phase { course.new.phase ≡ course.old.phase }
    ensures marked { course.new.marked ≡ course.old.marked }
    ensures lines { course.new.lines ≡ course.old.lines }
{
    course.begun.extend_from_slice(bytes)
}

/// The line whose last bytes these are is answered.
fn answer_ended<K: Sink, D: Disk, L: Ledger>(
    alloc: Global,
    disk: &mut D,
    machine: &mut Machine,
    sink: &mut K,
    course: &mut Course,
    front: &[u8],
    steps: &mut Steps<L>,
) -> Result<(), Status>
    requires ready { IsReady D.seen D.may_leave course.old disk.old machine.old }
    requires one_line { IsTrue (is_one_line front.now) }
    ensures ready { OnOk result (IsReady D.seen D.may_leave course.new disk.new machine.new) }

    // Whatever lines were answered before, and whatever comes behind.
    ensures serves { (story : Story D) (behind : List ℕ) → IsServing D.moment D.left_since D.seen D.may_leave story
        (course.old.begun.items ++ front.now ++ newline ∷ behind) course.old (K.written sink.old) disk.old machine.old
        → ServesOn D.moment D.left_since D.seen D.may_leave story
        (course.new.begun.items ++ behind) course.new (K.written sink.new) disk.new machine.new result }

    // Causes.
    ensures causes { IfErr result IsLineError }
    ensures failed { IsErrOf result Status.Disk → Rose (D.faults disk.old) (D.faults disk.new) }
    ensures write { IsErrOf result Status.Write → Rose (K.faults sink.old) (K.faults sink.new) }
    ensures disk_never_falls { D.faults disk.old ≤ D.faults disk.new }
    ensures sink_never_falls { K.faults sink.old ≤ K.faults sink.new }
{
    match go_on(course, front) {
        Ok(()) => match answer_begun(alloc, disk, machine, sink, course, steps) {
            Ok(()) => Ok(()),
            Err(status) => Err(status),
        },
        Err(_) => Err(Status::Memory),
    }
}

/// Each line that ends in a piece is answered, and what stands behind the last newline has come of the next.
pub(crate) fn answer_piece<K: Sink, D: Disk, L: Ledger>(
    alloc: Global,
    disk: &mut D,
    machine: &mut Machine,
    sink: &mut K,
    course: &mut Course,
    piece: &[u8],
    steps: &mut Steps<L>,
) -> Result<(), Status>
    requires ready { IsReady D.seen D.may_leave course.old disk.old machine.old }
    ensures ready { OnOk result (IsReady D.seen D.may_leave course.new disk.new machine.new) }

    // Whatever lines were answered before, and whatever comes behind.
    ensures serves { (story : Story D) (more : List ℕ) → IsServing D.moment D.left_since D.seen D.may_leave story
        (course.old.begun.items ++ piece.now ++ more) course.old (K.written sink.old) disk.old machine.old
        → ServesOn D.moment D.left_since D.seen D.may_leave story
        (course.new.begun.items ++ more) course.new (K.written sink.new) disk.new machine.new result }

    // Causes.
    ensures causes { IfErr result IsLineError }
    ensures failed { IsErrOf result Status.Disk → Rose (D.faults disk.old) (D.faults disk.new) }
    ensures write { IsErrOf result Status.Write → Rose (K.faults sink.old) (K.faults sink.new) }
    ensures disk_never_falls { D.faults disk.old ≤ D.faults disk.new }
    ensures sink_never_falls { K.faults sink.old ≤ K.faults sink.new }
{
    let mut rest = piece;
    while let Some((front, behind)) = split_newline(rest) {
        match answer_ended(alloc, disk, machine, sink, course, front, steps) {
            Ok(()) => rest = behind,
            Err(status) => return Err(status),
        }
    }
    match go_on(course, rest) {
        Ok(()) => Ok(()),
        Err(_) => Err(Status::Memory),
    }
}
