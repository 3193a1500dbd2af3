//! A source is read to its end, and each of its lines is answered as it comes.
ghost use Rattle.std.specs.Prelude.{◌≡◌, ◌⊎◌, ◌≤◌, [], IfErr, IfSome, IsErrOf, IsSomeAnd, IsTrue, List, OnOk};
ghost use Rattle.std.specs.Io.KnownBytes.{IsAtEnd, Keeps};
ghost use Rattle.pol_kept.specs.Keeps.{HoldsStill, IsKept, requests_in};
ghost use Rattle.pol_machine.specs.Serial.{machine_of};
ghost use Rattle.pol_machine.specs.Stands.{Stands, options_in};
ghost use Rattle.pol_model.specs.declared.request.Request.{Request as AnyRequest};
ghost use Rattle.pol_play_kept.specs.Images.{AllAre, OfScript};
ghost use Rattle.pol_play_kept.specs.Played.{IsDamaged, IsSomeJournal};
ghost use Rattle.pol_status.specs.Ends.{is_answered};
ghost use Rattle.pol_status.specs.Limits.{fits_limits, is_too_long};
ghost use Rattle.pol_streams.specs.Bytes.{ConsumesSome};
ghost use Rattle.pol_streams.specs.Faults.{DidNotRise, Rose};
ghost use Rattle.policyd_kept.specs.Ends.{end_of_lines, has_served};
ghost use Rattle.policyd_kept.specs.Served.{Serves};
ghost use Rattle.policyd_kept.specs.Serving.{IsFirst, IsLineError, IsReady, IsServing, ServesOn, Story};

use crate::course::Course;
use crate::line::answer_begun;
use crate::piece::answer_piece;
use pol_data::Steps;
use pol_disk::Disk;
use pol_kept::{OpenError, open_over};
use pol_machine::Machine;
use pol_model::Options;
use pol_play_kept::config_of;
use pol_status::Status;
use pol_streams::{Failed, Sink, Source};
use std::alloc::Global;
use std::marker::Brand;
use std::sync::ledger::{Blank, Ledger};

// The most bytes that one read is asked for.
const PIECE: usize = 65_536;

// The most bytes of a script.
const INPUT_MAX: usize = 67_108_864;

/// What has come of the last line, which no newline ends, is answered where it isn't empty.
fn answer_last<K: Sink, D: Disk, L: Ledger>(
    alloc: Global,
    disk: &mut D,
    machine: &mut Machine,
    sink: &mut K,
    course: &mut Course,
    steps: &mut Steps<L>,
) -> Result<(), Status>
    requires ready { IsReady D.seen D.may_leave course.old disk.old machine.old }
    ensures ready { OnOk result (IsReady D.seen D.may_leave course.new disk.new machine.new) }
    ensures serves { (story : Story D)
        → IsServing D.moment D.left_since D.seen D.may_leave story course.old.begun.items course.old
        (K.written sink.old) disk.old machine.old → ServesOn D.moment D.left_since D.seen D.may_leave story
        [] course.new (K.written sink.new) disk.new machine.new result }

    // Causes.
    ensures causes { IfErr result IsLineError }
    ensures failed { IsErrOf result Status.Disk → Rose (D.faults disk.old) (D.faults disk.new) }
    ensures write { IsErrOf result Status.Write → Rose (K.faults sink.old) (K.faults sink.new) }
    ensures disk_never_falls { D.faults disk.old ≤ D.faults disk.new }
    ensures sink_never_falls { K.faults sink.old ≤ K.faults sink.new }
{
    let line = course.begun.as_slice();
    if line.is_empty() {
        return Ok(());
    }
    match answer_begun(alloc, disk, machine, sink, course, steps) {
        Ok(()) => Ok(()),
        Err(status) => Err(status),
    }
}

/// Each line of a source is answered as it comes, from the first on.
fn serve_lines<S: Source, K: Sink, D: Disk, L: Ledger>(
    alloc: Global,
    disk: &mut D,
    machine: &mut Machine,
    source: &mut S,
    sink: &mut K,
    course: &mut Course,
    steps: &mut Steps<L>,
) -> Result<(), Status>
    requires ready { IsReady D.seen D.may_leave course.old disk.old machine.old }
    requires opened { Stands machine.old (machine_of (options_in machine.old) (requests_in machine.old)) }
    requires first { IsFirst course.old }
    ensures serves { OfScript (S.left source.old) (λ script.
        Serves D.moment D.left_since D.may_leave (options_in machine.old) (requests_in machine.old)
        script disk.old disk.new (K.written sink.old) (K.written sink.new) (end_of_lines course.new.marked result)) }

    // Causes.
    ensures causes { IfErr result (λ status. (status ≡ Status.Read) ⊎ IsLineError status) }
    ensures read { IsErrOf result Status.Read → Rose (S.faults source.old) (S.faults source.new) }
    ensures within { OnOk result (IfSome (S.left source.old) (λ script. IsTrue (fits_limits script))) }
    ensures failed { IsErrOf result Status.Disk → Rose (D.faults disk.old) (D.faults disk.new) }
    ensures write { IsErrOf result Status.Write → Rose (K.faults sink.old) (K.faults sink.new) }

    // What stays.
    ensures taken { ConsumesSome (S.left source.old) (S.left source.new) }
    ensures at_end { OnOk result (IsAtEnd (S.left source.new)) }
    ensures never_falls { D.faults disk.old ≤ D.faults disk.new }
{
    let mut buffer = match vec![in alloc; 0; PIECE] {
        Ok(buffer) => buffer,
        Err(_) => return Err(Status::Memory),
    };
    let piece = buffer.as_mut_slice();
    let mut room = INPUT_MAX;
    loop {
        let count = match source.read(piece) {
            Ok(count) => count,
            Err(Failed) => return Err(Status::Read),
        };
        let ended = count == 0;
        if ended {
            return answer_last(alloc, disk, machine, sink, course, steps);
        }
        if count > room {
            return Err(Status::TooLong);
        }
        match answer_piece(alloc, disk, machine, sink, course, &piece[..count], steps) {
            Ok(()) => room -= count,
            Err(status) => return Err(status),
        }
    }
}

/// The same, over a machine whose journal was opened.
fn serve_opened<L: Ledger, S: Source, K: Sink, D: Disk>(
    blank: Blank,
    alloc: Global,
    disk: &mut D,
    mut machine: Machine,
    source: &mut S,
    sink: &mut K,
) -> Status
    requires name { blank.name ≡ L.name }
    requires parts { blank.parts ≡ L.parts }
    requires some { blank.parts ≡ 1 }
    requires kept { IsKept D.seen D.may_leave disk.old machine }
    requires opened { Stands machine (machine_of (options_in machine) (requests_in machine)) }
    ensures serves { OfScript (S.left source.old) (λ script.
        Serves D.moment D.left_since D.may_leave (options_in machine)
        (requests_in machine) script disk.old disk.new (K.written sink.old) (K.written sink.new) result) }

    // Causes.
    ensures no_usage { result ≡ Status.Usage → ⊥ }
    ensures no_damage { result ≡ Status.Damaged → ⊥ }
    ensures read { result ≡ Status.Read → Rose (S.faults source.old) (S.faults source.new) }
    ensures write { result ≡ Status.Write → Rose (K.faults sink.old) (K.faults sink.new) }
    ensures within { IsTrue (is_answered result) → IfSome (S.left source.old) (λ script. IsTrue (fits_limits script)) }
    ensures failed { result ≡ Status.Disk → Rose (D.faults disk.old) (D.faults disk.new) }

    // What stays.
    ensures taken { ConsumesSome (S.left source.old) (S.left source.new) }
    ensures at_end { IsTrue (is_answered result) → IsAtEnd (S.left source.new) }
    ensures never_falls { D.faults disk.old ≤ D.faults disk.new }
{
    let mut steps = Steps::<L>::new(blank);
    let mut course = Course::start(alloc);
    match serve_lines(
        alloc,
        disk,
        &mut machine,
        source,
        sink,
        &mut course,
        &mut steps,
    ) {
        Ok(()) => Status::answered(course.marked),
        Err(status) => status,
    }
}

/// Opens the journal on the disk, and then answers each line of the source as it comes, in one session after the journal's requests.
/// An accepted request is on the disk before a byte of its answer is written ('profile').
///
/// `Damaged` comes exactly where the bytes on the disk aren't a journal, if no call of the disk failed before that was known; nothing
/// is read then. `Disk` comes only where a call of the disk failed, `Read` where a read failed, `Write` where a write did, and `TooLong`
/// only where the script has over 67,108,864 bytes or over 1,000,000 lines. At `Read` and `TooLong` the answers to the first lines are
/// written; no clause says to how many. Want of memory may come at any point; what was committed stays.
pub fn serve<S: Source, K: Sink, D: Disk>(
    alloc: Global,
    options: Options,
    source: &mut S,
    sink: &mut K,
    disk: &mut D,
) -> Status
    requires limit { IsSomeAnd options.map_max (λ limit. limit ≤ 65536) }

    // Where each image that a crash might leave was a journal of the same requests: what was written and what a crash may leave, by the
    // status, and at every moment. This speaks of the script that was read, also where the source doesn't tell its bytes.
    ensures served { (start : List AnyRequest)
        → AllAre options start (D.may_leave disk.old) → OfScript (S.left source.old) (λ script.
        Serves D.moment D.left_since D.may_leave options start script disk.old disk.new
        (K.written sink.old) (K.written sink.new) result) }

    // Causes.
    ensures no_usage { result ≡ Status.Usage → ⊥ }
    ensures read { result ≡ Status.Read → Rose (S.faults source.old) (S.faults source.new) }
    ensures write { result ≡ Status.Write → Rose (K.faults sink.old) (K.faults sink.new) }
    ensures too_long { result ≡ Status.TooLong → IfSome (S.left source.old) (λ script. IsTrue (is_too_long script)) }
    ensures within { IsTrue (is_answered result) → IfSome (S.left source.old) (λ script. IsTrue (fits_limits script)) }
    ensures failed { result ≡ Status.Disk → Rose (D.faults disk.old) (D.faults disk.new) }
    ensures damaged { result ≡ Status.Damaged → IsDamaged options (D.seen disk.old) }
    ensures journal { IsTrue (has_served result) → IsSomeJournal options (D.seen disk.old) }
    ensures complete { DidNotRise (S.faults source.old) (S.faults source.new)
        → DidNotRise (K.faults sink.old) (K.faults sink.new)
        → DidNotRise (D.faults disk.old) (D.faults disk.new)
        → IsSomeJournal options (D.seen disk.old)
        → IsSomeAnd (S.left source.old) (λ script. IsTrue (fits_limits script))
        → IsTrue (is_answered result) ⊎ (result ≡ Status.Memory) }

    // What stays.
    ensures taken { ConsumesSome (S.left source.old) (S.left source.new) }
    ensures at_end { IsTrue (is_answered result) → IsAtEnd (S.left source.new) }
    ensures unread { result ≡ Status.Damaged → source.new ≡ source.old }
    ensures silent { result ≡ Status.Damaged → Keeps (K.written sink.old) (K.written sink.new) }
    ensures damaged_stays { result ≡ Status.Damaged
        → HoldsStill D.seen D.may_leave D.moment D.left_since disk.old disk.new }
    ensures never_falls { D.faults disk.old ≤ D.faults disk.new }
{
    let config = config_of(options);
    match open_over(alloc, disk, config) {
        Ok(machine) => serve_opened::<Brand, S, K, D>(
            Blank::new(1),
            alloc,
            disk,
            machine,
            source,
            sink,
        ),
        Err(OpenError::Damaged { at: _ }) => Status::Damaged,
        Err(OpenError::Disk) => Status::Disk,
        Err(OpenError::Memory) => Status::Memory,
    }
}
