//! A request is committed and kept.
ghost use Rattle.std.specs.Prelude.{◌≡◌, ◌<◌, ◌≤◌, ◌^◌, ◌++◌, ◌∷◌, [], IfOk, IsErrOf, OnErr, OnOk, Some, false, length};
ghost use Rattle.pol_disk.specs.Calls.{Runs, StopsIn};
ghost use Rattle.pol_disk.specs.Images.{LeavesOnly};
ghost use Rattle.pol_history.specs.Machine.{Machine as OneMachine};
ghost use Rattle.pol_history.specs.declared.machine.Event.TheVariants as step;
ghost use Rattle.pol_journal.specs.Journal.{IsJournalOrOneMore, asked_in};
ghost use Rattle.pol_kept.specs.Calls.{calls_of_commit};
ghost use Rattle.pol_kept.specs.Errors.{answered, loses};
ghost use Rattle.pol_kept.specs.Keeps.{Commits, IsKept, requests_in};
ghost use Rattle.pol_machine.specs.Cost.{Costs};
ghost use Rattle.pol_machine.specs.Stands.{Stands, options_in};
ghost use Rattle.pol_record_log.specs.Records.{record_of};
ghost use Rattle.pol_record_log.specs.Steps.{calls_later};
ghost use Rattle.pol_repo.specs.Repository.{state_in};
ghost use Rattle.pol_streams.specs.Faults.{Rose};

use crate::error::KeptError;
use pol_data::{Memory, Steps};
use pol_disk::Disk;
use pol_machine::{Event, Machine, Reply};
use pol_model::{Committed, Request};
use pol_record_log::{append, write_record};
use std::alloc::Global;
use std::sync::ledger::Ledger;

/// The answer to a commit.
fn answered(reply: Reply) -> Result<Committed, KeptError>
    ensures { result ≡ answered reply }
{
    match reply {
        Reply::Committed(done) => Ok(done),
        Reply::Refused(refused) => Err(KeptError::Refused(refused)),
        _ => Err(KeptError::Memory),
    }
}

/// Whether the disk is lost after a commit that was answered so.
pub(crate) fn loses(done: &Result<Committed, KeptError>) -> bool
    ensures { result ≡ loses done.now }
{
    matches!(done, Err(KeptError::Disk))
}

/// The machine commits the request, or refuses it. After want of memory it is as before.
fn step<L: Ledger>(
    machine: &mut Machine,
    request: Request,
    steps: &mut Steps<L>,
) -> Result<Committed, KeptError>
    ensures options { options_in machine.new ≡ options_in machine.old }
    ensures machine { (m : OneMachine) → Stands machine.old m
        → Commits (options_in machine.old) m request machine.new result }
    ensures no_call { loses result ≡ false }
    ensures cost { Costs (state_in machine.old.repo) (step.Commit request) steps.old steps.new }
{
    // A place has no numbers for a list so long.
    if !request.is_short() {
        return Err(KeptError::Memory);
    }
    match machine.step(Event::Commit(request), steps) {
        Ok(reply) => answered(reply),
        Err(_) => Err(KeptError::Memory),
    }
}

/// The line's record, and a closed gate behind it.
fn record_for(alloc: Global, line: &[u8]) -> Result<Vec<u8>, Memory>
    ensures record { IfOk result (λ behind. behind.items ≡ record_of line.now ++ 0 ∷ []) }
    ensures short { OnOk result (length line.now < 2 ^ 32) }
{
    // A record has no numbers for a line so long.
    if line.len() > u32::MAX as usize {
        return Err(Memory);
    }
    write_record(alloc, line)
}

/// A request and its line are kept, on a disk that is lent for the call: the machine commits the request, the line is written
/// behind the last gate with a closed gate behind it and synced, and then the last gate is opened and synced. All memory is taken
/// before.
///
/// `Refused` comes exactly where the request has a fault, `Disk` only at a fault of the disk; the machine has made the step then.
/// `Memory` is want of memory, and comes also where the line, or a list of the request, is longer than a record or a place has
/// numbers for. After `Refused` and `Memory` the disk is as before, and no call of it was made.
pub fn commit_over<D: Disk, L: Ledger>(
    alloc: Global,
    disk: &mut D,
    machine: &mut Machine,
    line: &[u8],
    request: Request,
    steps: &mut Steps<L>,
) -> Result<Committed, KeptError>
    requires read { asked_in line.now ≡ Some request }
    requires kept { IsKept D.seen D.may_leave disk.old machine.old }

    // The machine.
    ensures options { options_in machine.new ≡ options_in machine.old }
    ensures machine { (m : OneMachine) → Stands machine.old m
        → Commits (options_in machine.old) m request machine.new result }
    ensures accepted { OnOk result (requests_in machine.new ≡ requests_in machine.old ++ request ∷ []) }
    ensures too_long { 2 ^ 32 ≤ length line.now → IsErrOf result KeptError.Memory }
    ensures cost { Costs (state_in machine.old.repo) (step.Commit request) steps.old steps.new }

    // The disk, which is lost where one of its calls failed.
    ensures kept { loses result ≡ false → IsKept D.seen D.may_leave disk.new machine.new }
    ensures untouched { OnErr result (loses result ≡ false → disk.new ≡ disk.old) }
    ensures failed { IsErrOf result KeptError.Disk → Rose (D.faults disk.old) (D.faults disk.new) }

    // A crash at any moment leaves a journal of the requests before, or of this one more.
    ensures any_moment { LeavesOnly D.moment D.left_since disk.old disk.new
        (IsJournalOrOneMore (options_in machine.old) (requests_in machine.old) request) }

    // The calls, and the counts.
    ensures calls { OnOk result (Runs D.does D.fails disk.old (calls_of_commit (D.seen disk.old) line.now) disk.new) }
    ensures stops { IsErrOf result KeptError.Disk
        → StopsIn D.does D.fails disk.old (calls_of_commit (D.seen disk.old) line.now) disk.new }
    ensures clock { OnOk result (D.clock disk.new ≡ calls_later 4 (D.clock disk.old)) }
    ensures never_falls { D.faults disk.old ≤ D.faults disk.new }
{
    match record_for(alloc, line) {
        Ok(behind) => match step(machine, request, steps) {
            Ok(done) => match append(disk, behind.as_slice()) {
                Ok(()) => Ok(done),
                Err(_) => Err(KeptError::Disk),
            },
            Err(why) => Err(why),
        },
        Err(_) => Err(KeptError::Memory),
    }
}
