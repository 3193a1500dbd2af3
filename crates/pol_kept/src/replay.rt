//! The requests of a journal are committed one after another.
ghost use Rattle.std.specs.Prelude.{◌≡◌, ◌≢◌, ◌+◌, ◌<◌, IfErr, IfOk, IsErrOf, drop, length, slice_index};
ghost use Rattle.pol_kept.specs.Errors.{is_committed};
ghost use Rattle.pol_kept.specs.Keeps.{CommitsAgain, IsReplayed, TellsDamage, requests_in};
ghost use Rattle.pol_machine.specs.Serial.{machine_of};
ghost use Rattle.pol_machine.specs.Stands.{Stands, options_in};

use crate::error::OpenError;
use pol_data::{Memory, Steps};
use pol_history::{Event, Reply};
use pol_journal::{RecordError, read_request};
use pol_machine::Machine;
use pol_model::Request;
use std::alloc::Global;
use std::marker::Brand;
use std::sync::ledger::{Blank, Ledger};

/// Whether a reply to a commit is that it was done.
fn is_committed(reply: &Reply) -> bool
    ensures { result ≡ is_committed reply.now }
{
    matches!(reply, Reply::Committed(_))
}

/// The request is committed, and whether it was: it isn't where it has a fault.
fn commit_again<L: Ledger>(
    machine: &mut Machine,
    request: Request,
    steps: &mut Steps<L>,
) -> Result<bool, Memory>
    requires stands { Stands machine.old (machine_of (options_in machine.old) (requests_in machine.old)) }
    ensures done { IfOk result (CommitsAgain (options_in machine.old) request machine.old machine.new) }
{
    // A place has no numbers for a list so long.
    if !request.is_short() {
        return Err(Memory);
    }
    let reply = machine.step(Event::Commit(request), steps)?;
    Ok(is_committed(&reply))
}

/// What stands behind the gate at this place.
fn behind_gate(bytes: &[u8], at: usize) -> &[u8]
    requires { at < length bytes.now }
    ensures { result.now ≡ drop (at + 1) bytes.now }
{
    &bytes[at + 1..]
}

/// The record behind the open gate at this place is read, and its request committed. The next gate's place.
fn replay_one<L: Ledger>(
    alloc: Global,
    machine: &mut Machine,
    bytes: &[u8],
    at: usize,
    steps: &mut Steps<L>,
) -> Result<usize, OpenError>
    requires so_far { IsReplayed (options_in machine.old) bytes.now at machine.old }
    requires is_open { slice_index bytes.now at ≢ 0 }
    ensures further { IfOk result (λ next. at < next) }
    ensures ok { IfOk result (λ next. IsReplayed (options_in machine.old) bytes.now next machine.new) }
    ensures damaged { IfErr result (TellsDamage (options_in machine.old) bytes.now) }
    ensures no_call { IsErrOf result OpenError.Disk → ⊥ }
{
    match read_request(alloc, behind_gate(bytes, at)) {
        Ok((request, next)) => match commit_again(machine, request, steps) {
            Ok(true) => Ok(bytes.len() - next.len()),
            Ok(false) => Err(OpenError::Damaged { at: at as u64 }),
            Err(_) => Err(OpenError::Memory),
        },
        Err(RecordError::Damaged) => Err(OpenError::Damaged { at: at as u64 }),
        Err(RecordError::Memory) => Err(OpenError::Memory),
    }
}

/// The same for each record, up to a closed gate. Its place.
fn replay_all<L: Ledger>(
    alloc: Global,
    machine: &mut Machine,
    bytes: &[u8],
    steps: &mut Steps<L>,
) -> Result<usize, OpenError>
    requires so_far { IsReplayed (options_in machine.old) bytes.now 0 machine.old }
    ensures ok { IfOk result (λ end. IsReplayed (options_in machine.old) bytes.now end machine.new) }
    ensures closed { IfOk result (λ end. slice_index bytes.now end ≡ 0) }
    ensures damaged { IfErr result (TellsDamage (options_in machine.old) bytes.now) }
    ensures no_call { IsErrOf result OpenError.Disk → ⊥ }
{
    let mut at = 0;
    while bytes[at] != 0 {
        match replay_one(alloc, machine, bytes, at, steps) {
            Ok(next) => at = next,
            Err(why) => return Err(why),
        }
    }
    Ok(at)
}

/// That, with the steps counted by nobody.
fn replay_by<L: Ledger>(
    alloc: Global,
    machine: &mut Machine,
    bytes: &[u8],
    blank: Blank,
) -> Result<usize, OpenError>
    requires name { blank.name ≡ L.name }
    requires parts { blank.parts ≡ L.parts }
    requires some { blank.parts ≡ 1 }
    requires so_far { IsReplayed (options_in machine.old) bytes.now 0 machine.old }
    ensures ok { IfOk result (λ end. IsReplayed (options_in machine.old) bytes.now end machine.new) }
    ensures closed { IfOk result (λ end. slice_index bytes.now end ≡ 0) }
    ensures damaged { IfErr result (TellsDamage (options_in machine.old) bytes.now) }
    ensures no_call { IsErrOf result OpenError.Disk → ⊥ }
{
    let mut steps = Steps::<L>::new(blank);
    replay_all(alloc, machine, bytes, &mut steps)
}

/// The machine before its first step commits the requests of these bytes, up to a closed gate. Its place.
pub(crate) fn replay(alloc: Global, machine: &mut Machine, bytes: &[u8]) -> Result<usize, OpenError>
    requires start { IsReplayed (options_in machine.old) bytes.now 0 machine.old }
    ensures ok { IfOk result (λ end. IsReplayed (options_in machine.old) bytes.now end machine.new) }
    ensures closed { IfOk result (λ end. slice_index bytes.now end ≡ 0) }
    ensures damaged { IfErr result (TellsDamage (options_in machine.old) bytes.now) }
    ensures no_call { IsErrOf result OpenError.Disk → ⊥ }
{
    replay_by::<Brand>(alloc, machine, bytes, Blank::new(1))
}
