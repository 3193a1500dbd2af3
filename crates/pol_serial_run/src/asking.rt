//! A command that commits nothing is answered.
ghost use Rattle.std.specs.Prelude.{◌≡◌, ◌↔◌, IfOk, Ok, OnOk, false};
ghost use Rattle.pol_history.specs.Machine.{Machine as OneMachine};
ghost use Rattle.pol_machine.specs.Serial.{IsSaid, machine_asked};
ghost use Rattle.pol_machine.specs.Short.{IsShortAsked};
ghost use Rattle.pol_machine.specs.Stands.{Stands, options_in};
ghost use Rattle.pol_serial_run.specs.Asking.{IsToldAs, is_commit, reply_told, told_of};
ghost use Rattle.pol_serial_run.specs.SerialRun.{IsLineAnswer, machine_then};

use pol_answer::Answer;
use pol_data::{Memory, Steps};
use pol_history::Reply;
use pol_machine::{Asked, Machine, SerialAnswer, answer};
use pol_script::Command;
use std::alloc::Global;
use std::sync::ledger::Ledger;

/// A reply as an answer; none of what a take or a finish is replied.
fn reply_told(reply: Reply) -> Option<Answer>
    ensures { result ≡ reply_told reply }
{
    match reply {
        Reply::Committed(done) => Some(Answer::Committed {
            revision: done.revision,
            identity: done.identity,
        }),
        Reply::Refused(refused) => Some(Answer::Refused(refused)),
        Reply::Verdict { revision, word } => Some(Answer::Verdict { revision, word }),
        Reply::NoEndpoint(revision) => Some(Answer::NoEndpoint(revision)),
        Reply::NotYet(revision) => Some(Answer::NotYet(revision)),
        Reply::Took(_)
        | Reply::Gone
        | Reply::Idle
        | Reply::Already(_)
        | Reply::Full { .. }
        | Reply::Published(_) => None,
    }
}

/// What a machine says, as an answer.
fn told_of(said: SerialAnswer) -> Option<Answer>
    ensures { result ≡ told_of said }
{
    match said {
        SerialAnswer::Replied(reply) => reply_told(reply),
        SerialAnswer::Synced { revision, full } => Some(Answer::Synced { revision, full }),
        SerialAnswer::Traced { revision, trace } => Some(Answer::Traced { revision, trace }),
    }
}

/// The machine's answer to a question.
fn ask<L: Ledger>(
    alloc: Global,
    machine: &mut Machine,
    asked: Asked,
    steps: &mut Steps<L>,
) -> Result<Answer, Memory>
    requires short { IsShortAsked asked }
    ensures options { options_in machine.new ≡ options_in machine.old }
    ensures stands { (m : OneMachine) → Stands machine.old m
        → OnOk result (Stands machine.new (machine_asked (options_in machine.old) m asked)) }
    ensures told { (m : OneMachine) → Stands machine.old m
        → IfOk result (IsToldAs (IsSaid (options_in machine.old) m asked)) }
{
    match answer(alloc, machine, asked, steps) {
        Ok(said) => match told_of(said) {
            Some(told) => Ok(told),
            None => Err(Memory),
        },
        Err(_) => Err(Memory),
    }
}

/// What a command that commits nothing is answered by the machine, in a phase: a look-up by the published map, an explanation by the
/// present state, a sync once the slot of each live endpoint was taken and finished, and the end of a phase by its number ('profile').
///
/// The one error is want of memory. Then a sync has finished some slots, from the first on, and nothing else was done.
pub fn answer_command<L: Ledger>(
    alloc: Global,
    machine: &mut Machine,
    phase: u64,
    command: Command,
    steps: &mut Steps<L>,
) -> Result<Answer, Memory>
    requires other { is_commit command ≡ false }
    ensures options { options_in machine.new ≡ options_in machine.old }

    // The machine is the one after the line, and its answer that of the definition.
    ensures stands { (m : OneMachine) → Stands machine.old m
        → OnOk result (Stands machine.new (machine_then (options_in machine.old) m (Ok command))) }
    ensures told { (m : OneMachine) → Stands machine.old m
        → IfOk result (IsLineAnswer (options_in machine.old) m phase (Ok command)) }
{
    match command {
        Command::Commit { .. } => unreachable!(),
        Command::Look { session: _, query } => ask(alloc, machine, Asked::Look(query), steps),
        Command::Trace { session: _, query } => ask(alloc, machine, Asked::Explain(query), steps),
        Command::Sync { session: _ } => ask(alloc, machine, Asked::Sync, steps),
        Command::Phase => Ok(Answer::Phase(phase)),
    }
}
