//! The serial run: what one session asks, one after another.
ghost use Rattle.std.specs.Prelude.{◌≡◌, ◌∷◌, [], IfOk};
ghost use Rattle.pol_history.specs.Machine.{Machine as OneMachine, step_of};
ghost use Rattle.pol_machine.specs.declared.asked.Asked.TheVariants as question;
ghost use Rattle.pol_machine.specs.declared.asked.SerialAnswer.TheVariants as told;
ghost use Rattle.pol_machine.specs.Serial.{LedTo, SaidTo, events_of};
ghost use Rattle.pol_machine.specs.Short.{IsShortAsked};
ghost use Rattle.pol_machine.specs.Stands.{IsGiven, Stands, options_in};

use crate::asked::{Asked, SerialAnswer};
use crate::machine::Machine;
use pol_data::{Memory, Steps};
use pol_history::{Event, Reply};
use pol_model::Query;
use pol_trace::{ExplainError, explain};
use std::alloc::Global;
use std::sync::ledger::Ledger;

/// Why the packet is allowed or denied, in the present state.
fn explained(alloc: Global, machine: &Machine, query: &Query) -> Result<SerialAnswer, Memory>
    ensures { (m : OneMachine) → Stands machine.now m
        → SaidTo (options_in machine.now) m (question.Explain query.now) result }
{
    let repo = machine.repo();
    let revision = repo.revision();
    match explain(alloc, repo, query) {
        Ok(trace) => Ok(SerialAnswer::Traced { revision, trace }),
        Err(ExplainError::NoEndpoint) => Ok(SerialAnswer::Replied(Reply::NoEndpoint(revision))),
        Err(ExplainError::Memory) => Err(Memory),
    }
}

/// The slot of each live endpoint is taken and finished.
fn synced(machine: &mut Machine) -> Result<SerialAnswer, Memory>
    ensures options { options_in machine.new ≡ options_in machine.old }
    ensures led { (m : OneMachine) → Stands machine.old m
        → LedTo (options_in machine.old) m (events_of (options_in machine.old) m question.Sync) machine.new result }
    ensures said { (m : OneMachine) → Stands machine.old m → SaidTo (options_in machine.old) m question.Sync result }
{
    let revision = machine.repo().revision();
    match machine.sync() {
        Ok(full) => Ok(SerialAnswer::Synced { revision, full }),
        Err(_) => Err(Memory),
    }
}

/// The machine does the event, and its reply is the answer.
fn replied<L: Ledger>(
    machine: &mut Machine,
    event: Event,
    steps: &mut Steps<L>,
) -> Result<SerialAnswer, Memory>
    requires given { IsGiven event }
    ensures options { options_in machine.new ≡ options_in machine.old }
    ensures led { (m : OneMachine) → Stands machine.old m
        → LedTo (options_in machine.old) m (event ∷ []) machine.new result }
    ensures said { (m : OneMachine) → Stands machine.old m
        → IfOk result (λ said. said ≡ told.Replied (step_of (options_in machine.old) m event).0) }
{
    match machine.step(event, steps) {
        Ok(reply) => Ok(SerialAnswer::Replied(reply)),
        Err(_) => Err(Memory),
    }
}

/// The machine does what is asked, and the answer is that of the definition: to a commit and to a look its reply, to a sync
/// the rows of the live endpoints whose maps are too large, and to an explanation the verdict's reasons in the present state
/// ('profile').
///
/// The one error is want of memory. Then a sync has finished some slots, from the first on, and nothing else was done.
pub fn answer<L: Ledger>(
    alloc: Global,
    machine: &mut Machine,
    asked: Asked,
    steps: &mut Steps<L>,
) -> Result<SerialAnswer, Memory>
    requires short { IsShortAsked asked }
    ensures options { options_in machine.new ≡ options_in machine.old }
    ensures led { (m : OneMachine) → Stands machine.old m
        → LedTo (options_in machine.old) m (events_of (options_in machine.old) m asked) machine.new result }
    ensures said { (m : OneMachine) → Stands machine.old m → SaidTo (options_in machine.old) m asked result }
{
    match asked {
        Asked::Commit(request) => replied(machine, Event::Commit(request), steps),
        Asked::Sync => synced(machine),
        Asked::Look(query) => replied(machine, Event::Look(query), steps),
        Asked::Explain(query) => explained(alloc, machine, &query),
    }
}
