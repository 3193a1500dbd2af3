//! A line of a script, played over a desk and the slot of its only endpoint.
ghost use Rattle.std.specs.Prelude.{◌≡◌, true};
ghost use Rattle.pol_history.specs.Meet.{has};

use pol_answer::Answer;
use pol_board::LookError;
use pol_data::{Items, Memory, Steps};
use pol_model::{CommitError, Query, Request};
use pol_node::{Desk, NodeName, Pass, Regen, Slot, TraceError};
use pol_script::{Command, read_line};
use std::alloc::Global;
use std::sync::ledger::Ledger;
use std::sync::{Mutex, MutexGuard, Wait};

pub(crate) fn commit<N: NodeName, W: Wait, R: Wait + Drop, L: Ledger>(
    rt: &W,
    alloc: Global,
    desk: &Mutex<Desk<N, R>>,
    pass: &mut Pass<N>,
    request: Request,
    steps: &mut Steps<L>,
) -> Result<Answer, Memory>
    requires handed_out { has N.passes pass.old.number ≡ true }
    ensures number { pass.new.number ≡ pass.old.number }
{
    if !request.is_short() {
        drop(request);
        return Err(Memory);
    }
    let mut desk = desk.lock(rt);
    let done = desk.commit(rt, alloc, pass, request, steps);
    MutexGuard::unlock(desk);
    match done {
        Ok(done) => Ok(Answer::Committed {
            revision: done.revision,
            identity: done.identity,
        }),
        Err(CommitError::Refused(refused)) => Ok(Answer::Refused(refused)),
        Err(CommitError::Memory) => Err(Memory),
    }
}

fn look<N: NodeName, L: Ledger>(
    pass: &mut Pass<N>,
    query: &Query,
    steps: &mut Steps<L>,
) -> Result<Answer, Memory>
    ensures number { pass.new.number ≡ pass.old.number }
{
    match pass.look(query, steps) {
        Ok(verdict) => Ok(Answer::Verdict {
            revision: verdict.revision,
            word: verdict.word,
        }),
        Err(LookError::NoEndpoint { revision }) => Ok(Answer::NoEndpoint(revision)),
        Err(LookError::NotYet { revision }) => Ok(Answer::NotYet(revision)),
        Err(LookError::NoGuard) => Err(Memory),
    }
}

fn trace<N: NodeName, W: Wait, R: Wait + Drop>(
    rt: &W,
    alloc: Global,
    desk: &Mutex<Desk<N, R>>,
    pass: &mut Pass<N>,
    query: &Query,
) -> Result<Answer, Memory>
    ensures number { pass.new.number ≡ pass.old.number }
{
    let mut desk = desk.lock(rt);
    let traced = desk.trace(rt, alloc, pass, query);
    MutexGuard::unlock(desk);
    match traced {
        Ok(traced) => Ok(Answer::Traced {
            revision: traced.revision,
            trace: traced.trace,
        }),
        Err(TraceError::NoEndpoint { revision }) => Ok(Answer::NoEndpoint(revision)),
        Err(TraceError::Memory) => Err(Memory),
    }
}

fn sync<N: NodeName, W: Wait, R: Wait + Drop>(
    rt: &W,
    alloc: Global,
    desk: &Mutex<Desk<N, R>>,
    slot: &mut Slot<N>,
) -> Result<Answer, Memory> {
    match slot.regenerate_over(rt, alloc, desk, 0) {
        Ok(Regen::Published(revision)) => Ok(Answer::Synced {
            revision,
            full: Items::empty(alloc),
        }),
        _ => Err(Memory),
    }
}

/// Plays a line. A line that isn't of a script is want of memory here, as is a map that isn't published.
pub(crate) fn play_line<N: NodeName, W: Wait, R: Wait + Drop, L: Ledger>(
    rt: &W,
    alloc: Global,
    desk: &Mutex<Desk<N, R>>,
    slot: &mut Slot<N>,
    pass: &mut Pass<N>,
    line: &str,
    steps: &mut Steps<L>,
) -> Result<Answer, Memory>
    requires handed_out { has N.passes pass.old.number ≡ true }
    ensures number { pass.new.number ≡ pass.old.number }
{
    match read_line(alloc, line.as_bytes()) {
        Ok(
            Command::Commit {
                session: _,
                request,
            },
        ) => commit(rt, alloc, desk, pass, request, steps),
        Ok(Command::Look { session: _, query }) => look(pass, &query, steps),
        Ok(Command::Trace { session: _, query }) => trace(rt, alloc, desk, pass, &query),
        Ok(Command::Sync { session: _ }) => sync(rt, alloc, desk, slot),
        _ => Err(Memory),
    }
}
