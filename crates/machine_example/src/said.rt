//! Events of a machine, and what it replies.
use anyhow::Result;
use pol_data::Steps;
use pol_machine::{Event, Machine, Reply, SerialAnswer};
use pol_mapkey::Word;
use pol_model::{Committed, FullSlot, Query, Request};
use std::sync::ledger::Ledger;

fn word_of(word: Word) -> &'static str {
    match word {
        Word::Allowed => "allowed",
        Word::DeniedByRule => "denied-by-rule",
        Word::DeniedByDefault => "denied-by-default",
    }
}

fn show_committed<R: Print>(rt: &R, done: Committed) -> Result<()> {
    match done.identity {
        Some(number) => println!(rt; "committed {} identity {number}", done.revision)?,
        None => println!(rt; "committed {}", done.revision)?,
    }
    Ok(())
}

fn show<R: Print>(rt: &R, reply: Reply) -> Result<()> {
    match reply {
        Reply::Committed(done) => show_committed(rt, done)?,
        Reply::Refused(refused) => println!(rt; "refused at {}", refused.revision)?,
        Reply::Took(revision) => println!(rt; "took {revision}")?,
        Reply::Gone => println!(rt; "gone")?,
        Reply::Idle => println!(rt; "idle")?,
        Reply::Already(revision) => println!(rt; "already {revision}")?,
        Reply::Full { revision, count } => println!(rt; "full {revision} {count}")?,
        Reply::Published(revision) => println!(rt; "published {revision}")?,
        Reply::Verdict { revision, word } => println!(rt; "{} at {revision}", word_of(word))?,
        Reply::NoEndpoint(revision) => println!(rt; "noendpoint at {revision}")?,
        Reply::NotYet(revision) => println!(rt; "notyet at {revision}")?,
    }
    Ok(())
}

/// Shows an answer to one session.
pub(crate) fn show_said<R: Print>(rt: &R, said: SerialAnswer) -> Result<()> {
    match said {
        SerialAnswer::Replied(reply) => show(rt, reply),
        SerialAnswer::Synced { revision, full } => show_synced(rt, revision, full.as_slice()),
        SerialAnswer::Traced { revision, trace } => {
            println!(rt;
                "trace {} at {revision} remote {}",
                word_of(trace.word),
                trace.remote
            )?;
            Ok(())
        }
    }
}

fn show_synced<R: Print>(rt: &R, revision: u64, full: &[FullSlot]) -> Result<()> {
    println!(rt; "synced {revision}")?;
    for row in full {
        println!(rt; "full {}@{}={}", row.name.as_str(), row.revision, row.count)?;
    }
    Ok(())
}

/// Commits the request, and shows the reply.
pub(crate) fn commit<R: Print, L: Ledger>(
    rt: &R,
    machine: &mut Machine,
    request: Option<Request>,
    steps: &mut Steps<L>,
) -> Result<()> {
    let Some(request) = request else {
        return Ok(());
    };
    if !request.is_short() {
        return Ok(());
    }
    let reply = machine.step(Event::Commit(request), steps)?;
    show(rt, reply)
}

/// Takes for the slot, and shows the reply.
pub(crate) fn take<R: Print, L: Ledger>(
    rt: &R,
    machine: &mut Machine,
    slot: u32,
    steps: &mut Steps<L>,
) -> Result<()> {
    let reply = machine.step(Event::Take(slot), steps)?;
    show(rt, reply)
}

/// Finishes what the slot has taken, and shows the reply.
pub(crate) fn finish<R: Print, L: Ledger>(
    rt: &R,
    machine: &mut Machine,
    slot: u32,
    steps: &mut Steps<L>,
) -> Result<()> {
    let reply = machine.step(Event::Finish(slot), steps)?;
    show(rt, reply)
}

/// Asks for a verdict, and shows the reply.
pub(crate) fn look<R: Print, L: Ledger>(
    rt: &R,
    machine: &mut Machine,
    query: Option<Query>,
    steps: &mut Steps<L>,
) -> Result<()> {
    let Some(query) = query else {
        return Ok(());
    };
    let reply = machine.step(Event::Look(query), steps)?;
    show(rt, reply)
}
