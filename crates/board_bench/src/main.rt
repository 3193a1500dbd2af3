//! Times looks at the board, alone, beside a writer and beside looks at policy maps alone, and changes of one key with few places
//! to read at and with many. The figures go to standard error.
#![tactic(auto)]

mod asked;
mod changes;
mod filled;
mod job;
mod looks;
mod stand;
mod tries;
mod watch;

use crate::asked::{ENDPOINTS, PACKETS, PORTS};
use crate::changes::Spent;
use crate::job::{BoardJob, Figures, run};
use crate::looks::{LookFigures, ROUNDS, Round};
use crate::tries::time_tries;
use crate::watch::Watch;
use anyhow::Result;
use std::rt::Clock;
use std::sync::Wait;
use std::thread::Threads;
use std::time::Instant;

/// Nanoseconds of one look of a round.
fn of_one(round: Round) -> u128 {
    round.nanos / u128::from(ENDPOINTS * PACKETS)
}

/// Tells what looks at boards took, and at policy maps alone.
fn tell_looks<W: Eprint>(rt: &W, identities: u32, board: LookFigures, tries: Round) -> Result<()> {
    eprintln!(rt;
        "{ENDPOINTS} endpoints of {} keys each: a look at the board {} ns ({} packets allowed), at the maps alone {} ns ({}), at the board beside a writer {} ns ({} events in that round; {} rounds of {ROUNDS} count)",
        identities.wrapping_mul(PORTS),
        of_one(board.alone),
        board.alone.allowed,
        of_one(tries),
        tries.allowed,
        of_one(board.beside),
        board.beside.events,
        board.rounds
    )?;
    Ok(())
}

/// Tells what changes of one key took.
fn tell_changes<W: Eprint>(rt: &W, readers: u32, when: &str, spent: Spent) -> Result<()> {
    eprintln!(rt;
        "{readers} places to read at, {when}: a commit {} ns, a regeneration that publishes one key more or less {} ns, one that publishes nothing {} ns",
        spent.commit, spent.publication, spent.nothing
    )?;
    Ok(())
}

/// Times a job over a board with so many places to read at, and tells its figures.
fn measure<W: Clock + Eprint + AllocGlobal + Threads + Wait + Sync>(
    rt: &W,
    watch: Watch,
    readers: u32,
    job: BoardJob,
) -> Result<()> {
    match run(rt, watch, rt.alloc(), readers, job)? {
        Figures::Looks { identities, found } => {
            let tries = time_tries(rt, watch, rt.alloc(), identities)?;
            tell_looks(rt, identities, found, tries)
        }
        Figures::Changes(found) => {
            tell_changes(rt, readers, "in the first 1,000 events", found.early)?;
            tell_changes(rt, readers, "after 41,000 events", found.late)
        }
    }
}

fn main(rt: HostRuntime) -> Result<()> {
    let watch = Watch::since(Instant::now(&rt)?);
    measure(&rt, watch, 8, BoardJob::Looks { identities: 4 })?;
    measure(&rt, watch, 8, BoardJob::Looks { identities: 1_024 })?;
    measure(&rt, watch, 8, BoardJob::Changes)?;
    measure(&rt, watch, 300, BoardJob::Changes)
}
