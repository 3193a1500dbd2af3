//! A board, and what is timed over it.
ghost use Rattle.std.specs.Prelude.{◌≡◌, ◌<◌, ◌≤◌, Some, true, map};
ghost use Rattle.pol_board.specs.Counts.{new_passes};
ghost use Rattle.pol_history.specs.Meet.{has};
ghost use Rattle.pol_model.specs.declared.options.Mode.TheVariants.{Default};

use crate::changes::{ChangeFigures, time_changes};
use crate::looks::{LookFigures, time_board};
use crate::stand::{BoardPlaces, Seats, open, places_for, seated};
use crate::watch::Watch;
use pol_board::NewBook;
use pol_data::Memory;
use pol_node::{Desk, NodeName, Pass};
use std::alloc::Global;
use std::marker::Brand;
use std::rt::Clock;
use std::sync::{Mutex, Wait};
use std::thread::Threads;

/// What is timed.
#[derive(Clone, Copy)]
pub(crate) enum BoardJob {
    /// Looks at maps that have the keys of so many identities.
    Looks { identities: u32 },
    /// Changes of one key.
    Changes,
}

/// What that took.
#[derive(Clone, Copy)]
pub(crate) enum Figures {
    Looks { identities: u32, found: LookFigures },
    Changes(ChangeFigures),
}

fn time_job<N: NodeName + Send + Sync, W: Clock + Threads + Wait + Sync, R: Wait + Drop + Send>(
    rt: &W,
    watch: Watch,
    alloc: Global,
    desk: &Mutex<Desk<N, R>>,
    seats: Seats<N>,
    job: BoardJob,
) -> Result<Figures, Memory>
    requires handed_out { has N.passes seats.commits.number ≡ true }
{
    let mut seats = seats;
    match job {
        BoardJob::Looks { identities } => {
            let found = time_board(rt, watch, alloc, desk, seats, identities)?;
            Ok(Figures::Looks { identities, found })
        }
        BoardJob::Changes => {
            let found = time_changes(rt, watch, alloc, desk, &mut seats)?;
            Ok(Figures::Changes(found))
        }
    }
}

/// The same, by the passes of a new board.
fn run_seated<N: NodeName + Send + Sync, W: Clock + Threads + Wait + Sync, R: Wait + Drop + Send>(
    rt: &W,
    watch: Watch,
    alloc: Global,
    desk: &Mutex<Desk<N, R>>,
    commits: Pass<N>,
    passes: Vec<Pass<N>>,
    job: BoardJob,
) -> Result<Figures, Memory>
    requires handed_out { has N.passes commits.number ≡ true }
{
    let seats = seated(commits, passes)?;
    time_job(rt, watch, alloc, desk, seats, job)
}

/// The same over a new board of this name.
fn run_named<N: NodeName + Send + Sync, W: Clock + Threads + Wait + Sync>(
    rt: &W,
    watch: Watch,
    alloc: Global,
    book: NewBook,
    places: BoardPlaces,
    job: BoardJob,
) -> Result<Figures, Memory>
    requires book { book ≡ N.book }
    requires options { N.options ≡ record { mode = Default; localhost = true; map_max = Some 65536 } }
    requires passes { N.passes ≡ map (λ pass. pass.number) (new_passes places.passes) }
    requires some { (0 < places.passes) × (places.passes ≤ 300) }
    requires readers { (0 < places.readers) × (places.readers ≤ places.passes) }
{
    let (desk, commits, passes) = open::<N, W>(rt, alloc, book, places)?;
    let desk = Mutex::new(desk);
    let done = run_seated(rt, watch, alloc, &desk, commits, passes, job);
    desk.into_inner().close(rt);
    done
}

/// Times that over a new board with so many places to read at.
pub(crate) fn run<W: Clock + Threads + Wait + Sync>(
    rt: &W,
    watch: Watch,
    alloc: Global,
    readers: u32,
    job: BoardJob,
) -> Result<Figures, Memory> {
    run_named::<Brand, W>(rt, watch, alloc, NewBook::new(), places_for(readers), job)
}
