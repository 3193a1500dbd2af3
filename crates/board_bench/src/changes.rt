//! One key that comes or goes: the commit and the publication.
ghost use Rattle.std.specs.Prelude.{◌≡◌, true};
ghost use Rattle.pol_history.specs.Meet.{has};

use crate::asked::{identity, no_identity};
use crate::filled::{Sizes, commit, filled, publish};
use crate::stand::Seats;
use crate::watch::Watch;
use pol_data::{Memory, Steps};
use pol_model::Request;
use pol_node::{Desk, NodeName};
use std::alloc::Global;
use std::marker::Brand;
use std::rt::Clock;
use std::sync::ledger::{Blank, Ledger};
use std::sync::{Mutex, Wait};

/// How often the identity comes and goes, each time with four events; the shortest figures count.
const ROUNDS: u32 = 250;

/// How often it comes and goes between the two times.
const TURNS: u32 = 10_000;

/// The identities that stay, of which each gives the map one key.
const IDENTITIES: u32 = 4;

/// Nanoseconds of one change.
#[derive(Clone, Copy)]
pub(crate) struct Spent {
    /// The commit, which publishes the board with no key changed.
    pub(crate) commit: u128,
    /// The regeneration, which publishes the board with one key changed.
    pub(crate) publication: u128,
    /// Another regeneration, which finds that all is published.
    pub(crate) nothing: u128,
}

impl Spent {
    /// The lesser ones of both.
    fn lesser(self, other: Spent) -> Spent {
        Spent {
            commit: self.commit.min(other.commit),
            publication: self.publication.min(other.publication),
            nothing: self.nothing.min(other.nothing),
        }
    }
}

/// The shortest of a board with few events before, and of the same with many.
#[derive(Clone, Copy)]
pub(crate) struct ChangeFigures {
    pub(crate) early: Spent,
    pub(crate) late: Spent,
}

/// Commits the request and publishes the map of the first slot.
fn time_change<N: NodeName, W: Clock + Wait, R: Wait + Drop, L: Ledger>(
    rt: &W,
    watch: Watch,
    alloc: Global,
    desk: &Mutex<Desk<N, R>>,
    seats: &mut Seats<N>,
    request: Request,
    steps: &mut Steps<L>,
) -> Result<Spent, Memory>
    requires handed_out { has N.passes seats.old.commits.number ≡ true }
    ensures number { seats.new.commits.number ≡ seats.old.commits.number }
{
    let start = watch.nanos(rt);
    commit(rt, alloc, desk, &mut seats.commits, request, steps)?;
    let committed = watch.nanos(rt);
    publish(rt, alloc, desk, &mut seats.slot, 0)?;
    let published = watch.nanos(rt);
    if seats.slot.regenerate_over(rt, alloc, desk, 0).is_err() {
        return Err(Memory);
    }
    let over = watch.nanos(rt);
    Ok(Spent {
        commit: committed.wrapping_sub(start),
        publication: published.wrapping_sub(committed),
        nothing: over.wrapping_sub(published),
    })
}

/// An identity more comes, and the map follows; it goes, and the map follows.
fn time_turn<N: NodeName, W: Clock + Wait, R: Wait + Drop, L: Ledger>(
    rt: &W,
    watch: Watch,
    alloc: Global,
    desk: &Mutex<Desk<N, R>>,
    seats: &mut Seats<N>,
    steps: &mut Steps<L>,
) -> Result<Spent, Memory>
    requires handed_out { has N.passes seats.old.commits.number ≡ true }
    ensures number { seats.new.commits.number ≡ seats.old.commits.number }
{
    let request = identity(alloc, IDENTITIES)?;
    let comes = time_change(rt, watch, alloc, desk, seats, request, steps)?;
    let request = no_identity(alloc, IDENTITIES)?;
    let goes = time_change(rt, watch, alloc, desk, seats, request, steps)?;
    Ok(comes.lesser(goes))
}

/// The shortest of so many turns.
fn time_turns<N: NodeName, W: Clock + Wait, R: Wait + Drop, L: Ledger>(
    rt: &W,
    watch: Watch,
    alloc: Global,
    desk: &Mutex<Desk<N, R>>,
    seats: &mut Seats<N>,
    turns: u32,
    steps: &mut Steps<L>,
) -> Result<Spent, Memory>
    requires handed_out { has N.passes seats.old.commits.number ≡ true }
    ensures number { seats.new.commits.number ≡ seats.old.commits.number }
{
    let mut least = time_turn(rt, watch, alloc, desk, seats, steps)?;
    for _turn in 1..turns {
        least = least.lesser(time_turn(rt, watch, alloc, desk, seats, steps)?);
    }
    Ok(least)
}

/// The figures before and after so many turns more.
fn time_by<N: NodeName, W: Clock + Wait, R: Wait + Drop, L: Ledger>(
    blank: Blank,
    rt: &W,
    watch: Watch,
    alloc: Global,
    desk: &Mutex<Desk<N, R>>,
    seats: &mut Seats<N>,
) -> Result<ChangeFigures, Memory>
    requires name { blank.name ≡ L.name }
    requires parts { blank.parts ≡ L.parts }
    requires some { blank.parts ≡ 1 }
    requires handed_out { has N.passes seats.old.commits.number ≡ true }
{
    let mut steps = Steps::<L>::new(blank);
    let early = time_turns(rt, watch, alloc, desk, seats, ROUNDS, &mut steps)?;
    time_turns(rt, watch, alloc, desk, seats, TURNS, &mut steps)?;
    let late = time_turns(rt, watch, alloc, desk, seats, ROUNDS, &mut steps)?;
    Ok(ChangeFigures { early, late })
}

/// The figures of a board with one small map.
pub(crate) fn time_changes<N: NodeName, W: Clock + Wait, R: Wait + Drop>(
    rt: &W,
    watch: Watch,
    alloc: Global,
    desk: &Mutex<Desk<N, R>>,
    seats: &mut Seats<N>,
) -> Result<ChangeFigures, Memory>
    requires handed_out { has N.passes seats.old.commits.number ≡ true }
{
    let sizes = Sizes {
        endpoints: 1,
        identities: IDENTITIES,
        ports: 1,
    };
    filled(rt, alloc, desk, seats, sizes)?;
    time_by::<N, W, R, Brand>(Blank::new(1), rt, watch, alloc, desk, seats)
}
