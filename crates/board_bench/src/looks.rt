//! Looks at a board, alone and beside a thread that commits and publishes.
ghost use Rattle.std.specs.Prelude.{◌≡◌, true};
ghost use Rattle.pol_history.specs.Meet.{has};

use crate::asked::{ENDPOINTS, PORTS, identity, no_identity, queries};
use crate::filled::{Sizes, commit, filled, publish};
use crate::stand::Seats;
use crate::watch::Watch;
use pol_board::{LookError, Verdict};
use pol_data::{Memory, Steps};
use pol_mapkey::Word;
use pol_model::Query;
use pol_node::{Desk, NodeName, Pass, Slot};
use std::alloc::Global;
use std::marker::Brand;
use std::rt::Clock;
use std::sync::atomic::{AtomicBool, AtomicU32, Ordering};
use std::sync::ledger::{Blank, Ledger};
use std::sync::{Mutex, Wait};
use std::thread;
use std::thread::Threads;

/// How many rounds are timed; the shortest counts.
pub(crate) const ROUNDS: u32 = 500;

/// A round beside the writer counts where the board had so many events meanwhile.
const LEAST: u32 = 32;

/// A round of looks at all packets.
#[derive(Clone, Copy)]
pub(crate) struct Round {
    pub(crate) nanos: u128,
    /// How many packets were allowed.
    pub(crate) allowed: u32,
    /// How many events the board had meanwhile.
    pub(crate) events: u32,
}

impl Round {
    /// The shorter one.
    pub(crate) fn shorter(self, other: Round) -> Round {
        if other.nanos < self.nanos {
            other
        } else {
            self
        }
    }
}

/// What looks took.
#[derive(Clone, Copy)]
pub(crate) struct LookFigures {
    /// The shortest round alone.
    pub(crate) alone: Round,
    /// The shortest round beside the writer that counts, all 0 where none does.
    pub(crate) beside: Round,
    /// How many rounds beside it count.
    pub(crate) rounds: u32,
}

fn is_allowed(answer: Result<Verdict, LookError>) -> bool {
    match answer {
        Ok(verdict) => verdict.word == Word::Allowed,
        Err(_) => false,
    }
}

/// How many of the packets are allowed.
fn allowed_by<N: NodeName, L: Ledger>(blank: Blank, pass: &mut Pass<N>, queries: &[Query]) -> u32
    requires name { blank.name ≡ L.name }
    requires parts { blank.parts ≡ L.parts }
    requires some { blank.parts ≡ 1 }
{
    let mut steps = Steps::<L>::new(blank);
    let mut allowed = 0u32;
    for query in queries {
        if is_allowed(pass.look(query, &mut steps)) {
            allowed = allowed.wrapping_add(1);
        }
    }
    allowed
}

fn allowed<N: NodeName>(pass: &mut Pass<N>, queries: &[Query]) -> u32 {
    allowed_by::<N, Brand>(Blank::new(1), pass, queries)
}

fn time_round<N: NodeName, W: Clock>(
    rt: &W,
    watch: Watch,
    pass: &mut Pass<N>,
    queries: &[Query],
) -> Round {
    let start = watch.nanos(rt);
    let allowed = allowed(pass, queries);
    Round {
        nanos: watch.nanos(rt).wrapping_sub(start),
        allowed,
        events: 0,
    }
}

/// The shortest round of those that were timed.
fn time_looks<N: NodeName, W: Clock>(
    rt: &W,
    watch: Watch,
    pass: &mut Pass<N>,
    queries: &[Query],
) -> Round {
    let mut least = time_round(rt, watch, pass, queries);
    for _ in 1..ROUNDS {
        least = least.shorter(time_round(rt, watch, pass, queries));
    }
    least
}

/// What the threads share.
#[derive(Drop)]
struct Signs {
    /// How many events the writer has added.
    events: AtomicU32,
    /// All rounds were timed.
    over: AtomicBool,
}

/// A round, and how many events there were meanwhile.
fn time_round_beside<N: NodeName, W: Clock>(
    rt: &W,
    watch: Watch,
    pass: &mut Pass<N>,
    queries: &[Query],
    events: &AtomicU32,
) -> Round {
    let before = events.load(Ordering::SeqCst);
    let mut round = time_round(rt, watch, pass, queries);
    round.events = events.load(Ordering::SeqCst).wrapping_sub(before);
    round
}

/// The shortest round that counts, and how many do.
fn time_beside<N: NodeName, W: Clock>(
    rt: &W,
    watch: Watch,
    pass: &mut Pass<N>,
    queries: &[Query],
    events: &AtomicU32,
) -> (Round, u32) {
    let mut least = Round {
        nanos: 0,
        allowed: 0,
        events: 0,
    };
    let mut rounds = 0u32;
    for _ in 0..ROUNDS {
        let round = time_round_beside(rt, watch, pass, queries, events);
        if round.events >= LEAST {
            least = if rounds == 0 {
                round
            } else {
                least.shorter(round)
            };
            rounds = rounds.wrapping_add(1);
        }
    }
    (least, rounds)
}

/// The same, and tells the writer the end.
fn look_beside<N: NodeName, W: Clock>(
    rt: &W,
    watch: Watch,
    pass: Pass<N>,
    queries: &[Query],
    signs: &Signs,
) -> (Round, u32) {
    let mut pass = pass;
    let found = time_beside(rt, watch, &mut pass, queries, &signs.events);
    signs.over.store(true, Ordering::SeqCst);
    found
}

/// An identity more comes, and the slot's map follows; it goes, and the map follows.
fn come_and_go<N: NodeName, W: Wait, R: Wait + Drop, L: Ledger>(
    rt: &W,
    alloc: Global,
    desk: &Mutex<Desk<N, R>>,
    slot: &mut Slot<N>,
    pass: &mut Pass<N>,
    number: u32,
    steps: &mut Steps<L>,
) -> Result<(), Memory>
    requires handed_out { has N.passes pass.old.number ≡ true }
    ensures number { pass.new.number ≡ pass.old.number }
{
    commit(rt, alloc, desk, pass, identity(alloc, number)?, steps)?;
    publish(rt, alloc, desk, slot, 0)?;
    commit(rt, alloc, desk, pass, no_identity(alloc, number)?, steps)?;
    publish(rt, alloc, desk, slot, 0)?;
    Ok(())
}

/// Changes the map until the end was told.
fn change_on<N: NodeName, W: Wait, R: Wait + Drop, L: Ledger>(
    rt: &W,
    alloc: Global,
    desk: &Mutex<Desk<N, R>>,
    slot: &mut Slot<N>,
    pass: &mut Pass<N>,
    identities: u32,
    signs: &Signs,
    steps: &mut Steps<L>,
) -> Result<(), Memory>
    requires handed_out { has N.passes pass.old.number ≡ true }
{
    for _turn in 0..u32::MAX {
        if signs.over.load(Ordering::SeqCst) {
            return Ok(());
        }
        come_and_go(rt, alloc, desk, slot, pass, identities, steps)?;
        signs.events.fetch_add(4, Ordering::SeqCst);
    }
    Ok(())
}

/// The same, with steps of its own.
fn change_by<N: NodeName, W: Wait, R: Wait + Drop, L: Ledger>(
    blank: Blank,
    rt: &W,
    alloc: Global,
    desk: &Mutex<Desk<N, R>>,
    slot: Slot<N>,
    pass: Pass<N>,
    identities: u32,
    signs: &Signs,
) -> Result<(), Memory>
    requires name { blank.name ≡ L.name }
    requires parts { blank.parts ≡ L.parts }
    requires some { blank.parts ≡ 1 }
    requires handed_out { has N.passes pass.number ≡ true }
{
    let mut steps = Steps::<L>::new(blank);
    let mut slot = slot;
    let mut pass = pass;
    change_on(
        rt, alloc, desk, &mut slot, &mut pass, identities, signs, &mut steps,
    )
}

fn changes<N: NodeName, W: Wait, R: Wait + Drop>(
    rt: &W,
    alloc: Global,
    desk: &Mutex<Desk<N, R>>,
    slot: Slot<N>,
    pass: Pass<N>,
    identities: u32,
    signs: &Signs,
) -> Result<(), Memory>
    requires handed_out { has N.passes pass.number ≡ true }
{
    change_by::<N, W, R, Brand>(
        Blank::new(1),
        rt,
        alloc,
        desk,
        slot,
        pass,
        identities,
        signs,
    )
}

/// The looks beside a thread that commits and publishes.
fn beside<N: NodeName + Send + Sync, W: Clock + Threads + Wait + Sync, R: Wait + Drop + Send>(
    rt: &W,
    watch: Watch,
    alloc: Global,
    desk: &Mutex<Desk<N, R>>,
    seats: Seats<N>,
    queries: &[Query],
    identities: u32,
) -> Result<(Round, u32), Memory>
    requires handed_out { has N.passes seats.commits.number ≡ true }
{
    let signs = &Signs {
        events: AtomicU32::new(0),
        over: AtomicBool::new(false),
    };
    let Seats {
        commits,
        looks,
        slot,
        others: _others,
    } = seats;
    let (written, found) = thread::join(
        rt,
        move ||
            requires { has N.passes commits.number ≡ true }
        { changes(rt, alloc, desk, slot, commits, identities, signs) },
        move || look_beside(rt, watch, looks, queries, signs),
    );
    written?;
    Ok(found)
}

/// The figures of these packets.
fn time_queries<N: NodeName + Send + Sync, W: Clock + Threads + Wait + Sync, R: Wait + Drop + Send>(
    rt: &W,
    watch: Watch,
    alloc: Global,
    desk: &Mutex<Desk<N, R>>,
    seats: Seats<N>,
    queries: &[Query],
    identities: u32,
) -> Result<LookFigures, Memory>
    requires handed_out { has N.passes seats.commits.number ≡ true }
{
    let mut seats = seats;
    let sizes = Sizes {
        endpoints: ENDPOINTS,
        identities,
        ports: PORTS,
    };
    filled(rt, alloc, desk, &mut seats, sizes)?;
    let alone = time_looks(rt, watch, &mut seats.looks, queries);
    let (beside, rounds) = beside(rt, watch, alloc, desk, seats, queries, identities)?;
    Ok(LookFigures {
        alone,
        beside,
        rounds,
    })
}

/// The figures of a board whose maps have the keys of so many identities.
pub(crate) fn time_board<
    N: NodeName + Send + Sync,
    W: Clock + Threads + Wait + Sync,
    R: Wait + Drop + Send,
>(
    rt: &W,
    watch: Watch,
    alloc: Global,
    desk: &Mutex<Desk<N, R>>,
    seats: Seats<N>,
    identities: u32,
) -> Result<LookFigures, Memory>
    requires handed_out { has N.passes seats.commits.number ≡ true }
{
    let queries = queries(alloc, identities)?;
    time_queries(rt, watch, alloc, desk, seats, &queries, identities)
}
