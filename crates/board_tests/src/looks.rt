//! Two threads that look while a third publishes: each verdict is that of its map's revision, none is older than one before,
//! and no look is without a guard, also where the pass has just been shown all that was published.
ghost use Rattle.std.specs.Prelude.{◌≡◌, Some, true, map};
ghost use Rattle.pol_board.specs.Counts.{new_passes};
ghost use Rattle.pol_history.specs.Meet.{has};
ghost use Rattle.pol_model.specs.declared.options.Mode.TheVariants.{Default};

use crate::asked::{endpoint, query};
use crate::stand::{LIMIT, PASSES, Seats, commit_under, open, seated};
use pol_board::{LookError, NewBook, Verdict};
use pol_data::{Memory, Steps};
use pol_mapkey::Word;
use pol_model::{Mode, Query, Request};
use pol_node::{Desk, NodeName, Pass, Regen, Slot};
use std::alloc::Global;
use std::marker::Brand;
use std::sync::atomic::{AtomicBool, AtomicU32, Ordering};
use std::sync::ledger::{Blank, Ledger};
use std::sync::{Mutex, MutexGuard, Wait};
use std::test::Fail;
use std::thread;
use std::thread::Threads;

/// How often the mode changes, and the map with it.
const CHANGES: u32 = 100_000;

/// After so many changes the thread that publishes waits for the others.
const STRETCH: u32 = 1_000;

/// How many looks a burst has. Before each the history is shown to the pass.
const BURST: u64 = 1_024;

/// How often the thread that publishes asks whether the others have looked.
const TURNS: u32 = 100_000_000;

/// What the threads share.
#[derive(Drop)]
struct Signs {
    /// How many bursts the two that look have begun.
    bursts: (AtomicU32, AtomicU32),
    over: AtomicBool,
}

/// Whether two bursts have begun since, so that one was made whole.
fn has_looked(bursts: &AtomicU32, since: u32) -> bool {
    bursts.load(Ordering::SeqCst).wrapping_sub(since) >= 2
}

impl Signs {
    /// Waits until both threads have looked a whole burst from now on, for so many turns at most.
    fn both_looked(&self) -> bool {
        let (one, other) = &self.bursts;
        let first = one.load(Ordering::SeqCst);
        let second = other.load(Ordering::SeqCst);
        for _ in 0..TURNS {
            if has_looked(one, first) && has_looked(other, second) {
                return true;
            }
            thread::yield_now();
        }
        false
    }
}

/// What a thread saw.
#[derive(Clone, Copy, Drop)]
struct Looked {
    /// How many looks there were.
    looks: u64,
    /// How many of them found a newer map than all before.
    news: u64,
    /// Answers that no history gives, or an older one than an answer before.
    wrong: u64,
    /// Looks that had no guard.
    no_guard: u64,
    /// The revision of the last map.
    last: u64,
}

/// The verdict at a revision: the endpoint comes with the first one, and then the mode changes each time.
fn word_at(revision: u64) -> Word {
    if revision % 2 == 0 {
        Word::DeniedByDefault
    } else {
        Word::Allowed
    }
}

/// Whether the answer is one that a history gives, no older than the map before.
fn is_right(answer: &Result<Verdict, LookError>, last: u64) -> bool {
    match answer {
        Ok(verdict) => verdict.revision >= last && verdict.word == word_at(verdict.revision),
        Err(LookError::NoGuard) => true,
        Err(LookError::NoEndpoint { revision }) => last == 0 && *revision == 0,
        Err(LookError::NotYet { revision }) => last == 0 && *revision == 1,
    }
}

/// What was seen, this verdict too.
fn with_verdict(so_far: Looked, verdict: Verdict) -> Looked {
    let mut looked = so_far;
    if verdict.revision > looked.last {
        looked.news = looked.news.wrapping_add(1);
    }
    looked.last = verdict.revision;
    looked
}

/// What was seen, this answer too.
fn with_answer(so_far: Looked, answer: Result<Verdict, LookError>) -> Looked {
    let mut looked = so_far;
    match answer {
        Ok(verdict) => with_verdict(looked, verdict),
        Err(LookError::NoGuard) => {
            looked.no_guard = looked.no_guard.wrapping_add(1);
            looked
        }
        Err(_) => looked,
    }
}

fn look_once<N: NodeName, L: Ledger>(
    pass: &mut Pass<N>,
    query: &Query,
    so_far: Looked,
    steps: &mut Steps<L>,
) -> Looked {
    let mut looked = so_far;
    looked.looks = looked.looks.wrapping_add(1);
    let answer = pass.look(query, steps);
    if !is_right(&answer, looked.last) {
        looked.wrong = looked.wrong.wrapping_add(1);
    }
    with_answer(looked, answer)
}

/// Shows the pass all that was published. Where threads are more than processors, it gives its own back before that, and so
/// seldom while it has a guard.
fn begin_burst<N: NodeName, W: Wait, R: Wait + Drop>(
    rt: &W,
    desk: &Mutex<Desk<N, R>>,
    pass: &mut Pass<N>,
    bursts: &AtomicU32,
) {
    bursts.fetch_add(1, Ordering::SeqCst);
    thread::yield_now();
    let mut desk = desk.lock(rt);
    desk.show(rt, pass);
    MutexGuard::unlock(desk);
}

/// Looks until the end was told, and then once more.
fn look_on<N: NodeName, W: Wait, R: Wait + Drop, L: Ledger>(
    rt: &W,
    desk: &Mutex<Desk<N, R>>,
    pass: &mut Pass<N>,
    query: &Query,
    bursts: &AtomicU32,
    over: &AtomicBool,
    steps: &mut Steps<L>,
) -> Looked {
    let mut looked = Looked {
        looks: 0,
        news: 0,
        wrong: 0,
        no_guard: 0,
        last: 0,
    };
    for _ in rt.forever() {
        let ended = over.load(Ordering::SeqCst);
        if looked.looks % BURST == 0 {
            begin_burst(rt, desk, pass, bursts);
        }
        looked = look_once(pass, query, looked, steps);
        if ended {
            return looked;
        }
    }
    unreachable!()
}

/// The same, with steps of its own.
fn look_by<N: NodeName, W: Wait, R: Wait + Drop, L: Ledger>(
    blank: Blank,
    rt: &W,
    desk: &Mutex<Desk<N, R>>,
    pass: Pass<N>,
    query: &Query,
    bursts: &AtomicU32,
    over: &AtomicBool,
) -> Looked
    requires name { blank.name ≡ L.name }
    requires parts { blank.parts ≡ L.parts }
    requires some { blank.parts ≡ 1 }
{
    let mut steps = Steps::<L>::new(blank);
    let mut pass = pass;
    look_on(rt, desk, &mut pass, query, bursts, over, &mut steps)
}

fn looks<N: NodeName, W: Wait, R: Wait + Drop>(
    rt: &W,
    alloc: Global,
    desk: &Mutex<Desk<N, R>>,
    pass: Pass<N>,
    bursts: &AtomicU32,
    over: &AtomicBool,
) -> Result<Looked, Memory> {
    let query = query(alloc)?;
    Ok(look_by::<N, W, R, Brand>(Blank::new(1), rt, desk, pass, &query, bursts, over))
}

/// Commits the request and publishes the map. The revision of the map, if it was published.
pub(crate) fn turn<N: NodeName, W: Wait, R: Wait + Drop, L: Ledger>(
    rt: &W,
    alloc: Global,
    desk: &Mutex<Desk<N, R>>,
    slot: &mut Slot<N>,
    pass: &mut Pass<N>,
    request: Request,
    steps: &mut Steps<L>,
) -> Result<u64, Memory>
    requires handed_out { has N.passes pass.old.number ≡ true }
    ensures number { pass.new.number ≡ pass.old.number }
{
    commit_under(rt, alloc, desk, pass, request, steps)?;
    match slot.regenerate_over(rt, alloc, desk, 0) {
        Ok(Regen::Published(revision)) => Ok(revision),
        _ => Err(Memory),
    }
}

/// The mode by that change.
fn mode_by(number: u32) -> Mode {
    if number % 2 == 0 {
        Mode::Always
    } else {
        Mode::Default
    }
}

/// Adds the endpoint, and changes the mode so often, a stretch at a time. The revision of the last map.
fn change_all<N: NodeName, W: Wait, R: Wait + Drop, L: Ledger>(
    rt: &W,
    alloc: Global,
    desk: &Mutex<Desk<N, R>>,
    slot: &mut Slot<N>,
    pass: &mut Pass<N>,
    signs: &Signs,
    steps: &mut Steps<L>,
) -> Result<u64, Memory>
    requires handed_out { has N.passes pass.old.number ≡ true }
{
    let mut last = turn(rt, alloc, desk, slot, pass, endpoint(alloc)?, steps)?;
    for number in 0..CHANGES {
        if number % STRETCH == 0 && !signs.both_looked() {
            return Err(Memory);
        }
        let request = Request::SetMode(mode_by(number));
        last = turn(rt, alloc, desk, slot, pass, request, steps)?;
    }
    Ok(last)
}

/// The same, with steps of its own.
fn change<N: NodeName, W: Wait, R: Wait + Drop, L: Ledger>(
    blank: Blank,
    rt: &W,
    alloc: Global,
    desk: &Mutex<Desk<N, R>>,
    slot: Pass<N>,
    pass: Pass<N>,
    signs: &Signs,
) -> Result<u64, Memory>
    requires name { blank.name ≡ L.name }
    requires parts { blank.parts ≡ L.parts }
    requires some { blank.parts ≡ 1 }
    requires handed_out { has N.passes pass.number ≡ true }
{
    let mut steps = Steps::<L>::new(blank);
    let mut slot = Slot::open(slot, LIMIT as u64);
    let mut pass = pass;
    change_all(rt, alloc, desk, &mut slot, &mut pass, signs, &mut steps)
}

/// The same, and tells the others its end.
fn changes<N: NodeName, W: Wait, R: Wait + Drop>(
    rt: &W,
    alloc: Global,
    desk: &Mutex<Desk<N, R>>,
    slot: Pass<N>,
    pass: Pass<N>,
    signs: &Signs,
) -> Result<u64, Memory>
    requires handed_out { has N.passes pass.number ≡ true }
{
    let last = change::<N, W, R, Brand>(Blank::new(1), rt, alloc, desk, slot, pass, signs);
    signs.over.store(true, Ordering::SeqCst);
    last
}

/// What the two that look saw, and the revision of the last map.
fn run<N: NodeName + Send + Sync, W: Threads + Wait + Sync, R: Wait + Drop + Send>(
    rt: &W,
    alloc: Global,
    desk: &Mutex<Desk<N, R>>,
    seats: Seats<N>,
) -> Result<(Looked, Looked, u64), Memory>
    requires handed_out { has N.passes seats.commits.number ≡ true }
{
    let signs = &Signs {
        bursts: (AtomicU32::new(0), AtomicU32::new(0)),
        over: AtomicBool::new(false),
    };
    let Seats {
        commits,
        slot,
        one,
        other,
    } = seats;
    let (last, (first, second)) = thread::join(
        rt,
        move ||
            requires { has N.passes commits.number ≡ true }
        { changes(rt, alloc, desk, slot, commits, signs) },
        move || {
            thread::join(
                rt,
                move || looks(rt, alloc, desk, one, &signs.bursts.0, &signs.over),
                move || looks(rt, alloc, desk, other, &signs.bursts.1, &signs.over),
            )
        },
    );
    Ok((first?, second?, last?))
}

/// The same, by the passes of a new board.
fn run_seated<N: NodeName + Send + Sync, W: Threads + Wait + Sync, R: Wait + Drop + Send>(
    rt: &W,
    alloc: Global,
    desk: &Mutex<Desk<N, R>>,
    passes: Vec<Pass<N>>,
) -> Result<(Looked, Looked, u64), Memory>
    requires new { passes.items ≡ new_passes PASSES }
    requires passes { N.passes ≡ map (λ pass. pass.number) (new_passes PASSES) }
{
    let seats = seated(passes)?;
    run(rt, alloc, desk, seats)
}

/// The same over a new board of this name.
fn run_named<N: NodeName + Send + Sync, W: Threads + Wait + Sync>(
    rt: &W,
    alloc: Global,
    book: NewBook,
) -> Result<(Looked, Looked, u64), Memory>
    requires book { book ≡ N.book }
    requires options { N.options ≡ record { mode = Default; localhost = true; map_max = Some LIMIT } }
    requires passes { N.passes ≡ map (λ pass. pass.number) (new_passes PASSES) }
{
    let (desk, passes) = open::<N, W>(rt, alloc, book)?;
    let desk = Mutex::new(desk);
    let done = run_seated(rt, alloc, &desk, passes);
    desk.into_inner().close(rt);
    done
}

fn run_over<W: Threads + Wait + Sync>(
    rt: &W,
    alloc: Global,
) -> Result<(Looked, Looked, u64), Memory> {
    run_named::<Brand, W>(rt, alloc, NewBook::new())
}

/// Whether each answer was right, none was without a guard, and the maps that were seen are enough, the last one among them.
fn is_good(looked: Looked, last: u64) -> bool {
    let stretches = (CHANGES / STRETCH) as u64;
    looked.wrong == 0 && looked.no_guard == 0 && looked.last == last && looked.news >= stretches
}

#[test]
fn looks_beside_publications(rt: HostRuntime) -> Result<(), Fail> {
    let (first, second, last) = run_over(&rt, rt.alloc())?;
    assert!(rt; last == CHANGES as u64 + 1);
    assert!(rt; is_good(first, last));
    assert!(rt; is_good(second, last));
    Ok(())
}
