//! A thread holds the desk's lock, between two commits, until another has looked so often: each look is answered meanwhile, by
//! the map that was published before.
ghost use Rattle.std.specs.Prelude.{◌≡◌, Some, true, map};
ghost use Rattle.pol_board.specs.Counts.{new_passes};
ghost use Rattle.pol_history.specs.Meet.{has};
ghost use Rattle.pol_model.specs.declared.options.Mode.TheVariants.{Default};

use crate::asked::{endpoint, query};
use crate::looks::turn;
use crate::stand::{LIMIT, PASSES, Seats, commit, open, seated};
use pol_board::{LookError, NewBook, Verdict};
use pol_data::{Memory, Steps};
use pol_mapkey::Word;
use pol_model::{Mode, Query, Request};
use pol_node::{Desk, NodeName, Pass, Slot};
use std::alloc::Global;
use std::marker::Brand;
use std::sync::atomic::{AtomicBool, Ordering};
use std::sync::ledger::{Blank, Ledger};
use std::sync::{Mutex, MutexGuard, Wait};
use std::test::Fail;
use std::thread;
use std::thread::Threads;

/// How often the other thread looks.
const LOOKS: u32 = 10_000;

/// How often a thread asks whether the other has come so far.
const TURNS: u32 = 100_000_000;

/// What the threads share.
#[derive(Drop)]
struct Signs {
    /// The lock is held, and one commit was made under it.
    held: AtomicBool,
    /// All looks were answered.
    looked: AtomicBool,
}

/// Waits until the sign is set, for so many turns at most.
fn sees(sign: &AtomicBool) -> bool {
    for _ in 0..TURNS {
        if sign.load(Ordering::SeqCst) {
            return true;
        }
        thread::yield_now();
    }
    false
}

/// Whether both commits were made, and all looks were answered between them, while the lock was held.
fn hold<N: NodeName, W: Wait, R: Wait + Drop, L: Ledger>(
    rt: &W,
    alloc: Global,
    desk: &Mutex<Desk<N, R>>,
    pass: &mut Pass<N>,
    signs: &Signs,
    steps: &mut Steps<L>,
) -> bool
    requires handed_out { has N.passes pass.old.number ≡ true }
{
    let mut desk = desk.lock(rt);
    let always = Request::SetMode(Mode::Always);
    let first = commit(rt, alloc, &mut desk, pass, always, steps);
    signs.held.store(true, Ordering::SeqCst);
    let looked = sees(&signs.looked);
    let default = Request::SetMode(Mode::Default);
    let second = commit(rt, alloc, &mut desk, pass, default, steps);
    MutexGuard::unlock(desk);
    first.is_ok() && looked && second.is_ok()
}

/// The same, with steps of its own.
fn hold_by<N: NodeName, W: Wait, R: Wait + Drop, L: Ledger>(
    blank: Blank,
    rt: &W,
    alloc: Global,
    desk: &Mutex<Desk<N, R>>,
    pass: Pass<N>,
    signs: &Signs,
) -> bool
    requires name { blank.name ≡ L.name }
    requires parts { blank.parts ≡ L.parts }
    requires some { blank.parts ≡ 1 }
    requires handed_out { has N.passes pass.number ≡ true }
{
    let mut steps = Steps::<L>::new(blank);
    let mut pass = pass;
    hold(rt, alloc, desk, &mut pass, signs, &mut steps)
}

fn holds<N: NodeName, W: Wait, R: Wait + Drop>(
    rt: &W,
    alloc: Global,
    desk: &Mutex<Desk<N, R>>,
    pass: Pass<N>,
    signs: &Signs,
) -> bool
    requires handed_out { has N.passes pass.number ≡ true }
{
    hold_by::<N, W, R, Brand>(Blank::new(1), rt, alloc, desk, pass, signs)
}

/// Whether it is the verdict of the map that was published before.
fn is_of_first_map(answer: Result<Verdict, LookError>) -> bool {
    match answer {
        Ok(verdict) => verdict.revision == 1 && verdict.word == Word::Allowed,
        Err(_) => false,
    }
}

/// Once the lock is held, looks so often: how many of the answers are right.
fn look_meanwhile<N: NodeName, L: Ledger>(
    blank: Blank,
    pass: Pass<N>,
    query: &Query,
    signs: &Signs,
) -> u32
    requires name { blank.name ≡ L.name }
    requires parts { blank.parts ≡ L.parts }
    requires some { blank.parts ≡ 1 }
{
    let mut steps = Steps::<L>::new(blank);
    let mut pass = pass;
    if !sees(&signs.held) {
        return 0;
    }
    let mut right = 0u32;
    for _ in 0..LOOKS {
        if is_of_first_map(pass.look(query, &mut steps)) {
            right = right.wrapping_add(1);
        }
    }
    signs.looked.store(true, Ordering::SeqCst);
    right
}

fn looks_meanwhile<N: NodeName>(
    alloc: Global,
    pass: Pass<N>,
    signs: &Signs,
) -> Result<u32, Memory> {
    let query = query(alloc)?;
    Ok(look_meanwhile::<N, Brand>(Blank::new(1), pass, &query, signs))
}

/// The endpoint comes, and its map is published.
fn publish<N: NodeName, W: Wait, R: Wait + Drop, L: Ledger>(
    blank: Blank,
    rt: &W,
    alloc: Global,
    desk: &Mutex<Desk<N, R>>,
    slot: Pass<N>,
    pass: &mut Pass<N>,
) -> Result<u64, Memory>
    requires name { blank.name ≡ L.name }
    requires parts { blank.parts ≡ L.parts }
    requires some { blank.parts ≡ 1 }
    requires handed_out { has N.passes pass.old.number ≡ true }
    ensures number { pass.new.number ≡ pass.old.number }
{
    let request = endpoint(alloc)?;
    let mut steps = Steps::<L>::new(blank);
    let mut slot = Slot::open(slot, LIMIT as u64);
    turn(rt, alloc, desk, &mut slot, pass, request, &mut steps)
}

/// Whether the lock was held as long as the other looked, and how many of its answers are right.
fn run<N: NodeName + Send + Sync, W: Threads + Wait + Sync, R: Wait + Drop + Send>(
    rt: &W,
    alloc: Global,
    desk: &Mutex<Desk<N, R>>,
    seats: Seats<N>,
) -> Result<(bool, u32), Memory>
    requires handed_out { has N.passes seats.commits.number ≡ true }
{
    let signs = &Signs {
        held: AtomicBool::new(false),
        looked: AtomicBool::new(false),
    };
    let Seats {
        commits,
        slot,
        one,
        ..
    } = seats;
    let mut pass = commits;
    publish::<N, W, R, Brand>(Blank::new(1), rt, alloc, desk, slot, &mut pass)?;
    let (held, right) = thread::join(
        rt,
        move ||
            requires { has N.passes pass.number ≡ true }
        { holds(rt, alloc, desk, pass, signs) },
        move || looks_meanwhile(alloc, one, signs),
    );
    Ok((held, right?))
}

/// The same, by the passes of a new board.
fn run_seated<N: NodeName + Send + Sync, W: Threads + Wait + Sync, R: Wait + Drop + Send>(
    rt: &W,
    alloc: Global,
    desk: &Mutex<Desk<N, R>>,
    passes: Vec<Pass<N>>,
) -> Result<(bool, u32), Memory>
    requires new { passes.items ≡ new_passes PASSES }
    requires passes { N.passes ≡ map (λ pass. pass.number) (new_passes PASSES) }
{
    let seats = seated(passes)?;
    run(rt, alloc, desk, seats)
}

/// The same over a new board of this name.
fn run_named<N: NodeName + Send + Sync, W: Threads + Wait + Sync>(
    rt: &W,
    alloc: Global,
    book: NewBook,
) -> Result<(bool, u32), Memory>
    requires book { book ≡ N.book }
    requires options { N.options ≡ record { mode = Default; localhost = true; map_max = Some LIMIT } }
    requires passes { N.passes ≡ map (λ pass. pass.number) (new_passes PASSES) }
{
    let (desk, passes) = open::<N, W>(rt, alloc, book)?;
    let desk = Mutex::new(desk);
    let done = run_seated(rt, alloc, &desk, passes);
    desk.into_inner().close(rt);
    done
}

fn run_over<W: Threads + Wait + Sync>(rt: &W, alloc: Global) -> Result<(bool, u32), Memory> {
    run_named::<Brand, W>(rt, alloc, NewBook::new())
}

#[test]
fn looks_are_answered_while_the_lock_is_held(rt: HostRuntime) -> Result<(), Fail> {
    let (held, right) = run_over(&rt, rt.alloc())?;
    assert!(rt; held);
    assert!(rt; right == LOOKS);
    Ok(())
}
