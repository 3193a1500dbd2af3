//! Commits and regenerations, and a board whose endpoints have their maps.
ghost use Rattle.std.specs.Prelude.{◌≡◌, true};
ghost use Rattle.pol_history.specs.Meet.{has};

use crate::asked::{endpoint, identity, policy};
use crate::stand::{LIMIT, Seats};
use pol_data::{Memory, Steps};
use pol_model::Request;
use pol_node::{Desk, NodeName, Pass, Regen, Slot};
use std::alloc::Global;
use std::marker::Brand;
use std::sync::ledger::{Blank, Ledger};
use std::sync::{Mutex, MutexGuard, Wait};

/// How large maps are, and how many.
#[derive(Clone, Copy)]
pub(crate) struct Sizes {
    pub(crate) endpoints: u32,
    pub(crate) identities: u32,
    pub(crate) ports: u32,
}

/// Commits the request. A refusal is want of memory here.
pub(crate) fn commit<N: NodeName, W: Wait, R: Wait + Drop, L: Ledger>(
    rt: &W,
    alloc: Global,
    desk: &Mutex<Desk<N, R>>,
    pass: &mut Pass<N>,
    request: Request,
    steps: &mut Steps<L>,
) -> Result<u64, Memory>
    requires handed_out { has N.passes pass.old.number ≡ true }
    ensures number { pass.new.number ≡ pass.old.number }
{
    if !request.is_short() {
        return Err(Memory);
    }
    let mut desk = desk.lock(rt);
    let done = desk.commit(rt, alloc, pass, request, steps);
    MutexGuard::unlock(desk);
    match done {
        Ok(done) => Ok(done.revision),
        Err(_) => Err(Memory),
    }
}

/// Publishes the map of the endpoint of the slot of that number. What else a regeneration does is want of memory here.
pub(crate) fn publish<N: NodeName, W: Wait, R: Wait + Drop>(
    rt: &W,
    alloc: Global,
    desk: &Mutex<Desk<N, R>>,
    slot: &mut Slot<N>,
    number: u32,
) -> Result<u64, Memory> {
    match slot.regenerate_over(rt, alloc, desk, number) {
        Ok(Regen::Published(revision)) => Ok(revision),
        _ => Err(Memory),
    }
}

fn commit_identities<N: NodeName, W: Wait, R: Wait + Drop, L: Ledger>(
    rt: &W,
    alloc: Global,
    desk: &Mutex<Desk<N, R>>,
    pass: &mut Pass<N>,
    count: u32,
    steps: &mut Steps<L>,
) -> Result<(), Memory>
    requires handed_out { has N.passes pass.old.number ≡ true }
    ensures number { pass.new.number ≡ pass.old.number }
{
    for number in 0..count {
        commit(rt, alloc, desk, pass, identity(alloc, number)?, steps)?;
    }
    Ok(())
}

fn commit_endpoints<N: NodeName, W: Wait, R: Wait + Drop, L: Ledger>(
    rt: &W,
    alloc: Global,
    desk: &Mutex<Desk<N, R>>,
    pass: &mut Pass<N>,
    count: u32,
    steps: &mut Steps<L>,
) -> Result<(), Memory>
    requires handed_out { has N.passes pass.old.number ≡ true }
    ensures number { pass.new.number ≡ pass.old.number }
{
    for number in 0..count {
        commit(rt, alloc, desk, pass, endpoint(alloc, number)?, steps)?;
    }
    Ok(())
}

/// The identities come, whose numbers are those from 256 on, then the policy and the endpoints.
fn commit_all<N: NodeName, W: Wait, R: Wait + Drop, L: Ledger>(
    rt: &W,
    alloc: Global,
    desk: &Mutex<Desk<N, R>>,
    pass: &mut Pass<N>,
    sizes: Sizes,
    steps: &mut Steps<L>,
) -> Result<(), Memory>
    requires handed_out { has N.passes pass.old.number ≡ true }
    ensures number { pass.new.number ≡ pass.old.number }
{
    commit_identities(rt, alloc, desk, pass, sizes.identities, steps)?;
    commit(rt, alloc, desk, pass, policy(alloc, sizes.ports)?, steps)?;
    commit_endpoints(rt, alloc, desk, pass, sizes.endpoints, steps)
}

/// Publishes the map of a slot that nobody needs afterwards.
fn publish_once<N: NodeName, W: Wait, R: Wait + Drop>(
    rt: &W,
    alloc: Global,
    desk: &Mutex<Desk<N, R>>,
    number: u32,
    pass: Pass<N>,
) -> Result<u64, Memory> {
    let mut slot = Slot::open(pass, LIMIT as u64);
    publish(rt, alloc, desk, &mut slot, number)
}

/// Publishes the map of each slot but the first, by the last of these passes.
fn publish_others<N: NodeName, W: Wait, R: Wait + Drop>(
    rt: &W,
    alloc: Global,
    desk: &Mutex<Desk<N, R>>,
    passes: &mut Vec<Pass<N>>,
    endpoints: u32,
) -> Result<(), Memory> {
    for number in 1..endpoints {
        let Some(pass) = passes.pop() else {
            return Err(Memory);
        };
        publish_once(rt, alloc, desk, number, pass)?;
    }
    Ok(())
}

/// Commits all that a board of these sizes has, and publishes each map. That of the first slot goes on from there.
fn fill<N: NodeName, W: Wait, R: Wait + Drop, L: Ledger>(
    blank: Blank,
    rt: &W,
    alloc: Global,
    desk: &Mutex<Desk<N, R>>,
    seats: &mut Seats<N>,
    sizes: Sizes,
) -> Result<(), Memory>
    requires name { blank.name ≡ L.name }
    requires parts { blank.parts ≡ L.parts }
    requires some { blank.parts ≡ 1 }
    requires handed_out { has N.passes seats.old.commits.number ≡ true }
    ensures number { seats.new.commits.number ≡ seats.old.commits.number }
{
    let mut steps = Steps::<L>::new(blank);
    commit_all(rt, alloc, desk, &mut seats.commits, sizes, &mut steps)?;
    publish_others(rt, alloc, desk, &mut seats.others, sizes.endpoints)?;
    publish(rt, alloc, desk, &mut seats.slot, 0)?;
    Ok(())
}

/// The same.
pub(crate) fn filled<N: NodeName, W: Wait, R: Wait + Drop>(
    rt: &W,
    alloc: Global,
    desk: &Mutex<Desk<N, R>>,
    seats: &mut Seats<N>,
    sizes: Sizes,
) -> Result<(), Memory>
    requires handed_out { has N.passes seats.old.commits.number ≡ true }
    ensures number { seats.new.commits.number ≡ seats.old.commits.number }
{
    fill::<N, W, R, Brand>(Blank::new(1), rt, alloc, desk, seats, sizes)
}
