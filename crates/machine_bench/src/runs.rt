//! Commits, takes and finishes, and how long these take.

use crate::asked::{endpoint, identity, no_identity, other_policy, policy};
use anyhow::Result;
use pol_data::Steps;
use pol_machine::{Event, Machine};
use pol_model::Request;
use std::rt::Clock;
use std::sync::ledger::Ledger;
use std::time::Instant;

/// How large a machine is, and how much was committed before.
#[derive(Clone, Copy)]
pub(crate) struct Sizes {
    /// Endpoints, each of which has a map.
    pub(crate) endpoints: u32,
    /// Filters that take each identity, and so entries of a map for each identity.
    pub(crate) filters: u32,
    /// Policies of as many entries beside, which select no endpoint.
    pub(crate) others: u32,
    /// Identities that stay.
    pub(crate) identities: u32,
    /// How often an identity came and went before.
    pub(crate) before: u32,
}

/// How often the identity comes and goes; the shortest figures count.
const ROUNDS: u32 = 10;

/// Nanoseconds of the takes and of the finishes of all endpoints, and of takes where nothing has changed since.
#[derive(Clone, Copy)]
pub(crate) struct Figures {
    pub(crate) takes: u128,
    pub(crate) finishes: u128,
    pub(crate) again: u128,
}

impl Figures {
    /// The lesser ones of both.
    fn lesser(self, other: Figures) -> Figures {
        Figures {
            takes: self.takes.min(other.takes),
            finishes: self.finishes.min(other.finishes),
            again: self.again.min(other.again),
        }
    }
}

fn commit<L: Ledger>(machine: &mut Machine, request: Request, steps: &mut Steps<L>) -> Result<()> {
    if request.is_short() {
        machine.step(Event::Commit(request), steps)?;
    }
    Ok(())
}

fn fill_endpoints<R: AllocGlobal, L: Ledger>(
    rt: &R,
    machine: &mut Machine,
    count: u32,
    steps: &mut Steps<L>,
) -> Result<()> {
    for number in 0..count {
        commit(machine, endpoint(rt.alloc(), number)?, steps)?;
    }
    Ok(())
}

fn fill_identities<R: AllocGlobal, L: Ledger>(
    rt: &R,
    machine: &mut Machine,
    sizes: Sizes,
    steps: &mut Steps<L>,
) -> Result<()> {
    for number in 0..sizes.identities {
        commit(machine, identity(rt.alloc(), number, sizes.filters)?, steps)?;
    }
    Ok(())
}

/// An identity more comes.
fn come<R: AllocGlobal, L: Ledger>(
    rt: &R,
    machine: &mut Machine,
    sizes: Sizes,
    steps: &mut Steps<L>,
) -> Result<()> {
    let request = identity(rt.alloc(), sizes.identities, sizes.filters)?;
    commit(machine, request, steps)
}

/// It goes.
fn go<R: AllocGlobal, L: Ledger>(
    rt: &R,
    machine: &mut Machine,
    sizes: Sizes,
    steps: &mut Steps<L>,
) -> Result<()> {
    commit(machine, no_identity(rt.alloc(), sizes.identities)?, steps)
}

/// It comes and goes so often, and no map follows.
fn fill_before<R: AllocGlobal, L: Ledger>(
    rt: &R,
    machine: &mut Machine,
    sizes: Sizes,
    steps: &mut Steps<L>,
) -> Result<()> {
    for _ in 0..sizes.before {
        come(rt, machine, sizes, steps)?;
        go(rt, machine, sizes, steps)?;
    }
    Ok(())
}

fn fill_others<R: AllocGlobal, L: Ledger>(
    rt: &R,
    machine: &mut Machine,
    sizes: Sizes,
    steps: &mut Steps<L>,
) -> Result<()> {
    for number in 0..sizes.others {
        commit(
            machine,
            other_policy(rt.alloc(), number, sizes.filters)?,
            steps,
        )?;
    }
    Ok(())
}

fn fill<R: AllocGlobal, L: Ledger>(
    rt: &R,
    machine: &mut Machine,
    sizes: Sizes,
    steps: &mut Steps<L>,
) -> Result<()> {
    fill_endpoints(rt, machine, sizes.endpoints, steps)?;
    commit(machine, policy(rt.alloc(), sizes.filters)?, steps)?;
    fill_others(rt, machine, sizes, steps)?;
    fill_identities(rt, machine, sizes, steps)?;
    fill_before(rt, machine, sizes, steps)
}

fn take_all<L: Ledger>(machine: &mut Machine, slots: u32, steps: &mut Steps<L>) -> Result<()> {
    for slot in 0..slots {
        machine.step(Event::Take(slot), steps)?;
    }
    Ok(())
}

fn finish_all<L: Ledger>(machine: &mut Machine, slots: u32, steps: &mut Steps<L>) -> Result<()> {
    for slot in 0..slots {
        machine.step(Event::Finish(slot), steps)?;
    }
    Ok(())
}

/// Takes and finishes each slot, and takes it again.
fn time_turns<R: Clock, L: Ledger>(
    rt: &R,
    machine: &mut Machine,
    slots: u32,
    steps: &mut Steps<L>,
) -> Result<Figures> {
    let start = Instant::now(rt)?;
    take_all(machine, slots, steps)?;
    let takes = start.elapsed(rt)?.as_nanos();
    let start = Instant::now(rt)?;
    finish_all(machine, slots, steps)?;
    let finishes = start.elapsed(rt)?.as_nanos();
    let start = Instant::now(rt)?;
    take_all(machine, slots, steps)?;
    let again = start.elapsed(rt)?.as_nanos();
    Ok(Figures {
        takes,
        finishes,
        again,
    })
}

/// An identity more comes, and each map follows; it goes, and each map follows.
fn time_round<R: Clock + AllocGlobal, L: Ledger>(
    rt: &R,
    machine: &mut Machine,
    sizes: Sizes,
    steps: &mut Steps<L>,
) -> Result<Figures> {
    come(rt, machine, sizes, steps)?;
    let comes = time_turns(rt, machine, sizes.endpoints, steps)?;
    go(rt, machine, sizes, steps)?;
    let goes = time_turns(rt, machine, sizes.endpoints, steps)?;
    Ok(comes.lesser(goes))
}

/// The shortest figures of an identity that comes or goes, once each map was made three times.
pub(crate) fn time_rounds<R: Clock + AllocGlobal, L: Ledger>(
    rt: &R,
    machine: &mut Machine,
    sizes: Sizes,
    steps: &mut Steps<L>,
) -> Result<Figures> {
    fill(rt, machine, sizes, steps)?;
    time_turns(rt, machine, sizes.endpoints, steps)?;
    time_round(rt, machine, sizes, steps)?;
    let mut least = time_round(rt, machine, sizes, steps)?;
    for _ in 1..ROUNDS {
        least = least.lesser(time_round(rt, machine, sizes, steps)?);
    }
    Ok(least)
}
