//! Small runs of a machine.
use crate::asked::{
    allow, deny, endpoint, identity, no_endpoint, no_policy, of_app, of_prefix, on_80, packet,
};
use crate::said::{commit, finish, look, take};
use anyhow::Result;
use pol_addr::{Addr, Prefix};
use pol_data::Steps;
use pol_machine::Machine;
use pol_model::{Mode, Remote, Request};
use pol_rule::PortSpecs;
use std::alloc::Global;
use std::sync::ledger::Ledger;

fn ten() -> Prefix {
    Prefix::new(Addr::from_octets(10, 0, 0, 0), 8)
}

fn other() -> Prefix {
    Prefix::new(Addr::from_octets(172, 16, 0, 0), 12)
}

/// The policy of that name lets the addresses of the prefix in.
fn into(alloc: Global, name: &str, prefix: Prefix) -> Option<Request> {
    allow(
        alloc,
        name,
        of_prefix(alloc, prefix),
        PortSpecs::empty(alloc),
    )
}

/// A commit between the take and the finish: the map is of the taken revision.
pub(crate) fn taken_before<R: Print + AllocGlobal, L: Ledger>(
    rt: &R,
    machine: &mut Machine,
    steps: &mut Steps<L>,
) -> Result<()> {
    let alloc = rt.alloc();
    commit(rt, machine, endpoint(alloc, "a"), steps)?;
    look(rt, machine, packet(alloc, "a", Remote::Identity(2)), steps)?;
    finish(rt, machine, 0, steps)?;
    take(rt, machine, 0, steps)?;
    commit(rt, machine, Some(Request::SetMode(Mode::Always)), steps)?;
    finish(rt, machine, 0, steps)?;
    look(rt, machine, packet(alloc, "a", Remote::Identity(2)), steps)
}

/// A second take in place of the first: the map is of the later revision.
pub(crate) fn taken_again<R: Print + AllocGlobal, L: Ledger>(
    rt: &R,
    machine: &mut Machine,
    steps: &mut Steps<L>,
) -> Result<()> {
    let alloc = rt.alloc();
    commit(rt, machine, endpoint(alloc, "a"), steps)?;
    take(rt, machine, 0, steps)?;
    commit(rt, machine, Some(Request::SetMode(Mode::Always)), steps)?;
    take(rt, machine, 0, steps)?;
    finish(rt, machine, 0, steps)?;
    look(rt, machine, packet(alloc, "a", Remote::Identity(2)), steps)
}

/// An endpoint that goes and comes again: what was taken of it is gone, also where its map was reported before, and the later
/// one has no map.
pub(crate) fn comes_again<R: Print + AllocGlobal, L: Ledger>(
    rt: &R,
    machine: &mut Machine,
    steps: &mut Steps<L>,
) -> Result<()> {
    let alloc = rt.alloc();
    let from_outside = Remote::Identity(2);
    commit(rt, machine, endpoint(alloc, "a"), steps)?;
    take(rt, machine, 0, steps)?;
    finish(rt, machine, 0, steps)?;
    look(rt, machine, packet(alloc, "a", from_outside), steps)?;
    take(rt, machine, 0, steps)?;
    commit(rt, machine, no_endpoint(alloc, "a"), steps)?;
    look(rt, machine, packet(alloc, "a", from_outside), steps)?;
    finish(rt, machine, 0, steps)?;
    take(rt, machine, 0, steps)?;
    commit(rt, machine, endpoint(alloc, "a"), steps)?;
    look(rt, machine, packet(alloc, "a", from_outside), steps)?;
    take(rt, machine, 0, steps)?;
    commit(rt, machine, no_endpoint(alloc, "a"), steps)?;
    commit(rt, machine, endpoint(alloc, "a"), steps)?;
    finish(rt, machine, 0, steps)?;
    finish(rt, machine, 0, steps)
}

fn look_at<R: Print + AllocGlobal, L: Ledger>(
    rt: &R,
    machine: &mut Machine,
    first: u8,
    second: u8,
    steps: &mut Steps<L>,
) -> Result<()> {
    let remote = Remote::Address(Addr::from_octets(first, second, 0, 1));
    look(rt, machine, packet(rt.alloc(), "web", remote), steps)
}

/// The number of a prefix that goes is taken by another: an address stands for what it was at the map's revision.
pub(crate) fn number_again<R: Print + AllocGlobal, L: Ledger>(
    rt: &R,
    machine: &mut Machine,
    steps: &mut Steps<L>,
) -> Result<()> {
    let alloc = rt.alloc();
    commit(rt, machine, endpoint(alloc, "web"), steps)?;
    commit(rt, machine, into(alloc, "old", ten()), steps)?;
    take(rt, machine, 0, steps)?;
    finish(rt, machine, 0, steps)?;
    commit(rt, machine, no_policy(alloc, "old"), steps)?;
    commit(rt, machine, into(alloc, "new", other()), steps)?;
    look_at(rt, machine, 172, 16, steps)?;
    look_at(rt, machine, 10, 0, steps)?;
    look(
        rt,
        machine,
        packet(alloc, "web", Remote::Identity(16777217)),
        steps,
    )?;
    take(rt, machine, 0, steps)?;
    finish(rt, machine, 0, steps)?;
    look_at(rt, machine, 172, 16, steps)?;
    look_at(rt, machine, 10, 0, steps)
}

/// Takes and finishes, and asks for a verdict.
fn turn<R: Print + AllocGlobal, L: Ledger>(
    rt: &R,
    machine: &mut Machine,
    remote: Remote,
    steps: &mut Steps<L>,
) -> Result<()> {
    take(rt, machine, 0, steps)?;
    finish(rt, machine, 0, steps)?;
    look(rt, machine, packet(rt.alloc(), "web", remote), steps)
}

/// A deny comes over an allow, and goes again.
pub(crate) fn denied<R: Print + AllocGlobal, L: Ledger>(
    rt: &R,
    machine: &mut Machine,
    steps: &mut Steps<L>,
) -> Result<()> {
    let alloc = rt.alloc();
    let from_x = Remote::Identity(257);
    let Some(ports) = on_80(alloc) else {
        return Ok(());
    };
    commit(rt, machine, endpoint(alloc, "web"), steps)?;
    commit(rt, machine, identity(alloc, "x"), steps)?;
    commit(
        rt,
        machine,
        allow(alloc, "allow", of_app(alloc), ports),
        steps,
    )?;
    turn(rt, machine, from_x, steps)?;
    commit(rt, machine, deny(alloc, "deny", of_app(alloc)), steps)?;
    turn(rt, machine, from_x, steps)?;
    commit(rt, machine, no_policy(alloc, "deny"), steps)?;
    turn(rt, machine, from_x, steps)
}

/// Where a map has three entries at most: one that is too large, reported once, and then one that fits.
pub(crate) fn too_large<R: Print + AllocGlobal, L: Ledger>(
    rt: &R,
    machine: &mut Machine,
    steps: &mut Steps<L>,
) -> Result<()> {
    let alloc = rt.alloc();
    let from_ten = Remote::Address(Addr::from_octets(10, 0, 0, 1));
    commit(rt, machine, endpoint(alloc, "web"), steps)?;
    commit(rt, machine, into(alloc, "p", ten()), steps)?;
    turn(rt, machine, from_ten, steps)?;
    commit(rt, machine, into(alloc, "q", other()), steps)?;
    turn(rt, machine, from_ten, steps)?;
    turn(rt, machine, from_ten, steps)?;
    commit(rt, machine, no_policy(alloc, "q"), steps)?;
    turn(rt, machine, from_ten, steps)
}
