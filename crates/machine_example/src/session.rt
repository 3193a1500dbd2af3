//! What one session asks of a machine, one after another.

use crate::asked::{allow, endpoint, no_policy, of_prefix, packet};
use crate::said::show_said;
use anyhow::Result;
use pol_addr::{Addr, Prefix};
use pol_data::Steps;
use pol_machine::{Asked, Machine, answer};
use pol_model::{Query, Remote, Request};
use pol_rule::PortSpecs;
use std::alloc::Global;
use std::sync::ledger::Ledger;

/// Asks, and shows the answer.
fn ask<R: Print + AllocGlobal, L: Ledger>(
    rt: &R,
    machine: &mut Machine,
    asked: Asked,
    steps: &mut Steps<L>,
) -> Result<()> {
    if !asked.is_short() {
        return Ok(());
    }
    let said = answer(rt.alloc(), machine, asked, steps)?;
    show_said(rt, said)
}

fn commit<R: Print + AllocGlobal, L: Ledger>(
    rt: &R,
    machine: &mut Machine,
    request: Option<Request>,
    steps: &mut Steps<L>,
) -> Result<()> {
    match request {
        Some(request) => ask(rt, machine, Asked::Commit(request), steps),
        None => Ok(()),
    }
}

/// A packet into `web` from the address 10.0.0.1.
fn from_ten(alloc: Global, name: &str) -> Option<Query> {
    packet(alloc, name, Remote::Address(Addr::from_octets(10, 0, 0, 1)))
}

/// Asks for a sync, and then for the verdict.
fn sync<R: Print + AllocGlobal, L: Ledger>(
    rt: &R,
    machine: &mut Machine,
    steps: &mut Steps<L>,
) -> Result<()> {
    ask(rt, machine, Asked::Sync, steps)?;
    match from_ten(rt.alloc(), "web") {
        Some(query) => ask(rt, machine, Asked::Look(query), steps),
        None => Ok(()),
    }
}

fn explain<R: Print + AllocGlobal, L: Ledger>(
    rt: &R,
    machine: &mut Machine,
    name: &str,
    steps: &mut Steps<L>,
) -> Result<()> {
    match from_ten(rt.alloc(), name) {
        Some(query) => ask(rt, machine, Asked::Explain(query), steps),
        None => Ok(()),
    }
}

/// Where a map has three entries at most: a sync that publishes it, two that find it too large, and one that finds that it fits
/// again.
pub(crate) fn show<R: Print + AllocGlobal, L: Ledger>(
    rt: &R,
    machine: &mut Machine,
    steps: &mut Steps<L>,
) -> Result<()> {
    let alloc = rt.alloc();
    let ten = Prefix::new(Addr::from_octets(10, 0, 0, 0), 8);
    let other = Prefix::new(Addr::from_octets(172, 16, 0, 0), 12);
    let first = allow(alloc, "p", of_prefix(alloc, ten), PortSpecs::empty(alloc));
    let second = allow(alloc, "q", of_prefix(alloc, other), PortSpecs::empty(alloc));
    commit(rt, machine, endpoint(alloc, "web"), steps)?;
    commit(rt, machine, first, steps)?;
    sync(rt, machine, steps)?;
    commit(rt, machine, second, steps)?;
    sync(rt, machine, steps)?;
    sync(rt, machine, steps)?;
    commit(rt, machine, no_policy(alloc, "q"), steps)?;
    sync(rt, machine, steps)?;
    explain(rt, machine, "web", steps)?;
    explain(rt, machine, "db", steps)
}
