//! What is taken for an endpoint that may reach a prefix but for a part of it, and a prefix of the other family.
ghost use Rattle.std.specs.Prelude.{◌≡◌, None, IfSome};

use crate::asked::{commit, endpoint, policy};
use anyhow::Result;
use pol_addr::Addr;
use pol_data::Steps;
use pol_model::Mode;
use pol_repo::{Repo, Taken};
use std::alloc::Global;
use std::marker::Brand;
use std::sync::ledger::{Blank, Ledger};

/// The endpoint first, and then the policy.
pub(crate) fn fill<L: Ledger>(alloc: Global, repo: &mut Repo, steps: &mut Steps<L>) -> Option<()>
    requires idle { repo.old.prepared ≡ None }
    ensures idle { IfSome result (λ _. repo.new.prepared ≡ None) }
{
    commit(repo, endpoint(alloc)?, steps)?;
    commit(repo, policy(alloc)?, steps)
}

/// What is taken of slot 0, with the moves since a revision.
fn take(alloc: Global, repo: &Repo, since: u64) -> Option<Taken>
    requires idle { repo.now.prepared ≡ None }
{
    if repo.revision() < since {
        return None;
    }
    repo.take(alloc, 0, Some(since)).ok()
}

/// The same over a repository that has the endpoint and the policy.
fn taken_over<L: Ledger>(blank: Blank, alloc: Global, since: u64) -> Option<Taken>
    requires name { blank.name ≡ L.name }
    requires parts { blank.parts ≡ L.parts }
    requires some { blank.parts ≡ 1 }
{
    let mut steps = Steps::<L>::new(blank);
    let mut repo = Repo::new(alloc, Mode::Default, true).ok()?;
    fill(alloc, &mut repo, &mut steps)?;
    take(alloc, &repo, since)
}

fn show_endpoint<R: Print>(rt: &R, taken: &Taken) -> Result<()> {
    let ingress = taken.filters.ingress.len();
    let egress = taken.filters.egress.len();
    println!(rt;
        "slot {} at revision {}: identity {}, {ingress} filters of ingress, {egress} of egress",
        taken.endpoint.slot, taken.revision, taken.endpoint.identity
    )?;
    Ok(())
}

/// The first prefix has the first number, its exception the second one, which no peer selects, and the prefix of the other
/// family the third one.
fn show_sets<R: Print>(rt: &R, taken: &Taken) -> Result<()> {
    for row in taken.sets.as_slice() {
        println!(rt;
            "a set of {} with 16777217: {}, with 16777219: {}",
            row.set.len(),
            row.set.contains(16_777_217),
            row.set.contains(16_777_219)
        )?;
    }
    Ok(())
}

fn show_address<R: Print>(rt: &R, taken: &Taken, address: Addr) -> Result<()> {
    let number = taken.addresses.remote(address);
    println!(rt; "{address} is {number}")?;
    Ok(())
}

/// The endpoint's own address, addresses in the prefixes, and for each family one outside.
fn show_addresses<R: Print>(rt: &R, taken: &Taken) -> Result<()> {
    show_address(rt, taken, Addr::from_octets(192, 168, 0, 1))?;
    show_address(rt, taken, Addr::from_octets(10, 0, 0, 1))?;
    show_address(rt, taken, Addr::from_octets(10, 1, 0, 1))?;
    show_address(rt, taken, Addr::from_octets(11, 0, 0, 1))?;
    let inside = Addr::from_groups([0x2001, 0xdb8, 0, 0, 0, 0, 0, 1]);
    show_address(rt, taken, inside)?;
    let outside = Addr::from_groups([0x2001, 0xdb9, 0, 0, 0, 0, 0, 1]);
    show_address(rt, taken, outside)
}

fn show_moves<R: Print>(rt: &R, taken: &Taken, since: u64) -> Result<()> {
    match taken.moves.as_ref() {
        Some(moves) => println!(rt; "moves since {since}: {}", moves.len())?,
        None => println!(rt; "no moves since {since}")?,
    }
    Ok(())
}

fn show_taken<R: Print>(rt: &R, taken: &Taken, since: u64) -> Result<()> {
    show_endpoint(rt, taken)?;
    show_sets(rt, taken)?;
    show_addresses(rt, taken)?;
    show_moves(rt, taken, since)
}

fn show_since<R: Print + AllocGlobal>(rt: &R, since: u64) -> Result<()> {
    match taken_over::<Brand>(Blank::new(1), rt.alloc(), since) {
        Some(taken) => show_taken(rt, &taken, since),
        None => Ok(()),
    }
}

/// What is taken with the moves since revision 1, at which no policy lists the peer, and since 2, at which one does.
pub(crate) fn show<R: Print + AllocGlobal>(rt: &R) -> Result<()> {
    show_since(rt, 1)?;
    show_since(rt, 2)
}
