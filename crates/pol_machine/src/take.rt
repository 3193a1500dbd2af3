//! A take.
ghost use Rattle.std.specs.Prelude.{◌≡◌, ◌≤◌, None, IfSome, option_map};
ghost use Rattle.pol_history.specs.Machine.{endpoint_in};
ghost use Rattle.pol_repo.specs.Repository.{state_in};
ghost use Rattle.pol_machine.specs.Parts.{Keeps, Takes as WhatTakes, by_slot};
ghost use Rattle.pol_machine.specs.Rows.{by_name, kept_in, since_of};

use crate::row::Rows;
use indexmap::IndexMap;
use pol_data::{Memory, Text};
use pol_history::Reply;
use pol_repo::Repo;
use pol_taken::{TakeError, Taken};
use std::alloc::Global;

/// What each slot has taken.
pub(crate) type Takes = IndexMap<u32, Option<Taken>>;

/// The revision of the map that was made last of the endpoint of that name.
fn kept(rows: &Rows, name: &Text) -> Option<u64>
    ensures { result ≡ kept_in (by_name rows.now name.now) }
{
    match rows.get(name) {
        None => None,
        Some(row) => match &row.work {
            None => None,
            Some(work) => Some(work.kept),
        },
    }
}

/// The revision of the map that was made last of the slot's endpoint.
fn since(rows: &Rows, repo: &Repo, slot: u32) -> Option<u64>
    requires idle { repo.now.prepared ≡ None }
    ensures { result ≡ since_of (by_name rows.now) (endpoint_in slot (state_in repo.now).endpoints) }
{
    match repo.endpoint_at(slot) {
        Some(endpoint) => kept(rows, &endpoint.name),
        None => None,
    }
}

/// Takes what the map of the slot's endpoint is made of. The one error is want of memory, and then all is as before.
pub(crate) fn take(
    alloc: Global,
    repo: &Repo,
    rows: &Rows,
    takes: &mut Takes,
    slot: u32,
) -> Result<Reply, Memory>
    requires idle { repo.now.prepared ≡ None }
    requires kept { IfSome (since_of (by_name rows.now) (endpoint_in slot (state_in repo.now).endpoints)) (λ revision.
        revision ≤ (state_in repo.now).revision) }
    ensures { WhatTakes repo.now (by_name rows.now) slot (by_slot takes.old) (by_slot takes.new) result }
{
    let since = since(rows, repo, slot);
    match repo.take(alloc, slot, since) {
        Ok(taken) => keep(takes, slot, taken),
        Err(TakeError::Gone) => Ok(Reply::Gone),
        Err(TakeError::Memory) => Err(Memory),
    }
}

/// The slot has taken this, in place of what it had taken before.
fn keep(takes: &mut Takes, slot: u32, taken: Taken) -> Result<Reply, Memory>
    ensures { Keeps slot taken (by_slot takes.old) (by_slot takes.new) result }
{
    let revision = taken.revision;
    takes.insert(slot, Some(taken))?;
    Ok(Reply::Took(revision))
}
