//! The lists of connections.
ghost use Rattle.std.specs.Prelude.{◌≡◌, None, IfOk};
ghost use Rattle.pol_connections.specs.Connections.{changes_of, connections_of, ends_alone};
ghost use Rattle.pol_repo.specs.Repository.{state_in};

use crate::rows::OwnRows;
use pol_connection_maps as maps;
use pol_connections::{Connection, EndName};
use pol_data::Memory;
use pol_repo::Repo;
use std::alloc::Global;

/// The open connections of the repository's state: of each pair of ends, in their order, and each protocol, the ranges of ports on
/// which the source may send and the target may receive ('profile'; Cilium, Network Policy). The one error is want of memory.
pub fn open_connections(alloc: Global, repo: &Repo) -> Result<Vec<Connection>, Memory>
    requires idle { repo.now.prepared ≡ None }
    ensures list { IfOk result (λ list. list.items ≡ connections_of repo.now.options (state_in repo.now)) }
{
    let own = OwnRows::of(alloc, repo)?;
    let rows = own.rows(repo);
    maps::open_connections(alloc, &rows)
}

/// The connections that a change from the state of the first repository to that of the second opens or shuts: of each pair of ends
/// that both have, in the order of the second, and each protocol, the ranges of ports on which the connection is open before or after
/// and not both ('profile'). Where halves are told, those too on which a half has another word. The one error is want of memory.
pub fn changed_connections(
    alloc: Global,
    halves: bool,
    before: &Repo,
    after: &Repo,
) -> Result<Vec<Connection>, Memory>
    requires idle_before { before.now.prepared ≡ None }
    requires idle_after { after.now.prepared ≡ None }
    requires options { before.now.options ≡ after.now.options }
    ensures list { IfOk result (λ list.
        list.items ≡ changes_of halves after.now.options (state_in before.now) (state_in after.now)) }
{
    let own_before = OwnRows::of(alloc, before)?;
    let own_after = OwnRows::of(alloc, after)?;
    let rows_before = own_before.rows(before);
    let rows_after = own_after.rows(after);
    maps::changed_connections(alloc, halves, &rows_before, &rows_after)
}

/// The names of ends that the state of the second repository has and that of the first hasn't, in the order of ends ('profile'). The
/// one error is want of memory.
pub fn ends_alone(alloc: Global, one: &Repo, other: &Repo) -> Result<Vec<EndName>, Memory>
    requires idle_one { one.now.prepared ≡ None }
    requires idle_other { other.now.prepared ≡ None }
    ensures names { IfOk result (λ names. names.items ≡ ends_alone (state_in one.now) (state_in other.now)) }
{
    let own_one = OwnRows::of(alloc, one)?;
    let own_other = OwnRows::of(alloc, other)?;
    let rows_one = own_one.rows(one);
    let rows_other = own_other.rows(other);
    maps::ends_alone(alloc, &rows_one, &rows_other)
}
