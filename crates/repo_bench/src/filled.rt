//! The repository as it stands before commits are timed.
ghost use Rattle.std.specs.Prelude.{◌≡◌, None};

use crate::asked::{BATCH, filling};
use crate::peers::PeersOf;
use crate::pods::{endpoint, identity};
use crate::runs::commit;
use anyhow::Result;
use pol_data::{Memory, Steps};
use pol_model::Request;
use pol_repo::Repo;
use std::alloc::Global;
use std::sync::ledger::Ledger;

/// How many there are of each.
#[derive(Clone, Copy)]
pub(crate) struct Sizes {
    /// Policies of ten label peers.
    pub(crate) of_pods: u32,
    /// Policies of ten prefixes.
    pub(crate) of_prefixes: u32,
    pub(crate) identities: u32,
    /// With those that a run adds.
    pub(crate) endpoints: u32,
}

/// What the repository is filled with.
#[derive(Clone, Copy)]
enum Filling {
    Identities,
    /// They leave the numbers of a run free. Each has the labels of an identity.
    Endpoints,
    Policies(PeersOf),
}

fn filling_request(alloc: Global, filled: Filling, number: u32) -> Result<Request, Memory> {
    match filled {
        Filling::Identities => identity(alloc, number, "default"),
        Filling::Endpoints => endpoint(alloc, number.wrapping_add(BATCH), "default"),
        Filling::Policies(named) => filling(alloc, named, number),
    }
}

fn fill_with<L: Ledger>(
    alloc: Global,
    repo: &mut Repo,
    filled: Filling,
    count: u32,
    steps: &mut Steps<L>,
) -> Result<()>
    requires idle { repo.old.prepared ≡ None }
    ensures idle { repo.new.prepared ≡ None }
{
    for number in 0..count {
        commit(repo, filling_request(alloc, filled, number)?, steps)?;
    }
    Ok(())
}

/// Fills the repository up to the sizes.
pub(crate) fn fill<L: Ledger>(
    alloc: Global,
    repo: &mut Repo,
    sizes: Sizes,
    steps: &mut Steps<L>,
) -> Result<()>
    requires idle { repo.old.prepared ≡ None }
    ensures idle { repo.new.prepared ≡ None }
{
    let endpoints = sizes.endpoints.saturating_sub(BATCH);
    let pods = Filling::Policies(PeersOf::Pods);
    let prefixes = Filling::Policies(PeersOf::Prefixes);
    fill_with(alloc, repo, Filling::Identities, sizes.identities, steps)?;
    fill_with(alloc, repo, pods, sizes.of_pods, steps)?;
    fill_with(alloc, repo, prefixes, sizes.of_prefixes, steps)?;
    fill_with(alloc, repo, Filling::Endpoints, endpoints, steps)
}
