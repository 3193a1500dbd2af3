//! What is asked of a repository.
ghost use Rattle.std.specs.Prelude.{◌≡◌, ◌↔◌, None, Some, IfOk, IsErrOf, option_map};
ghost use Rattle.pol_model.specs.Endpoints.{endpoint_of};
ghost use Rattle.pol_model.specs.Explain.{explain_for, explain_of};
ghost use Rattle.pol_model.specs.Remote.{remote_number, verdict_for};
ghost use Rattle.pol_repo.specs.Repository.{state_in};

use pol_data::Memory;
use pol_judge::{explain_at, verdict_at};
use pol_mapkey::Word;
use pol_model::{Endpoint, Query, Remote, Trace};
use pol_repo::Repo;
use std::alloc::Global;
use thiserror::Error;

/// Why a query isn't explained.
#[derive(Clone, Copy, Debug, PartialEq, Eq, Error)]
pub enum ExplainError {
    /// No endpoint of that name is live.
    #[error("no such endpoint is live")]
    NoEndpoint,
    /// Want of memory.
    #[error("out of memory")]
    Memory,
}

/// The identity number that a remote stands for.
fn number_of(repo: &Repo, remote: Remote) -> u32
    requires idle { repo.now.prepared ≡ None }
    ensures number { result ≡ remote_number (state_in repo.now) remote }
{
    match remote {
        Remote::Identity(number) => number,
        Remote::Address(address) => repo.remote(address),
    }
}

/// The verdict on the query's packet at the endpoint.
fn judged(repo: &Repo, query: &Query, endpoint: &Endpoint) -> Word
    requires idle { repo.now.prepared ≡ None }
    ensures word { result ≡ verdict_for repo.now.options (state_in repo.now) query.now endpoint.now }
{
    verdict_at(
        repo.localhost(),
        repo.mode(),
        repo.policies(),
        repo.identities(),
        endpoint,
        number_of(repo, query.remote),
        query,
    )
}

/// That verdict with its reasons.
fn explained(
    alloc: Global,
    repo: &Repo,
    query: &Query,
    endpoint: &Endpoint,
) -> Result<Trace, Memory>
    requires idle { repo.now.prepared ≡ None }
    ensures trace { IfOk result (λ trace.
        trace ≡ explain_for repo.now.options (state_in repo.now) query.now endpoint.now) }
{
    explain_at(
        alloc,
        repo.localhost(),
        repo.mode(),
        repo.policies(),
        repo.identities(),
        endpoint,
        number_of(repo, query.remote),
        query,
    )
}

/// The verdict on the query's packet in the present state; `None` exactly where no endpoint of that name is live. It takes
/// no memory.
pub fn verdict(repo: &Repo, query: &Query) -> Option<Word>
    requires idle { repo.now.prepared ≡ None }
    ensures word { result ≡ option_map (verdict_for repo.now.options (state_in repo.now) query.now)
        (endpoint_of query.now.endpoint (state_in repo.now).endpoints) }
{
    match repo.endpoint(query.endpoint.as_str()) {
        Some(endpoint) => Some(judged(repo, query, endpoint)),
        None => None,
    }
}

/// Why the query's packet is allowed or denied in the present state: the verdict, the number of the other side, and the
/// places of the deny and of the allow entries that cover the packet, in policy, rule and entry order, whatever the mode.
///
/// `NoEndpoint` comes exactly where no endpoint of that name is live. `Memory` is want of memory.
pub fn explain(alloc: Global, repo: &Repo, query: &Query) -> Result<Trace, ExplainError>
    requires idle { repo.now.prepared ≡ None }
    ensures trace { IfOk result (λ trace. explain_of repo.now.options (state_in repo.now) query.now ≡ Some trace) }
    ensures no_endpoint { IsErrOf result ExplainError.NoEndpoint
        ↔ (endpoint_of query.now.endpoint (state_in repo.now).endpoints ≡ None) }
{
    match repo.endpoint(query.endpoint.as_str()) {
        Some(endpoint) => match explained(alloc, repo, query, endpoint) {
            Ok(trace) => Ok(trace),
            Err(_) => Err(ExplainError::Memory),
        },
        None => Err(ExplainError::NoEndpoint),
    }
}
