//! Requests committed, and timed.
ghost use Rattle.std.specs.Prelude.{◌≡◌, None};

use crate::asked::{BATCH, Step, TimedRequest, requests, steps_of};
use crate::figures::{Figures, none};
use crate::peers::PeersOf;
use crate::watch::Watch;
use anyhow::Result;
use pol_data::Steps;
use pol_model::{CommitError, Request};
use pol_repo::Repo;
use std::rt::Clock;
use std::sync::ledger::Ledger;

/// How many runs of a kind there are; the shortest counts. There are no more policies of a kind than 100 in the least
/// repository, and each run on the oldest policies takes the next ones.
fn runs_of(kind: TimedRequest) -> u32 {
    match kind {
        TimedRequest::Policy(PeersOf::AllBut) => 3,
        _ => 12,
    }
}

/// Commits a request.
pub(crate) fn commit<L: Ledger>(
    repo: &mut Repo,
    request: Request,
    steps: &mut Steps<L>,
) -> Result<(), CommitError>
    requires idle { repo.old.prepared ≡ None }
    ensures idle { repo.new.prepared ≡ None }
{
    if request.is_short() {
        repo.commit(request, steps)?;
    }
    Ok(())
}

/// Commits the requests.
fn commit_all<L: Ledger>(
    repo: &mut Repo,
    requests: Vec<Request>,
    steps: &mut Steps<L>,
) -> Result<(), CommitError>
    requires idle { repo.old.prepared ≡ None }
    ensures idle { repo.new.prepared ≡ None }
{
    for request in requests {
        commit(repo, request, steps)?;
    }
    Ok(())
}

/// The nanoseconds that it took to commit the requests.
fn time_all<R: Clock, L: Ledger>(
    rt: &R,
    watch: Watch,
    repo: &mut Repo,
    requests: Vec<Request>,
    steps: &mut Steps<L>,
) -> Result<u128, CommitError>
    requires idle { repo.old.prepared ≡ None }
    ensures idle { repo.new.prepared ≡ None }
{
    let start = watch.nanos(rt);
    commit_all(repo, requests, steps)?;
    Ok(watch.nanos(rt).wrapping_sub(start))
}

/// The share of one commit in a run of one step.
fn time_step<R: Clock + AllocGlobal, L: Ledger>(
    rt: &R,
    watch: Watch,
    repo: &mut Repo,
    kind: TimedRequest,
    step: Step,
    run: u32,
    steps: &mut Steps<L>,
) -> Result<u128>
    requires idle { repo.old.prepared ≡ None }
    ensures idle { repo.new.prepared ≡ None }
{
    let requests = requests(rt.alloc(), kind, step, run)?;
    let took = time_all(rt, watch, repo, requests, steps)?;
    Ok(took / u128::from(BATCH))
}

/// Times each step of a kind.
fn time_run<R: Clock + AllocGlobal, L: Ledger>(
    rt: &R,
    watch: Watch,
    repo: &mut Repo,
    kind: TimedRequest,
    run: u32,
    steps: &mut Steps<L>,
) -> Result<Figures>
    requires idle { repo.old.prepared ≡ None }
    ensures idle { repo.new.prepared ≡ None }
{
    let mut figures = none();
    for step in steps_of(kind) {
        figures = figures.with(*step, time_step(rt, watch, repo, kind, *step, run, steps)?);
    }
    Ok(figures)
}

/// The least figures of all runs.
pub(crate) fn time_runs<R: Clock + AllocGlobal, L: Ledger>(
    rt: &R,
    watch: Watch,
    repo: &mut Repo,
    kind: TimedRequest,
    steps: &mut Steps<L>,
) -> Result<Figures>
    requires idle { repo.old.prepared ≡ None }
    ensures idle { repo.new.prepared ≡ None }
{
    let mut least = time_run(rt, watch, repo, kind, 0, steps)?;
    for run in 1..runs_of(kind) {
        least = least.lesser(time_run(rt, watch, repo, kind, run, steps)?);
    }
    Ok(least)
}
