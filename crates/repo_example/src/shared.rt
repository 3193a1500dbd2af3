//! Who has the table of prefixes: the repository, with all that is taken of it while no number of a prefix comes or goes.
ghost use Rattle.std.specs.Prelude.{◌≡◌, None, IfSome};

use crate::asked::{commit, no_policy};
use crate::taken::fill;
use anyhow::Result;
use pol_data::Steps;
use pol_model::{Mode, Request};
use pol_repo::{Repo, Taken};
use std::alloc::Global;
use std::marker::Brand;
use std::sync::Arc;
use std::sync::ledger::{Blank, Ledger};

/// How many have the table of prefixes that was taken.
fn holders(taken: &Taken) -> usize {
    Arc::strong_count(taken.addresses.prefixes())
}

/// What is taken of slot 0 once the request is committed.
fn taken_after<L: Ledger>(
    alloc: Global,
    repo: &mut Repo,
    request: Request,
    steps: &mut Steps<L>,
) -> Option<Taken>
    requires idle { repo.old.prepared ≡ None }
    ensures idle { IfSome result (λ _. repo.new.prepared ≡ None) }
{
    commit(repo, request, steps)?;
    repo.refresh(alloc, 0);
    repo.take(alloc, 0, None).ok()
}

/// What is taken of slot 0 once the endpoint and the policy are there.
fn taken_first<L: Ledger>(alloc: Global, repo: &mut Repo, steps: &mut Steps<L>) -> Option<Taken>
    requires idle { repo.old.prepared ≡ None }
    ensures idle { IfSome result (λ _. repo.new.prepared ≡ None) }
{
    fill(alloc, repo, steps)?;
    repo.refresh(alloc, 0);
    repo.take(alloc, 0, None).ok()
}

/// How many have the table that was taken first once the request is committed, and how many the one that is taken then.
fn holders_after<L: Ledger>(
    alloc: Global,
    repo: &mut Repo,
    request: Request,
    steps: &mut Steps<L>,
    first: &Taken,
) -> Option<(usize, usize)>
    requires idle { repo.old.prepared ≡ None }
    ensures idle { IfSome result (λ _. repo.new.prepared ≡ None) }
{
    let last = taken_after(alloc, repo, request, steps)?;
    Some((holders(first), holders(&last)))
}

/// With the policy its prefixes go: the repository has a new table, and who has the old one keeps it.
fn show_without_policy<R: Print + AllocGlobal, L: Ledger>(
    rt: &R,
    repo: &mut Repo,
    steps: &mut Steps<L>,
    first: &Taken,
) -> Result<()>
    requires idle { repo.old.prepared ≡ None }
{
    let Some(request) = no_policy(rt.alloc()) else {
        return Ok(());
    };
    let Some((kept, made)) = holders_after(rt.alloc(), repo, request, steps, first) else {
        return Ok(());
    };
    println!(rt; "without the policy: {kept} have the old table, {made} a new one")?;
    Ok(())
}

/// A change of mode leaves the prefixes as they are: what is taken then has the same table.
fn show_other_mode<R: Print + AllocGlobal, L: Ledger>(
    rt: &R,
    repo: &mut Repo,
    steps: &mut Steps<L>,
    first: &Taken,
) -> Result<()>
    requires idle { repo.old.prepared ≡ None }
{
    let request = Request::SetMode(Mode::Always);
    let Some((kept, _)) = holders_after(rt.alloc(), repo, request, steps, first) else {
        return Ok(());
    };
    println!(rt; "in another mode: {kept} have the table of prefixes")?;
    show_without_policy(rt, repo, steps, first)
}

/// Shows who has the table that was taken first, and then the same after each request.
fn show_first<R: Print + AllocGlobal, L: Ledger>(
    rt: &R,
    repo: &mut Repo,
    steps: &mut Steps<L>,
    first: &Taken,
) -> Result<()>
    requires idle { repo.old.prepared ≡ None }
{
    println!(rt; "taken once: {} have the table of prefixes", holders(first))?;
    show_other_mode(rt, repo, steps, first)
}

fn show_in<R: Print + AllocGlobal, L: Ledger>(
    rt: &R,
    repo: &mut Repo,
    steps: &mut Steps<L>,
) -> Result<()>
    requires idle { repo.old.prepared ≡ None }
{
    match taken_first(rt.alloc(), repo, steps) {
        Some(first) => show_first(rt, repo, steps, &first),
        None => Ok(()),
    }
}

fn show_over<R: Print + AllocGlobal, L: Ledger>(rt: &R, blank: Blank) -> Result<()>
    requires name { blank.name ≡ L.name }
    requires parts { blank.parts ≡ L.parts }
    requires some { blank.parts ≡ 1 }
{
    let mut steps = Steps::<L>::new(blank);
    let mut repo = Repo::new(rt.alloc(), Mode::Default, true)?;
    show_in(rt, &mut repo, &mut steps)
}

/// Takes twice with the same prefixes, and once more without them.
pub(crate) fn show<R: Print + AllocGlobal>(rt: &R) -> Result<()> {
    show_over::<R, Brand>(rt, Blank::new(1))
}
