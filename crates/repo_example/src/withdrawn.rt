//! A request that is withdrawn leaves all as it was.
ghost use Rattle.std.specs.Prelude.{◌≡◌, None, IfSome};

use crate::asked::{commit, endpoint};
use anyhow::Result;
use pol_data::Steps;
use pol_model::{Mode, Request};
use pol_repo::Repo;
use std::marker::Brand;
use std::sync::ledger::{Blank, Ledger};

/// Prepares the request and withdraws it; tells the number that it would have had.
fn withdraw<L: Ledger>(repo: &mut Repo, request: Request, steps: &mut Steps<L>) -> Option<u32>
    requires idle { repo.old.prepared ≡ None }
    ensures idle { IfSome result (λ _. repo.new.prepared ≡ None) }
{
    if !request.is_short() {
        return None;
    }
    let ready = repo.prepare(request, steps).ok()?;
    let number = ready.done.identity;
    repo.withdraw(ready);
    number
}

fn show_state<R: Print>(rt: &R, repo: &Repo) -> Result<()>
    requires idle { repo.now.prepared ≡ None }
{
    let held = repo.identities().held(256);
    println!(rt;
        "revision {}, {} requests, 256 is held: {held}",
        repo.revision(),
        repo.journal().len()
    )?;
    Ok(())
}

/// Withdraws the endpoint, and commits it then.
fn show_in<R: Print + AllocGlobal, L: Ledger>(
    rt: &R,
    repo: &mut Repo,
    steps: &mut Steps<L>,
) -> Result<()>
    requires idle { repo.old.prepared ≡ None }
{
    let Some(asked) = endpoint(rt.alloc()) else {
        return Ok(());
    };
    let Some(number) = withdraw(repo, asked, steps) else {
        return Ok(());
    };
    println!(rt; "withdrawn: an endpoint that would have had {number}")?;
    show_state(rt, repo)?;
    let Some(asked) = endpoint(rt.alloc()) else {
        return Ok(());
    };
    if commit(repo, asked, steps).is_some() {
        show_state(rt, repo)?;
    }
    Ok(())
}

fn show_over<R: Print + AllocGlobal, L: Ledger>(rt: &R, blank: Blank) -> Result<()>
    requires name { blank.name ≡ L.name }
    requires parts { blank.parts ≡ L.parts }
    requires some { blank.parts ≡ 1 }
{
    let mut steps = Steps::<L>::new(blank);
    let mut repo = Repo::new(rt.alloc(), Mode::Default, true)?;
    show_in(rt, &mut repo, &mut steps)
}

pub(crate) fn show<R: Print + AllocGlobal>(rt: &R) -> Result<()> {
    show_over::<R, Brand>(rt, Blank::new(1))
}
