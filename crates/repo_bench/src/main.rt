//! Times commits of the repository as policies, identities, endpoints or prefixes double. The figures go to standard error.
#![tactic(auto)]

mod asked;
mod figures;
mod filled;
mod peers;
mod pods;
mod policies;
mod runs;
mod table;
mod watch;

ghost use Rattle.std.specs.Prelude.{◌≡◌, None};

use crate::figures::Figures;
use crate::filled::{Sizes, fill};
use crate::runs::time_runs;
use crate::table::{Column, KINDS, tell};
use crate::watch::Watch;
use anyhow::Result;
use pol_data::Steps;
use pol_model::Mode;
use pol_repo::Repo;
use std::marker::Brand;
use std::rt::Clock;
use std::sync::ledger::{Blank, Ledger};
use std::time::Instant;

/// Times each kind.
fn time_all<R: Clock + AllocGlobal, L: Ledger>(
    rt: &R,
    watch: Watch,
    repo: &mut Repo,
    steps: &mut Steps<L>,
) -> Result<Vec<Figures>>
    requires idle { repo.old.prepared ≡ None }
{
    let mut figures = Vec::new(rt.alloc());
    for kind in &KINDS {
        figures.push(time_runs(rt, watch, repo, *kind, steps)?)?;
    }
    Ok(figures)
}

/// Fills the repository up to the sizes, and times each kind there.
fn measure_in<R: Clock + AllocGlobal, L: Ledger>(
    rt: &R,
    watch: Watch,
    repo: &mut Repo,
    sizes: Sizes,
    steps: &mut Steps<L>,
) -> Result<Vec<Figures>>
    requires idle { repo.old.prepared ≡ None }
{
    fill(rt.alloc(), repo, sizes, steps)?;
    time_all(rt, watch, repo, steps)
}

/// The same from an empty repository.
fn measure_over<R: Clock + AllocGlobal, L: Ledger>(
    rt: &R,
    watch: Watch,
    blank: Blank,
    sizes: Sizes,
) -> Result<Vec<Figures>>
    requires name { blank.name ≡ L.name }
    requires parts { blank.parts ≡ L.parts }
    requires some { blank.parts ≡ 1 }
{
    let mut steps = Steps::<L>::new(blank);
    let mut repo = Repo::new(rt.alloc(), Mode::Default, true)?;
    measure_in(rt, watch, &mut repo, sizes, &mut steps)
}

fn measure<R: Clock + AllocGlobal>(rt: &R, watch: Watch, sizes: Sizes) -> Result<Vec<Figures>> {
    measure_over::<R, Brand>(rt, watch, Blank::new(1), sizes)
}

/// What is doubled.
#[derive(Clone, Copy)]
enum Doubled {
    Policies,
    Identities,
    Endpoints,
    Prefixes,
}

/// The sizes with so many of what is doubled: half of the policies list label peers, and half prefixes.
fn sizes_with(doubled: Doubled, count: u32) -> Sizes {
    let mut sizes = Sizes {
        of_pods: 500,
        of_prefixes: 500,
        identities: 4_000,
        endpoints: 256,
    };
    match doubled {
        Doubled::Policies => {
            sizes.of_pods = count / 2;
            sizes.of_prefixes = count / 2;
        }
        Doubled::Identities => sizes.identities = count,
        Doubled::Endpoints => sizes.endpoints = count,
        Doubled::Prefixes => sizes.of_prefixes = count / 10,
    }
    sizes
}

/// Doubles it from a count on, and tells the figures at so many counts.
fn double<R: Clock + Eprint + AllocGlobal>(
    rt: &R,
    watch: Watch,
    doubled: Doubled,
    what: &str,
    least: u32,
    times: u32,
) -> Result<()> {
    let mut columns = Vec::new(rt.alloc());
    let mut count = least;
    for _ in 0..times {
        let figures = measure(rt, watch, sizes_with(doubled, count))?;
        columns.push(Column { count, figures })?;
        count = count.wrapping_mul(2);
    }
    tell(rt, what, columns.as_slice())
}

fn main(rt: HostRuntime) -> Result<()> {
    let watch = Watch::since(Instant::now(&rt)?);
    eprintln!(rt; "microseconds of a commit, and how many times the figure on the left they are")?;
    double(&rt, watch, Doubled::Policies, "policies", 250, 4)?;
    double(&rt, watch, Doubled::Identities, "identities", 250, 7)?;
    double(&rt, watch, Doubled::Endpoints, "endpoints", 64, 3)?;
    double(&rt, watch, Doubled::Prefixes, "prefixes", 1_000, 5)
}
