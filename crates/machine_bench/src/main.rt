//! Times how a machine follows one identity that comes or goes, as the maps, the endpoints, the filters or the commits before
//! double. The figures go to standard error.
#![tactic(auto)]

mod asked;
mod runs;

ghost use Rattle.std.specs.Prelude.{◌≡◌};

use crate::runs::{Figures, Sizes, time_rounds};
use anyhow::Result;
use pol_data::Steps;
use pol_machine::Machine;
use pol_model::Mode;
use std::marker::Brand;
use std::rt::Clock;
use std::sync::ledger::{Blank, Ledger};

fn measure_over<R: Clock + AllocGlobal, L: Ledger>(
    rt: &R,
    blank: Blank,
    sizes: Sizes,
) -> Result<Figures>
    requires name { blank.name ≡ L.name }
    requires parts { blank.parts ≡ L.parts }
    requires some { blank.parts ≡ 1 }
{
    let mut steps = Steps::<L>::new(blank);
    let mut machine = Machine::new(rt.alloc(), Mode::Default, true, 65_536)?;
    time_rounds(rt, &mut machine, sizes, &mut steps)
}

/// The figures of a machine of these sizes.
fn measure<R: Clock + AllocGlobal>(rt: &R, sizes: Sizes) -> Result<Figures> {
    measure_over::<R, Brand>(rt, Blank::new(1), sizes)
}

/// Tells them.
fn tell<R: Clock + Eprint + AllocGlobal>(rt: &R, sizes: Sizes) -> Result<()> {
    let figures = measure(rt, sizes)?;
    eprintln!(rt;
        "{} maps of {} identities by {} filters beside {} other policies, {} commits before: takes {} ns, finishes {} ns, takes where nothing changed {} ns",
        sizes.endpoints,
        sizes.identities,
        sizes.filters,
        sizes.others,
        sizes.before.wrapping_mul(2),
        figures.takes,
        figures.finishes,
        figures.again
    )?;
    Ok(())
}

/// What is doubled.
#[derive(Clone, Copy)]
enum Doubled {
    Identities,
    Endpoints,
    Commits,
}

/// The sizes with so many of what is doubled.
fn sizes_with(doubled: Doubled, count: u32) -> Sizes {
    let mut sizes = Sizes {
        endpoints: 256,
        filters: 1,
        others: 0,
        identities: 256,
        before: 0,
    };
    match doubled {
        Doubled::Identities => sizes.identities = count,
        Doubled::Endpoints => sizes.endpoints = count,
        Doubled::Commits => sizes.before = count / 2,
    }
    sizes
}

/// Doubles it four times, from a count on.
fn double<R: Clock + Eprint + AllocGlobal>(rt: &R, doubled: Doubled, least: u32) -> Result<()> {
    let mut count = least;
    for _ in 0..5 {
        tell(rt, sizes_with(doubled, count))?;
        count = count.wrapping_mul(2);
    }
    Ok(())
}

/// Filters as `engine_bench` has them, each of which selects ten identities, and then one more, beside so many policies that
/// select no endpoint.
fn measure_filters<R: Clock + Eprint + AllocGlobal>(
    rt: &R,
    filters: u32,
    others: u32,
) -> Result<()> {
    let sizes = Sizes {
        endpoints: 256,
        filters,
        others,
        identities: 10,
        before: 0,
    };
    tell(rt, sizes)
}

fn main(rt: HostRuntime) -> Result<()> {
    measure_filters(&rt, 1, 0)?;
    measure_filters(&rt, 10, 0)?;
    measure_filters(&rt, 100, 0)?;
    measure_filters(&rt, 10, 1_000)?;
    double(&rt, Doubled::Identities, 256)?;
    double(&rt, Doubled::Endpoints, 16)?;
    double(&rt, Doubled::Commits, 2_048)
}
