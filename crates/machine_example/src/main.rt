//! The machine as a user of the library calls it: small runs, each of a machine of its own. What it prints is stored, and each
//! gate compares it.
#![tactic(auto)]

mod asked;
mod runs;
mod said;
mod session;

ghost use Rattle.std.specs.Prelude.{◌≡◌, ◌≤◌};

use anyhow::Result;
use pol_data::Steps;
use pol_machine::Machine;
use pol_model::Mode;
use std::marker::Brand;
use std::sync::ledger::{Blank, Ledger};

fn machine<R: AllocGlobal>(rt: &R, map_max: u32) -> Result<Machine>
    requires { map_max ≤ 65536 }
{
    Ok(Machine::new(rt.alloc(), Mode::Default, true, map_max)?)
}

fn show<R: Print + AllocGlobal, L: Ledger>(rt: &R, blank: Blank) -> Result<()>
    requires name { blank.name ≡ L.name }
    requires parts { blank.parts ≡ L.parts }
    requires some { blank.parts ≡ 1 }
{
    let mut steps = Steps::<L>::new(blank);
    runs::taken_before(rt, &mut machine(rt, 16384)?, &mut steps)?;
    runs::taken_again(rt, &mut machine(rt, 16384)?, &mut steps)?;
    runs::comes_again(rt, &mut machine(rt, 16384)?, &mut steps)?;
    runs::number_again(rt, &mut machine(rt, 16384)?, &mut steps)?;
    runs::denied(rt, &mut machine(rt, 16384)?, &mut steps)?;
    runs::too_large(rt, &mut machine(rt, 3)?, &mut steps)?;
    session::show(rt, &mut machine(rt, 3)?, &mut steps)
}

fn main(rt: HostRuntime) -> Result<()> {
    show::<HostRuntime, Brand>(&rt, Blank::new(1))
}
