//! A kept machine as a user of the library calls it: requests are committed, the disk fails at each call in turn and crashes, and
//! the journal is opened again. What it prints is stored, and each gate compares it.
#![tactic(auto)]

mod drill;
mod laws;
mod questions;

ghost use Rattle.std.specs.Prelude.{◌≡◌};

use anyhow::Result;
use pol_data::Steps;
use std::marker::Brand;
use std::sync::ledger::{Blank, Ledger};

fn show<R: Print + AllocGlobal, L: Ledger>(rt: &R, blank: Blank) -> Result<()>
    requires name { blank.name ≡ L.name }
    requires parts { blank.parts ≡ L.parts }
    requires some { blank.parts ≡ 1 }
{
    let mut steps = Steps::<L>::new(blank);
    for first in 1..=13 {
        drill::failing(rt, first, &mut steps)?;
    }
    drill::damaged(rt)?;
    questions::show(rt, &mut steps)
}

fn main(rt: HostRuntime) -> Result<()> {
    show::<HostRuntime, Brand>(&rt, Blank::new(1))
}
