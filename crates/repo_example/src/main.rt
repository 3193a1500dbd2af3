//! The repository as a user of the library calls it: what is taken of it for an endpoint, and a request that is withdrawn.
//! What it prints is stored, and each gate compares it.
#![tactic(auto)]

mod asked;
mod shared;
mod taken;
mod withdrawn;

use anyhow::Result;

fn main(rt: HostRuntime) -> Result<()> {
    taken::show(&rt)?;
    withdrawn::show(&rt)?;
    shared::show(&rt)
}
