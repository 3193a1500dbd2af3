//! Regenerations one after another: a map that is new, one that was reported already, and a slot without an endpoint.
ghost use Rattle.std.specs.Prelude.{◌≡◌, ◌+◌, ◌<◌, ◌≤◌, Some, drop, map, true};
ghost use Rattle.pol_board.specs.Counts.{new_passes};
ghost use Rattle.pol_history.specs.Meet.{has};

use crate::asked::{commit, endpoint};
use crate::running::{config, open};
use crate::stand::LIMIT;
use pol_data::{Memory, Steps};
use pol_model::{Mode, Request};
use pol_node::{Config, NewBook, Node, NodeName, Pass, Regen};
use std::alloc::Global;
use std::marker::Brand;
use std::sync::Wait;
use std::sync::ledger::{Blank, Ledger};
use std::test::Fail;

static TOLD: [Regen; 4] = [
    Regen::Published(1),
    Regen::Already(1),
    Regen::Published(2),
    Regen::Gone,
];

/// What a regeneration of the slot tells. An error is want of memory here.
fn regenerated<N: NodeName, W: Wait, R: Wait + Drop>(
    rt: &W,
    alloc: Global,
    node: &Node<N, R>,
    slot: u32,
) -> Result<Regen, Memory> {
    match node.regenerate(rt, alloc, slot) {
        Ok(regen) => Ok(regen),
        Err(_) => Err(Memory),
    }
}

/// What is told of the slot of an endpoint, once more, after another commit, and of the slot behind it.
fn regenerations<N: NodeName, W: Wait, R: Wait + Drop, L: Ledger>(
    blank: Blank,
    rt: &W,
    alloc: Global,
    node: &Node<N, R>,
    pass: Pass<N>,
) -> Result<Vec<Regen>, Memory>
    requires name { blank.name ≡ L.name }
    requires parts { blank.parts ≡ L.parts }
    requires some { blank.parts ≡ 1 }
    requires handed_out { has N.passes pass.number ≡ true }
{
    let mut steps = Steps::<L>::new(blank);
    let mut pass = pass;
    let mut told = Vec::new(alloc);
    commit(rt, alloc, node, &mut pass, endpoint(alloc)?, &mut steps)?;
    told.push(regenerated(rt, alloc, node, 0)?)?;
    told.push(regenerated(rt, alloc, node, 0)?)?;
    let always = Request::SetMode(Mode::Always);
    commit(rt, alloc, node, &mut pass, always, &mut steps)?;
    told.push(regenerated(rt, alloc, node, 0)?)?;
    told.push(regenerated(rt, alloc, node, 1)?)?;
    Ok(told)
}

/// The same over a new node of this name.
fn regenerations_named<N: NodeName, W: Wait>(
    rt: &W,
    alloc: Global,
    book: NewBook,
    config: Config,
) -> Result<Vec<Regen>, Memory>
    requires book { book ≡ N.book }
    requires options { N.options
        ≡ record { mode = config.mode; localhost = config.localhost; map_max = Some config.map_max } }
    requires passes { N.passes ≡ map (λ pass. pass.number) (drop 257 (new_passes (257 + config.passes))) }
    requires limit { config.map_max ≤ 65536 }
    requires sessions { (0 < config.passes) × (config.passes ≤ 40) }
{
    let (node, pass) = open::<N, W>(rt, alloc, book, config)?;
    let told = regenerations::<N, W, &W, Brand>(Blank::new(1), rt, alloc, &node, pass);
    node.close(rt);
    told
}

fn regenerations_told<W: Wait>(rt: &W, alloc: Global) -> Result<Vec<Regen>, Memory> {
    regenerations_named::<Brand, W>(rt, alloc, NewBook::new(), config(LIMIT))
}

#[test]
fn a_regeneration_publishes_once(rt: HostRuntime) -> Result<(), Fail> {
    let told = regenerations_told(&rt, rt.alloc())?;
    assert!(rt; told.as_slice() == TOLD.as_slice());
    Ok(())
}
