//! A node over a new board.
ghost use Rattle.std.specs.Prelude.{◌≡◌, ◌+◌, ◌<◌, ◌≤◌, Some, IfOk, drop, map, true};
ghost use Rattle.pol_board.specs.Counts.{new_passes};
ghost use Rattle.pol_history.specs.Meet.{has};

use pol_board::Board;
use pol_data::Memory;
use pol_model::Mode;
use pol_node::{Config, NewBook, Node, NodeName, Pass};
use std::alloc::Global;
use std::sync::Wait;

/// How a node is made that hands out one pass, where maps of more entries aren't published.
pub(crate) fn config(map_max: u32) -> Config
    requires { map_max ≤ 65536 }
    ensures limit { result.map_max ≤ 65536 }
    ensures sessions { (0 < result.passes) × (result.passes ≤ 40) }
{
    Config {
        mode: Mode::Default,
        localhost: true,
        map_max,
        passes: 1,
    }
}

/// The node of this name, and the last pass that it hands out. There may be no memory, or no place.
#[tactic(auto, using(pol_node::proofs::Handed::last_handed_out))]
pub(crate) fn open<N: NodeName, W: Wait>(
    rt: &W,
    alloc: Global,
    book: NewBook,
    config: Config,
) -> Result<(Node<N, &W>, Pass<N>), Memory>
    requires book { book ≡ N.book }
    requires options { N.options
        ≡ record { mode = config.mode; localhost = config.localhost; map_max = Some config.map_max } }
    requires passes { N.passes ≡ map (λ pass. pass.number) (drop 257 (new_passes (257 + config.passes))) }
    requires limit { config.map_max ≤ 65536 }
    requires sessions { (0 < config.passes) × (config.passes ≤ 40) }
    ensures { IfOk result (λ made. has N.passes made.1.number ≡ true) }
{
    let places = 257 + config.passes;
    let Ok((writer, passes)) = Board::with_readers::<N, &W>(
        rt,
        alloc,
        book,
        config.mode,
        config.localhost,
        config.map_max,
        places,
        config.passes,
    ) else {
        return Err(Memory);
    };
    let (node, passes) = Node::new(rt, alloc, config, writer, passes)?;
    let mut passes = passes;
    match passes.pop() {
        Some(pass) => Ok((node, pass)),
        None => {
            node.close(rt);
            Err(Memory)
        }
    }
}
