//! A script over a node of its own.
ghost use Rattle.std.specs.Prelude.{◌≡◌, ◌+◌, ◌<◌, ◌≤◌, Some, drop, length, map, slice_get, IfErr, IfOk};
ghost use Rattle.std.specs.List.{AllByRecursion};
ghost use Rattle.pol_history.specs.Grows.{PassState};
ghost use Rattle.pol_board.specs.Counts.{new_passes};
ghost use Rattle.pol_sessions.specs.Sessions.{IsScriptPlayed};
ghost use Rattle.pol_sessions.specs.Again.{IsAgain};

use crate::in_play::NodeInPlay;
use crate::phase::PlayedPhases;
use crate::worker::play_beside;
use pol_board::{Board, BoardError};
use pol_data::{Items, Memory};
use pol_hints::{Gate, Hints};
use pol_node::{Config, NewBook, Node, NodeName, SeenHistory};
use pol_phases::{Answers, Commands};
use std::alloc::Global;
use std::marker::Brand;
use std::sync::Wait;
use std::thread::Threads;

/// How many hints may wait.
const HINTS_MAX: u32 = 1024;

/// What each session was told in each phase, and what all passes had seen in the end.
#[derive(Drop)]
pub struct PlayedScript {
    pub told: Vec<Items<Answers>>,
    pub last: SeenHistory,
}

/// With what a script is played: how its node is made, and how many workers there are.
#[derive(Clone, Copy)]
struct Settings {
    config: Config,
    workers: u32,
}

/// Why no script was played.
#[derive(Drop)]
pub(crate) enum Stopped {
    /// The board was refused a place. The script is given back.
    NoPlace(Vec<Items<Commands>>),
    /// Want of memory.
    Memory,
}

/// Plays a script over a node of its own: the phases one after another, the sessions of a phase at once, beside so many
/// workers. A board that is refused a place is made again. The one error is want of memory.
pub fn play_script<W: Threads + Wait + Sync, G: Gate + Sync>(
    rt: &W,
    alloc: Global,
    config: Config,
    workers: u32,
    gate: &G,
    phases: Vec<Items<Commands>>,
) -> Result<PlayedScript, Memory>
    requires limit { config.map_max ≤ 65536 }
    requires sessions { (0 < config.passes) × (config.passes ≤ 40) }
    requires one_each { AllByRecursion (λ lines. length lines ≡ config.passes) phases.items }
    ensures { IfOk result (λ played.
        IsScriptPlayed (record { mode = config.mode; localhost = config.localhost; map_max = Some config.map_max })
        config.passes phases.items played.told.items played.last) }
{
    let settings = Settings { config, workers };
    let mut left = phases;
    for _ in rt.forever() {
        match play_named::<Brand, W, G>(rt, alloc, NewBook::new(), settings, gate, left) {
            Ok(played) => return Ok(played),
            Err(Stopped::NoPlace(again)) => left = again,
            Err(Stopped::Memory) => return Err(Memory),
        }
    }
    unreachable!()
}

// Over the board of this name, which may be refused a place.
fn play_named<N: NodeName + Send + Sync, W: Threads + Wait + Sync, G: Gate + Sync>(
    rt: &W,
    alloc: Global,
    book: NewBook,
    settings: Settings,
    gate: &G,
    phases: Vec<Items<Commands>>,
) -> Result<PlayedScript, Stopped>
    // What the name says.
    requires book { book ≡ N.book }
    requires options { N.options ≡ record {
      mode = settings.config.mode;
      localhost = settings.config.localhost;
      map_max = Some settings.config.map_max;
    } }
    requires passes { N.passes ≡ map (λ pass. pass.number) (drop 257 (new_passes (257 + settings.config.passes))) }

    // What is to be played.
    requires limit { settings.config.map_max ≤ 65536 }
    requires sessions { (0 < settings.config.passes) × (settings.config.passes ≤ 40) }
    requires one_each { AllByRecursion (λ lines. length lines ≡ settings.config.passes) phases.items }

    // It was played, or is given back.
    ensures played { IfOk result (λ played.
        IsScriptPlayed N.options settings.config.passes phases.items played.told.items played.last) }
    ensures again { IfErr result (IsAgain phases.items) }
{
    let Settings { config, workers } = settings;
    let places = 257 + config.passes;
    let (writer, passes) = match Board::with_readers::<N, &W>(
        rt,
        alloc,
        book,
        config.mode,
        config.localhost,
        config.map_max,
        places,
        config.passes,
    ) {
        Ok(made) => made,
        Err(BoardError::NoPlace) => return Err(Stopped::NoPlace(phases)),
        Err(BoardError::Memory) => return Err(Stopped::Memory),
    };
    let (hints, hint_pass) = match Hints::new(alloc, HINTS_MAX) {
        Ok(made) => made,
        Err(_) => {
            writer.close(rt);
            return Err(Stopped::Memory);
        }
    };
    let (node, seats) = match Node::new(rt, alloc, config, writer, passes) {
        Ok(made) => made,
        Err(_) => return Err(Stopped::Memory),
    };
    let play = NodeInPlay {
        node: &node,
        hints: &hints,
        gate,
        workers,
    };
    let played = play_beside(rt, alloc, &play, hint_pass, seats, phases);
    node.close(rt);
    match played {
        Ok(played) => Ok(ended(played)),
        Err(_) => Err(Stopped::Memory),
    }
}

// What is left of a node that has ended.
fn ended<N: NodeName>(played: PlayedPhases<N>) -> PlayedScript
    requires { 0 < length played.passes.items }
    ensures told { result.told.items ≡ played.told.items }
    ensures last { (pass : PassState) → slice_get played.passes.items 0 ≡ Some pass → result.last ≡ pass.has.history }
{
    let PlayedPhases { passes, told } = played;
    let last = passes[0].seen().history();
    PlayedScript { told, last }
}
