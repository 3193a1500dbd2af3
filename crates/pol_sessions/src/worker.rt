//! Workers beside the sessions.
ghost use Rattle.std.specs.Prelude.{◌≡◌, ◌<◌, ◌≤◌, IfOk, OnOk, length, true};
ghost use Rattle.std.specs.List.{AllByRecursion};
ghost use Rattle.pol_history.specs.Meet.{has};
ghost use Rattle.pol_run_laws.specs.Seats.{ArePhases};

use crate::in_play::NodeInPlay;
use crate::phase::{PlayedPhases, play_phases};
use left_right::Absorb;
use pol_board_view::{Face, FaceOp};
use pol_data::{Items, Memory};
use pol_hints::{AnyEnd, Calls, End, Gate, HintPass, Job, Over, work};
use pol_node::{NodeName, Pass};
use pol_phases::Commands;
use std::alloc::Global;
use std::sync::Wait;
use std::sync::atomic::{AtomicU64, Ordering};
use std::thread::{Threads, join};

/// How many slots there are.
const SLOTS: u32 = 256;

/// What workers share. With a hint a worker regenerates the slot, once between two rings, until the end is told.
#[derive(Drop)]
struct Workers<'a, N: NodeName, R: Wait + Drop, G: Gate, E: End>
where
    Face<N>: Absorb<FaceOp<N>>,
{
    play: &'a NodeInPlay<'a, N, R, G>,
    calls: Calls,
    over: Over<E>,
    // For each slot how often it had rung when a worker regenerated it last.
    made: Vec<AtomicU64>,
}

/// No slot was regenerated yet.
fn none_made(alloc: Global) -> Result<Vec<AtomicU64>, Memory> {
    let mut made = Vec::with_capacity(alloc, SLOTS as usize)?;
    for _ in 0..SLOTS {
        made.push(AtomicU64::new(0))?;
    }
    Ok(made)
}

impl<'a, N: NodeName, R: Wait + Drop, G: Gate, E: End> Workers<'a, N, R, G, E> {
    /// Whether the slot is to be regenerated: it wasn't since the last ring, and its map may still be asked for. It counts as
    /// regenerated from then on. No clause speaks of it.
    fn is_due(&self, slot: u32) -> bool {
        if self.over.is_set() {
            return false;
        }
        let rung = self.play.hints.rung();
        match self.made.as_slice().get(slot as usize) {
            Some(made) => made.swap(rung, Ordering::SeqCst) != rung,
            None => true,
        }
    }
}

impl<'a, N: NodeName, R: Wait + Drop, G: Gate, E: End> Job for Workers<'a, N, R, G, E> {
    ghost use Rattle.std.specs.Prelude.{⊤};

    // A regeneration leaves nothing that a fact could name: what it reports stands in the node's history.
    ghost has_run = { λ job slot. ⊤ };

    fn run<W: Wait>(&self, rt: &W, alloc: Global, slot: u32) -> Result<(), Memory> {
        if !self.is_due(slot) {
            return Ok(());
        }
        match self.play.node.regenerate(rt, alloc, slot) {
            Ok(_) => Ok(()),
            Err(_) => Err(Memory),
        }
    }
}

// So many workers, each in a thread. They end behind the sign alone.
fn serve<
    N: NodeName + Send + Sync,
    W: Threads + Wait + Sync,
    R: Wait + Drop + Send,
    G: Gate + Sync,
    E: End + Send + Sync,
>(
    rt: &W,
    alloc: Global,
    workers: &Workers<N, R, G, E>,
    hint_pass: HintPass,
    count: u32,
) -> Result<(), Memory>
    requires { hint_pass.queue ≡ workers.now.play.now.hints.now.name }
    ensures { OnOk result (0 < count → E.is_so) }
{
    if count == 0 {
        return Ok(());
    }
    let play = workers.play;
    let mut hint_pass = hint_pass;
    let mut other = play.hints.split(rt, &mut hint_pass)?;
    let left = count - 1;
    let (others, last) = join(
        rt,
        || -> Result<(), Memory>
            requires { hint_pass.queue ≡ workers.now.play.now.hints.now.name }
        { serve(rt, alloc, workers, hint_pass, left) },
        || -> Result<(), Memory>
            requires { other.queue ≡ play.now.hints.now.name }
            ensures { OnOk result E.is_so }
        {
            work(
                rt,
                alloc,
                play.hints,
                &mut other,
                workers,
                play.gate,
                &workers.calls,
                &workers.over,
            )
        },
    );
    others?;
    last
}

/// Plays phase after phase, beside the workers, which regenerate the slots that hints name until the sessions have
/// ended. Workers wait for that end, so the sessions are the arm that `join` runs first where it can make no thread. The one
/// error is want of memory.
pub fn play_beside<
    N: NodeName + Send + Sync,
    W: Threads + Wait + Sync,
    R: Wait + Drop + Send,
    G: Gate + Sync,
>(
    rt: &W,
    alloc: Global,
    play: &NodeInPlay<N, R, G>,
    hint_pass: HintPass,
    passes: Vec<Pass<N>>,
    phases: Vec<Items<Commands>>,
) -> Result<PlayedPhases<N>, Memory>
    requires handed_out { AllByRecursion (λ pass. has N.passes pass.number ≡ true) passes.items }
    requires one_each { AllByRecursion (λ lines. length lines ≡ length passes.items) phases.items }
    requires few { length passes.items ≤ 40 }
    requires hints { hint_pass.queue ≡ play.now.hints.now.name }
    ensures phases { IfOk result (λ played.
        ArePhases N.options N.passes passes.items phases.items played.told.items played.passes.items) }
    ensures as_many { IfOk result (λ played. length played.passes.items ≡ length passes.items) }
{
    let mut hint_pass = hint_pass;
    let other = play.hints.split(rt, &mut hint_pass)?;
    let made = none_made(alloc)?;
    let shared = Workers {
        play: &*play,
        calls: Calls::new(),
        over: Over::<AnyEnd>::new(),
        made,
    };
    let workers = &shared;
    play.hints.ring();
    let (served, played) = join(
        rt,
        || -> Result<(), Memory>
            requires { other.queue ≡ workers.now.play.now.hints.now.name }
        { serve(rt, alloc, workers, other, play.workers) },
        || -> Result<PlayedPhases<N>, Memory>
            requires handed_out { AllByRecursion (λ pass. has N.passes pass.number ≡ true) passes.items }
            requires one_each { AllByRecursion (λ lines. length lines ≡ length passes.items) phases.items }
            requires few { length passes.items ≤ 40 }
            requires hints { hint_pass.queue ≡ play.now.hints.now.name }
            ensures phases { IfOk result (λ played.
                ArePhases N.options N.passes passes.items phases.items played.told.items played.passes.items) }
            ensures as_many { IfOk result (λ played. length played.passes.items ≡ length passes.items) }
        {
            let played = play_phases(rt, alloc, play, hint_pass, passes, phases);
            workers.over.set();
            play.hints.ring_all();
            played
        },
    );
    served?;
    played
}
