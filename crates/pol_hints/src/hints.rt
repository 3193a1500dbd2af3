//! A queue of hints.
ghost use Rattle.std.specs.Prelude.{◌≡◌, ◌≤◌, [], ◌+◌, length, IfOk, IfSome, IfNone, OnOk, OnErr};
ghost use mathlib.Core.List.{IsPrefix};
ghost use Rattle.pol_hints.specs.declared.turn.Turn.TheVariants.{Put, Taken};
ghost use Rattle.pol_hints.specs.History.{longer};
ghost use Rattle.pol_hints.specs.Passes.{Adds, IsHintPassOf, IsOnly, PutsRound, Sees};
ghost use Rattle.pol_hints.specs.Shares.{half, together};

use crate::bell::Bell;
use crate::pass::HintPass;
use crate::place::{lay_put, lay_taken, take_up};
use crate::round::put_all;
use crate::rule::{HintsPlace, Opens, Sound, Together, Twice, Waiting};
use std::alloc::{AllocError as Memory, Global};
use std::marker::Model;
use std::sync::Wait;
use std::sync::atomic::{AtomicBool, Ordering};
use thiserror::Error;

/// Hints for workers: slots of endpoints whose maps may be old. Threads share the queue; it holds as many hints as its
/// room, and gives them in the order in which they were put.
///
/// What a hint means is nobody's promise: whoever makes maps makes those that no hint named too.
#[derive(Drop)]
pub struct Hints {
    place: HintsPlace,
    room: u32,
    // Whether none waited when they were laid down last. No clause speaks of it.
    none: AtomicBool,
    bell: Bell,
}

impl Model for Hints {
    ghost use Rattle.std.specs.Prelude.{◌≡◌};
    ghost use Rattle.crossbeam_queue.specs.Passes.{ruled_capacity};
    ghost use Rattle.pol_hints.specs.Passes.{Queue};

    ghost Value = { Queue };

    ghost use Rattle.pol_hints.specs.Inside.{queue_of};

    ghost view = { λ h. queue_of h.place.table.shared.table_id h.room };

    ghost invariant = { λ h. ruled_capacity h.place ≡ 1 };
}

/// The queue had no room.
#[derive(Clone, Copy, Debug, PartialEq, Eq, Error)]
#[error("the queue of hints is full")]
pub struct HintsFull;

impl Hints {
    /// A queue with room for so many hints, of 1 and more, and its only pass, which has seen nothing. The one error is want
    /// of memory.
    pub fn new(alloc: Global, room: u32) -> Result<(Hints, HintPass), Memory>
        requires room { 1 ≤ room }
        ensures room { IfOk result (λ made. made.0.room ≡ room) }
        ensures pass { IfOk result (λ made. IsHintPassOf made.0 made.1) }
        ensures only { IfOk result (λ made. IsOnly made.1) }
        ensures empty { IfOk result (λ made. (made.1.seen ≡ []) × (made.1.own ≡ 0)) }
    {
        let waiting = Waiting::with_capacity(alloc, room as usize)?;
        let (place, mut pass) = HintsPlace::ruled(alloc, 1)?;
        // Nobody else knows the place, so there is room in it.
        if place.try_push_as::<Opens>(&mut pass, waiting).is_err() {
            return Err(Memory);
        }
        let none = AtomicBool::new(true);
        let bell = Bell::new();
        let hints = Hints {
            place,
            room,
            none,
            bell,
        };
        Ok((hints, HintPass { pass }))
    }

    /// A pass more, for another thread, which has seen what this one has, and no turn of which is its own. Each has half of
    /// the share that this one had. After want of memory this one is as before.
    pub fn split<R: Wait>(&self, _rt: &R, pass: &mut HintPass) -> Result<HintPass, Memory>
        requires pass { pass.old.queue ≡ self.now.name }
        ensures pass { IsHintPassOf self.now pass.new }
        ensures seen { (pass.new.seen ≡ pass.old.seen) × (pass.new.own ≡ pass.old.own) }
        ensures share { OnOk result (pass.new.share ≡ half pass.old.share) }
        ensures err { OnErr result (pass.new ≡ pass.old) }
        ensures other { IfOk result (λ other. IsHintPassOf self.now other) }
        ensures other_seen { IfOk result (λ other. (other.seen ≡ pass.old.seen) × (other.own ≡ 0)) }
        ensures other_share { IfOk result (λ other. other.share ≡ half pass.old.share) }
    {
        let other = self.place.another::<Twice>(&mut pass.pass);
        Ok(HintPass { pass: other })
    }

    /// Puts two passes together: this one has then seen what either has, and has the turns and the shares of both. What each
    /// had seen begins what this one has then seen: their histories are one. Neither was the only one.
    pub fn join<R: Wait>(&self, _rt: &R, pass: &mut HintPass, other: HintPass)
        requires pass { pass.old.queue ≡ self.now.name }
        requires other { other.queue ≡ self.now.name }
        ensures pass { IsHintPassOf self.now pass.new }
        ensures past { IsPrefix pass.old.seen pass.new.seen }
        ensures other_past { IsPrefix other.seen pass.new.seen }
        ensures seen { pass.new.seen ≡ longer pass.old.seen other.seen }
        ensures own { pass.new.own ≡ pass.old.own + other.own }
        ensures share { pass.new.share ≡ together pass.old.share other.share }
        ensures not_only { IsOnly pass.old → ⊥ }
        ensures other_not_only { IsOnly other → ⊥ }
    {
        let HintPass { pass: theirs } = other;
        self.place.absorb::<Together>(&mut pass.pass, theirs);
        self.place.learn_as::<Sound>(&mut pass.pass);
    }

    /// Puts a hint behind those that wait. `HintsFull` comes only where as many hints waited as there is room, at a moment of
    /// the call that the pass has then seen, and it added nothing. It may wait for a pass that is putting or taking.
    pub fn put<R: Wait>(&self, rt: &R, pass: &mut HintPass, slot: u32) -> Result<(), HintsFull>
        requires pass { pass.old.queue ≡ self.now.name }
        ensures pass { IsHintPassOf self.now pass.new }
        ensures share { pass.new.share ≡ pass.old.share }
        ensures put { OnOk result (Adds (Put slot) pass.old pass.new) }
        ensures full { OnErr result (Sees (λ hints. length hints ≡ self.now.room) pass.old pass.new) }
    {
        let mut waiting = take_up(rt, &self.place, &mut pass.pass);
        let put = waiting.try_push_back(slot);
        self.tell(waiting.len());
        lay_put(rt, &self.place, &mut pass.pass, waiting);
        match put {
            Ok(()) => Ok(()),
            Err(_) => Err(HintsFull),
        }
    }

    /// Takes the oldest hint. None comes only where no hint waited, at a moment of the call that the pass has then seen, and
    /// it added nothing. It may wait for a pass that is putting or taking.
    pub fn take<R: Wait>(&self, rt: &R, pass: &mut HintPass) -> Option<u32>
        requires pass { pass.old.queue ≡ self.now.name }
        ensures pass { IsHintPassOf self.now pass.new }
        ensures share { pass.new.share ≡ pass.old.share }
        ensures taken { IfSome result (λ slot. Adds (Taken slot) pass.old pass.new) }
        ensures empty { IfNone result (Sees (λ hints. hints ≡ []) pass.old pass.new) }
    {
        let mut waiting = take_up(rt, &self.place, &mut pass.pass);
        match waiting.pop_front() {
            Some(slot) => {
                self.tell(waiting.len());
                lay_taken(rt, &self.place, &mut pass.pass, waiting, slot);
                Some(slot)
            }
            None => {
                lay_put(rt, &self.place, &mut pass.pass, waiting);
                None
            }
        }
    }

    /// Puts a hint for each slot below `slots`, from the first one on and then for those before it, until there is no room.
    /// Tells the slot for which there was none. No other hint comes between them.
    pub(crate) fn put_round<R: Wait>(
        &self,
        rt: &R,
        pass: &mut HintPass,
        first: u32,
        slots: u32,
    ) -> Option<u32>
        requires pass { pass.old.queue ≡ self.now.name }
        requires first { first ≤ slots }
        ensures pass { IsHintPassOf self.now pass.new }
        ensures share { pass.new.share ≡ pass.old.share }
        ensures put { PutsRound self.now.room slots pass.old pass.new }
    {
        let mut waiting = take_up(rt, &self.place, &mut pass.pass);
        let refused = put_all(&mut waiting, first, slots);
        self.tell(waiting.len());
        lay_put(rt, &self.place, &mut pass.pass, waiting);
        refused
    }

    /// Whether it seems that no hint waits: a look that waits for nobody. No clause speaks of it.
    pub(crate) fn seems_empty(&self) -> bool {
        self.none.load(Ordering::SeqCst)
    }

    // Keeps whether none waits. (A look is cheaper than a write.)
    fn tell(&self, count: usize) {
        let none = count == 0;
        if self.none.load(Ordering::SeqCst) != none {
            self.none.store(none, Ordering::SeqCst);
        }
    }

    /// Rings for a worker: where none is at work, one that sleeps looks for hints again. Once it has rung, workers that find no
    /// hint sleep until it rings again, so whoever rings has to `ring_all` behind the end (`Over::set`). It takes no memory,
    /// and waits for nobody.
    pub fn ring(&self) {
        self.bell.ring();
    }

    /// Rings for all workers that sleep.
    pub fn ring_all(&self) {
        self.bell.ring_all();
    }

    /// How often it rang.
    pub fn rung(&self) -> u64 {
        self.bell.rung()
    }

    /// Sleeps until it rings once more than was heard, or for no reason. Where it never rang it yields the processor alone.
    pub(crate) fn rest<R: Wait>(&self, rt: &R, heard: u64) {
        self.bell.rest(rt, heard);
    }
}
