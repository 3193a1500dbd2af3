//! Hints at all slots, when there isn't room for all.
ghost use Rattle.std.specs.Prelude.{◌≡◌, ◌≤◌, ◌++◌, ◌-◌, IfNone, OnSome, length};
ghost use mathlib.Core.List.{IsPrefix};
ghost use Rattle.std.specs.List.{range_with_len};
ghost use Rattle.pol_hints.specs.Queue.{PutsSome};
ghost use Rattle.pol_hints.specs.Passes.{HintsBelow, IsHintPassOf, IsOnly, PutsRound, one_round};

use crate::hints::Hints;
use crate::pass::HintPass;
use crate::rule::Waiting;
use std::sync::Wait;

/// With which slot a thread begins when it hints at all of them: the first for which there was no room the last time. So
/// where hints are taken more slowly than they are put, each slot gets its turn.
#[derive(Drop)]
pub struct HintRound {
    first: u32,
}

impl HintRound {
    /// A round that begins with slot 0. It takes no memory.
    pub fn new() -> HintRound {
        HintRound { first: 0 }
    }

    /// Puts one hint for each slot below `slots`: those from the first one on, and then those before it, until the queue is
    /// full. What finds no room is dropped. It may wait for a pass that is putting or taking.
    pub fn hint<R: Wait>(&mut self, rt: &R, hints: &Hints, pass: &mut HintPass, slots: u32)
        requires pass { pass.old.queue ≡ hints.now.name }
        ensures pass { IsHintPassOf hints.now pass.new }
        ensures share { pass.new.share ≡ pass.old.share }
        ensures put { PutsRound hints.now.room slots pass.old pass.new }
        ensures seen { IsPrefix pass.old.seen pass.new.seen }
        ensures hints { IsOnly pass.old → HintsBelow slots pass.old pass.new }
    {
        let first = if self.first < slots { self.first } else { 0 };
        if let Some(slot) = hints.put_round(rt, pass, first, slots) {
            self.first = slot;
        }
    }
}

/// Puts the slots of a round behind those that wait, until there is no room, and tells the one that found none.
pub(crate) fn put_all(waiting: &mut Waiting, first: u32, slots: u32) -> Option<u32>
    requires first { first ≤ slots }
    ensures put { PutsSome (one_round first slots) waiting.old waiting.new }
{
    match put_each(waiting, first, slots) {
        None => put_each(waiting, 0, first),
        refused => refused,
    }
}

// Puts these slots behind those that wait, until there is no room, and tells the one that found none.
fn put_each(waiting: &mut Waiting, from: u32, to: u32) -> Option<u32>
    requires order { from ≤ to }
    ensures put { PutsSome (range_with_len from (to - from)) waiting.old waiting.new }
    ensures all { IfNone result (waiting.new.items ≡ waiting.old.items ++ range_with_len from (to - from)) }
    ensures room { IfNone result (waiting.new.capacity ≡ waiting.old.capacity) }
    ensures full { OnSome result (length waiting.new.items ≡ waiting.new.capacity) }
{
    for slot in from..to {
        // The call tells that no more wait than there is room.
        let _ = waiting.len();
        match waiting.try_push_back(slot) {
            Ok(()) => {}
            Err(_) => return Some(slot),
        }
    }
    None
}
