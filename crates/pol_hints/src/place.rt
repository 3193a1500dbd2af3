//! The hints are taken up and laid down.
ghost use Rattle.std.specs.Prelude.{◌≡◌, ◌≤◌, ◌∷◌, false, length, true};
ghost use mathlib.Core.List.{IsPrefix};
ghost use Rattle.circular_buffer.specs.Buffer.{buffer};
ghost use Rattle.crossbeam_queue.specs.Passes.{IsPassOf, IsSamePass, ruled_capacity, view as known_by};
ghost use Rattle.pol_hints.specs.History.{IsHistory, waiting as waiting_in};
ghost use Rattle.pol_hints.specs.Queue.{HasTakenUp, TellsPuts, TellsTaken};
ghost use Rattle.pol_hints.specs.Shares.{IsPart};

use crate::rule::{HintsPlace, Puts, Seat, Takes, TakesUp, Waiting};
use std::sync::Wait;
use std::thread;

/// Takes up the hints that wait. Nobody else has them until they are laid down, and the pass has seen all that came before.
/// It waits for a pass that has them.
pub(crate) fn take_up<R: Wait>(rt: &R, place: &HintsPlace, seat: &mut Seat) -> Waiting
    requires queue { IsPassOf place.now seat.old }
    requires part { IsPart (known_by seat.old).share }
    requires rests { (known_by seat.old).has ≡ false }
    ensures queue { IsSamePass seat.old seat.new }
    ensures up { HasTakenUp (known_by seat.old) result (known_by seat.new) }
    ensures few { length (waiting_in (known_by seat.new).seen) ≤ (known_by seat.old).room }
{
    for _ in rt.forever() {
        if let Some(waiting) = place.pop_as::<TakesUp, R>(rt, seat) {
            // The call tells that no more wait than there is room.
            let _ = waiting.len();
            return waiting;
        }
        thread::yield_now();
    }
    unreachable!()
}

/// Lays down the hints that waited and those that were put behind them.
pub(crate) fn lay_put<R: Wait>(rt: &R, place: &HintsPlace, seat: &mut Seat, waiting: Waiting)
    requires queue { IsPassOf place.now seat.old × (ruled_capacity place.now ≡ 1) }
    requires has { (known_by seat.old).has ≡ true }
    requires part { IsPart (known_by seat.old).share }
    requires legal { IsHistory (known_by seat.old).seen }
    requires room { waiting.capacity ≡ (known_by seat.old).room }
    requires more { IsPrefix (waiting_in (known_by seat.old).seen) waiting.items }
    ensures queue { IsSamePass seat.old seat.new }
    ensures laid { TellsPuts (known_by seat.old) waiting (known_by seat.new) }
{
    match place.push_as::<Puts, R>(rt, seat, waiting) {
        Ok(()) => {}
        Err(_) => unreachable!(),
    }
}

/// Lays down the hints that wait behind the first one, which was taken.
pub(crate) fn lay_taken<R: Wait>(
    rt: &R,
    place: &HintsPlace,
    seat: &mut Seat,
    waiting: Waiting,
    slot: u32,
)
    requires queue { IsPassOf place.now seat.old × (ruled_capacity place.now ≡ 1) }
    requires has { (known_by seat.old).has ≡ true }
    requires part { IsPart (known_by seat.old).share }
    requires legal { IsHistory (known_by seat.old).seen }
    requires room { waiting.capacity ≡ (known_by seat.old).room }
    requires first { waiting_in (known_by seat.old).seen ≡ slot ∷ waiting.items }
    ensures queue { IsSamePass seat.old seat.new }
    ensures laid { TellsTaken (known_by seat.old) waiting (known_by seat.new) }
{
    let _ = slot;
    match place.push_as::<Takes, R>(rt, seat, waiting) {
        Ok(()) => {}
        Err(_) => unreachable!(),
    }
}
