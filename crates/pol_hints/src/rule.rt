//! The rule of the queue, and what each kind of step tells.
use crate::standing::Standing;
use circular_buffer::HeapCircularBuffer;
use crossbeam_queue::protocol::{Join, Lesson, Outcome, Protocol, Split};
use crossbeam_queue::{Pass, RuledArrayQueue};

/// The hints that wait, the oldest first, with room for as many as the queue has.
pub(crate) type Waiting = HeapCircularBuffer<u32>;

/// The one place in which the hints lie while nobody has them in their hands.
pub(crate) type HintsPlace = RuledArrayQueue<Waiting, Standing, InOrder>;

/// What one caller knows of the place.
pub(crate) type Seat = Pass<Waiting, Standing>;

/// There is one history, the hints that wait at its end lie in the place or are in the hands of one pass, and each pass has
/// seen a beginning of it.
pub(crate) struct InOrder;

impl Protocol<Waiting, Standing> for InOrder {
    ghost use Rattle.pol_hints.specs.Queue.{IsQueue, newly_made};

    ghost holds = { IsQueue };

    ghost first = { newly_made };
}

/// A pass more, which has seen what this one has, and half of its share.
pub(crate) struct Twice;

impl Split<Standing> for Twice {
    ghost use Rattle.pol_hints.specs.Queue.{with_half, other_half};

    ghost left = { with_half };

    ghost right = { other_half };
}

/// A pass that has seen what either has, and both shares.
pub(crate) struct Together;

impl Join<Standing> for Together {
    ghost use Rattle.pol_hints.specs.Queue.{of_both, spent};

    ghost both = { of_both };

    ghost spent = { spent };
}

/// The queue is opened.
pub(crate) struct Opens;

impl Outcome<Waiting, Standing> for Opens {
    ghost use Rattle.pol_hints.specs.Queue.{TellsOpened};

    ghost then = { TellsOpened };
}

/// The hints are taken up. Where nothing lies in the place, nothing is learnt.
pub(crate) struct TakesUp;

impl Outcome<Waiting, Standing> for TakesUp {
    ghost use Rattle.pol_hints.specs.Queue.{HasTakenUp};

    ghost then = { HasTakenUp };
}

impl Lesson<Waiting, Standing> for TakesUp {
    ghost use Rattle.std.specs.Prelude.{⊤};

    ghost fact = { λ v items. ⊤ };
}

/// Hints were put, and are laid down with those that waited. Nothing lies in the place before.
pub(crate) struct Puts;

impl Outcome<Waiting, Standing> for Puts {
    ghost use Rattle.pol_hints.specs.Queue.{TellsPuts};

    ghost then = { TellsPuts };
}

impl Lesson<Waiting, Standing> for Puts {
    ghost use Rattle.pol_hints.specs.Queue.{IsBare};

    ghost fact = { IsBare };
}

/// A hint was taken, and the others are laid down. Nothing lies in the place before.
pub(crate) struct Takes;

impl Outcome<Waiting, Standing> for Takes {
    ghost use Rattle.pol_hints.specs.Queue.{TellsTaken};

    ghost then = { TellsTaken };
}

impl Lesson<Waiting, Standing> for Takes {
    ghost use Rattle.pol_hints.specs.Queue.{IsBare};

    ghost fact = { IsBare };
}

/// No share is more than the whole, and what both of two joined passes had seen begins what either had.
pub(crate) struct Sound;

impl Lesson<Waiting, Standing> for Sound {
    ghost use Rattle.pol_hints.specs.Queue.{IsSound};

    ghost fact = { λ v items. IsSound v };
}
