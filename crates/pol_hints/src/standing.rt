//! What a pass of a queue is to its rule.
use crate::turn::Turn;
use std::collections::LinkedList;

/// A part of a whole, as a fraction. No value of it is made: contracts speak of it.
pub struct Share {
    /// The numerator.
    pub part: u32,
    /// The denominator.
    pub of: u32,
}

/// What a pass has seen of its queue, and what it has in it. No value of it is made.
pub(crate) struct Standing {
    /// The history that the pass has seen, the oldest turn first.
    pub seen: LinkedList<Turn>,
    /// After a join, what both of the joined passes had seen. It is empty again after a split and after a turn.
    pub met: LinkedList<Turn>,
    /// How many turns of the history are its own, or of passes that were joined to it.
    pub own: u32,
    /// The passes of a queue have no more than the whole together, so one that has it all is the only one.
    pub share: Share,
    /// Whether it has the hints in its hands: it took them up, and hasn't laid them down since.
    pub has: bool,
    /// For how many hints the queue has room. It is 0 of a pass without a share.
    pub room: u32,
}
