//! What the pure machine is given, and what it answers.

use pol_mapkey::Word;
use pol_model::{Committed, Query, Refused, Request};

/// A step of the machine.
#[derive(Debug, Drop)]
pub enum Event {
    /// A request is committed, where it has no fault.
    Commit(Request),
    /// The slot's endpoint is taken at the present revision. It replaces what was taken for the slot before.
    Take(u32),
    /// The map of what was taken for the slot is published, or reported as too large.
    Finish(u32),
    /// A verdict is asked for.
    Look(Query),
}

/// What a step of the machine is answered.
#[derive(Clone, Copy, Debug, PartialEq, Eq)]
pub enum Reply {
    /// To a commit: the request is committed.
    Committed(Committed),
    /// To a commit: the request has a fault.
    Refused(Refused),
    /// To a take: the endpoint was taken at this revision.
    Took(u64),
    /// To a take: no live endpoint has the slot. To a finish: the endpoint that was taken is no longer live.
    Gone,
    /// To a finish: nothing is taken for the slot.
    Idle,
    /// To a finish: this revision, which was taken, is the one that the slot last reported.
    Already(u64),
    /// To a finish: the map at this revision has so many entries, which are too many.
    Full {
        /// The revision that was taken.
        revision: u64,
        /// How many entries the map has.
        count: u64,
    },
    /// To a finish: the map at this revision is published.
    Published(u64),
    /// To a look: the verdict of the published map of this revision.
    Verdict {
        /// The revision of the map.
        revision: u64,
        /// The verdict.
        word: Word,
    },
    /// To a look: no endpoint of that name is live at this revision.
    NoEndpoint(u64),
    /// To a look: the endpoint is live at this revision, and no map of it was published yet.
    NotYet(u64),
}
