//! What calls of the node answer.
ghost use Rattle.std.specs.Prelude.{◌≡◌, IfOk};
ghost use Rattle.pol_node.specs.declared.report.RegenError.TheVariants.{Memory as WantOfMemory};

use crate::rows::rows_copy;
use pol_data::Memory;
use pol_history::LastReport;
use pol_model::{FullList, Mode, Trace};
use std::alloc::Global;

/// How a node is made.
#[derive(Clone, Copy, Debug)]
pub struct Config {
    /// The enforcement mode at the start.
    pub mode: Mode,
    /// Whether the local host is always let in.
    pub localhost: bool,
    /// Maps of more entries aren't published; at most 65,536.
    pub map_max: u32,
    /// How many passes are handed out, 1 to 40.
    pub passes: u32,
}

/// What a regeneration of a slot did.
#[derive(Clone, Copy, Debug, PartialEq, Eq)]
pub enum Regen {
    /// The map of this revision was published.
    Published(u64),
    /// The revision is that of the endpoint's last report, so nothing was done.
    Already(u64),
    /// The map is too large, and was reported so.
    Full {
        /// Its revision.
        revision: u64,
        /// How many entries it has.
        count: u64,
    },
    /// The slot has no live endpoint, or the one that it had has gone.
    Gone,
}

/// Why a regeneration reported nothing.
#[derive(Clone, Copy, Debug, PartialEq, Eq)]
pub enum RegenError {
    /// Want of memory.
    Memory,
    /// The last report of the slot's endpoint is another one than the slot keeps. In every run it is that one, since nobody
    /// but the slot reports its endpoint.
    Overtaken,
}

impl From<Memory> for RegenError {
    ghost from_gives = { λ _ error. error ≡ WantOfMemory };

    fn from(_error: Memory) -> RegenError {
        RegenError::Memory
    }
}

/// How what was taken was finished.
#[derive(Clone, Copy, Debug, PartialEq, Eq)]
pub enum Finished {
    /// The map was published.
    Published,
    /// The last report is of its revision: it was published, or else reported as too large.
    Already {
        /// Whether it was published.
        published: bool,
    },
    /// The map was reported as too large.
    Full,
    /// The endpoint is gone.
    Gone,
}

/// How what was taken was finished, and the endpoint's last report after that.
#[derive(Clone, Copy, Debug, PartialEq, Eq)]
pub struct Reported {
    /// How it was finished.
    pub finished: Finished,
    /// The last report of the endpoint, if there is one. Of an endpoint that is gone it is the one of before.
    pub last: Option<LastReport>,
}

/// What a sync tells: every endpoint that was live at the revision, and still is, was published or reported at it or later.
#[derive(Debug, Drop)]
pub struct SyncReport {
    /// The revision.
    pub revision: u64,
    /// The maps that are too large, by name and then revision.
    pub full: FullList,
}

impl SyncReport {
    /// The same, in memory of its own. The one error is want of memory.
    pub(crate) fn copy(&self, alloc: Global) -> Result<SyncReport, Memory>
        ensures { IfOk result (λ copy. copy ≡ self.now) }
    {
        Ok(SyncReport {
            revision: self.revision,
            full: rows_copy(alloc, self.full.as_slice())?,
        })
    }
}

/// An explanation, at this revision.
#[derive(Debug, Drop)]
pub struct Traced {
    /// How many requests had been committed.
    pub revision: u64,
    /// The explanation.
    pub trace: Trace,
}

/// Why there is no trace.
#[derive(Clone, Copy, Debug, PartialEq, Eq)]
pub enum TraceError {
    /// No endpoint of that name is live at this revision.
    NoEndpoint {
        /// How many commits there were.
        revision: u64,
    },
    /// Want of memory.
    Memory,
}

impl From<Memory> for TraceError {
    fn from(_error: Memory) -> TraceError {
        TraceError::Memory
    }
}
