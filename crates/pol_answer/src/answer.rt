//! What a line of the script is answered.

use pol_mapkey::Word;
use pol_model::{FullList, Refused, Trace};
use pol_script::LineFault;

/// The answer to a line.
#[derive(Debug, Drop)]
pub enum Answer {
    /// The request was committed, at this revision. A new endpoint or named identity has this number.
    Committed {
        revision: u64,
        identity: Option<u32>,
    },
    /// Every map is of this revision or a later one, but for those that are too large.
    Synced {
        revision: u64,
        full: FullList,
    },
    /// The phase of this number, from 1, has ended.
    Phase(u64),
    /// The verdict of the map of this revision.
    Verdict {
        revision: u64,
        word: Word,
    },
    /// No endpoint of that name is live at this revision.
    NoEndpoint(u64),
    /// The endpoint is live at this revision, and no map of it was published yet.
    NotYet(u64),
    /// The verdict at this revision, and the reasons for it.
    Traced {
        revision: u64,
        trace: Trace,
    },
    /// The line has a fault.
    BadLine(LineFault),
    /// The request has a fault at this revision.
    Refused(Refused),
}
