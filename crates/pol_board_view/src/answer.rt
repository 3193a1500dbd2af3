//! What a look-up answers.
use pol_mapkey::Word;
use thiserror::Error;

/// The verdict on a packet, by the endpoint's last published map.
#[derive(Clone, Copy, Debug, PartialEq, Eq)]
pub struct Verdict {
    /// The revision of the map.
    pub revision: u64,
    /// What becomes of the packet.
    pub word: Word,
}

/// Why there is no verdict.
#[derive(Clone, Copy, Debug, PartialEq, Eq, Error)]
pub enum LookError {
    /// No endpoint of that name is live at this revision.
    #[error("no such endpoint at revision {revision}")]
    NoEndpoint {
        /// How many requests had been committed.
        revision: u64,
    },
    /// The endpoint is live at this revision, and no map of it was published.
    #[error("no map at revision {revision}")]
    NotYet {
        /// How many requests had been committed.
        revision: u64,
    },
    /// The board could not be entered, or what it shows of the endpoint was cut off by want of memory.
    #[error("no guard")]
    NoGuard,
}
