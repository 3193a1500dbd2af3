//! Why a journal wasn't opened, and why a request isn't kept.

use pol_model::Refused;
use thiserror::Error;

/// Why a journal wasn't opened.
#[derive(Clone, Copy, Debug, PartialEq, Eq, Error)]
pub enum OpenError {
    /// The bytes aren't a journal: they are damaged at this gate.
    #[error("the journal is damaged at byte {at}")]
    Damaged {
        /// The place of the gate, from 0.
        at: u64,
    },
    /// A call of the disk failed.
    #[error("a call of the disk failed")]
    Disk,
    /// Memory was refused.
    #[error("out of memory")]
    Memory,
}

/// A disk that wasn't opened, given back with the reason.
#[derive(Debug, Drop)]
pub struct Closed<D> {
    /// Why it wasn't opened.
    pub why: OpenError,
    /// The disk.
    pub disk: D,
}

/// Why a request isn't acknowledged.
#[derive(Clone, Copy, Debug, PartialEq, Eq, Error)]
pub enum KeptError {
    /// The request has a fault in the present state; nothing was written.
    #[error("the request is refused")]
    Refused(Refused),
    /// Memory was refused; nothing was written.
    #[error("out of memory")]
    Memory,
    /// A call of the disk failed. After a crash the request is there or it isn't.
    #[error("a call of the disk failed")]
    Disk,
}
