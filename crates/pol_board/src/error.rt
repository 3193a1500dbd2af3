//! Why there is no board.
use thiserror::Error;

/// Why a board could not be made.
#[derive(Clone, Copy, Debug, PartialEq, Eq, Error)]
pub enum BoardError {
    /// The board gave no place for a reader.
    #[error("no place for a reader")]
    NoPlace,
    /// Want of memory.
    #[error("out of memory")]
    Memory,
}
