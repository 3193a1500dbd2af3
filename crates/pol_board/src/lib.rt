//! The board: one history of events, and maps that are read without a lock.
//!
//! The writer (`BoardWriter`) adds events to the history and publishes faces of it; each pass (`Pass`) looks and keeps what
//! it has seen. A call of the writer shows its history to the pass first.
#![tactic(auto)]

mod board;
mod changes;
mod error;
mod pass;
mod writer;

pub use board::Board;
pub use error::BoardError;
pub use pass::Pass;
pub use pol_board_view::{LookError, Verdict};
pub use pol_history::LastReport;
pub use pol_history_log::{NewBook, NodeName, Seen, SeenHistory};
pub use writer::BoardWriter;
