//! The running node: a repository and the board's writer behind one lock, and slots, each behind its own.
//!
//! A commit and a regeneration's take and finish hold the desk's lock; a map is built outside of it, under the lock of its
//! slot. A look-up takes no lock. What each call answers is said by what its pass had seen before it and has seen after
//! it (`pol_history`, `Calls`, `Regenerate`).
#![tactic(auto)]

mod desk;
mod kept;
mod last;
mod node;
mod report;
mod rows;
mod slot;

pub use desk::Desk;
pub use node::Node;
pub use pol_board::{
    Board, BoardError, BoardWriter, LookError, NewBook, NodeName, Pass, SeenHistory, Verdict,
};
pub use report::{Config, Finished, Regen, RegenError, Reported, SyncReport, TraceError, Traced};
pub use slot::Slot;
