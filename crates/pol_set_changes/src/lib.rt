//! The last changes of the sets of selectors.
//!
//! A `ChangeLog` keeps the last 65,536 changes of all selectors' sets, and gives the net change of one selector's set
//! since a revision.
#![tactic(auto)]

mod change;
pub mod laws;
mod log;
mod net;

pub use change::SetChange;
pub use log::ChangeLog;
