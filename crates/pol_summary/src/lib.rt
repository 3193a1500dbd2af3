//! A generated script is played over the running node, and its summary tells how many of its lines were answered in each way.
//!
//! Whatever the schedule was, it is the summary that a scan of the lines in order counts: a generated script has one run.
#![tactic(auto)]

mod generate;
pub mod laws;
mod summary;

pub use generate::{Summed, summary_of};
