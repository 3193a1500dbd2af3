//! Lines of a run that are placed in one history, and what follows for the run.
#![tactic(auto)]

pub mod examples;
pub mod laws;
pub mod phases;
pub mod sessions;
