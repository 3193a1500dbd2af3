//! Computed examples that hold the definitions of sessions and of serial runs: what `pol_sessions`, `pol_slot_map`,
//! `pol_machine` and `pol_serial_run` say of small scripts, lists of changes and machines, and what they don't.
//!
//! Nothing stands on this crate. Each law is the contract of a function that does nothing.
#![tactic(auto)]

pub mod bases;
pub mod hints;
pub mod machines;
pub mod serial;
pub mod sessions;
pub mod stopped;
