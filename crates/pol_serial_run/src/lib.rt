//! The serial run: what the lines of a script are answered in one session, by the pure machine.
//!
//! `specs/SerialRun` says which answers a serial run gives, and `specs/Accepted` which requests it accepts. [`answer_command`] answers
//! a command that commits nothing, over a machine. `laws` has what small scripts are answered.
#![tactic(auto)]

mod asking;
pub mod laws;

pub use asking::answer_command;
