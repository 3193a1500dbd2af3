//! A drill of a crash: a script is played over a disk that fails from a call on, and what the disk keeps over the crash is counted.
#![tactic(auto)]

mod drilling;
pub mod laws;
mod play;
mod restart;

pub use drilling::{Drilled, drill};
