//! Workers and what they are told to look at: a queue of hints that threads share, and the loop of a worker.
//!
//! `Hints` is the queue, under a rule: it has one history, in which each hint that is put and each that is taken is one turn,
//! and a `HintPass` has seen a beginning of it (`specs/History`, `specs/Passes`). `work` takes hints and hands each to a job,
//! between the two calls of a gate.
#![tactic(auto)]

mod bell;
mod calls;
mod hints;
mod job;
pub mod laws;
mod pass;
mod place;
mod round;
mod rule;
mod standing;
mod turn;
mod worker;

pub use calls::{AnyEnd, Calls, End, Over};
pub use hints::{Hints, HintsFull};
pub use job::{Gate, Job, OpenGate};
pub use pass::HintPass;
pub use round::HintRound;
pub use standing::Share;
pub use turn::Turn;
pub use worker::work;
