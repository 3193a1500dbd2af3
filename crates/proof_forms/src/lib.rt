//! Forms that prove: one small function each, with its contract and what had to be written of its proof.
//!
//! The numbers that they work on mean nothing. What each shows stands in its comment, and docs/PROVING.md says when it helps.
#![tactic(auto)]

pub mod clauses;
pub mod examples;
pub mod faults;
pub mod held;
pub mod kinds;
pub mod lists;
pub mod maps;
pub mod parts;
pub mod texts;
pub mod walks;
