//! Laws of the answers of runs: that their parts are such as reading gives, and what the bytes of an output tell of them; and of the
//! states of runs, that they keep what states keep.
//!
//! Nothing stands on this crate. Each law is the contract of a function that does nothing.
#![tactic(auto)]

pub mod laws;
