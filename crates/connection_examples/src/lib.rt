//! Computed examples that hold the definitions of connections: what they give of small states, written out.
//!
//! Nothing stands on this crate. Each law is the contract of a function that does nothing.
#![tactic(auto)]

pub mod states;
