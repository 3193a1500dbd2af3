//! Computed examples from the bytes that are read to the bytes that are written.
//!
//! Nothing stands on this crate. Each law is the contract of a function that does nothing.
#![tactic(auto)]

pub mod families;
pub mod findings;
pub mod maps;
pub mod objects;
pub mod refusals;
