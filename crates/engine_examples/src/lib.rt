//! Computed examples that hold the definitions of the engines: under what selectors are filed, what is judged for a new one,
//! in what order filters stand, and what is taken, on small values, written out.
//!
//! Nothing stands on this crate. Each law is the contract of a function that does nothing.
#![tactic(auto)]

pub mod filters;
pub mod headings;
pub mod judged;
pub mod taken;
