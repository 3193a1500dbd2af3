//! Since which revision a peer is listed, and what its set was then, as the selectors and the log of changes tell.
//!
//! `moves_since` asks the selectors of rows what their sets gained and lost since then.
//!
//! Each law is the contract of a function that does nothing (`laws`). `specs/Changes` counts the changes of sets that a
//! journal makes, and `specs/Chained` says what a repository has to keep to tell them.
#![tactic(auto)]

pub mod examples;
pub mod laws;
mod moves;

pub use moves::moves_since;
