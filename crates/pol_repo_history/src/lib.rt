//! What a repository is at a history of a node: its requests are the commits.
//!
//! `laws` has what follows of its state, of an event more, and of what is taken of it.
#![tactic(auto)]

pub mod laws;
