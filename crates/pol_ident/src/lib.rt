//! Security identities: the numbers that label sets and prefixes hold (Cilium, Terminology, "Identity").
//!
//! `Identities` is seen as the list of its rows, which ascend by number. Label sets and prefixes are found by an index,
//! rows by their number, and the least free number by a heap.
#![tactic(auto)]

mod acquire;
mod error;
mod find;
mod holders;
mod identities;
mod look;
mod place;
mod prefixes;
mod release;
mod select;
mod under;
mod worlds;

pub use error::IdentError;
pub use identities::Identities;
