//! The selector cache: the sets of identity numbers that the peers of policies select, kept as numbers come and go.
//!
//! `add` gives a peer a selector, and `drop_ref` takes a reference back. `plan` finds what numbers that come and go
//! change, and takes all memory; `carry_out` makes the changes. `changes_since` tells how a set changed.
#![tactic(auto)]

mod add;
mod by_heading;
mod cache;
mod find;
mod ids;
mod judge;
pub mod laws;
mod made;
mod plan;
mod tried;

pub use cache::SelectorCache;
pub use plan::Plan;
pub use pol_sets::{IdSet, Move};
