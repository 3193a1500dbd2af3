//! The sets of identity numbers that peers select, and how they change.
//!
//! `IdSet` is a set of identity numbers, seen as the list of its numbers in ascending order. `Sets` says which
//! set each peer selects, and `Moves` which numbers a peer's set gained and lost.
#![tactic(auto)]

mod block;
mod blocks;
mod id_set;
mod iter;
mod sets;
mod shared_peer;
mod stretches;

pub use id_set::IdSet;
pub use iter::SetIter;
pub use sets::{Move, Moves, SetRow, Sets};
pub use shared_peer::SharedPeer;
