//! What is taken of a state for one endpoint: what its policy map is made of.
//!
//! `sets_of` gives the sets of the peers that filters list, from the selector cache. `Taken` is the whole.
#![tactic(auto)]

mod error;
mod known_peers;
pub mod laws;
mod listed;
mod rows;
mod sets;
mod taken;

pub use error::TakeError;
pub use known_peers::KnownPeers;
pub use pol_prefixes::Addresses;
pub use pol_sets::{IdSet, Move, Moves, SetRow, Sets, SharedPeer};
pub use sets::sets_of;
pub use taken::Taken;
