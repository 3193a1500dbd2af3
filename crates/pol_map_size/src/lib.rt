//! How many entries a policy map has, without making the map.
//!
//! The entries of different identities have nothing to do with each other, so a map is counted in parts, each of some
//! identities, and each part is made and dropped before the next one.
#![tactic(auto)]

mod counted;
mod load;
mod part;

pub use counted::map_size;
