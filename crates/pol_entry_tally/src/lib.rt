//! How often each key of a policy map is given, and what the map says of it.
//!
//! A `Tally` counts the entries that are put into a policy map, by key and kind. Entries come and go, and each change lists
//! exactly the keys at which the canonical map of the entries changed.
#![tactic(auto)]

mod asked;
mod change;
mod counts;
mod group;
mod keys;
mod listing;
mod many;
mod merge;
mod numbers;
mod reading;
mod sizes;
mod tally;
mod turns;

pub use sizes::Changed;
pub use tally::Tally;
