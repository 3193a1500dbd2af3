//! The connections of a repository's state, and those that a change opens or shuts.
//!
//! `open_connections`, `changed_connections` and `ends_alone` give exactly the lists that `pol_connections` defines by the scan of all
//! rules. What an end shuts is read from its policy map, so that no rule is looked at for a packet.
#![tactic(auto)]

mod lists;
mod named;
mod numbers;
mod rows;

pub use lists::{changed_connections, ends_alone, open_connections};
