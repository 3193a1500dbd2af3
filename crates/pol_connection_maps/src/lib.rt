//! The connections of a state, and those that a change opens or shuts, by the policy maps of the ends.
//!
//! `open_connections`, `changed_connections` and `ends_alone` compute from the rows of states what `pol_connections` defines by the
//! scan of all rules.
#![tactic(auto)]

mod again;
mod alone;
mod by_maps;
mod changed;
mod end_map;
mod end_row;
mod kept;
mod kinds;
mod lists;
mod maps;
mod named;
mod names;
mod number;
mod open;
mod own_map;
mod own_sets;
mod peer_rows;
mod regions;
mod rows;
mod sets;
mod stays;
mod targets;
mod told;

pub use lists::{changed_connections, ends_alone, open_connections};
pub use rows::StateRows;
