//! The policy map of an endpoint, and the law that reading it gives the verdict.
//!
//! `distill` makes the canonical map of filters and of the sets that their peers select, as a sorted table, and
//! `MapTable::look` reads it.
#![tactic(auto)]

mod entries;
mod ids;
mod index;
mod keys;
pub mod laws;
mod make;
mod ports;
mod sweep;
mod table;

pub use ids::{push_identities, push_identity};
pub use keys::{every_key, port_key};
pub use make::{distill, have_sets};
pub use ports::ports_keys;
pub use table::MapTable;
