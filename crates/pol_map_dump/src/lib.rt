//! The map that a script leaves an endpoint with.
//!
//! `map_at_end` commits the requests of a script one after another, and writes the map of an endpoint at the end.
#![tactic(auto)]

mod end;
pub mod laws;
mod map;

pub use end::map_at_end;
pub use map::MapText;
