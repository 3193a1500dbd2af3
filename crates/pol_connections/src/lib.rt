//! Which connections a state allows, and which of them a change opens or shuts: the definitions, and laws of them.
//!
//! A connection is open where what its source may send and what its target may receive are both allowed, by the scan of all
//! rules. `connections_of` in the specs lists those of a state, and `changes_of` those of a change.
#![tactic(auto)]

mod end;
pub mod laws;

pub use end::{Connection, EndName};
