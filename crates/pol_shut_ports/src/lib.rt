//! The ports that policy maps shut, and the ranges of a connection's ports by those of its two ends.
//!
//! `Shut` tells what a policy map shuts, found by direction, number and protocol. `open_ranges` and `changed_ranges` make of what
//! two ends shut the ranges of the ports on which a connection is open, or opens or shuts.
#![tactic(auto)]

mod cuts;
mod ranges;
mod shut;
mod standing;
mod word;

pub use ranges::{changed_ranges, open_ranges};
pub use shut::Shut;
pub use word::word_at;
