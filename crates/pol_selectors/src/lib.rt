//! The live selectors, found by peer, by number and by heading.
#![tactic(auto)]

mod known;
mod selectors;
mod spots;

pub use selectors::Selectors;
pub use spots::Row;
