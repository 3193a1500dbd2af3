//! Lists of changes of a policy map.
//!
//! A list has each key at most once, in key order. It leads from one table to another, and of two tables at most
//! one list is their difference. The definitions stand in `specs/`, and `laws` has what joins them.
#![tactic(auto)]

mod apply;
mod change;
pub mod laws;
mod list;

pub use change::Change;
pub use list::ChangeList;
