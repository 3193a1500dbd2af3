//! The filters of an endpoint: the entries of the rules that select it, each with its place.
//!
//! `resolve` goes from all policies to what says something of one endpoint. A policy map is made of filters and
//! of the sets that their peers select.
#![tactic(auto)]

mod filter;
pub mod laws;
mod select;

pub use filter::{Filter, FilterList, Filters};
pub use pol_model::{Mode, Stamped};
pub use select::resolve;
