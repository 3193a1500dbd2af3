//! The filters of endpoints, kept until a policy or the mode changes them.
//!
//! `KeptFilters::serving` gives those that serve, where some are kept.
#![tactic(auto)]

mod filters;
mod kept;
pub mod laws;

pub use filters::KeptFilters;
pub use kept::Kept;
