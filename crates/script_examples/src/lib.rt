//! Computed examples that hold what lines and documents mean and what answers say: the definitions of `pol_script`,
//! `pol_json`, `pol_sanitize` and `pol_answer` on small values, written out.
//!
//! Nothing stands on this crate. Each law is the contract of a function that does nothing.
#![tactic(auto)]

pub mod answers;
pub mod documents;
pub mod lines;
pub mod rules;
