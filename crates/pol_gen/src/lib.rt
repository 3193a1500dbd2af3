//! Scripts made from a number, always the same for the same number: 32 endpoints, policies one after another, and
//! verdicts behind every tenth policy.
//!
//! What is made is defined in `specs/Generated`, over the numbers of `specs/Draws`.
#![tactic(auto)]

mod draws;
pub mod laws;
mod script;

pub use script::generated;
