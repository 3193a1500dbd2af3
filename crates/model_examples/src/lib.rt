//! Computed examples that hold the definitions of `pol_model`, and of `pol_rule` where the model stands on them: what
//! they give of small states, written out.
//!
//! Nothing stands on this crate. Each law is the contract of a function that does nothing.
#![tactic(auto)]

pub mod families;
pub mod faults;
pub mod policies;
