//! Computed examples that hold the definitions of histories: what `pol_history`, `pol_run_laws`, `pol_phases`, `pol_hints` and
//! `pol_generated` say of small histories and scripts, and what they don't.
//!
//! Nothing stands on this crate. Each law is the contract of a function that does nothing.
#![tactic(auto)]

pub mod growth;
pub mod held;
pub mod hints;
pub mod played;
pub mod regenerations;
pub mod rounds;
pub mod steps;
pub mod two_parts;
