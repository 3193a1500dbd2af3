//! What follows from the definitions of `pol_model`: what each state keeps, whatever requests commit, and
//! what the policy maps of endpoints are.
//!
//! Each law is the contract of a function that does nothing. `state_laws` and `row_laws` speak of states and
//! of the rows of identities (`specs/Keeps`, `specs/Holding`), `map_laws` of canonical maps, and `examples`
//! writes small cases out.
#![tactic(auto)]

pub mod examples;
pub mod map_laws;
pub mod row_laws;
pub mod state_laws;
