//! What a policy says, from the policy as it was written, or the first fault that it is refused for.
//!
//! `sanitize` is the whole of it. `specs/Sanitized` has what a policy says, `specs/Faults` the causes of
//! each fault and their order, and `laws` what follows from both.
#![tactic(auto)]

mod fault;
mod keys;
mod kind;
pub mod laws;
mod peers;
mod policy;
mod ports;
mod selectors;

pub use fault::SanitizeError;
pub use policy::sanitize;
pub use ports::{PORT_DIGITS_MAX, PORT_ITEM_MAX};
