//! The store of a repository: the rows of the state under their indexes, and the sets of the selectors.
//!
//! Each call reads the state, or changes one part of it. What a request does of them in turn is in `pol_requests`.
#![tactic(auto)]

mod parts;
mod policy_parts;
mod refresh;
mod rows;
mod store;
mod take;

pub use store::Store;
