//! What a request does to a store.
//!
//! A request is first prepared, which takes all that it needs (`prepare`); then it is done (`accept`), or what it took is
//! given back (`withdraw`). The latter two take no memory.
#![tactic(auto)]

mod change;
mod committed;
mod endpoints;
mod error;
mod identities;
mod policies;
mod prepared;
mod requests;

pub use change::{accept, withdraw};
pub use committed::answer;
pub use error::PrepareError;
pub use prepared::{Prepared, TableChange};
pub use requests::prepare;
