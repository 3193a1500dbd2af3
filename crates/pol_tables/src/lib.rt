//! The tables of a repository: live endpoints, named identities and policies, each under its indexes.
//!
//! Each table is seen as the list that the model keeps. `reserve` takes the memory of one row more, so that `place` and
//! `put` take none.
#![tactic(auto)]

mod arrivals;
mod endpoints;
mod named;
mod policies;
mod queue;
mod slots;

pub use endpoints::EndpointTable;
pub use named::Named;
pub use policies::Policies;
