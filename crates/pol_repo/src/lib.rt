//! The repository: the state of the policy core under its indexes, and the requests that made it.
//!
//! A request is prepared (`Repo::prepare`), which takes all that it needs, and then accepted or withdrawn, which takes no
//! memory. `Repo::commit` does both at once. What a contract sees of a repository is its options, the requests so far and
//! the one that is prepared; each part that it tells is that part of the state which the definitions of `pol_model` give
//! for the requests so far.
#![tactic(auto)]

mod commit;
pub mod laws;
mod look;
mod moves;
mod prepare;
mod repo;
mod take;

pub use pol_model::{
    CommitError, Committed, Endpoint as EndpointRow, Fault, FullList, FullSlot, Query, Refused,
    Remote, Request, Trace,
};
pub use pol_taken::{Addresses, Move, Moves, SetRow, Sets, SharedPeer, TakeError, Taken};
pub use prepare::Ready;
pub use repo::Repo;
