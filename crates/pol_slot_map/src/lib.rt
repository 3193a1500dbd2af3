//! What a slot keeps of the endpoint that it follows: the map that it made last, and the changes that lead to it from the
//! map that was published last.
//!
//! `specs/Follow` says what is kept, and how it goes on; `specs/Followed` says it of a history. Why what was taken of an
//! endpoint may be applied to what is kept of it is in `laws`.
#![tactic(auto)]

mod base;
mod follow;
pub mod laws;
mod pending;

pub use base::Base;
pub use follow::Followed;
pub use pending::Pending;
