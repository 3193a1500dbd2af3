//! The requests of a script, committed one after another.
//!
//! `commit_all` does it over a repository, and tells each line that is refused, by its number and the answer that `policyd`
//! gives it where it plays the script in one session.
#![tactic(auto)]

mod commits;
pub mod laws;
mod refusal;

pub use commits::commit_all;
pub use refusal::Refusal;
