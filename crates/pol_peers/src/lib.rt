//! Which selectors the peers of a policy refer to.
//!
//! `hold_peers` adds a reference for each peer that a policy lists, and `drop_peers` takes them back.
#![tactic(auto)]

mod drop;
mod hold;
pub mod laws;

pub use drop::drop_peers;
pub use hold::hold_peers;
