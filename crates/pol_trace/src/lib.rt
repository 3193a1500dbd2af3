//! Why a packet is allowed or denied in the present state of a repository: the verdict by a scan of all rules, and the
//! places of the entries that cover it.
//!
//! `verdict` and `explain` give the parts of that state, and the number of the other side, to `pol_judge`.
#![tactic(auto)]

mod query;

pub use query::{ExplainError, explain, verdict};
