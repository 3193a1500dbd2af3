//! Why a packet is allowed or denied, from the parts of a state: the verdict by a scan of all rules, and the places of the
//! entries that cover it.
//!
//! `verdict_at` and `explain_at` look at the mode, the policies and the identities, at the leave for the local host, and at
//! the number of the other side.
#![tactic(auto)]

mod judge;
mod places;
mod reasons;
mod selects;

pub use judge::verdict_at;
pub use reasons::explain_at;
