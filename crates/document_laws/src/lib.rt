//! Policies as the documents that write them, and the laws that each is read again: of Cilium's in `laws`, of Kubernetes' in
//! `networks`. What holds of each NetworkPolicy that is accepted, with the verdicts that objects give, is `accepted`.
//!
//! Only `script_examples` stands on this crate, on which nothing does. Each law is the contract of a function that does nothing.
#![tactic(auto)]

pub mod accepted;
pub mod laws;
pub mod networks;
