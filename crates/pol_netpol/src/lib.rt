//! Kubernetes' NetworkPolicy: what an object means, and the policy that says the same.
//!
//! `specs/Meaning` has what an object means of identities and their labels, from Kubernetes' documentation:
//! it knows no rule. `specs/Translated` has the policy that it is translated to, `specs/Faults` what it is
//! refused for, and `laws` that an accepted object keeps its meaning. `read_netpol` gives that policy of a
//! document: `document` reads the object, and `translation` has the policy, with what is wrong in
//! `first_fault` and `check`, and the parts of an entry in `selectors`, `peers` and `ports`.
#![tactic(auto)]

mod check;
mod document;
pub mod document_examples;
pub mod examples;
mod fault;
mod first_fault;
pub mod laws;
mod netpol;
mod peers;
mod ports;
mod raw;
mod selectors;
mod translation;

pub use document::network_key;
pub use fault::{NetError, NetFault};
pub use netpol::read_netpol;
pub use raw::{
    RawNetEntries, RawNetEntry, RawNetPeer, RawNetPeers, RawNetPort, RawNetPorts, RawNetworkPolicy,
};
pub use translation::translate;
