//! Policies as data: what a CiliumNetworkPolicy says once it is read, and as it was written.
//!
//! `policy` has the sanitised policy: rules with a subject, four sections of entries, peers and ports.
//! `raw` has the document as it was read, before any text in it is judged, and `fault` the faults of
//! that judgement, with their causes in `cause`. All of it is plain data, and contracts see each list as a list.
//! What an entry covers is defined in `specs/Covers`.
#![tactic(auto)]

mod cause;
mod covering;
mod fault;
mod holding;
pub mod laws;
mod listed;
mod policy;
mod policy_copy;
mod raw;
mod raw_copy;

pub use cause::RuleCause;
pub use fault::RuleFault;
pub use listed::{listed_peers, push_listed};
pub use policy::{
    DefaultDeny, Entity, Entries, Entry, Peer, PeerList, Peers, Place, Policy, PolicyKey, PortSpec,
    PortSpecs, Prefixes, Rule, Rules, Section,
};
pub use raw::{
    RawCidrSet, RawCidrSets, RawEntries, RawEntry, RawExpression, RawExpressions, RawPair,
    RawPairs, RawPolicy, RawPort, RawPortItem, RawPortItems, RawPorts, RawRule, RawRules,
    RawSelector, RawSelectors,
};
