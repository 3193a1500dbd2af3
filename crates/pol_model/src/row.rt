//! The rows of the state.

use pol_addr::{Addr, Prefix};
use pol_data::Text;
use pol_labels::LabelSet;
use pol_rule::Policy;

/// An allocated security identity (Cilium, Terminology, "Identity").
#[derive(Debug, Drop)]
pub struct IdentityRow {
    /// Its number: 1 to 10 reserved, 256 to 65535 of the cluster, from 16777217 on of a prefix.
    pub number: u32,
    /// Its labels.
    pub labels: LabelSet,
    /// Its prefix: only identities of prefixes and identities 9 and 10 have one.
    pub prefix: Option<Prefix>,
    /// How many hold it. A row with none goes.
    pub holders: u64,
}

/// An identity that is held by a name ('profile').
#[derive(Debug, Drop)]
pub struct NamedIdentity {
    /// The name.
    pub name: Text,
    /// The number that it holds.
    pub number: u32,
}

/// A policy in force.
#[derive(Debug, Drop)]
pub struct Stamped {
    /// The policy.
    pub policy: Policy,
    /// The revision that applied it.
    pub stamp: u64,
}

/// A live endpoint.
#[derive(Debug, Drop)]
pub struct Endpoint {
    /// Its name; no two live endpoints share one.
    pub name: Text,
    /// Its slot, from 0: the least that was free when it was added ('profile').
    pub slot: u32,
    /// The revision that added it.
    pub added: u64,
    /// Its labels.
    pub labels: LabelSet,
    /// The number of its identity.
    pub identity: u32,
    /// Its address.
    pub address: Addr,
}
