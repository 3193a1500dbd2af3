//! A NetworkPolicy as it was read: no text in it is judged yet. An absent list is an empty list.

use pol_data::{Items, Text, Texts};
use pol_rule::{PolicyKey, RawCidrSet, RawSelector};

/// An item of `from` or `to` (Kubernetes, `NetworkPolicyPeer`).
#[derive(Debug, Drop)]
pub struct RawNetPeer {
    /// `podSelector`.
    pub pods: Option<RawSelector>,
    /// `namespaceSelector`.
    pub namespaces: Option<RawSelector>,
    /// `ipBlock`.
    pub block: Option<RawCidrSet>,
}

/// The items of `from` or `to`.
pub type RawNetPeers = Items<RawNetPeer>;

/// An item of `ports` (Kubernetes, `NetworkPolicyPort`).
#[derive(Debug, Drop)]
pub struct RawNetPort {
    /// `port`.
    pub port: Option<u64>,
    /// `protocol`.
    pub protocol: Option<Text>,
    /// `endPort`.
    pub end_port: Option<u64>,
}

/// The items of `ports`.
pub type RawNetPorts = Items<RawNetPort>;

/// An item of `ingress` or `egress` (Kubernetes, `NetworkPolicyIngressRule` and `NetworkPolicyEgressRule`).
#[derive(Debug, Drop)]
pub struct RawNetEntry {
    /// `from` or `to`.
    pub peers: RawNetPeers,
    /// `ports`.
    pub ports: RawNetPorts,
}

/// The items of `ingress` or `egress`.
pub type RawNetEntries = Items<RawNetEntry>;

/// A NetworkPolicy (Kubernetes, `NetworkPolicySpec`).
#[derive(Debug, Drop)]
pub struct RawNetworkPolicy {
    /// Its namespace, and its name behind `networkpolicy/`; it isn't cluster-wide.
    pub key: PolicyKey,
    /// `podSelector`.
    pub subject: Option<RawSelector>,
    /// `policyTypes`.
    pub types: Texts,
    /// `ingress`.
    pub ingress: RawNetEntries,
    /// `egress`.
    pub egress: RawNetEntries,
}
