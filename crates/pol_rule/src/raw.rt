//! A policy document as it was read: no text in it is judged yet.
//!
//! An absent list of values is an empty list, an absent protocol the empty text, and an absent section
//! an empty list.

use crate::policy::{DefaultDeny, PolicyKey};
use pol_data::{Items, Text, Texts};

/// A member of `matchLabels`.
#[derive(Debug, Drop)]
pub struct RawPair {
    /// The member's name.
    pub key: Text,
    /// The member's text.
    pub value: Text,
}

/// The members of `matchLabels`, in the byte order of their names.
pub type RawPairs = Items<RawPair>;

/// An item of `matchExpressions`.
#[derive(Debug, Drop)]
pub struct RawExpression {
    /// `key`.
    pub key: Text,
    /// `operator`.
    pub operator: Text,
    /// `values`.
    pub values: Texts,
}

/// The items of `matchExpressions`.
pub type RawExpressions = Items<RawExpression>;

/// A selector.
#[derive(Debug, Drop)]
pub struct RawSelector {
    /// `matchLabels`.
    pub labels: RawPairs,
    /// `matchExpressions`.
    pub expressions: RawExpressions,
}

/// A list of selectors.
pub type RawSelectors = Items<RawSelector>;

/// An item of `fromCIDRSet` or `toCIDRSet`.
#[derive(Debug, Drop)]
pub struct RawCidrSet {
    /// `cidr`.
    pub cidr: Text,
    /// `except`.
    pub except: Texts,
}

/// A list of CIDR set items.
pub type RawCidrSets = Items<RawCidrSet>;

/// A port of a port item.
#[derive(Debug, Drop)]
pub struct RawPort {
    /// `port`.
    pub port: Text,
    /// `protocol`.
    pub protocol: Text,
    /// `endPort`.
    pub end_port: Option<u64>,
}

/// A list of ports.
pub type RawPorts = Items<RawPort>;

/// An item of `toPorts`.
#[derive(Debug, Drop)]
pub struct RawPortItem {
    /// `ports`.
    pub ports: RawPorts,
}

/// The items of `toPorts`.
pub type RawPortItems = Items<RawPortItem>;

/// An entry of a section. A peer member that is absent is `None`.
#[derive(Debug, Drop)]
pub struct RawEntry {
    /// `fromEndpoints` or `toEndpoints`.
    pub endpoints: Option<RawSelectors>,
    /// `fromCIDR` or `toCIDR`.
    pub cidrs: Option<Texts>,
    /// `fromCIDRSet` or `toCIDRSet`.
    pub cidr_sets: Option<RawCidrSets>,
    /// `fromEntities` or `toEntities`.
    pub entities: Option<Texts>,
    /// `toPorts`.
    pub ports: RawPortItems,
}

/// A list of entries.
pub type RawEntries = Items<RawEntry>;

/// A rule.
#[derive(Debug, Drop)]
pub struct RawRule {
    /// `endpointSelector`.
    pub subject: Option<RawSelector>,
    /// `ingress`.
    pub ingress: RawEntries,
    /// `ingressDeny`.
    pub ingress_deny: RawEntries,
    /// `egress`.
    pub egress: RawEntries,
    /// `egressDeny`.
    pub egress_deny: RawEntries,
    /// `enableDefaultDeny`.
    pub default_deny: DefaultDeny,
}

/// A list of rules.
pub type RawRules = Items<RawRule>;

/// A policy document.
#[derive(Debug, Drop)]
pub struct RawPolicy {
    /// Its key, from its kind and its metadata.
    pub key: PolicyKey,
    /// The rule of `spec`, and then those of `specs`.
    pub rules: RawRules,
}
