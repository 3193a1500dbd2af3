//! A sanitised policy.
ghost use Rattle.std.specs.Prelude.{◌≡◌};
ghost use Rattle.pol_rule.specs.DefaultDeny.{nothing_said, said_of};
ghost use Rattle.pol_rule.specs.Keys.{same_key};
ghost use Rattle.pol_rule.specs.Plain.{rule_of};

use pol_addr::Prefix;
use pol_data::{Items, Text};
use pol_labels::Selector;
use pol_ports::{Direction, PortRange, Proto};
use std::alloc::Global;

/// A group of identities with a name of its own (Cilium, Network Policy, "Entities based").
#[derive(Clone, Copy, Debug, PartialEq, Eq, Hash)]
pub enum Entity {
    /// Every remote, allocated or not.
    All,
    /// Everything outside the cluster, of either family of addresses.
    World,
    /// What lies outside the cluster and has an IPv4 address.
    WorldIpv4,
    /// What lies outside the cluster and has an IPv6 address.
    WorldIpv6,
    /// The host that the endpoint runs on.
    Host,
    /// Any other host of the cluster.
    RemoteNode,
    /// The Kubernetes API server.
    KubeApiserver,
    /// The ingress proxy.
    Ingress,
    /// Endpoints that have no labels yet.
    Init,
    /// The health endpoints.
    Health,
    /// Endpoints that Cilium doesn't manage.
    Unmanaged,
    /// Identities 1 and 3 to 8, and those with the label `k8s:io.cilium.k8s.policy.cluster=default` ('profile').
    Cluster,
}

/// A list of prefixes.
pub type Prefixes = Items<Prefix>;

/// One way to name the other side of a connection (Cilium, Network Policy, "Layer 3 Examples").
#[derive(Debug, PartialEq, Eq, Hash, Drop)]
pub enum Peer {
    /// The identities whose labels match.
    Labels(Selector),
    /// The identities of a prefix inside `prefix`, and inside none of `except`.
    Cidr { prefix: Prefix, except: Prefixes },
    /// The members of an entity.
    Entity(Entity),
}

/// A list of peers.
pub type PeerList = Items<Peer>;

/// The other sides that an entry speaks of.
#[derive(Debug, PartialEq, Eq, Hash, Drop)]
pub enum Peers {
    /// The entry has no peer member: every remote, allocated or not.
    Every,
    /// The remotes that some listed peer selects; none where the list is empty.
    Listed(PeerList),
}

/// Ports that an entry speaks of (Cilium, Network Policy, "Layer 4 Examples").
#[derive(Clone, Copy, Debug, PartialEq, Eq, Hash)]
pub struct PortSpec {
    /// The protocol; `None` stands for ANY: TCP, UDP and SCTP.
    pub proto: Option<Proto>,
    /// The ports, both ends included.
    pub range: PortRange,
}

/// A list of ports; where it is empty, the entry speaks of every protocol and port.
pub type PortSpecs = Items<PortSpec>;

/// One entry of a section: peers, and ports.
#[derive(Debug, PartialEq, Eq, Hash, Drop)]
pub struct Entry {
    /// The other sides.
    pub peers: Peers,
    /// The ports, of all port items of the entry.
    pub ports: PortSpecs,
}

/// A list of entries.
pub type Entries = Items<Entry>;

/// What a rule says of default deny: for each direction, whether it puts the endpoints that it selects under default deny
/// there (Cilium, Network Policy, "Policy Enforcement Modes", `enableDefaultDeny`). Whatever it says, its denies deny.
#[derive(Clone, Copy, Debug, PartialEq, Eq)]
pub struct DefaultDeny {
    /// Into the endpoint; `None` where the rule has no such member.
    pub ingress: Option<bool>,
    /// Out of the endpoint; `None` where the rule has no such member.
    pub egress: Option<bool>,
}

impl DefaultDeny {
    /// Nothing is said of either direction.
    pub fn nothing_said() -> DefaultDeny
        ensures { result ≡ nothing_said }
    {
        DefaultDeny {
            ingress: None,
            egress: None,
        }
    }

    /// What is said of the direction; `None` where nothing is.
    pub fn of(&self, dir: Direction) -> Option<bool>
        ensures answer { result ≡ said_of dir self.now }
    {
        match dir {
            Direction::Ingress => self.ingress,
            Direction::Egress => self.egress,
        }
    }
}

/// One rule: whom it selects, and what it allows and denies them.
#[derive(Debug, Drop)]
pub struct Rule {
    /// The endpoints that the rule selects.
    pub subject: Selector,
    /// Allowed into the endpoint.
    pub ingress: Entries,
    /// Denied into the endpoint.
    pub ingress_deny: Entries,
    /// Allowed out of the endpoint.
    pub egress: Entries,
    /// Denied out of the endpoint.
    pub egress_deny: Entries,
    /// What it says of default deny.
    pub default_deny: DefaultDeny,
}

impl Rule {
    /// The rule that selects these endpoints, with no entries and nothing said of default deny. It takes no memory.
    pub fn new(alloc: Global, subject: Selector) -> Rule
        ensures { result ≡ rule_of subject }
    {
        Rule {
            subject,
            ingress: Entries::empty(alloc),
            ingress_deny: Entries::empty(alloc),
            egress: Entries::empty(alloc),
            egress_deny: Entries::empty(alloc),
            default_deny: DefaultDeny::nothing_said(),
        }
    }
}

/// A list of rules.
pub type Rules = Items<Rule>;

/// What names a policy: two policies with one key are one policy.
#[derive(Debug, PartialEq, Eq, Hash, Drop)]
pub struct PolicyKey {
    /// Whether it is a CiliumClusterwideNetworkPolicy.
    pub cluster_wide: bool,
    /// The namespace; empty exactly where the policy is cluster-wide.
    pub namespace: Text,
    /// The name.
    pub name: Text,
}

impl PolicyKey {
    /// Whether both are one key: kind, namespace and name are equal.
    pub fn is(&self, other: &PolicyKey) -> bool
        ensures { result ≡ same_key self.now other.now }
    {
        self.cluster_wide == other.cluster_wide
            && self.namespace == other.namespace
            && self.name == other.name
    }
}

/// A sanitised policy.
#[derive(Debug, Drop)]
pub struct Policy {
    /// Its key.
    pub key: PolicyKey,
    /// Its rules, that of `spec` first and then those of `specs`.
    pub rules: Rules,
}

/// A section of a rule.
#[derive(Clone, Copy, Debug, PartialEq, Eq, Hash)]
pub enum Section {
    /// `ingress`.
    Ingress,
    /// `ingressDeny`.
    IngressDeny,
    /// `egress`.
    Egress,
    /// `egressDeny`.
    EgressDeny,
}

/// Where an entry stands.
#[derive(Debug, PartialEq, Eq, Hash, Drop)]
pub struct Place {
    /// The policy.
    pub key: PolicyKey,
    /// The rule's place in the policy, from 0.
    pub rule: u32,
    /// The section.
    pub section: Section,
    /// The entry's place in the section, from 0.
    pub entry: u32,
}
