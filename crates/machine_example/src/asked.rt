//! What the runs ask for.

use pol_addr::{Addr, Prefix};
use pol_data::{Items, Text, Texts};
use pol_labels::{Label, LabelSet, Operator, Requirement, Selector};
use pol_model::{Query, Remote, Request};
use pol_ports::{Direction, PortRange, Proto};
use pol_rule::{
    Entries, Entry, Peer, PeerList, Peers, Policy, PolicyKey, PortSpec, PortSpecs, Prefixes, Rule,
    Rules,
};
use std::alloc::Global;

const NAMESPACE: &str = "k8s:io.kubernetes.pod.namespace=default";

fn labels(alloc: Global, own: Option<&str>) -> Option<LabelSet> {
    let mut labels = Vec::new(alloc);
    labels.push(Label::parse(alloc, NAMESPACE).ok()?).ok()?;
    if let Some(text) = own {
        labels.push(Label::parse(alloc, text).ok()?).ok()?;
    }
    LabelSet::from_labels(alloc, labels).ok()
}

/// An endpoint of that name, of the namespace `default`, with the address 192.168.0.1.
pub(crate) fn endpoint(alloc: Global, name: &str) -> Option<Request> {
    Some(Request::AddEndpoint {
        name: Text::from_str(alloc, name).ok()?,
        labels: labels(alloc, None)?,
        address: Addr::from_octets(192, 168, 0, 1),
    })
}

/// That the endpoint goes.
pub(crate) fn no_endpoint(alloc: Global, name: &str) -> Option<Request> {
    Some(Request::RemoveEndpoint {
        name: Text::from_str(alloc, name).ok()?,
    })
}

/// An identity of that name, of the namespace `default` and with the label `k8s:app=x`.
pub(crate) fn identity(alloc: Global, name: &str) -> Option<Request> {
    Some(Request::AddIdentity {
        name: Text::from_str(alloc, name).ok()?,
        labels: labels(alloc, Some("k8s:app=x"))?,
    })
}

fn key(alloc: Global, name: &str) -> Option<PolicyKey> {
    Some(PolicyKey {
        cluster_wide: true,
        namespace: Text::empty(alloc),
        name: Text::from_str(alloc, name).ok()?,
    })
}

/// The addresses of that prefix.
pub(crate) fn of_prefix(alloc: Global, prefix: Prefix) -> Option<Peer> {
    Some(Peer::Cidr {
        prefix,
        except: Prefixes::empty(alloc),
    })
}

/// What has the label `k8s:app=x`.
pub(crate) fn of_app(alloc: Global) -> Option<Peer> {
    let value = Text::from_str(alloc, "x").ok()?;
    let requirement = Requirement {
        any_source: false,
        source: Text::from_str(alloc, "k8s").ok()?,
        key: Text::from_str(alloc, "app").ok()?,
        op: Operator::OneOf,
        values: Texts::one(alloc, value).ok()?,
    };
    let asked = Items::one(alloc, requirement).ok()?;
    Some(Peer::Labels(Selector::from_requirements(alloc, asked.into_vec()).ok()?))
}

/// TCP port 80.
pub(crate) fn on_80(alloc: Global) -> Option<PortSpecs> {
    let spec = PortSpec {
        proto: Some(Proto::Tcp),
        range: PortRange {
            first: 80,
            last: 80,
        },
    };
    PortSpecs::one(alloc, spec).ok()
}

/// A rule for every endpoint.
fn rule(alloc: Global) -> Option<Rule> {
    let everyone = Selector::from_requirements(alloc, Vec::new(alloc)).ok()?;
    Some(Rule::new(alloc, everyone))
}

/// The policy of that name and of one rule for every endpoint: it lets the peer in on these ports.
pub(crate) fn allow(
    alloc: Global,
    name: &str,
    peer: Option<Peer>,
    ports: PortSpecs,
) -> Option<Request> {
    let entry = Entry {
        peers: Peers::Listed(PeerList::one(alloc, peer?).ok()?),
        ports,
    };
    let mut rule = rule(alloc)?;
    rule.ingress = Entries::one(alloc, entry).ok()?;
    Some(Request::Apply(Policy {
        key: key(alloc, name)?,
        rules: Rules::one(alloc, rule).ok()?,
    }))
}

/// The same, but it denies the peer on every port.
pub(crate) fn deny(alloc: Global, name: &str, peer: Option<Peer>) -> Option<Request> {
    let entry = Entry {
        peers: Peers::Listed(PeerList::one(alloc, peer?).ok()?),
        ports: PortSpecs::empty(alloc),
    };
    let mut rule = rule(alloc)?;
    rule.ingress_deny = Entries::one(alloc, entry).ok()?;
    Some(Request::Apply(Policy {
        key: key(alloc, name)?,
        rules: Rules::one(alloc, rule).ok()?,
    }))
}

/// That the policy of that name goes.
pub(crate) fn no_policy(alloc: Global, name: &str) -> Option<Request> {
    Some(Request::Remove(key(alloc, name)?))
}

/// A packet into that endpoint, to TCP port 80.
pub(crate) fn packet(alloc: Global, name: &str, remote: Remote) -> Option<Query> {
    Some(Query {
        endpoint: Text::from_str(alloc, name).ok()?,
        dir: Direction::Ingress,
        remote,
        proto: Proto::Tcp,
        port: 80,
    })
}
