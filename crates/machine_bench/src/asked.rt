//! What the machine is filled with, and the identity that comes and goes.

use anyhow::Result;
use pol_addr::Addr;
use pol_data::{Items, Memory, Text};
use pol_labels::{Label, LabelSet, Operator, Requirement, Selector};
use pol_model::Request;
use pol_ports::{PortRange, Proto};
use pol_rule::{
    Entries, Entry, Peer, PeerList, Peers, Policy, PolicyKey, PortSpec, PortSpecs, Rule, Rules,
};
use std::alloc::Global;

fn label(alloc: Global, key: &str, value: &str) -> Result<Label, Memory> {
    Ok(Label {
        source: Text::from_str(alloc, "k8s")?,
        key: Text::from_str(alloc, key)?,
        value: Text::from_str(alloc, value)?,
    })
}

fn name(alloc: Global, kind: &str, number: u32) -> Result<Text, Memory> {
    let name = format!(in alloc; "{kind}-{number}")?;
    Ok(Text::from_string(name))
}

fn namespace(alloc: Global) -> Result<Label, Memory> {
    label(alloc, "io.kubernetes.pod.namespace", "default")
}

/// The key that identities have for the filter of that number.
fn key(alloc: Global, filter: u32) -> Result<Text, Memory> {
    name(alloc, "app", filter)
}

/// The labels of an endpoint: its namespace, and one that nobody else has.
fn pod_labels(alloc: Global, number: u32) -> Result<LabelSet> {
    let own = name(alloc, "pod", number)?;
    let mut labels = Vec::with_capacity(alloc, 2)?;
    labels.push(namespace(alloc)?)?;
    labels.push(label(alloc, "pod", own.as_str())?)?;
    Ok(LabelSet::from_labels(alloc, labels)?)
}

/// The labels of an identity: its namespace, and the key of each filter, with a value that nobody else has.
fn app_labels(alloc: Global, number: u32, filters: u32) -> Result<LabelSet> {
    let own = name(alloc, "identity", number)?;
    let mut labels = Vec::new(alloc);
    labels.push(namespace(alloc)?)?;
    for filter in 0..filters {
        labels.push(label(alloc, key(alloc, filter)?.as_str(), own.as_str())?)?;
    }
    Ok(LabelSet::from_labels(alloc, labels)?)
}

/// The endpoint of that number. No peer selects it.
pub(crate) fn endpoint(alloc: Global, number: u32) -> Result<Request> {
    Ok(Request::AddEndpoint {
        name: name(alloc, "endpoint", number)?,
        labels: pod_labels(alloc, number)?,
        address: Addr::V4(number.wrapping_add(0x0a00_0000)),
    })
}

/// The identity of that number, which each of so many filters selects.
pub(crate) fn identity(alloc: Global, number: u32, filters: u32) -> Result<Request> {
    Ok(Request::AddIdentity {
        name: name(alloc, "identity", number)?,
        labels: app_labels(alloc, number, filters)?,
    })
}

/// It goes.
pub(crate) fn no_identity(alloc: Global, number: u32) -> Result<Request> {
    Ok(Request::RemoveIdentity {
        name: name(alloc, "identity", number)?,
    })
}

/// That a key is there.
fn has_key(alloc: Global, key: Text) -> Result<Requirement> {
    Ok(Requirement {
        any_source: false,
        source: Text::from_str(alloc, "k8s")?,
        key,
        op: Operator::Present,
        values: Items::empty(alloc),
    })
}

/// What has the key of a filter.
fn with_key(alloc: Global, filter: u32) -> Result<Peer> {
    let asked = Items::one(alloc, has_key(alloc, key(alloc, filter)?)?)?;
    Ok(Peer::Labels(Selector::from_requirements(alloc, asked.into_vec())?))
}

/// The TCP port of a number.
fn port(number: u32) -> PortSpec {
    let port = (number % 65_536) as u16;
    let range = PortRange {
        first: port,
        last: port,
    };
    PortSpec {
        proto: Some(Proto::Tcp),
        range,
    }
}

fn entry(alloc: Global, number: u32) -> Result<Entry> {
    Ok(Entry {
        peers: Peers::Listed(PeerList::one(alloc, with_key(alloc, number)?)?),
        ports: PortSpecs::one(alloc, port(number))?,
    })
}

fn entries(alloc: Global, count: u32) -> Result<Entries> {
    let mut list = Vec::new(alloc);
    for number in 0..count {
        list.push(entry(alloc, number)?)?;
    }
    Ok(Entries::from_vec(list))
}

/// Every endpoint.
fn everyone(alloc: Global) -> Result<Selector> {
    Ok(Selector::from_requirements(alloc, Vec::new(alloc))?)
}

/// No endpoint: none has that key.
fn nobody(alloc: Global) -> Result<Selector> {
    let asked = Items::one(alloc, has_key(alloc, Text::from_str(alloc, "nobody")?)?)?;
    Ok(Selector::from_requirements(alloc, asked.into_vec())?)
}

fn rule(alloc: Global, subject: Selector, count: u32) -> Result<Rule> {
    let mut rule = Rule::new(alloc, subject);
    rule.ingress = entries(alloc, count)?;
    Ok(rule)
}

fn apply(alloc: Global, name: Text, rule: Rule) -> Result<Request> {
    Ok(Request::Apply(Policy {
        key: PolicyKey {
            cluster_wide: true,
            namespace: Text::empty(alloc),
            name,
        },
        rules: Rules::one(alloc, rule)?,
    }))
}

/// A policy for every endpoint, of so many entries, each of which lets in what has a key of its own, on a TCP port of its own. So
/// each identity gives each map so many entries.
pub(crate) fn policy(alloc: Global, count: u32) -> Result<Request> {
    let rule = rule(alloc, everyone(alloc)?, count)?;
    apply(alloc, Text::from_str(alloc, "policy")?, rule)
}

/// The policy of that number, of so many entries, which selects no endpoint.
pub(crate) fn other_policy(alloc: Global, number: u32, count: u32) -> Result<Request> {
    let rule = rule(alloc, nobody(alloc)?, count)?;
    apply(alloc, name(alloc, "other", number)?, rule)
}
