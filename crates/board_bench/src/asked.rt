//! What the board is filled with, the identity that comes and goes, and the packets.

use pol_addr::Addr;
use pol_data::{Items, Memory, Text};
use pol_labels::{Label, LabelSet, Operator, Requirement, Selector};
use pol_model::{Query, Remote, Request};
use pol_ports::{Direction, PortRange, Proto};
use pol_rule::{
    Entries, Entry, Peer, PeerList, Peers, Policy, PolicyKey, PortSpec, PortSpecs, Rule, Rules,
};
use std::alloc::Global;

/// The key that the policy's peer asks for.
const KEY: &str = "app";

/// Endpoints, each of which has a map.
pub(crate) const ENDPOINTS: u32 = 256;

/// Packets into each endpoint.
pub(crate) const PACKETS: u32 = 16;

/// TCP ports of the policy whose maps are looked at.
pub(crate) const PORTS: u32 = 16;

/// A number, scattered by an odd factor.
fn scattered(number: u32) -> u32 {
    number.wrapping_mul(0x9e37_79b1) >> 16
}

/// The TCP port of a number below twice those of the policy. The policy lets in the first half.
pub(crate) fn port(number: u32) -> u16 {
    (scattered(number.wrapping_add(1)) % 65_536) as u16
}

/// A packet into an endpoint.
#[derive(Clone, Copy)]
pub(crate) struct AskedPacket {
    pub(crate) endpoint: u32,
    /// The number of the remote identity.
    pub(crate) identity: u32,
    pub(crate) port: u16,
}

/// The packet of that number, from one of so many identities. Each endpoint has its turn before the next packet into it, and
/// half of the packets are to ports of the policy.
pub(crate) fn packet_of(number: u32, identities: u32) -> AskedPacket {
    let among = scattered(number) % identities.max(1);
    AskedPacket {
        endpoint: number % ENDPOINTS,
        identity: among.wrapping_add(256),
        port: port(scattered(number.wrapping_add(ENDPOINTS)) % (2 * PORTS)),
    }
}

fn label(alloc: Global, key: &str, value: &str) -> Result<Label, Memory> {
    Ok(Label {
        source: Text::from_str(alloc, "k8s")?,
        key: Text::from_str(alloc, key)?,
        value: Text::from_str(alloc, value)?,
    })
}

fn name(alloc: Global, kind: &str, number: u32) -> Result<Text, Memory> {
    let name = format!(in alloc; "{kind}-{number}")?;
    Ok(Text::from_string(name))
}

/// The labels of the namespace, and one whose value nobody else of that kind has.
fn labels(alloc: Global, key: &str, number: u32) -> Result<LabelSet, Memory> {
    let own = name(alloc, key, number)?;
    let mut labels = Vec::with_capacity(alloc, 2)?;
    labels.push(label(alloc, "io.kubernetes.pod.namespace", "default")?)?;
    labels.push(label(alloc, key, own.as_str())?)?;
    match LabelSet::from_labels(alloc, labels) {
        Ok(labels) => Ok(labels),
        Err(_) => Err(Memory),
    }
}

/// The endpoint of that number. No peer selects it.
pub(crate) fn endpoint(alloc: Global, number: u32) -> Result<Request, Memory> {
    Ok(Request::AddEndpoint {
        name: name(alloc, "endpoint", number)?,
        labels: labels(alloc, "pod", number)?,
        address: Addr::V4(number.wrapping_add(0x0a00_0000)),
    })
}

/// The identity of that number, which the policy's peer selects.
pub(crate) fn identity(alloc: Global, number: u32) -> Result<Request, Memory> {
    Ok(Request::AddIdentity {
        name: name(alloc, "identity", number)?,
        labels: labels(alloc, KEY, number)?,
    })
}

/// It goes.
pub(crate) fn no_identity(alloc: Global, number: u32) -> Result<Request, Memory> {
    Ok(Request::RemoveIdentity {
        name: name(alloc, "identity", number)?,
    })
}

fn selector(alloc: Global, asked: Vec<Requirement>) -> Result<Selector, Memory> {
    match Selector::from_requirements(alloc, asked) {
        Ok(selector) => Ok(selector),
        Err(_) => Err(Memory),
    }
}

/// What has the key.
fn with_key(alloc: Global) -> Result<Peer, Memory> {
    let requirement = Requirement {
        any_source: false,
        source: Text::from_str(alloc, "k8s")?,
        key: Text::from_str(alloc, KEY)?,
        op: Operator::Present,
        values: Items::empty(alloc),
    };
    let asked = Items::one(alloc, requirement)?;
    Ok(Peer::Labels(selector(alloc, asked.into_vec())?))
}

/// The TCP port alone.
fn one_port(port: u16) -> PortSpec {
    let range = PortRange {
        first: port,
        last: port,
    };
    PortSpec {
        proto: Some(Proto::Tcp),
        range,
    }
}

/// So many TCP ports.
fn ports(alloc: Global, count: u32) -> Result<PortSpecs, Memory> {
    let mut list = Vec::new(alloc);
    for number in 0..count {
        list.push(one_port(port(number)))?;
    }
    Ok(PortSpecs::from_vec(list))
}

fn entry(alloc: Global, count: u32) -> Result<Entry, Memory> {
    Ok(Entry {
        peers: Peers::Listed(PeerList::one(alloc, with_key(alloc)?)?),
        ports: ports(alloc, count)?,
    })
}

fn rule(alloc: Global, count: u32) -> Result<Rule, Memory> {
    let mut rule = Rule::new(alloc, selector(alloc, Vec::new(alloc))?);
    rule.ingress = Entries::one(alloc, entry(alloc, count)?)?;
    Ok(rule)
}

/// A policy for every endpoint, which lets in what has the key, on so many TCP ports. So each identity gives each map so many
/// keys.
pub(crate) fn policy(alloc: Global, count: u32) -> Result<Request, Memory> {
    Ok(Request::Apply(Policy {
        key: PolicyKey {
            cluster_wide: true,
            namespace: Text::empty(alloc),
            name: Text::from_str(alloc, "policy")?,
        },
        rules: Rules::one(alloc, rule(alloc, count)?)?,
    }))
}

fn query(alloc: Global, packet: AskedPacket) -> Result<Query, Memory> {
    Ok(Query {
        endpoint: name(alloc, "endpoint", packet.endpoint)?,
        dir: Direction::Ingress,
        remote: Remote::Identity(packet.identity),
        proto: Proto::Tcp,
        port: packet.port,
    })
}

/// What is asked of the board: each of the packets.
pub(crate) fn queries(alloc: Global, identities: u32) -> Result<Vec<Query>, Memory> {
    let mut queries = Vec::new(alloc);
    for number in 0..ENDPOINTS * PACKETS {
        queries.push(query(alloc, packet_of(number, identities))?)?;
    }
    Ok(queries)
}
