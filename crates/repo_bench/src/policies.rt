//! The requests by which policies come and go.

use crate::peers::{PeersOf, peer};
use crate::pods::pods;
use pol_data::{Memory, Text};
use pol_model::Request;
use pol_ports::{PortRange, Proto};
use pol_rule::{
    DefaultDeny, Entries, Entry, PeerList, Peers, Policy, PolicyKey, PortSpec, PortSpecs, Rule,
    Rules,
};
use std::alloc::Global;

/// How many entries a policy has of what comes in, and as many of what goes out. Each has one peer.
const HALF: u32 = 5;

/// How many applications the policies select by turns.
const SUBJECTS: u32 = 64;

/// A port of TCP.
fn port(number: u32) -> PortSpec {
    let port = (number % 65_536) as u16;
    PortSpec {
        proto: Some(Proto::Tcp),
        range: PortRange {
            first: port,
            last: port,
        },
    }
}

fn entry(alloc: Global, named: PeersOf, number: u32) -> Result<Entry, Memory> {
    let ports = PortSpecs::one(alloc, port(number))?;
    let peers = PeerList::one(alloc, peer(alloc, named, number)?)?;
    Ok(Entry {
        peers: Peers::Listed(peers),
        ports,
    })
}

/// Entries of the other sides from a number on.
fn entries(alloc: Global, named: PeersOf, first: u32) -> Result<Entries, Memory> {
    let mut list = Vec::new(alloc);
    for i in 0..HALF {
        list.push(entry(alloc, named, first.wrapping_add(i))?)?;
    }
    Ok(Entries::from_vec(list))
}

fn key(alloc: Global, family: &str, number: u32) -> Result<PolicyKey, Memory> {
    let name = format!(in alloc; "{family}-{number}")?;
    Ok(PolicyKey {
        cluster_wide: true,
        namespace: Text::empty(alloc),
        name: Text::from_string(name),
    })
}

/// One rule for the pods of an application.
fn rule(alloc: Global, number: u32, named: PeersOf, first: u32) -> Result<Rule, Memory> {
    let subject = pods(alloc, number)?;
    let ingress = entries(alloc, named, first)?;
    let egress = entries(alloc, named, first.wrapping_add(HALF))?;
    Ok(Rule {
        subject,
        ingress,
        ingress_deny: Entries::empty(alloc),
        egress,
        egress_deny: Entries::empty(alloc),
        default_deny: DefaultDeny::nothing_said(),
    })
}

/// The policy of that name, with ten entries of the other sides from ten times a number on.
pub(crate) fn policy(
    alloc: Global,
    family: &str,
    number: u32,
    named: PeersOf,
    ten: u32,
) -> Result<Request, Memory> {
    let key = key(alloc, family, number)?;
    let rule = rule(alloc, number % SUBJECTS, named, ten.wrapping_mul(10))?;
    Ok(Request::Apply(Policy {
        key,
        rules: Rules::one(alloc, rule)?,
    }))
}

/// It goes.
pub(crate) fn no_policy(alloc: Global, family: &str, number: u32) -> Result<Request, Memory> {
    Ok(Request::Remove(key(alloc, family, number)?))
}
