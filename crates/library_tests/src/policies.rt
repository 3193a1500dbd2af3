//! Copies with ample memory.

use pol_addr::{Addr, Prefix};
use pol_data::{Items, Memory, Text};
use pol_labels::Selector;
use pol_ports::{PortRange, Proto};
use pol_rule::{
    DefaultDeny, Entity, Entry, Peer, Peers, Place, Policy, PolicyKey, PortSpec, RawCidrSet,
    RawEntry, RawExpression, RawPair, RawPolicy, RawPort, RawPortItem, RawRule, RawSelector, Rule,
    RuleFault, Section,
};
use std::alloc::Global;
use std::test::Fail;

fn key(alloc: Global) -> Result<PolicyKey, Memory> {
    Ok(PolicyKey {
        cluster_wide: false,
        namespace: Text::from_str(alloc, "default")?,
        name: Text::from_str(alloc, "rule1")?,
    })
}

#[test]
fn a_place_is_copied(rt: HostRuntime) -> Result<(), Fail> {
    let alloc = rt.alloc();
    let place = Place {
        key: key(alloc)?,
        rule: 2,
        section: Section::EgressDeny.copy(alloc)?,
        entry: 3,
    };
    let copy = place.copy(alloc)?;
    assert!(rt; copy == place);
    assert!(rt; copy.key.is(&place.key));
    Ok(())
}

#[test]
fn a_fault_is_copied(rt: HostRuntime) -> Result<(), Fail> {
    let fault = RuleFault {
        number: 19,
        rule: 0,
        at: Some((Section::Egress, 0)),
    };
    assert!(rt; fault.copy(rt.alloc())? == fault);
    Ok(())
}

// ---- policies as they are meant

fn everything(alloc: Global) -> Result<Selector, Fail> {
    Ok(Selector::from_requirements(alloc, Vec::new(alloc))?)
}

/// TCP 80 to 443.
fn ports() -> PortSpec {
    let range = PortRange {
        first: 80,
        last: 443,
    };
    PortSpec {
        proto: Some(Proto::Tcp),
        range,
    }
}

/// 10.0.0.0/8 without 10.1.0.0/16.
fn block(alloc: Global) -> Result<Peer, Memory> {
    let inside = Prefix::new(Addr::from_octets(10, 1, 0, 0), 16);
    Ok(Peer::Cidr {
        prefix: Prefix::new(Addr::from_octets(10, 0, 0, 0), 8),
        except: Items::one(alloc, inside)?,
    })
}

/// An entry with a peer of each kind.
fn entry(alloc: Global) -> Result<Entry, Fail> {
    let mut peers = Vec::new(alloc);
    peers.push(Peer::Labels(everything(alloc)?))?;
    peers.push(block(alloc)?)?;
    peers.push(Peer::Entity(Entity::World.copy(alloc)?))?;
    Ok(Entry {
        peers: Peers::Listed(Items::from_vec(peers)),
        ports: Items::one(alloc, ports().copy(alloc)?)?,
    })
}

#[test]
fn an_entry_is_copied(rt: HostRuntime) -> Result<(), Fail> {
    let alloc = rt.alloc();
    let entry = entry(alloc)?;
    assert!(rt; entry.copy(alloc)? == entry);
    Ok(())
}

#[test]
fn a_policy_is_copied(rt: HostRuntime) -> Result<(), Fail> {
    let alloc = rt.alloc();
    let mut rule = Rule::new(alloc, everything(alloc)?);
    rule.ingress = Items::one(alloc, entry(alloc)?)?;
    let policy = Policy {
        key: key(alloc)?,
        rules: Items::one(alloc, rule)?,
    };
    assert!(rt; policy.copy(alloc)?.rules.len() == 1);
    Ok(())
}

// ---- policies as they were written

fn raw_selector(alloc: Global) -> Result<RawSelector, Memory> {
    let pair = RawPair {
        key: Text::from_str(alloc, "org")?,
        value: Text::from_str(alloc, "empire")?,
    };
    let expression = RawExpression {
        key: Text::from_str(alloc, "class")?,
        operator: Text::from_str(alloc, "Exists")?,
        values: Items::empty(alloc),
    };
    Ok(RawSelector {
        labels: Items::one(alloc, pair)?,
        expressions: Items::one(alloc, expression)?,
    })
}

fn raw_ports(alloc: Global) -> Result<RawPortItem, Memory> {
    let port = RawPort {
        port: Text::from_str(alloc, "80")?,
        protocol: Text::from_str(alloc, "TCP")?,
        end_port: Some(443),
    };
    Ok(RawPortItem {
        ports: Items::one(alloc, port)?,
    })
}

fn raw_block(alloc: Global) -> Result<RawCidrSet, Memory> {
    Ok(RawCidrSet {
        cidr: Text::from_str(alloc, "10.0.0.0/8")?,
        except: Items::empty(alloc),
    })
}

fn raw_entry(alloc: Global) -> Result<RawEntry, Memory> {
    Ok(RawEntry {
        endpoints: Some(Items::one(alloc, raw_selector(alloc)?)?),
        cidrs: None,
        cidr_sets: Some(Items::one(alloc, raw_block(alloc)?)?),
        entities: None,
        ports: Items::one(alloc, raw_ports(alloc)?)?,
    })
}

fn raw_rule(alloc: Global) -> Result<RawRule, Memory> {
    Ok(RawRule {
        subject: Some(raw_selector(alloc)?),
        ingress: Items::one(alloc, raw_entry(alloc)?)?,
        ingress_deny: Items::empty(alloc),
        egress: Items::empty(alloc),
        egress_deny: Items::empty(alloc),
        default_deny: DefaultDeny::nothing_said(),
    })
}

#[test]
fn a_written_policy_is_copied(rt: HostRuntime) -> Result<(), Fail> {
    let alloc = rt.alloc();
    let policy = RawPolicy {
        key: key(alloc)?,
        rules: Items::one(alloc, raw_rule(alloc)?)?,
    };
    assert!(rt; policy.copy(alloc)?.rules.len() == 1);
    Ok(())
}
