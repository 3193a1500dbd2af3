//! The object of a document, member by member.
ghost use Rattle.std.specs.Prelude.{◌≡◌, map, IfOk};
ghost use Rattle.serde_json.specs.View.{view};
ghost use Rattle.pol_json.specs.Build.{member_items};
ghost use Rattle.pol_json.specs.Gives.{Gives, doc_fault_of};
ghost use Rattle.pol_netpol.specs.Document.{raw_entry_of, key_of, network_key, number_at, raw_peer_of, peers_name, raw_port_of, raw_with, read_document};

use crate::raw::{
    RawNetEntries, RawNetEntry, RawNetPeer, RawNetPeers, RawNetPort, RawNetworkPolicy,
};
use crate::selectors::joined;
use pol_data::{Items, Memory, Text};
use pol_json::{
    DocError, Part, items_at, list_at, network_name, network_namespace, network_spec, part_at,
    present,
};
use pol_ports::Direction;
use pol_rule::PolicyKey;
use serde_json::Value;
use std::alloc::Global;

/// What stands in front of the name of a NetworkPolicy in its key.
const NAME_FRONT: &str = "networkpolicy/";

fn number_at(value: &Value, name: &str) -> Option<u64>
    ensures { result ≡ number_at name.now (view value.now) }
{
    present(value, name).and_then(Value::as_u64)
}

impl Part for RawNetPort {
    ghost gives = { raw_port_of };

    fn build(alloc: Global, value: &Value) -> Result<RawNetPort, Memory> {
        Ok(RawNetPort {
            port: number_at(value, "port"),
            protocol: part_at(alloc, value, "protocol")?,
            end_port: number_at(value, "endPort"),
        })
    }
}

impl Part for RawNetPeer {
    ghost gives = { raw_peer_of };

    fn build(alloc: Global, value: &Value) -> Result<RawNetPeer, Memory> {
        Ok(RawNetPeer {
            pods: part_at(alloc, value, "podSelector")?,
            namespaces: part_at(alloc, value, "namespaceSelector")?,
            block: part_at(alloc, value, "ipBlock")?,
        })
    }
}

fn peers_at(alloc: Global, dir: Direction, value: &Value) -> Result<RawNetPeers, Memory>
    ensures { IfOk result (λ peers. peers ≡ member_items raw_peer_of (peers_name dir) (view value.now)) }
{
    match dir {
        Direction::Ingress => items_at(alloc, value, "from"),
        Direction::Egress => items_at(alloc, value, "to"),
    }
}

fn build_entry(alloc: Global, dir: Direction, value: &Value) -> Result<RawNetEntry, Memory>
    ensures { IfOk result (λ entry. entry ≡ raw_entry_of dir (view value.now)) }
{
    Ok(RawNetEntry {
        peers: peers_at(alloc, dir, value)?,
        ports: items_at(alloc, value, "ports")?,
    })
}

fn build_entries(alloc: Global, dir: Direction, values: &[Value]) -> Result<RawNetEntries, Memory>
    ensures { IfOk result (λ entries. entries ≡ map (raw_entry_of dir) (map view values.now)) }
{
    let mut entries = Vec::with_capacity(alloc, values.len())?;
    for value in values {
        entries.push(build_entry(alloc, dir, value)?)?;
    }
    Ok(Items::from_vec(entries))
}

fn entries_at(
    alloc: Global,
    dir: Direction,
    value: &Value,
    name: &str,
) -> Result<RawNetEntries, Memory>
    ensures { IfOk result (λ entries. entries ≡ member_items (raw_entry_of dir) name.now (view value.now)) }
{
    match list_at(value, name) {
        None => Ok(Items::empty(alloc)),
        Some(values) => build_entries(alloc, dir, values),
    }
}

/// The key of the NetworkPolicy of this namespace and name: it is in that namespace, and its name there is
/// `networkpolicy/` followed by the name ('profile'). The one error is want of memory.
pub fn network_key(alloc: Global, namespace: &str, name: &str) -> Result<PolicyKey, Memory>
    ensures { IfOk result (λ key. key ≡ network_key namespace.now name.now) }
{
    Ok(PolicyKey {
        cluster_wide: false,
        namespace: Text::from_str(alloc, namespace)?,
        name: joined(alloc, NAME_FRONT, name)?,
    })
}

/// The object of this key and this spec.
fn raw_with(alloc: Global, key: PolicyKey, spec: &Value) -> Result<RawNetworkPolicy, Memory>
    ensures { IfOk result (λ raw. raw ≡ raw_with key (view spec.now)) }
{
    Ok(RawNetworkPolicy {
        key,
        subject: part_at(alloc, spec, "podSelector")?,
        types: items_at(alloc, spec, "policyTypes")?,
        ingress: entries_at(alloc, Direction::Ingress, spec, "ingress")?,
        egress: entries_at(alloc, Direction::Egress, spec, "egress")?,
    })
}

fn key_of(alloc: Global, value: &Value) -> Result<PolicyKey, Memory>
    ensures { IfOk result (λ key. key ≡ key_of (view value.now)) }
{
    network_key(alloc, network_namespace(value), network_name(value))
}

/// The object of a document, or the document's first fault.
pub(crate) fn read_object(alloc: Global, value: &Value) -> Result<RawNetworkPolicy, DocError>
    ensures exact { Gives doc_fault_of result (read_document (view value.now)) }
{
    let spec = network_spec(alloc, value)?;
    let key = key_of(alloc, value)?;
    Ok(raw_with(alloc, key, spec)?)
}
