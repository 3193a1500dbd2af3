//! Building the entries of a section, by direction.
ghost use Rattle.std.specs.Prelude.{◌≡◌, map, IfOk};
ghost use Rattle.serde_json.specs.View.{view};
ghost use Rattle.pol_json.specs.Build.{cidr_set_of, port_of, port_item_of, by_direction, entry_of, member_items, items_if_there as if_there};

use crate::members::{list_at, present};
use crate::part::{Part, items_at, items_if_there, member_text};
use pol_data::{Items, Memory};
use pol_ports::Direction;
use pol_rule::{RawCidrSet, RawEntries, RawEntry, RawPort, RawPortItem};
use serde_json::Value;
use std::alloc::Global;

impl Part for RawCidrSet {
    ghost gives = { cidr_set_of };

    fn build(alloc: Global, value: &Value) -> Result<RawCidrSet, Memory> {
        Ok(RawCidrSet {
            cidr: member_text(alloc, value, "cidr")?,
            except: items_at(alloc, value, "except")?,
        })
    }
}

impl Part for RawPort {
    ghost gives = { port_of };

    fn build(alloc: Global, value: &Value) -> Result<RawPort, Memory> {
        Ok(RawPort {
            port: member_text(alloc, value, "port")?,
            protocol: member_text(alloc, value, "protocol")?,
            end_port: present(value, "endPort").and_then(Value::as_u64),
        })
    }
}

impl Part for RawPortItem {
    ghost gives = { port_item_of };

    fn build(alloc: Global, value: &Value) -> Result<RawPortItem, Memory> {
        Ok(RawPortItem {
            ports: items_at(alloc, value, "ports")?,
        })
    }
}

/// The peers of one kind; the first name is that of `ingress`.
fn peers_at<T: Part + Drop>(
    alloc: Global,
    dir: Direction,
    value: &Value,
    from: &str,
    to: &str,
) -> Result<Option<Items<T>>, Memory>
    ensures { IfOk result (λ peers. peers
        ≡ if_there T.gives (by_direction dir from.now to.now) (view value.now)) }
{
    match dir {
        Direction::Ingress => items_if_there(alloc, value, from),
        Direction::Egress => items_if_there(alloc, value, to),
    }
}

fn build_entry(alloc: Global, dir: Direction, value: &Value) -> Result<RawEntry, Memory>
    ensures { IfOk result (λ entry. entry ≡ entry_of dir (view value.now)) }
{
    Ok(RawEntry {
        endpoints: peers_at(alloc, dir, value, "fromEndpoints", "toEndpoints")?,
        cidrs: peers_at(alloc, dir, value, "fromCIDR", "toCIDR")?,
        cidr_sets: peers_at(alloc, dir, value, "fromCIDRSet", "toCIDRSet")?,
        entities: peers_at(alloc, dir, value, "fromEntities", "toEntities")?,
        ports: items_at(alloc, value, "toPorts")?,
    })
}

fn build_entries(alloc: Global, dir: Direction, values: &[Value]) -> Result<RawEntries, Memory>
    ensures { IfOk result (λ entries. entries ≡ map (entry_of dir) (map view values.now)) }
{
    let mut entries = Vec::with_capacity(alloc, values.len())?;
    for value in values {
        entries.push(build_entry(alloc, dir, value)?)?;
    }
    Ok(Items::from_vec(entries))
}

/// The entries of a section; none where the section is absent.
pub(crate) fn entries_at(
    alloc: Global,
    dir: Direction,
    value: &Value,
    name: &str,
) -> Result<RawEntries, Memory>
    ensures { IfOk result (λ entries. entries ≡ member_items (entry_of dir) name.now (view value.now)) }
{
    match list_at(value, name) {
        None => Ok(Items::from_vec(Vec::new(alloc))),
        Some(values) => build_entries(alloc, dir, values),
    }
}
