//! The entries of one identity, made with no list of keys before.
ghost use Rattle.std.specs.Prelude.{◌≡◌, ◌++◌, ◌∷◌, [], OnOk, map};
ghost use Rattle.std.specs.List.{flat_map};
ghost use Rattle.pol_model.specs.PolicyMap.{ports_keys, protos_of};
ghost use Rattle.pol_ports.specs.Split.{split_of};
ghost use Rattle.pol_distill.specs.RawKeys.{entries_for};
ghost use Rattle.pol_entry_changes.specs.OneId.{part_entry, spec_entries};

use pol_data::Memory;
use pol_distill::{every_key, port_key};
use pol_mapkey::{Kind, MapKey};
use pol_ports::{Direction, PortPrefix, PortRange, Proto, split};
use pol_rule::PortSpec;
use std::alloc::Global;
use std::slice;

/// Appends the entry of each of these prefixes for a protocol.
fn push_parts(
    out: &mut Vec<(MapKey, Kind)>,
    dir: Direction,
    kind: Kind,
    id: u32,
    proto: Proto,
    parts: &[PortPrefix],
) -> Result<(), Memory>
    ensures { OnOk result (out.new.items ≡ out.old.items ++ map (part_entry dir kind id proto) parts.now) }
{
    for part in parts {
        out.push((port_key(dir, id, proto, *part), kind))?;
    }
    Ok(())
}

/// Appends the entries of these prefixes for a protocol, or for each of the three where none is named.
fn push_protos(
    out: &mut Vec<(MapKey, Kind)>,
    dir: Direction,
    kind: Kind,
    id: u32,
    proto: Option<Proto>,
    parts: &[PortPrefix],
) -> Result<(), Memory>
    ensures { OnOk result (out.new.items ≡ out.old.items ++ flat_map (λ own.
        map (part_entry dir kind id own) parts.now) (protos_of proto)) }
{
    match proto {
        Some(proto) => push_parts(out, dir, kind, id, proto, parts),
        None => {
            push_parts(out, dir, kind, id, Proto::Tcp, parts)?;
            push_parts(out, dir, kind, id, Proto::Udp, parts)?;
            push_parts(out, dir, kind, id, Proto::Sctp, parts)
        }
    }
}

/// The prefix of one port.
fn one_port(port: u16) -> PortPrefix
    ensures bits { result.bits ≡ port }
    ensures len { result.len ≡ 16 }
{
    PortPrefix {
        bits: port,
        len: 16,
    }
}

/// The one prefix of a range of one port.
fn one_part(range: PortRange) -> PortPrefix
    requires one { range.first ≡ range.last }
    ensures { split_of range ≡ result ∷ [] }
{
    one_port(range.first)
}

/// Appends the entries of a port. One port takes no memory but the list's.
fn push_spec(
    alloc: Global,
    out: &mut Vec<(MapKey, Kind)>,
    dir: Direction,
    kind: Kind,
    id: u32,
    spec: &PortSpec,
) -> Result<(), Memory>
    ensures { OnOk result (out.new.items ≡ out.old.items ++ spec_entries dir kind id spec.now) }
{
    if spec.range.first == spec.range.last {
        let part = one_part(spec.range);
        push_protos(out, dir, kind, id, spec.proto, slice::from_ref(&part))
    } else {
        let parts = split(alloc, spec.range)?;
        push_protos(out, dir, kind, id, spec.proto, &parts)
    }
}

fn push_specs(
    alloc: Global,
    out: &mut Vec<(MapKey, Kind)>,
    dir: Direction,
    kind: Kind,
    id: u32,
    specs: &[PortSpec],
) -> Result<(), Memory>
    ensures { OnOk result (out.new.items ≡ out.old.items ++ flat_map (spec_entries dir kind id) specs.now) }
{
    for spec in specs {
        push_spec(alloc, out, dir, kind, id, spec)?;
    }
    Ok(())
}

/// Appends the entries of an identity for a filter's ports.
#[tactic(auto, using(crate::proofs::OneId::id_entries))]
pub(crate) fn push_id(
    alloc: Global,
    out: &mut Vec<(MapKey, Kind)>,
    dir: Direction,
    kind: Kind,
    id: u32,
    ports: &[PortSpec],
) -> Result<(), Memory>
    ensures { OnOk result (out.new.items ≡ out.old.items ++ entries_for kind (ports_keys dir 0 ports.now) id) }
{
    if ports.is_empty() {
        out.push((every_key(dir, id), kind))?;
        Ok(())
    } else {
        push_specs(alloc, out, dir, kind, id, ports)
    }
}
