//! The keys that ports give.
ghost use Rattle.std.specs.Prelude.{◌≡◌, ◌++◌, IfOk, OnOk, map};
ghost use Rattle.std.specs.List.{flat_map};
ghost use Rattle.pol_mapkey.specs.MapKey.{port_key};
ghost use Rattle.pol_model.specs.PolicyMap.{ports_keys, protos_of, spec_keys};

use crate::keys::{every_key, port_key};
use pol_data::Memory;
use pol_mapkey::MapKey;
use pol_model::EVERY_IDENTITY;
use pol_ports::{Direction, PortPrefix, Proto, split};
use pol_rule::PortSpec;
use std::alloc::Global;

fn push_parts(
    out: &mut Vec<MapKey>,
    dir: Direction,
    proto: Proto,
    parts: &[PortPrefix],
) -> Result<(), Memory>
    ensures { OnOk result (out.new.items ≡ out.old.items ++ map (port_key dir 0 proto) parts.now) }
{
    for part in parts {
        out.push(port_key(dir, EVERY_IDENTITY, proto, *part))?;
    }
    Ok(())
}

/// Appends the keys of these prefixes for a protocol, or for each of the three where none is named.
fn push_protos(
    out: &mut Vec<MapKey>,
    dir: Direction,
    proto: Option<Proto>,
    parts: &[PortPrefix],
) -> Result<(), Memory>
    ensures { OnOk result (out.new.items ≡ out.old.items ++ flat_map (λ own.
        map (port_key dir 0 own) parts.now) (protos_of proto)) }
{
    match proto {
        Some(proto) => push_parts(out, dir, proto, parts),
        None => {
            push_parts(out, dir, Proto::Tcp, parts)?;
            push_parts(out, dir, Proto::Udp, parts)?;
            push_parts(out, dir, Proto::Sctp, parts)
        }
    }
}

/// Appends the keys of a port, for every identity.
fn push_spec(
    alloc: Global,
    out: &mut Vec<MapKey>,
    dir: Direction,
    spec: &PortSpec,
) -> Result<(), Memory>
    ensures { OnOk result (out.new.items ≡ out.old.items ++ spec_keys dir 0 spec.now) }
{
    let parts = split(alloc, spec.range)?;
    push_protos(out, dir, spec.proto, &parts)
}

fn push_specs(
    alloc: Global,
    out: &mut Vec<MapKey>,
    dir: Direction,
    specs: &[PortSpec],
) -> Result<(), Memory>
    ensures { OnOk result (out.new.items ≡ out.old.items ++ flat_map (spec_keys dir 0) specs.now) }
{
    for spec in specs {
        push_spec(alloc, out, dir, spec)?;
    }
    Ok(())
}

/// The keys of a filter's ports, for every identity: where no port is named, the one of every protocol and port. The one error
/// is want of memory.
#[tactic(auto, using(crate::proofs::RawLists::keys_or_every))]
pub fn ports_keys(alloc: Global, dir: Direction, ports: &[PortSpec]) -> Result<Vec<MapKey>, Memory>
    ensures { IfOk result (λ keys. keys.items ≡ ports_keys dir 0 ports.now) }
{
    let mut keys = Vec::new(alloc);
    if ports.is_empty() {
        keys.push(every_key(dir, EVERY_IDENTITY))?;
    } else {
        push_specs(alloc, &mut keys, dir, ports)?;
    }
    Ok(keys)
}
