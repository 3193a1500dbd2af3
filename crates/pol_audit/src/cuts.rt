//! The ports at which what a table says may change.
ghost use Rattle.std.specs.Prelude.{◌≡◌, List, ◌<◌, ◌≤◌, ◌+◌, ◌*◌, ℕ, ◌++◌, ◌∷◌, [], IfOk, OnOk, if◌then◌else◌, nat_lt, length};
ghost use Rattle.std.specs.List.{Contains, flat_map};
ghost use Rattle.std.specs.List.Sorted.{IsStrictlySortedBy};
ghost use Rattle.std.specs.Ordering.{nat_cmp};
ghost use Rattle.pol_mapkey.specs.KeyProto.{key_proto, proto_covers};
ghost use Rattle.pol_audit.specs.Cuts.{cuts_at, ends_of, all_cuts};

use crate::in_order::ports_in_order;
use pol_data::Memory;
use pol_mapkey::{KeyProto, Kind, MapKey};
use pol_ports::{PortPrefix, Proto};
use std::alloc::Global;

/// Appends the ports where the prefix begins and has just ended.
fn push_ends(cuts: &mut Vec<u16>, prefix: &PortPrefix) -> Result<(), Memory>
    ensures { OnOk result (cuts.new.items ≡ cuts.old.items ++ ends_of prefix.now) }
{
    cuts.push(prefix.bits)?;
    let end = prefix.end();
    if end < 65536 {
        cuts.push(end as u16)?;
    }
    Ok(())
}

/// Whether a key's protocol is for the packets of this one.
pub(crate) fn is_for(key: &MapKey, proto: Proto) -> bool
    ensures { result ≡ proto_covers key.now.proto (key_proto proto) }
{
    key.proto == KeyProto::Every || key.proto == KeyProto::from(proto)
}

/// Appends the ports where a prefix of an entry for the protocol begins or has just ended.
fn push_cuts(cuts: &mut Vec<u16>, entries: &[(MapKey, Kind)], proto: Proto) -> Result<(), Memory>
    ensures { OnOk result (cuts.new.items ≡ cuts.old.items ++ flat_map (cuts_at proto) entries.now) }
{
    for entry in entries {
        if is_for(&entry.0, proto) {
            push_ends(cuts, &entry.0.port)?;
        }
    }
    Ok(())
}

/// The entries of one number and of 0, of two tables.
#[derive(Clone, Copy)]
pub(crate) struct Parts<'a> {
    pub left: &'a [(MapKey, Kind)],
    pub right: &'a [(MapKey, Kind)],
    pub left_every: &'a [(MapKey, Kind)],
    pub right_every: &'a [(MapKey, Kind)],
}

/// 0 and the ports where a prefix of an entry for the protocol begins or has just ended, in order, each once.
pub(crate) fn cuts_of(alloc: Global, parts: &Parts, proto: Proto) -> Result<Vec<u16>, Memory>
    ensures ascend { IfOk result (λ cuts. IsStrictlySortedBy nat_cmp cuts.items) }
    ensures first { IfOk result (λ cuts. (rest : List ℕ) × (cuts.items ≡ 0 ∷ rest)) }
    ensures has { IfOk result (λ cuts. (port : ℕ) → Contains
        (all_cuts proto parts.now.left.now parts.now.right.now parts.now.left_every.now parts.now.right_every.now) port
        → Contains cuts.items port) }
    ensures few { IfOk result (λ cuts. length cuts.items ≤ 2 * (length parts.now.left.now + length
        parts.now.right.now + length parts.now.left_every.now + length parts.now.right_every.now) + 1) }
{
    let mut cuts = Vec::new(alloc);
    cuts.push(0)?;
    push_cuts(&mut cuts, parts.left, proto)?;
    push_cuts(&mut cuts, parts.right, proto)?;
    push_cuts(&mut cuts, parts.left_every, proto)?;
    push_cuts(&mut cuts, parts.right_every, proto)?;
    Ok(ports_in_order(cuts))
}
