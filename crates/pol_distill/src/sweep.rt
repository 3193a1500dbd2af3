//! The canonical map of raw entries: a sort, and one pass over what it gives.
ghost use Rattle.std.specs.Prelude.{◌≡◌, IfOk};
ghost use Rattle.std.specs.List.{AllByRecursion};
ghost use Rattle.std.specs.List.Sorted.{IsPermutation};
ghost use Rattle.pol_model.specs.PolicyMap.{canonical};
ghost use Rattle.pol_distill.specs.Passing.{Rises, begins_with, is_covered, last_deny};
ghost use Rattle.pol_distill.specs.Sorted.{IsSmall};

use pol_data::Memory;
use pol_mapkey::{KeyProto, Kind, MapKey};
use pol_ports::Direction;
use std::alloc::Global;

/// A number for each protocol of keys, in their order.
fn proto_place(proto: KeyProto) -> u64 {
    match proto {
        KeyProto::Every => 0,
        KeyProto::Tcp => 1,
        KeyProto::Udp => 2,
        KeyProto::Sctp => 3,
    }
}

/// A number for each entry. Where one entry comes before another, it has the lower number: by direction, identity, protocol,
/// first port, length and kind.
fn place(entry: &(MapKey, Kind)) -> u64 {
    let key = &entry.0;
    let root = u64::from(key.dir == Direction::Egress) << 32 | u64::from(key.id);
    let proto = root << 2 | proto_place(key.proto);
    let first = proto << 16 | u64::from(key.port.bits);
    let len = first << 5 | u64::from(key.port.len);
    len << 1 | u64::from(entry.1 == Kind::Deny)
}

/// The entries in the order of their keys, with denies last among those of one key. A first sort compares their places, in one
/// step each; the sort that compares keys field by field then finds them in order already. Where there is no memory
/// for the first, the second does it all.
fn in_order(raw: Vec<(MapKey, Kind)>) -> Vec<(MapKey, Kind)>
    ensures same { IsPermutation raw.items result.items }
    ensures rises { Rises result.items }
{
    let mut entries = raw;
    let _ = entries.sort_by_cached_key(|entry| place(entry));
    entries.sort_unstable();
    entries
}

/// Whether the first of the entries has the key.
fn begins_with(entries: &[(MapKey, Kind)], key: &MapKey) -> bool
    ensures { result ≡ begins_with key.now entries.now }
{
    match entries.first() {
        None => false,
        Some(entry) => entry.0 == *key,
    }
}

/// Whether the key lies strictly under the deny, if there is one.
fn is_covered(deny: Option<MapKey>, key: &MapKey) -> bool
    ensures { result ≡ is_covered deny key.now }
{
    match deny {
        None => false,
        Some(wide) => wide.strictly_covers(key),
    }
}

/// The last deny that was kept, once this entry is.
fn last_deny(deny: Option<MapKey>, entry: (MapKey, Kind)) -> Option<MapKey>
    ensures { result ≡ last_deny deny entry }
{
    match entry.1 {
        Kind::Allow => deny,
        Kind::Deny => Some(entry.0),
    }
}

/// The canonical map of entries in order: of each key the last entry, unless it lies strictly under a deny. In
/// this order all keys between a deny and one that it covers are covered too, so the last deny that was kept
/// decides.
fn swept(alloc: Global, entries: &[(MapKey, Kind)]) -> Result<Vec<(MapKey, Kind)>, Memory>
    requires rises { Rises entries.now }
    requires small { AllByRecursion IsSmall entries.now }
    ensures { IfOk result (λ table. table.items ≡ canonical entries.now) }
{
    let mut table = Vec::with_capacity(alloc, entries.len())?;
    let mut deny = None;
    for (i, entry) in entries.iter().enumerate() {
        let others = entries.split_at(i + 1).1;
        if !begins_with(others, &entry.0) && !is_covered(deny, &entry.0) {
            table.push(*entry)?;
            deny = last_deny(deny, *entry);
        }
    }
    Ok(table)
}

/// The canonical map of raw entries.
pub(crate) fn canonical(
    alloc: Global,
    raw: Vec<(MapKey, Kind)>,
) -> Result<Vec<(MapKey, Kind)>, Memory>
    requires { AllByRecursion IsSmall raw.items }
    ensures { IfOk result (λ table. table.items ≡ canonical raw.items) }
{
    let entries = in_order(raw);
    swept(alloc, entries.as_slice())
}
