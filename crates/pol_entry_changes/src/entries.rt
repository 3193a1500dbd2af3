//! The entries that filters give with the sets of their peers.
ghost use Rattle.std.specs.Prelude.{◌≡◌, ◌++◌, ℕ, IfOk, OnOk};
ghost use Rattle.std.specs.List.{flat_map};
ghost use Rattle.pol_mapkey.specs.declared.Kind.{Kind as OneKind};
ghost use Rattle.pol_mapkey.specs.declared.MapKey.{MapKey as OneKey};
ghost use Rattle.pol_model.specs.PolicyMap.{entry_entries, peer_numbers};
ghost use Rattle.pol_sets.specs.Sets.{set_given};
ghost use Rattle.pol_filters.specs.FilterParts.{entry_of};
ghost use Rattle.pol_distill.specs.RawKeys.{entries_for};
ghost use Rattle.pol_entry_tally.specs.Times.{times};
ghost use Rattle.pol_entry_changes.specs.Given.{all_given, entry_where, given_by, kind_of, of_filters, of_no_filter, raw_of};

use crate::rows::PeerRows;
use pol_data::Memory;
use pol_distill::{every_key, ports_keys, push_identities, push_identity};
use pol_filters::{Filter, Filters};
use pol_mapkey::{Kind, MapKey};
use pol_model::{EVERY_IDENTITY, HOST_IDENTITY, selects_every_number};
use pol_ports::Direction;
use pol_rule::{Peer, Peers};
use pol_sets::{IdSet, SetRow};
use std::alloc::Global;

/// The kind of a filter's entries.
pub(crate) fn kind_of(one: &Filter) -> Kind
    ensures { result ≡ kind_of one.now }
{
    if one.deny { Kind::Deny } else { Kind::Allow }
}

/// Appends the entries of a set's numbers, where the rows leave room for them.
fn push_set(
    out: &mut Vec<(MapKey, Kind)>,
    keys: &[MapKey],
    kind: Kind,
    set: &IdSet,
    rows: &PeerRows<'_>,
) -> Result<(), Memory>
    ensures { OnOk result (out.new.items ≡ out.old.items ++ flat_map (entries_for kind keys.now) set.now) }
{
    if !rows.leave_room(out.len(), keys.len(), set.len()) {
        return Err(Memory);
    }
    push_identities(out, keys, kind, set)
}

/// Appends the entries of a listed peer.
fn push_peer(
    out: &mut Vec<(MapKey, Kind)>,
    keys: &[MapKey],
    kind: Kind,
    peer: &Peer,
    rows: &PeerRows<'_>,
) -> Result<(), Memory>
    ensures { OnOk result (out.new.items
        ≡ out.old.items ++ flat_map (entries_for kind keys.now) (peer_numbers (set_given rows.now) peer.now)) }
{
    if selects_every_number(peer) {
        push_identity(out, keys, kind, EVERY_IDENTITY)
    } else {
        match rows.row_of(peer) {
            Some(found) => push_set(out, keys, kind, &found.row.set, rows),
            None => Ok(()),
        }
    }
}

#[tactic(auto, using(pol_distill::proofs::RawLists::more_peers))]
fn push_peers(
    out: &mut Vec<(MapKey, Kind)>,
    keys: &[MapKey],
    kind: Kind,
    peers: &[Peer],
    rows: &PeerRows<'_>,
) -> Result<(), Memory>
    ensures { OnOk result (out.new.items ≡ out.old.items
        ++ flat_map (entries_for kind keys.now) (flat_map (peer_numbers (set_given rows.now)) peers.now)) }
{
    for peer in peers {
        push_peer(out, keys, kind, peer, rows)?;
    }
    Ok(())
}

/// Appends the entries of a filter, as those of this kind.
#[tactic(auto, using(pol_distill::proofs::RawLists::filter_entries))]
fn push_kind(
    alloc: Global,
    out: &mut Vec<(MapKey, Kind)>,
    dir: Direction,
    kind: Kind,
    filter: &Filter,
    rows: &PeerRows<'_>,
) -> Result<(), Memory>
    ensures { OnOk result (out.new.items
        ≡ out.old.items ++ entry_entries (set_given rows.now) dir kind (entry_of filter.now)) }
{
    let ports = filter.ports.as_slice();
    match &filter.peers {
        Peers::Every => {
            if ports.is_empty() {
                return Ok(());
            }
            let keys = ports_keys(alloc, dir, ports)?;
            push_identity(out, &keys, kind, EVERY_IDENTITY)
        }
        Peers::Listed(peers) => {
            let keys = ports_keys(alloc, dir, ports)?;
            push_peers(out, &keys, kind, peers.as_slice(), rows)
        }
    }
}

/// Appends the entries of a filter.
pub(crate) fn push_filter(
    alloc: Global,
    out: &mut Vec<(MapKey, Kind)>,
    dir: Direction,
    one: &Filter,
    rows: &PeerRows<'_>,
) -> Result<(), Memory>
    ensures { OnOk result (out.new.items ≡ out.old.items ++ given_by (set_given rows.now) dir one.now) }
{
    push_kind(alloc, out, dir, kind_of(one), one, rows)
}

/// Appends the entries of filters.
pub(crate) fn push_filters(
    alloc: Global,
    out: &mut Vec<(MapKey, Kind)>,
    dir: Direction,
    filters: &[Filter],
    rows: &PeerRows<'_>,
) -> Result<(), Memory>
    ensures { OnOk result (out.new.items ≡ out.old.items ++ flat_map (given_by (set_given rows.now) dir) filters.now) }
{
    for one in filters {
        push_filter(alloc, out, dir, one, rows)?;
    }
    Ok(())
}

/// Appends the allow of every key of an identity, where this is so.
fn push_where(out: &mut Vec<(MapKey, Kind)>, so: bool, key: MapKey) -> Result<(), Memory>
    ensures { OnOk result (out.new.items ≡ out.old.items ++ entry_where so (key, OneKind.Allow)) }
{
    if so {
        out.push((key, Kind::Allow))?;
    }
    Ok(())
}

/// Appends the entries that no filter gives.
fn push_others(out: &mut Vec<(MapKey, Kind)>, filters: &Filters) -> Result<(), Memory>
    ensures { OnOk result (out.new.items ≡ out.old.items ++ of_no_filter filters.now) }
{
    push_where(
        out,
        !filters.ingress_enforced,
        every_key(Direction::Ingress, EVERY_IDENTITY),
    )?;
    push_where(
        out,
        filters.localhost,
        every_key(Direction::Ingress, HOST_IDENTITY),
    )?;
    push_where(
        out,
        !filters.egress_enforced,
        every_key(Direction::Egress, EVERY_IDENTITY),
    )
}

/// Appends the entries of all filters.
fn push_all(
    alloc: Global,
    out: &mut Vec<(MapKey, Kind)>,
    filters: &Filters,
    rows: &PeerRows<'_>,
) -> Result<(), Memory>
    ensures { OnOk result (out.new.items ≡ out.old.items ++ of_filters (set_given rows.now) filters.now) }
{
    push_filters(
        alloc,
        out,
        Direction::Ingress,
        filters.ingress.as_slice(),
        rows,
    )?;
    push_filters(
        alloc,
        out,
        Direction::Egress,
        filters.egress.as_slice(),
        rows,
    )
}

/// All that filters put into a map, filter by filter.
fn all_given(
    alloc: Global,
    filters: &Filters,
    rows: &PeerRows<'_>,
) -> Result<Vec<(MapKey, Kind)>, Memory>
    ensures { IfOk result (λ raw. raw.items ≡ all_given (set_given rows.now) filters.now) }
{
    let mut out = Vec::new(alloc);
    if filters.never {
        out.push((every_key(Direction::Ingress, EVERY_IDENTITY), Kind::Allow))?;
        out.push((every_key(Direction::Egress, EVERY_IDENTITY), Kind::Allow))?;
    } else {
        push_all(alloc, &mut out, filters, rows)?;
        push_others(&mut out, filters)?;
    }
    Ok(out)
}

/// All that filters put into a map, where each peer selects what its row says: each entry as often as the definition of the
/// map has it. The errors are want of memory, and that there are more than so many.
#[tactic(auto, using(crate::proofs::Raw::raw_times))]
pub(crate) fn given_within(
    alloc: Global,
    filters: &Filters,
    rows: &[SetRow],
    most: usize,
) -> Result<Vec<(MapKey, Kind)>, Memory>
    ensures { IfOk result (λ raw.
        (q : OneKey) (k : OneKind) → times raw.items q k ≡ times (raw_of filters.now rows.now) q k) }
{
    let index = PeerRows::new(alloc, rows, &[], true, most)?;
    all_given(alloc, filters, &index)
}

/// All that filters put into a map, where each peer selects what its row says: each entry as often as the definition of the
/// map has it. The one error is want of memory.
pub fn given(
    alloc: Global,
    filters: &Filters,
    rows: &[SetRow],
) -> Result<Vec<(MapKey, Kind)>, Memory>
    ensures { IfOk result (λ raw.
        (q : OneKey) (k : OneKind) → times raw.items q k ≡ times (raw_of filters.now rows.now) q k) }
{
    given_within(alloc, filters, rows, usize::MAX)
}
