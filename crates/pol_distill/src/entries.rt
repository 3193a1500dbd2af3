//! The raw entries of a map: what filters give with the sets of their peers.
ghost use Rattle.std.specs.Prelude.{◌≡◌, ◌++◌, IfOk, IsTrue, OnOk};
ghost use Rattle.std.specs.List.{flat_map};
ghost use Rattle.pol_mapkey.specs.declared.Kind.TheVariants.{Allow as allow, Deny as deny};
ghost use Rattle.pol_model.specs.PolicyMap.{direction_entries, entry_entries, peer_numbers, raw_entries};
ghost use Rattle.pol_sets.specs.Sets.{has_set, set_given};
ghost use Rattle.pol_filters.specs.FilterParts.{allowing, denying, entry_of, filter_parts};
ghost use Rattle.pol_distill.specs.RawKeys.{entries_for};
ghost use Rattle.pol_distill.specs.Sorted.{HaveSets, ListHasSets, PeersHaveSets};
ghost use Rattle.std.specs.List.{AllByRecursion};

use crate::ids::{push_identities, push_identity};
use crate::index::PeerSets;
use crate::keys::every_key;
use crate::ports::ports_keys;
use pol_data::Memory;
use pol_filters::{Filter, Filters};
use pol_mapkey::{Kind, MapKey};
use pol_model::{EVERY_IDENTITY, HOST_IDENTITY, selects_every_number};
use pol_ports::Direction;
use pol_rule::{Peer, Peers};
use std::alloc::Global;

/// Appends the entries of a listed peer.
fn push_peer(
    out: &mut Vec<(MapKey, Kind)>,
    keys: &[MapKey],
    kind: Kind,
    peer: &Peer,
    sets: &PeerSets<'_>,
) -> Result<(), Memory>
    requires { IsTrue (has_set sets.now peer.now) }
    ensures { OnOk result (out.new.items
        ≡ out.old.items ++ flat_map (entries_for kind keys.now) (peer_numbers (set_given sets.now) peer.now)) }
{
    if selects_every_number(peer) {
        push_identity(out, keys, kind, EVERY_IDENTITY)
    } else {
        push_identities(out, keys, kind, sets.set_of(peer))
    }
}

#[tactic(auto, using(crate::proofs::RawLists::more_peers))]
fn push_peers(
    out: &mut Vec<(MapKey, Kind)>,
    keys: &[MapKey],
    kind: Kind,
    peers: &[Peer],
    sets: &PeerSets<'_>,
) -> Result<(), Memory>
    requires { AllByRecursion (λ p. IsTrue (has_set sets.now p)) peers.now }
    ensures { OnOk result (out.new.items ≡ out.old.items
        ++ flat_map (entries_for kind keys.now) (flat_map (peer_numbers (set_given sets.now)) peers.now)) }
{
    for peer in peers {
        push_peer(out, keys, kind, peer, sets)?;
    }
    Ok(())
}

/// Appends the entries of a filter.
#[tactic(auto, using(crate::proofs::RawLists::filter_entries))]
fn push_filter(
    alloc: Global,
    out: &mut Vec<(MapKey, Kind)>,
    dir: Direction,
    kind: Kind,
    filter: &Filter,
    sets: &PeerSets<'_>,
) -> Result<(), Memory>
    requires { PeersHaveSets sets.now filter.now.peers }
    ensures { OnOk result (out.new.items
        ≡ out.old.items ++ entry_entries (set_given sets.now) dir kind (entry_of filter.now)) }
{
    let ports = filter.ports.as_slice();
    match &filter.peers {
        Peers::Every => {
            if ports.is_empty() {
                return Ok(());
            }
            let keys = ports_keys(alloc, dir, ports)?;
            push_identity(out, &keys, kind, EVERY_IDENTITY)
        }
        Peers::Listed(peers) => {
            let keys = ports_keys(alloc, dir, ports)?;
            push_peers(out, &keys, kind, peers.as_slice(), sets)
        }
    }
}

/// Appends the entries of the filters that allow.
fn push_allows(
    alloc: Global,
    out: &mut Vec<(MapKey, Kind)>,
    dir: Direction,
    filters: &[Filter],
    sets: &PeerSets<'_>,
) -> Result<(), Memory>
    requires { ListHasSets sets.now filters.now }
    ensures { OnOk result (out.new.items
        ≡ out.old.items ++ flat_map (entry_entries (set_given sets.now) dir allow) (allowing filters.now)) }
{
    for filter in filters {
        if !filter.deny {
            push_filter(alloc, out, dir, Kind::Allow, filter, sets)?;
        }
    }
    Ok(())
}

/// Appends the entries of the filters that deny.
fn push_denies(
    alloc: Global,
    out: &mut Vec<(MapKey, Kind)>,
    dir: Direction,
    filters: &[Filter],
    sets: &PeerSets<'_>,
) -> Result<(), Memory>
    requires { ListHasSets sets.now filters.now }
    ensures { OnOk result (out.new.items
        ≡ out.old.items ++ flat_map (entry_entries (set_given sets.now) dir deny) (denying filters.now)) }
{
    for filter in filters {
        if filter.deny {
            push_filter(alloc, out, dir, Kind::Deny, filter, sets)?;
        }
    }
    Ok(())
}

/// Appends the entries of what comes in.
fn push_ingress(
    alloc: Global,
    out: &mut Vec<(MapKey, Kind)>,
    filters: &Filters,
    sets: &PeerSets<'_>,
) -> Result<(), Memory>
    requires { ListHasSets sets.now filters.now.ingress }
    ensures { OnOk result (out.new.items
        ≡ out.old.items ++ direction_entries (set_given sets.now) (filter_parts filters.now) Direction.Ingress) }
{
    let list = filters.ingress.as_slice();
    push_allows(alloc, out, Direction::Ingress, list, sets)?;
    push_denies(alloc, out, Direction::Ingress, list, sets)?;
    if !filters.ingress_enforced {
        out.push((every_key(Direction::Ingress, EVERY_IDENTITY), Kind::Allow))?;
    }
    if filters.localhost {
        out.push((every_key(Direction::Ingress, HOST_IDENTITY), Kind::Allow))?;
    }
    Ok(())
}

/// Appends the entries of what goes out.
fn push_egress(
    alloc: Global,
    out: &mut Vec<(MapKey, Kind)>,
    filters: &Filters,
    sets: &PeerSets<'_>,
) -> Result<(), Memory>
    requires { ListHasSets sets.now filters.now.egress }
    ensures { OnOk result (out.new.items
        ≡ out.old.items ++ direction_entries (set_given sets.now) (filter_parts filters.now) Direction.Egress) }
{
    let list = filters.egress.as_slice();
    push_allows(alloc, out, Direction::Egress, list, sets)?;
    push_denies(alloc, out, Direction::Egress, list, sets)?;
    if !filters.egress_enforced {
        out.push((every_key(Direction::Egress, EVERY_IDENTITY), Kind::Allow))?;
    }
    Ok(())
}

/// All that filters put into a map.
pub(crate) fn raw_entries(
    alloc: Global,
    filters: &Filters,
    sets: &PeerSets<'_>,
) -> Result<Vec<(MapKey, Kind)>, Memory>
    requires { HaveSets sets.now filters.now }
    ensures { IfOk result (λ raw. raw.items ≡ raw_entries (set_given sets.now) (filter_parts filters.now)) }
{
    let mut out = Vec::new(alloc);
    if filters.never {
        out.push((every_key(Direction::Ingress, EVERY_IDENTITY), Kind::Allow))?;
        out.push((every_key(Direction::Egress, EVERY_IDENTITY), Kind::Allow))?;
    } else {
        push_ingress(alloc, &mut out, filters, sets)?;
        push_egress(alloc, &mut out, filters, sets)?;
    }
    Ok(out)
}
