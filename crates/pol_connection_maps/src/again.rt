//! Whether a map that was made before a change serves after it.
ghost use Rattle.std.specs.Prelude.{◌≡◌, IsTrue};
ghost use Rattle.std.specs.List.{AllByRecursion};
ghost use Rattle.pol_sets.specs.Sets.{set_given};
ghost use Rattle.pol_distill.specs.Distilled.{distilled};
ghost use Rattle.pol_filters.specs.FilterParts.{entry_of};
ghost use Rattle.pol_model_laws.specs.MapFacts.{AgreeOnPeers};
ghost use Rattle.pol_connection_maps.specs.Again.{AgreeOnFilters, GiveTheSame, GiveTheSameList, IsMadeOf, part_of};

use crate::number::NumberMap;
use crate::peer_rows::PeerRows;
use pol_filters::{Filter, Filters};
use pol_rule::{Peer, Peers, PortSpecs};

/// Whether both list the same peers.
fn same_peers(one: &Peers, other: &Peers) -> bool
    ensures { IsTrue result → one.now ≡ other.now }
{
    *one == *other
}

/// Whether both list the same ports.
fn same_ports(one: &PortSpecs, other: &PortSpecs) -> bool
    ensures { IsTrue result → one.now ≡ other.now }
{
    *one == *other
}

/// Whether both filters have the same entry.
fn same_entry(one: &Filter, other: &Filter) -> bool
    ensures { IsTrue result → entry_of one.now ≡ entry_of other.now }
{
    same_peers(&one.peers, &other.peers) && same_ports(&one.ports, &other.ports)
}

/// Whether both filters give a map the same.
#[tactic(auto, using(crate::proofs::Serving::same_part))]
fn is_same_filter(one: &Filter, other: &Filter) -> bool
    ensures { IsTrue result → part_of one.now ≡ part_of other.now }
{
    one.deny == other.deny && same_entry(one, other)
}

/// Whether both lists of filters give a map the same.
#[tactic(auto, using(crate::proofs::Serving::part_turn, crate::proofs::Serving::part_whole))]
fn are_same_filters(one: &[Filter], other: &[Filter]) -> bool
    ensures { IsTrue result → GiveTheSameList one.now other.now }
{
    if one.len() != other.len() {
        return false;
    }
    for i in 0..one.len() {
        if !is_same_filter(&one[i], &other[i]) {
            return false;
        }
    }
    true
}

/// Whether the filters give a map the same.
fn give_the_same(one: &Filters, other: &Filters) -> bool
    ensures { IsTrue result → GiveTheSame one.now other.now }
{
    one.never == other.never
        && one.ingress_enforced == other.ingress_enforced
        && one.egress_enforced == other.egress_enforced
        && one.localhost == other.localhost
        && are_same_filters(one.ingress.as_slice(), other.ingress.as_slice())
        && are_same_filters(one.egress.as_slice(), other.egress.as_slice())
}

/// Whether the peer selects the same numbers before a change and after it.
fn selects_the_same(peer: &Peer, before: &PeerRows<'_>, after: &PeerRows<'_>) -> bool
    ensures { IsTrue result → set_given before.now peer.now ≡ set_given after.now peer.now }
{
    match (before.get(peer), after.get(peer)) {
        (Some(one), Some(other)) => *one.set == *other.set,
        _ => false,
    }
}

/// Whether each of the peers does.
#[tactic(auto, using(crate::proofs::Serving::peer_turn, crate::proofs::Serving::peer_whole))]
fn all_select_the_same(peers: &[Peer], before: &PeerRows<'_>, after: &PeerRows<'_>) -> bool
    ensures { IsTrue result → AllByRecursion (λ p. set_given before.now p ≡ set_given after.now p) peers.now }
{
    for peer in peers {
        if !selects_the_same(peer, before, after) {
            return false;
        }
    }
    true
}

/// Whether each peer that is listed does.
fn listed_select_the_same(peers: &Peers, before: &PeerRows<'_>, after: &PeerRows<'_>) -> bool
    ensures { IsTrue result → AgreeOnPeers (set_given before.now) (set_given after.now) peers.now }
{
    match peers {
        Peers::Every => true,
        Peers::Listed(list) => all_select_the_same(list.as_slice(), before, after),
    }
}

/// Whether each peer that the filters list does.
#[tactic(auto, using(crate::proofs::Serving::filter_turn, crate::proofs::Serving::filter_whole))]
fn filters_select_the_same(filters: &[Filter], before: &PeerRows<'_>, after: &PeerRows<'_>) -> bool
    ensures { IsTrue result → AgreeOnFilters before.now after.now filters.now }
{
    for filter in filters {
        if !listed_select_the_same(&filter.peers, before, after) {
            return false;
        }
    }
    true
}

/// Whether each peer that the filters of either direction list does.
fn both_select_the_same(filters: &Filters, before: &PeerRows<'_>, after: &PeerRows<'_>) -> bool
    ensures { IsTrue result → AgreeOnFilters before.now after.now filters.now.ingress
        × AgreeOnFilters before.now after.now filters.now.egress }
{
    filters_select_the_same(filters.ingress.as_slice(), before, after)
        && filters_select_the_same(filters.egress.as_slice(), before, after)
}

/// Whether a map that was made before the change is that of these filters after it: its filters give the same, and their
/// peers select the same numbers.
pub(crate) fn serves_again(
    own: &NumberMap,
    before: &PeerRows<'_>,
    filters: &Filters,
    after: &PeerRows<'_>,
) -> bool
    ensures { IsTrue result → IsMadeOf before.now own.now → own.now.entries ≡ distilled filters.now after.now }
{
    let old = own.filters();
    give_the_same(old, filters) && both_select_the_same(old, before, after)
}
