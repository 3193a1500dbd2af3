//! From filters and the sets of their peers to the table of a map.
ghost use Rattle.std.specs.Prelude.{◌≡◌, ◌↔◌, IfOk, IsTrue};
ghost use Rattle.pol_sets.specs.Sets.{has_set};
ghost use Rattle.pol_distill.specs.Distilled.{distilled};
ghost use Rattle.pol_distill.specs.Sorted.{HaveSets, ListHasSets, PeersHaveSets};

use crate::entries::raw_entries;
use crate::index::PeerSets;
use crate::sweep::canonical;
use crate::table::MapTable;
use pol_data::Memory;
use pol_filters::{Filter, Filters};
use pol_rule::{Peer, Peers};
use pol_sets::{SetRow, Sets};
use std::alloc::Global;

/// The canonical map of the filters, where each peer selects what its row of the sets says (profile). The one
/// error is want of memory.
pub fn distill(alloc: Global, filters: &Filters, sets: &Sets) -> Result<MapTable, Memory>
    requires sets { HaveSets sets.now filters.now }
    ensures canonical { IfOk result (λ table. table ≡ distilled filters.now sets.now) }
{
    let index = PeerSets::new(alloc, sets.as_slice())?;
    let raw = raw_entries(alloc, filters, &index)?;
    Ok(MapTable::new(canonical(alloc, raw)?))
}

/// Whether each peer that the filters list has its row, by a scan of the rows for each.
pub fn have_sets(filters: &Filters, sets: &Sets) -> bool
    ensures { IsTrue result ↔ HaveSets sets.now filters.now }
{
    list_has_sets(filters.ingress.as_slice(), sets.as_slice())
        && list_has_sets(filters.egress.as_slice(), sets.as_slice())
}

fn list_has_sets(filters: &[Filter], rows: &[SetRow]) -> bool
    ensures { IsTrue result ↔ ListHasSets rows.now filters.now }
{
    filters
        .iter()
        .all(|filter| peers_have_sets(&filter.peers, rows))
}

fn peers_have_sets(peers: &Peers, rows: &[SetRow]) -> bool
    ensures { IsTrue result ↔ PeersHaveSets rows.now peers.now }
{
    match peers {
        Peers::Every => true,
        Peers::Listed(list) => list.as_slice().iter().all(|peer| has_set(peer, rows)),
    }
}

fn has_set(peer: &Peer, rows: &[SetRow]) -> bool
    ensures { result ≡ has_set rows.now peer.now }
{
    rows.iter().any(|row| *row.peer.peer() == *peer)
}
