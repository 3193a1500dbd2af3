//! The sets of the peers that filters list.
ghost use Rattle.std.specs.Prelude.{◌≡◌, ◌++◌, ◌∷◌, [], List, Some, IfOk, IsSome, OnOk, map};
ghost use Rattle.std.specs.List.{AllByRecursion};
ghost use Rattle.pol_rule.specs.declared.policy.Peer.{Peer as OnePeer};
ghost use Rattle.pol_selcache.specs.Live.{number_of};
ghost use Rattle.pol_taken.specs.PeerRows.{AreRowsFor, AreSetsFor, IsLiveRow, filter_peers};

use crate::listed::listed_peers;
use crate::rows::Rows;
use pol_data::Memory;
use pol_filters::Filters;
use pol_rule::Peer;
use pol_selcache::SelectorCache;
use pol_sets::{SetRow, Sets, SharedPeer};
use std::alloc::Global;

/// The row of a peer with this live selector.
fn row_of(
    alloc: Global,
    cache: &SelectorCache,
    peer: &Peer,
    selector: u64,
) -> Result<SetRow, Memory>
    requires selector { number_of peer.now cache.now.live ≡ Some selector }
    ensures peer { IfOk result (λ row. row.peer ≡ peer.now) }
    ensures selector { IfOk result (λ row. row.selector ≡ selector) }
    ensures live { IfOk result (IsLiveRow cache.now.live) }
{
    let set = cache.set_at_now(selector)?;
    let peer = SharedPeer::new(alloc, peer.copy(alloc)?)?;
    Ok(SetRow {
        peer,
        selector,
        set,
    })
}

/// A row for the peer, unless an equal one has its own.
fn add_peer(
    alloc: Global,
    cache: &SelectorCache,
    peer: &Peer,
    rows: &mut Rows,
) -> Result<(), Memory>
    requires live { IsSome (number_of peer.now cache.now.live) }
    ensures added { OnOk result ((listed : List OnePeer)
        → AreRowsFor cache.now.live listed rows.old → AreRowsFor cache.now.live (listed ++ peer.now ∷ []) rows.new) }
{
    let selector = match cache.selector_of(peer) {
        Some(selector) => selector,
        None => unreachable!(),
    };
    if rows.has(selector) {
        return Ok(());
    }
    rows.push(row_of(alloc, cache, peer, selector)?)
}

/// A row for each of the peers that differ.
fn rows_for(alloc: Global, cache: &SelectorCache, peers: &[&Peer]) -> Result<Rows, Memory>
    requires live { AllByRecursion (λ p. IsSome (number_of p cache.now.live)) (map (λ p. p.now) peers.now) }
    ensures rows { IfOk result (AreRowsFor cache.now.live (map (λ p. p.now) peers.now)) }
{
    let mut rows = Rows::new(alloc);
    for peer in peers {
        add_peer(alloc, cache, peer, &mut rows)?;
    }
    Ok(rows)
}

/// One row for each distinct peer that the filters list: the peer, the number of its selector, and its set, which is shared
/// and not copied (Cilium, "Selector cache"). The one error is want of memory.
pub fn sets_of(alloc: Global, cache: &SelectorCache, filters: &Filters) -> Result<Sets, Memory>
    requires live { AllByRecursion (λ p. IsSome (number_of p cache.now.live)) (filter_peers filters.now) }
    ensures sets { IfOk result (AreSetsFor cache.now.live filters.now) }
{
    cache.fits_together();
    let peers = listed_peers(alloc, filters)?;
    let rows = rows_for(alloc, cache, &peers)?;
    let sets = rows.into_sets(alloc)?;
    Ok(sets)
}
