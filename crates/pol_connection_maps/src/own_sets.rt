//! The sets of the peers that one subject's filters list.
ghost use Rattle.std.specs.Prelude.{◌≡◌, ◌++◌, IfOk, IsTrue, List, OnOk, Some, map};
ghost use Rattle.std.specs.Arc.{arc_value};
ghost use Rattle.std.specs.List.{AllByRecursion};
ghost use Rattle.pol_model.specs.declared.row.IdentityRow.{IdentityRow as OneRow};
ghost use Rattle.pol_rule.specs.Listed.{peers_in};
ghost use Rattle.pol_sets.specs.Sets.{has_set};
ghost use Rattle.pol_connection_maps.specs.PeerRows.{filters_peers, first_row, list_peers};
ghost use Rattle.pol_connection_maps.specs.Sets.{AreExact, AreSetsOf};

use crate::peer_rows::PeerRows;
use pol_data::Memory;
use pol_filters::{Filter, Filters};
use pol_rule::{Peer, Peers};
use pol_sets::{SetRow, Sets};
use std::alloc::Global;
use std::sync::Arc;

/// Appends the peers that are listed.
fn push_listed<'a>(out: &mut Vec<&'a Peer>, peers: &'a Peers) -> Result<(), Memory>
    ensures { OnOk result (map (λ p. p.now) out.new.items ≡ map (λ p. p.now) out.old.items ++ peers_in peers.now) }
{
    if let Peers::Listed(list) = peers {
        for peer in list.as_slice() {
            out.push(peer)?;
        }
    }
    Ok(())
}

/// Appends the peers that the filters list.
fn push_peers<'a>(out: &mut Vec<&'a Peer>, filters: &'a [Filter]) -> Result<(), Memory>
    ensures { OnOk result (map (λ p. p.now) out.new.items ≡ map (λ p. p.now) out.old.items ++ list_peers filters.now) }
{
    for filter in filters {
        push_listed(out, &filter.peers)?;
    }
    Ok(())
}

/// The peers that the filters list, each as often as it stands there.
fn filters_peers(alloc: Global, filters: &Filters) -> Result<Vec<&Peer>, Memory>
    ensures { IfOk result (λ listed. map (λ p. p.now) listed.items ≡ filters_peers filters.now) }
{
    let mut listed = Vec::new(alloc);
    push_peers(&mut listed, filters.ingress.as_slice())?;
    push_peers(&mut listed, filters.egress.as_slice())?;
    Ok(listed)
}

/// The first row of the peer.
fn row_of<'a>(sets: &PeerRows<'a>, peer: &Peer) -> &'a SetRow
    requires { IsTrue (has_set sets.now peer.now) }
    ensures { Some result.now ≡ first_row sets.now peer.now }
{
    match sets.get(peer) {
        Some(row) => row,
        None => unreachable!(),
    }
}

/// The same row once more, whose parts are shared.
fn share_of(row: &SetRow) -> Result<SetRow, Memory>
    ensures peer { IfOk result (λ shared. shared.peer ≡ row.now.peer) }
    ensures set { IfOk result (λ shared. arc_value shared.set ≡ arc_value row.now.set) }
{
    Ok(SetRow {
        peer: row.peer.share()?,
        selector: row.selector,
        set: Arc::try_clone(&row.set)?,
    })
}

/// A row for each of the peers.
fn rows_among(alloc: Global, sets: &PeerRows<'_>, peers: &[&Peer]) -> Result<Vec<SetRow>, Memory>
    requires { AllByRecursion (λ p. IsTrue (has_set sets.now p)) (map (λ p. p.now) peers.now) }
    ensures { IfOk result (λ rows. (identities : List OneRow)
        → AreExact identities sets.now → AreSetsOf identities (map (λ p. p.now) peers.now) rows.items) }
{
    let mut rows = Vec::new(alloc);
    for peer in peers {
        rows.push(share_of(row_of(sets, *peer))?)?;
    }
    Ok(rows)
}

/// A row for each peer that the filters list.
pub(crate) fn own_sets(
    alloc: Global,
    sets: &PeerRows<'_>,
    filters: &Filters,
) -> Result<Sets, Memory>
    requires { AllByRecursion (λ p. IsTrue (has_set sets.now p)) (filters_peers filters.now) }
    ensures { IfOk result (λ own. (identities : List OneRow)
        → AreExact identities sets.now → AreSetsOf identities (filters_peers filters.now) own) }
{
    let peers = filters_peers(alloc, filters)?;
    let rows = rows_among(alloc, sets, &peers)?;
    let own = Sets::from_vec(alloc, rows)?;
    Ok(own)
}
