//! The sets of the peers that policies list.
ghost use Rattle.std.specs.Prelude.{◌≡◌, ◌++◌, ◌∷◌, IfOk, OnOk, List, map};
ghost use Rattle.std.specs.Arc.{arc_value};
ghost use Rattle.pol_model.specs.Ascending.{Ascends};
ghost use Rattle.pol_model.specs.Selects.{set_at};
ghost use Rattle.pol_rule.specs.declared.policy.Peer.{Peer as OnePeer};
ghost use Rattle.pol_connection_maps.specs.Sets.{AreSetsOf, peers_of};

use pol_data::Memory;
use pol_model::{IdentityRow, Stamped};
use pol_rule::{Peer, listed_peers};
use pol_sets::{IdSet, SetRow, Sets, SharedPeer};
use std::alloc::Global;
use std::sync::Arc;

/// The peers that the policies list, each as often as it stands there.
fn all_listed<'a>(alloc: Global, policies: &'a [Stamped]) -> Result<Vec<&'a Peer>, Memory>
    ensures { IfOk result (λ listed. map (λ p. p.now) listed.items ≡ peers_of policies.now) }
{
    let mut listed = Vec::new(alloc);
    for stamped in policies {
        let own = listed_peers(alloc, &stamped.policy)?;
        listed.extend_from_slice(&own)?;
    }
    Ok(listed)
}

/// The numbers that the peer selects among the identities.
fn numbers_of(alloc: Global, identities: &[IdentityRow], peer: &Peer) -> Result<Vec<u32>, Memory>
    ensures { IfOk result (λ numbers. numbers.items ≡ set_at identities.now peer.now) }
{
    identities
        .iter()
        .filter(|row| row.is_selected_by(peer))
        .map(|row| row.number)
        .collect(alloc)
}

/// The row of a peer.
fn set_row(alloc: Global, identities: &[IdentityRow], peer: &Peer) -> Result<SetRow, Memory>
    requires numbers { Ascends (map (λ row. row.number) identities.now) }
    ensures peer { IfOk result (λ row. row.peer ≡ peer.now) }
    ensures set { IfOk result (λ row. arc_value row.set ≡ set_at identities.now peer.now) }
{
    let numbers = numbers_of(alloc, identities, peer)?;
    let set = Arc::new(alloc, IdSet::from_ascending(numbers))?;
    let peer = SharedPeer::new(alloc, peer.copy(alloc)?)?;
    Ok(SetRow {
        peer,
        selector: 0,
        set,
    })
}

/// A row for each of the peers.
fn rows_for(
    alloc: Global,
    identities: &[IdentityRow],
    peers: &[&Peer],
) -> Result<Vec<SetRow>, Memory>
    requires numbers { Ascends (map (λ row. row.number) identities.now) }
    ensures { IfOk result (λ rows. AreSetsOf identities.now (map (λ p. p.now) peers.now) rows.items) }
{
    let mut rows = Vec::new(alloc);
    for peer in peers {
        rows.push(set_row(alloc, identities, *peer)?)?;
    }
    Ok(rows)
}

/// A row for each peer that the policies list.
pub(crate) fn sets_of(
    alloc: Global,
    identities: &[IdentityRow],
    policies: &[Stamped],
) -> Result<Sets, Memory>
    requires numbers { Ascends (map (λ row. row.number) identities.now) }
    ensures { IfOk result (AreSetsOf identities.now (peers_of policies.now)) }
{
    let peers = all_listed(alloc, policies)?;
    let rows = rows_for(alloc, identities, &peers)?;
    let sets = Sets::from_vec(alloc, rows)?;
    Ok(sets)
}
