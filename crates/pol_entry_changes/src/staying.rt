//! What comes and goes of a filter that stays.
ghost use Rattle.std.specs.Prelude.{◌≡◌, ◌++◌, OnOk};
ghost use Rattle.std.specs.List.{AllByRecursion, flat_map};
ghost use Rattle.pol_model.specs.PolicyMap.{peer_numbers};
ghost use Rattle.pol_sets.specs.Sets.{set_given};
ghost use Rattle.pol_entry_changes.specs.Balance.{GoesOn};
ghost use Rattle.pol_entry_changes.specs.Given.{given_by, of_numbers};
ghost use Rattle.pol_entry_changes.specs.PeerRow.{Ascend};
ghost use Rattle.pol_entry_changes.specs.Told.{IsTold, PeersTold};

use crate::entries::kind_of;
use crate::moved_rows::MovedRows;
use crate::one_id::push_id;
use crate::rows::{MOST_MOVED, PeerRows, is_room};
use pol_data::Memory;
use pol_distill::{ports_keys, push_identities};
use pol_filters::Filter;
use pol_mapkey::{Kind, MapKey};
use pol_model::selects_every_number;
use pol_ports::Direction;
use pol_rule::{Peer, Peers};
use pol_sets::{IdSet, Move};
use std::alloc::Global;

/// Entries that come into a map, and entries that go, each as often as it does.
#[derive(Drop)]
pub struct Moved {
    /// What comes.
    pub come: Vec<(MapKey, Kind)>,
    /// What goes.
    pub gone: Vec<(MapKey, Kind)>,
}

/// Appends the entries that a filter gives several numbers, where these aren't too many.
fn push_several(
    alloc: Global,
    out: &mut Vec<(MapKey, Kind)>,
    dir: Direction,
    one: &Filter,
    ids: &IdSet,
) -> Result<(), Memory>
    ensures { OnOk result (out.new.items ≡ out.old.items ++ of_numbers dir one.now ids.now) }
{
    if ids.is_empty() {
        return Ok(());
    }
    let keys = ports_keys(alloc, dir, one.ports.as_slice())?;
    if !is_room(MOST_MOVED, out.len(), keys.len(), ids.len()) {
        return Err(Memory);
    }
    push_identities(out, &keys, kind_of(one), ids)
}

/// Appends the entries that a filter gives these numbers. One number, which is what moves most often, takes no list of keys.
fn push_numbers(
    alloc: Global,
    out: &mut Vec<(MapKey, Kind)>,
    dir: Direction,
    one: &Filter,
    ids: &IdSet,
) -> Result<(), Memory>
    ensures { OnOk result (out.new.items ≡ out.old.items ++ of_numbers dir one.now ids.now) }
{
    match ids.only() {
        Some(id) => push_id(alloc, out, dir, kind_of(one), id, one.ports.as_slice()),
        None => push_several(alloc, out, dir, one, ids),
    }
}

/// Appends the entries of the numbers that a peer of a filter gained and lost.
fn push_move(
    alloc: Global,
    out: &mut Moved,
    dir: Direction,
    one: &Filter,
    change: &Move,
) -> Result<(), Memory>
    ensures come { OnOk result (out.new.come.items ≡ out.old.come.items ++ of_numbers dir one.now change.now.gained) }
    ensures gone { OnOk result (out.new.gone.items ≡ out.old.gone.items ++ of_numbers dir one.now change.now.lost) }
{
    push_numbers(alloc, &mut out.come, dir, one, &change.gained)?;
    push_numbers(alloc, &mut out.gone, dir, one, &change.lost)
}

/// Appends what comes and goes by a peer of a filter that stays.
fn peer_stays(
    alloc: Global,
    out: &mut Moved,
    dir: Direction,
    one: &Filter,
    peer: &Peer,
    was: &PeerRows<'_>,
    is: &MovedRows<'_>,
) -> Result<(), Memory>
    requires told { IsTold was.now is.now.rows is.now.moves peer.now }
    requires before { AllByRecursion Ascend was.now }
    requires after { AllByRecursion Ascend is.now.rows }
    ensures { OnOk result (GoesOn (of_numbers dir one.now (peer_numbers (set_given was.now) peer.now))
        (of_numbers dir one.now (peer_numbers (set_given is.now.rows) peer.now)) out.old out.new) }
{
    if selects_every_number(peer) {
        return Ok(());
    }
    match is.move_of(peer) {
        Some(change) => push_move(alloc, out, dir, one, change),
        None => Ok(()),
    }
}

fn peers_stay(
    alloc: Global,
    out: &mut Moved,
    dir: Direction,
    one: &Filter,
    peers: &[Peer],
    was: &PeerRows<'_>,
    is: &MovedRows<'_>,
) -> Result<(), Memory>
    requires told { AllByRecursion (IsTold was.now is.now.rows is.now.moves) peers.now }
    requires before { AllByRecursion Ascend was.now }
    requires after { AllByRecursion Ascend is.now.rows }
    ensures { OnOk result (GoesOn (of_numbers dir one.now (flat_map (peer_numbers (set_given was.now)) peers.now))
        (of_numbers dir one.now (flat_map (peer_numbers (set_given is.now.rows)) peers.now)) out.old out.new) }
{
    for peer in peers {
        peer_stays(alloc, out, dir, one, peer, was, is)?;
    }
    Ok(())
}

/// Appends what comes and goes of a filter that stays.
pub(crate) fn stays(
    alloc: Global,
    out: &mut Moved,
    dir: Direction,
    one: &Filter,
    was: &PeerRows<'_>,
    is: &MovedRows<'_>,
) -> Result<(), Memory>
    requires told { PeersTold was.now is.now.rows is.now.moves one.now.peers }
    requires before { AllByRecursion Ascend was.now }
    requires after { AllByRecursion Ascend is.now.rows }
    ensures { OnOk result (GoesOn (given_by (set_given was.now) dir one.now)
        (given_by (set_given is.now.rows) dir one.now) out.old out.new) }
{
    match &one.peers {
        Peers::Every => Ok(()),
        Peers::Listed(peers) => peers_stay(alloc, out, dir, one, peers.as_slice(), was, is),
    }
}

/// Appends what comes and goes of filters that all stay.
pub(crate) fn all_stay(
    alloc: Global,
    out: &mut Moved,
    dir: Direction,
    filters: &[Filter],
    was: &PeerRows<'_>,
    is: &MovedRows<'_>,
) -> Result<(), Memory>
    requires told { AllByRecursion (λ one. PeersTold was.now is.now.rows is.now.moves one.peers) filters.now }
    requires before { AllByRecursion Ascend was.now }
    requires after { AllByRecursion Ascend is.now.rows }
    ensures { OnOk result (GoesOn (flat_map (given_by (set_given was.now) dir) filters.now)
        (flat_map (given_by (set_given is.now.rows) dir) filters.now) out.old out.new) }
{
    for one in filters {
        stays(alloc, out, dir, one, was, is)?;
    }
    Ok(())
}
