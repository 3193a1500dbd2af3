//! Selectors that come and go, in all that they are found by.
ghost use Rattle.std.specs.Prelude.{◌≡◌, ℕ, ◌<◌, ◌++◌, ◌∷◌, [], Some, None, if◌then◌else◌, IfOk, OnOk, OnErr, vec_len, vec_capacity};
ghost use Rattle.std.specs.Arc.{arc_value};
ghost use Rattle.std.specs.List.{AllByRecursion};
ghost use Rattle.indexmap.specs.IndexMap.{get, spare};
ghost use Rattle.pol_rule.specs.contracts.policy.PeerPartialEq.TheImpl as peers;
ghost use Rattle.pol_rule.specs.declared.policy.Peer.{Peer as OnePeer};
ghost use Rattle.pol_headings.specs.Heading.{heading_of};
ghost use Rattle.pol_model.specs.Ascending.{Ascends};
ghost use Rattle.pol_selectors.specs.Filed.{IsTable, IsUnfiled};
ghost use Rattle.pol_selectors.specs.Inside.{IsLastAt, IsLiveAt, live_in, live_of, spot_numbers};
ghost use Rattle.pol_selectors.specs.Live.{number_of, without_reference};

use crate::spots::{Row, Spot, cut, put_none, row_at, sweep};
use indexmap::IndexMap;
use pol_data::Memory;
use pol_headings::{Filing, HeadingRef};
use pol_rule::Peer;
use pol_sets::IdSet;
use std::alloc::Global;
use std::sync::Arc;

/// Puts the number of a peer, for which there is room.
fn put_known(known: &mut IndexMap<Peer, u64>, peer: Peer, number: u64)
    requires room { 0 < spare known.old }
    ensures { (p : OnePeer) → get peers.ghosts.eq known.new p
        ≡ (if peers.ghosts.eq peer p then Some number else get peers.ghosts.eq known.old p) }
{
    match known.insert(peer, number) {
        Ok(_) => (),
        Err(_) => unreachable!(),
    }
}

/// A row with one reference.
pub(crate) fn new_row(alloc: Global, peer: &Peer, set: Arc<IdSet>) -> Result<Row, Memory>
    ensures live { IfOk result (λ row. (number : ℕ)
        → live_of number row ≡ record { number = number; peer = peer.now; references = 1; set = arc_value set }) }
{
    Ok(Row {
        peer: peer.copy(alloc)?,
        references: 1,
        set,
    })
}

/// Puts a spot behind the others, for which there is room.
fn put_behind(spots: &mut Vec<Spot>, number: u64, row: Row)
    requires ascend { Ascends (spot_numbers spots.old.items) }
    requires above { AllByRecursion (λ s. s.number < number) (live_in spots.old.items) }
    requires room { vec_len spots.old < vec_capacity spots.old }
    ensures live { live_in spots.new.items ≡ live_in spots.old.items ++ live_of number row ∷ [] }
    ensures ascend { Ascends (spot_numbers spots.new.items) }
{
    cut(spots, number);
    spots.push_reserved(Spot {
        number,
        row: Some(row),
    });
}

/// Puts a selector behind the others, and files its number. After an error all is as before.
pub(crate) fn add_row(
    known: &mut IndexMap<Peer, u64>,
    spots: &mut Vec<Spot>,
    filing: &mut Filing,
    alloc: Global,
    number: u64,
    row: Row,
) -> Result<(), Memory>
    requires table { IsTable known.old.entries spots.old.items filing.old }
    requires new { number_of row.peer (live_in spots.old.items) ≡ None }
    requires above { AllByRecursion (λ s. s.number < number) (live_in spots.old.items) }
    requires referenced { 0 < row.references }
    ensures table { IsTable known.new.entries spots.new.items filing.new }
    ensures live { OnOk result (live_in spots.new.items ≡ live_in spots.old.items ++ live_of number row ∷ []) }
    ensures err { OnErr result (live_in spots.new.items ≡ live_in spots.old.items) }
{
    known.reserve(1)?;
    spots.reserve(1)?;
    let peer = row.peer.copy(alloc)?;
    filing.file(&HeadingRef::of(&row.peer), number)?;
    put_known(known, peer, number);
    put_behind(spots, number, row);
    Ok(())
}

/// Takes a selector's peer from among those that have numbers, and its number from under its heading.
fn forget(known: &mut IndexMap<Peer, u64>, filing: &mut Filing, row: &Row, number: u64)
    ensures known { (p : OnePeer) → get peers.ghosts.eq known.new p
        ≡ (if peers.ghosts.eq row.now.peer p then None else get peers.ghosts.eq known.old p) }
    ensures unfiled { IsUnfiled (heading_of row.now.peer) number filing.old filing.new }
{
    known.swap_remove(&row.peer);
    filing.unfile(&HeadingRef::of(&row.peer), number);
}

/// Takes out the selector at a place, which has its last reference. It takes no memory.
pub(crate) fn take_out(
    known: &mut IndexMap<Peer, u64>,
    spots: &mut Vec<Spot>,
    filing: &mut Filing,
    place: usize,
    number: u64,
)
    requires table { IsTable known.old.entries spots.old.items filing.old }
    requires place { IsLastAt number spots.old.items place }
    ensures table { IsTable known.new.entries spots.new.items filing.new }
    ensures live { live_in spots.new.items ≡ without_reference number (live_in spots.old.items) }
{
    let row = row_at(spots, place, number);
    forget(known, filing, row, number);
    put_none(spots, place, number);
    sweep(spots, known.len());
}
