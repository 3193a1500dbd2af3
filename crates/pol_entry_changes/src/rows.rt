//! The rows of peers, found by a hash of the peer where that is worth a table.
ghost use Rattle.std.specs.Prelude.{◌≡◌, IfOk, find};
ghost use Rattle.std.specs.List.{AllByRecursion};
ghost use Rattle.pol_sets.specs.Sets.{is_row_of};
ghost use Rattle.pol_entry_changes.specs.PeerRow.{Ascend, IsIndexOf, placed_row};

use pol_data::Memory;
use pol_rule::Peer;
use pol_sets::{Move, SetRow};
use std::alloc::Global;
use std::collections::HashMap;
use std::marker::Model;

/// As many rows as are gone through one by one sooner than a table of them is made.
const FEW_ROWS: usize = 16;

/// As many entries come by one change, or go: eight for each key of the largest map. Where there are more, who keeps the map
/// sooner makes it from scratch, for which it is counted part by part.
pub(crate) const MOST_MOVED: usize = 8 * 65_536;

/// A row, and where the move of its selector stands if moves stand in the order of the rows. No proof needs the place.
#[derive(Clone, Copy)]
pub(crate) struct PlacedRow<'a> {
    /// The row.
    pub(crate) row: &'a SetRow,
    /// Where its move is looked for first.
    pub(crate) place: usize,
}

/// Rows of peers and sets, with the first row of each peer in a table, if one was made. A contract sees it as the list of
/// the rows.
#[derive(Drop)]
pub(crate) struct PeerRows<'a> {
    rows: &'a [SetRow],
    table: Option<HashMap<&'a Peer, PlacedRow<'a>>>,
    // As many entries as these rows may make a list have.
    most: usize,
}

impl<'a> Model for PeerRows<'a> {
    ghost use Rattle.std.specs.Prelude.{IfSome, List};
    ghost use Rattle.pol_sets.specs.declared.sets.SetRow.{SetRow as OneRow};
    ghost use Rattle.pol_entry_changes.specs.PeerRow.{IsIndexOf};

    ghost Value = { List OneRow };

    ghost view = { λ it. it.rows.now };

    ghost invariant = { λ it. IfSome it.table (λ table. IsIndexOf table it.rows.now) };
}

/// Whether a list of so many entries may get one for each number under each key besides, and have no more than the most.
pub(crate) fn is_room(most: usize, entries: usize, keys: usize, numbers: usize) -> bool {
    entries.saturating_add(keys.saturating_mul(numbers)) <= most
}

/// The place before this one, if the move there is the row's, and else this one.
fn place_before(moves: &[Move], place: usize, row: &SetRow) -> usize {
    if 0 < place && place <= moves.len() && moves[place - 1].selector == row.selector {
        place - 1
    } else {
        place
    }
}

/// The table of the first row of each peer.
fn table_of<'a>(
    alloc: Global,
    rows: &'a [SetRow],
    moves: &[Move],
) -> Result<HashMap<&'a Peer, PlacedRow<'a>>, Memory>
    ensures { IfOk result (λ table. IsIndexOf table rows.now) }
{
    let mut table: HashMap<&'a Peer, PlacedRow<'a>> = HashMap::with_capacity(alloc, rows.len())?;
    let mut place = moves.len();
    for i in (0..rows.len()).rev() {
        let row = &rows[i];
        place = place_before(moves, place, row);
        table.insert(row.peer.peer(), PlacedRow { row, place })?;
    }
    Ok(table)
}

/// The first row of the peer, found by going through the rows.
pub(crate) fn first_row<'a>(rows: &'a [SetRow], peer: &Peer) -> Option<PlacedRow<'a>>
    ensures { placed_row result ≡ find (is_row_of peer.now) rows.now }
{
    for i in 0..rows.len() {
        let row = &rows[i];
        if *row.peer.peer() == *peer {
            return Some(PlacedRow { row, place: i });
        }
    }
    None
}

impl<'a> PeerRows<'a> {
    /// These rows, with a table if they are to be asked for and aren't few, and as many entries as they may make a list have.
    /// The moves tell places alone. The one error is want of memory.
    pub(crate) fn new(
        alloc: Global,
        rows: &'a [SetRow],
        moves: &[Move],
        asked: bool,
        most: usize,
    ) -> Result<PeerRows<'a>, Memory>
        ensures { IfOk result (λ it. it ≡ rows.now) }
    {
        if asked && FEW_ROWS < rows.len() {
            let table = table_of(alloc, rows, moves)?;
            Ok(PeerRows {
                rows,
                table: Some(table),
                most,
            })
        } else {
            Ok(PeerRows {
                rows,
                table: None,
                most,
            })
        }
    }

    /// Whether a list of so many entries may get one for each number under each key besides.
    pub(crate) fn leave_room(&self, entries: usize, keys: usize, numbers: usize) -> bool {
        is_room(self.most, entries, keys, numbers)
    }

    /// The first row of the peer.
    pub(crate) fn row_of(&self, peer: &Peer) -> Option<PlacedRow<'a>>
        ensures { placed_row result ≡ find (is_row_of peer.now) self.now }
    {
        match &self.table {
            Some(table) => match table.get(&peer) {
                Some(found) => Some(*found),
                None => None,
            },
            None => first_row(self.rows, peer),
        }
    }
}

/// It does nothing: each set's numbers ascend.
pub fn sets_ascend(rows: &[SetRow])
    ensures { AllByRecursion Ascend rows.now }
{
    for row in rows {
        let _ = row.set.iter();
    }
}
