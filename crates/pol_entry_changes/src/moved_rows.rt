//! Rows of peers, with the moves of their selectors that led to them.
ghost use Rattle.std.specs.Prelude.{◌≡◌, List, Some, IfOk, IfSome, IsNone, find};
ghost use Rattle.std.specs.List.{AllByRecursion};
ghost use Rattle.pol_sets.specs.Sets.{is_row_of};
ghost use Rattle.pol_sets.specs.declared.sets.SetRow.{SetRow as OneRow};
ghost use Rattle.pol_entry_changes.specs.PeerRow.{HaveMoved, HaveNoRow, IsFirstRow, IsMoveFor, IsUnmoved, Lacks};

use crate::moves::{is_among, move_of, moved_selectors};
use crate::rows::{MOST_MOVED, PeerRows, PlacedRow, first_row};
use pol_data::Memory;
use pol_rule::Peer;
use pol_sets::{Move, SetRow};
use std::alloc::Global;
use std::marker::Model;

/// The first row of the peer of each row with one of these selectors.
fn rows_with<'a>(
    alloc: Global,
    rows: &'a [SetRow],
    selectors: &[u64],
) -> Result<Vec<PlacedRow<'a>>, Memory>
    ensures first { IfOk result (λ found. AllByRecursion (IsFirstRow rows.now) found.items) }
    ensures every { IfOk result (λ found. AllByRecursion (λ row.
        HaveNoRow found.items row.peer → Lacks selectors.now row.selector) rows.now) }
{
    let mut found = Vec::new(alloc);
    for row in rows {
        if is_among(selectors, row.selector) {
            match first_row(rows, row.peer.peer()) {
                Some(first) => found.push(first)?,
                None => unreachable!(),
            }
        }
    }
    Ok(found)
}

/// The first rows of the peers whose selectors moved, if such selectors are few.
fn few_moved<'a>(
    alloc: Global,
    rows: &'a [SetRow],
    moves: &[Move],
) -> Result<Option<Vec<PlacedRow<'a>>>, Memory>
    ensures { IfOk result (λ found.
        IfSome found (λ few. HaveMoved (record { rows = rows.now; moves = moves.now }) few.items)) }
{
    let Some(selectors) = moved_selectors(alloc, moves)? else {
        return Ok(None);
    };
    let few = rows_with(alloc, rows, selectors.as_slice())?;
    Ok(Some(few))
}

/// The one of the peer among these rows, whose peers differ from each other.
fn row_among<'a>(few: &[PlacedRow<'a>], peer: &Peer) -> Option<PlacedRow<'a>>
    ensures found { (rows : List OneRow) → AllByRecursion (IsFirstRow rows) few.now
        → IfSome result (λ found. find (is_row_of peer.now) rows ≡ Some found.row.now) }
    ensures none { IsNone result → HaveNoRow few.now peer.now }
{
    for one in few {
        if *one.row.peer.peer() == *peer {
            return Some(*one);
        }
    }
    None
}

/// Rows of peers and sets, with the moves of their selectors that led to them. Where few of these move something, the rows that
/// may have moved are kept by themselves, and no table of the others is made for them.
#[derive(Drop)]
pub(crate) struct MovedRows<'a> {
    rows: PeerRows<'a>,
    moves: &'a [Move],
    few: Option<Vec<PlacedRow<'a>>>,
}

impl<'a> Model for MovedRows<'a> {
    ghost use Rattle.std.specs.Prelude.{IfSome};
    ghost use Rattle.pol_entry_changes.specs.PeerRow.{HaveMoved, RowsMoved};

    ghost Value = { RowsMoved };

    ghost view = { λ it. record { rows = it.rows; moves = it.moves.now } };

    ghost invariant = { λ it. IfSome it.few (λ few. HaveMoved (record { rows = it.rows; moves = it.moves.now }) few.items) };
}

impl<'a> MovedRows<'a> {
    /// These rows, for filters that come too where some do. The one error is want of memory.
    pub(crate) fn new(
        alloc: Global,
        rows: &'a [SetRow],
        moves: &'a [Move],
        some_come: bool,
    ) -> Result<MovedRows<'a>, Memory>
        ensures rows { IfOk result (λ it. it.rows ≡ rows.now) }
        ensures moves { IfOk result (λ it. it.moves ≡ moves.now) }
    {
        let few = few_moved(alloc, rows, moves)?;
        let asked = some_come || few.is_none();
        let rows = PeerRows::new(alloc, rows, moves, asked, MOST_MOVED)?;
        Ok(MovedRows { rows, moves, few })
    }

    /// The rows.
    pub(crate) fn rows(&self) -> &PeerRows<'a>
        ensures { result.now ≡ self.now.rows }
    {
        &self.rows
    }

    /// The first row of the peer, if its selector may have moved.
    fn row_of(&self, peer: &Peer) -> Option<PlacedRow<'a>>
        ensures found { IfSome result (λ found. find (is_row_of peer.now) self.now.rows ≡ Some found.row.now) }
        ensures none { IsNone result → IsUnmoved self.now peer.now }
    {
        match &self.few {
            Some(few) => row_among(few.as_slice(), peer),
            None => self.rows.row_of(peer),
        }
    }

    /// A move of the peer's first row; none where such a move moves nothing, or there is none.
    pub(crate) fn move_of(&self, peer: &Peer) -> Option<&'a Move>
        ensures { IsMoveFor self.now peer.now result }
    {
        match self.row_of(peer) {
            Some(found) => move_of(self.moves, found.row.selector, found.place),
            None => None,
        }
    }
}
