//! The rows of a sync.
ghost use Rattle.std.specs.Prelude.{◌≡◌, IfOk};
ghost use Rattle.std.specs.List.Sorted.{IsPermutation};
ghost use Rattle.pol_model.specs.FullRows.{FullRowsAscend};
ghost use Rattle.pol_history.specs.SlotTurns.{rows_of};

use pol_data::{Items, Memory};
use pol_history::SlotTurn;
use pol_model::{FullList, FullSlot, in_row_order};
use std::alloc::Global;

/// The rows that the turns tell.
fn rows_told(alloc: Global, turns: Vec<SlotTurn>) -> Result<Vec<FullSlot>, Memory>
    ensures { IfOk result (λ rows. rows.items ≡ rows_of turns.items) }
{
    let mut rows = Vec::new(alloc);
    for turn in turns {
        match turn {
            SlotTurn::Full(row) => rows.push(row)?,
            SlotTurn::Shown => {}
            SlotTurn::Gone => {}
        }
    }
    Ok(rows)
}

/// The rows that the turns tell, by name and then revision.
pub(crate) fn rows_in(alloc: Global, turns: Vec<SlotTurn>) -> Result<FullList, Memory>
    ensures those { IfOk result (λ rows. IsPermutation (rows_of turns.items) rows) }
    ensures sorted { IfOk result (λ rows. FullRowsAscend rows) }
{
    in_row_order(rows_told(alloc, turns)?)
}

// The same row.
fn row_copy(alloc: Global, row: &FullSlot) -> Result<FullSlot, Memory>
    ensures { IfOk result (λ copy. copy ≡ row.now) }
{
    Ok(FullSlot {
        name: row.name.copy(alloc)?,
        revision: row.revision,
        count: row.count,
    })
}

/// The same rows.
pub(crate) fn rows_copy(alloc: Global, rows: &[FullSlot]) -> Result<FullList, Memory>
    ensures { IfOk result (λ copies. copies ≡ rows.now) }
{
    let mut copies = Vec::with_capacity(alloc, rows.len())?;
    for row in rows {
        copies.push(row_copy(alloc, row)?)?;
    }
    Ok(Items::from_vec(copies))
}
