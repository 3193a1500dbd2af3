//! Rows of sets without the numbers of other parts.
ghost use Rattle.std.specs.Prelude.{◌≡◌, IfOk, filter};
ghost use Rattle.std.specs.Arc.{arc_value};
ghost use Rattle.pol_sets.specs.IdSet.{IsIdSet};
ghost use Rattle.pol_map_size.specs.Part.{ArePartsOf, IsPartOf, is_between};

use pol_data::Memory;
use pol_sets::{IdSet, SetRow, Sets};
use std::alloc::Global;
use std::sync::Arc;

/// Whether the number is of the part: from the first number on, and below the end if there is one.
pub(crate) fn is_between(from: u32, end: Option<u32>, id: u32) -> bool
    ensures { result ≡ is_between from end id }
{
    match end {
        None => from <= id,
        Some(end) => from <= id && id < end,
    }
}

/// The numbers of the set that are of the part, in a list.
fn numbers_between(
    alloc: Global,
    set: &IdSet,
    from: u32,
    end: Option<u32>,
) -> Result<Vec<u32>, Memory>
    ensures numbers { IfOk result (λ ids. ids.items ≡ filter (is_between from end) set.now) }
    ensures set { IsIdSet set.now }
{
    let mut ids = Vec::new(alloc);
    for id in set.iter() {
        if is_between(from, end, id) {
            ids.push(id)?;
        }
    }
    Ok(ids)
}

/// The numbers of the set that are of the part.
fn set_between(alloc: Global, set: &IdSet, from: u32, end: Option<u32>) -> Result<IdSet, Memory>
    ensures { IfOk result (λ part. part ≡ filter (is_between from end) set.now) }
{
    let ids = numbers_between(alloc, set, from, end)?;
    Ok(IdSet::from_ascending(ids))
}

/// The row with these numbers alone.
fn row_between(alloc: Global, row: &SetRow, from: u32, end: Option<u32>) -> Result<SetRow, Memory>
    ensures { IfOk result (IsPartOf from end row.now) }
{
    let set = set_between(alloc, &row.set, from, end)?;
    Ok(SetRow {
        peer: row.peer.share()?,
        selector: row.selector,
        set: Arc::new(alloc, set)?,
    })
}

/// The rows with these numbers alone. The one error is want of memory.
pub(crate) fn rows_between(
    alloc: Global,
    rows: &[SetRow],
    from: u32,
    end: Option<u32>,
) -> Result<Sets, Memory>
    ensures { IfOk result (ArePartsOf from end rows.now) }
{
    let mut parts = Vec::with_capacity(alloc, rows.len())?;
    for row in rows {
        parts.push(row_between(alloc, row, from, end)?)?;
    }
    Sets::from_vec(alloc, parts)
}
