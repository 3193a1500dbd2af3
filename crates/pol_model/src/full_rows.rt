//! The order of the rows of maps that are too large.
ghost use Rattle.std.specs.Prelude.{◌≡◌, IfOk};
ghost use Rattle.std.specs.Cmp.Lexicographic.{slice_cmp};
ghost use Rattle.std.specs.List.Sorted.{IsPermutation};
ghost use Rattle.std.specs.Ordering.{nat_cmp, ordering_then};
ghost use Rattle.pol_model.specs.FullRows.{FullRowsAscend};

use crate::{FullList, FullSlot};
use pol_data::{Items, Memory};
use std::cmp::Ordering;

/// Rows by name, then revision.
fn row_cmp(a: &FullSlot, b: &FullSlot) -> Ordering
    ensures { result ≡ ordering_then (slice_cmp nat_cmp a.now.name b.now.name) (nat_cmp a.now.revision b.now.revision) }
{
    a.name.cmp(&b.name).then(a.revision.cmp(&b.revision))
}

/// The same rows by name, those of one name by revision ('profile'). The one error is want of memory.
pub fn in_row_order(rows: Vec<FullSlot>) -> Result<FullList, Memory>
    ensures those { IfOk result (λ full. IsPermutation rows.items full) }
    ensures sorted { IfOk result (λ full. FullRowsAscend full) }
{
    let mut rows = rows;
    rows.sort_by(row_cmp)?;
    Ok(Items::from_vec(rows))
}
