//! The rows of endpoints whose maps are too large.
ghost use Rattle.std.specs.Prelude.{◌≡◌, ◌++◌, [], IfOk, OnOk, map};
ghost use Rattle.std.specs.List.{cons_option, filter_map};
ghost use Rattle.std.specs.List.Sorted.{IsPermutation};
ghost use Rattle.pol_model.specs.FullRows.{FullRowsAscend};
ghost use Rattle.pol_machine.specs.Full.{row_by, row_kept};
ghost use Rattle.pol_machine.specs.Rows.{by_name};

use crate::row::Rows;
use pol_data::{Memory, Text};
use pol_history::LastReport;
use pol_model::{FullList, FullSlot, in_row_order};
use pol_repo::EndpointRow;
use std::alloc::Global;

/// The slots of these endpoints. The one error is want of memory.
pub(crate) fn slots_of(alloc: Global, endpoints: &[EndpointRow]) -> Result<Vec<u32>, Memory>
    ensures { IfOk result (λ slots. slots.items ≡ map (λ e. e.slot) endpoints.now) }
{
    let mut slots = Vec::with_capacity(alloc, endpoints.len())?;
    for endpoint in endpoints {
        slots.push(endpoint.slot)?;
    }
    Ok(slots)
}

/// The row of the endpoint of that name, where the map that was reported last has so many entries, which are too many.
fn row_by(
    alloc: Global,
    name: &Text,
    report: Option<LastReport>,
    full: Option<u64>,
) -> Result<Option<FullSlot>, Memory>
    ensures { IfOk result (λ row. row ≡ row_by name.now report full) }
{
    match report {
        None => Ok(None),
        Some(report) => match full {
            None => Ok(None),
            Some(count) => Ok(Some(FullSlot {
                name: name.copy(alloc)?,
                revision: report.revision,
                count,
            })),
        },
    }
}

/// What is kept of the endpoint tells its row.
fn row_kept(alloc: Global, rows: &Rows, endpoint: &EndpointRow) -> Result<Option<FullSlot>, Memory>
    ensures { IfOk result (λ row. row ≡ row_kept endpoint.now (by_name rows.now endpoint.now.name)) }
{
    match rows.get(&endpoint.name) {
        None => Ok(None),
        Some(row) => row_by(alloc, &endpoint.name, row.report, row.full),
    }
}

/// One row more, if there is one.
fn push(out: &mut Vec<FullSlot>, row: Option<FullSlot>) -> Result<(), Memory>
    ensures { OnOk result (out.new.items ≡ out.old.items ++ cons_option row []) }
{
    if let Some(row) = row {
        out.push(row)?;
    }
    Ok(())
}

#[tactic(auto, using(crate::proofs::FullRows::one_more))]
/// The rows of these endpoints, in their order.
fn rows_kept(alloc: Global, rows: &Rows, endpoints: &[EndpointRow]) -> Result<Vec<FullSlot>, Memory>
    ensures { IfOk result (λ full. full.items ≡ filter_map (λ e. row_kept e (by_name rows.now e.name)) endpoints.now) }
{
    let mut full = Vec::new(alloc);
    for endpoint in endpoints {
        push(&mut full, row_kept(alloc, rows, endpoint)?)?;
    }
    Ok(full)
}

/// The rows of these endpoints, by name and then revision. The one error is want of memory.
pub(crate) fn full_rows(
    alloc: Global,
    rows: &Rows,
    endpoints: &[EndpointRow],
) -> Result<FullList, Memory>
    ensures those { IfOk result (λ full.
        IsPermutation (filter_map (λ e. row_kept e (by_name rows.now e.name)) endpoints.now) full) }
    ensures sorted { IfOk result (λ full. FullRowsAscend full) }
{
    in_row_order(rows_kept(alloc, rows, endpoints)?)
}
