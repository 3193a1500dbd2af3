//! The size of a map, counted in parts.
ghost use Rattle.std.specs.Prelude.{◌≡◌, ◌+◌, ◌<◌, IfOk, IsTrue, length};
ghost use Rattle.pol_distill.specs.Distilled.{distilled};
ghost use Rattle.pol_distill.specs.Sorted.{HaveSets};
ghost use Rattle.pol_map_size.specs.Part.{IsBelow, part_size};

use crate::load::{is_light, middle};
use crate::part::{is_between, rows_between};
use pol_data::Memory;
use pol_distill::{MapTable, distill};
use pol_filters::Filters;
use pol_sets::{SetRow, Sets};
use std::alloc::Global;

/// How many entries of the table are of the part.
fn entries_between(table: &MapTable, from: u32, end: Option<u32>) -> u64
    ensures { result ≡ part_size from end table.now }
{
    let mut count = 0;
    for place in 0..table.count() {
        if is_between(from, end, table.at(place).0.id) {
            count += 1;
        }
    }
    count
}

/// The size of the part of the map, where the map is made.
fn size_at_once(
    alloc: Global,
    filters: &Filters,
    sets: &Sets,
    from: u32,
    end: Option<u32>,
) -> Result<u64, Memory>
    requires sets { HaveSets sets.now filters.now }
    ensures size { IfOk result (λ size. size ≡ part_size from end (distilled filters.now sets.now)) }
{
    let table = distill(alloc, filters, sets)?;
    Ok(entries_between(&table, from, end))
}

/// Whether a part can be cut there: both halves have numbers.
fn is_inside(cut: u32, from: u32, end: Option<u32>) -> bool
    ensures above { IsTrue result → from < cut }
    ensures below { IsTrue result → IsBelow cut end }
{
    match end {
        None => from < cut,
        Some(end) => from < cut && cut < end,
    }
}

/// The sum. One past the end of its type counts as want of memory.
fn sum(low: u64, high: u64) -> Result<u64, Memory>
    ensures { IfOk result (λ sum. sum ≡ low + high) }
{
    low.checked_add(high).ok_or(Memory)
}

/// The size of the part of the map: of the identities from this number on, and below the end if there is one. Where it would
/// be much at once, it is cut in two.
fn size_between(
    alloc: Global,
    filters: &Filters,
    rows: &[SetRow],
    from: u32,
    end: Option<u32>,
) -> Result<u64, Memory>
    requires sets { HaveSets rows.now filters.now }
    ensures size { IfOk result (λ size. size ≡ part_size from end (distilled filters.now rows.now)) }
{
    let part = rows_between(alloc, rows, from, end)?;
    let light = is_light(alloc, filters, part.as_slice())?;
    let cut = middle(part.as_slice());
    if light || !is_inside(cut, from, end) {
        return size_at_once(alloc, filters, &part, from, end);
    }
    let low = size_between(alloc, filters, part.as_slice(), from, Some(cut))?;
    let high = size_between(alloc, filters, part.as_slice(), cut, end)?;
    sum(low, high)
}

/// How many entries the canonical map of the filters has, where each peer selects what its row of the sets says (profile).
/// The map isn't kept: where much goes into it, no more than a part of it is there at once. The one error is want of
/// memory; a size at the end of its type counts as that.
pub fn map_size(alloc: Global, filters: &Filters, sets: &Sets) -> Result<u64, Memory>
    requires sets { HaveSets sets.now filters.now }
    ensures size { IfOk result (λ size. size ≡ length (distilled filters.now sets.now)) }
{
    if is_light(alloc, filters, sets.as_slice())? {
        let table = distill(alloc, filters, sets)?;
        return Ok(table.count());
    }
    size_between(alloc, filters, sets.as_slice(), 0, None)
}
