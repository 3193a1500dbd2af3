//! How often filters and sets give each key.
ghost use Rattle.std.specs.Prelude.{◌≡◌, IfOk, IfSome, None};
ghost use Rattle.pol_entry_changes.specs.Given.{raw_of};
ghost use Rattle.pol_entry_tally.specs.Counted.{IsTallyOf};

use pol_data::Memory;
use pol_entry_changes::given;
use pol_entry_tally::Tally;
use pol_filters::Filters;
use pol_sets::SetRow;
use std::alloc::Global;

/// A tally of what the filters put into a map.
pub(crate) fn tally_of(alloc: Global, filters: &Filters, rows: &[SetRow]) -> Result<Tally, Memory>
    ensures { IfOk result (IsTallyOf (raw_of filters.now rows.now)) }
{
    let raw = given(alloc, filters, rows)?;
    let tally = Tally::of(alloc, &raw)?;
    Ok(tally)
}

/// The same, where it is wanted.
pub(crate) fn tally_where(
    alloc: Global,
    wanted: bool,
    filters: &Filters,
    rows: &[SetRow],
) -> Result<Option<Tally>, Memory>
    ensures { IfOk result (λ tally. IfSome tally (IsTallyOf (raw_of filters.now rows.now))) }
{
    if !wanted {
        return Ok(None);
    }
    let tally = tally_of(alloc, filters, rows)?;
    Ok(Some(tally))
}

/// The tally of what the filters put into a map, taken out of its place, or made where none is there. The one error is want of
/// memory. Afterwards the place is empty.
pub(crate) fn take_tally(
    alloc: Global,
    place: &mut Option<Tally>,
    filters: &Filters,
    rows: &[SetRow],
) -> Result<Tally, Memory>
    requires counts { IfSome place.old (IsTallyOf (raw_of filters.now rows.now)) }
    ensures none { place.new ≡ None }
    ensures counts { IfOk result (IsTallyOf (raw_of filters.now rows.now)) }
{
    match place.take() {
        Some(tally) => Ok(tally),
        None => tally_of(alloc, filters, rows),
    }
}

/// The tally, where it is wanted. It takes no memory.
pub(crate) fn kept_where(wanted: bool, tally: Tally) -> Option<Tally>
    ensures { IfSome result (λ kept. kept ≡ tally) }
{
    if wanted { Some(tally) } else { None }
}
