//! A tally that goes to other filters and sets.
ghost use Rattle.std.specs.Prelude.{◌≡◌, IfOk, IfSome, Some};
ghost use Rattle.pol_distill.specs.Distilled.{distilled};
ghost use Rattle.pol_distill.specs.Sorted.{HaveSets};
ghost use Rattle.pol_map_changes.specs.Changes.{IsDifference, table_of};
ghost use Rattle.pol_entry_changes.specs.Balance.{Leads};
ghost use Rattle.pol_entry_changes.specs.Given.{raw_of};
ghost use Rattle.pol_kept_map.specs.Applies.{MovesTell, NamesFilters};
ghost use Rattle.pol_kept_map.specs.Kept.{IsKept};

use pol_data::Memory;
use pol_entry_changes::{Moved, moved, replaced};
use pol_entry_tally::{Changed, Tally};
use pol_filters::Filters;
use pol_sets::{Moves, SetRow};
use std::alloc::Global;

/// Which entries come and go: by the moves where they are there, and else all of them.
fn moved_by(
    alloc: Global,
    was: &Filters,
    was_rows: &[SetRow],
    is: &Filters,
    is_rows: &[SetRow],
    moves: &Option<Moves>,
) -> Result<Moved, Memory>
    requires named { NamesFilters was.now is.now }
    requires moves { IfSome moves.now
        (MovesTell (record { filters = was.now; rows = was_rows.now }) is.now is_rows.now) }
    ensures { IfOk result (Leads (raw_of was.now was_rows.now) (raw_of is.now is_rows.now)) }
{
    match moves {
        Some(moves) => moved(alloc, was, was_rows, is, is_rows, moves.as_slice()),
        None => replaced(alloc, was, was_rows, is, is_rows),
    }
}

/// Takes the tally to other filters and sets, and tells what differs and the map's size then.
pub(crate) fn turned(
    alloc: Global,
    tally: &mut Tally,
    size: u64,
    was: &Filters,
    was_rows: &[SetRow],
    is: &Filters,
    is_rows: &[SetRow],
    moves: &Option<Moves>,
) -> Result<Changed, Memory>
    requires kept { IsKept was.now was_rows.now size (Some tally.old) }
    requires sets { HaveSets is_rows.now is.now }
    requires named { NamesFilters was.now is.now }
    requires moves { IfSome moves.now
        (MovesTell (record { filters = was.now; rows = was_rows.now }) is.now is_rows.now) }
    ensures kept { IfOk result (λ changed. IsKept is.now is_rows.now changed.size (Some tally.new)) }
    ensures list { IfOk result (λ changed. IsDifference changed.list
        (table_of (distilled was.now was_rows.now)) (table_of (distilled is.now is_rows.now))) }
{
    let moved = moved_by(alloc, was, was_rows, is, is_rows, moves)?;
    tally.change(alloc, size, &moved.come, &moved.gone)
}
