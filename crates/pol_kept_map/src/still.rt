//! Whether filters and sets leave a work as it is.
ghost use Rattle.std.specs.Prelude.{◌≡◌, IfSome, IsTrue, List};
ghost use Rattle.std.specs.List.{AllByRecursion};
ghost use Rattle.pol_distill.specs.Distilled.{distilled};
ghost use Rattle.pol_entry_changes.specs.PeerRow.{Ascend};
ghost use Rattle.pol_sets.specs.declared.sets.SetRow.{SetRow as OneRow};
ghost use Rattle.pol_kept_map.specs.Applies.{MovesTell, NamesFilters};
ghost use Rattle.pol_kept_map.specs.Work.{HasSameModes, IsWorkOf, map_of};

use crate::work::Work;
use pol_entry_changes::{all_filters_stand, all_still, sets_ascend};
use pol_filters::Filters;
use pol_sets::{Move, Moves, SetRow};

/// Whether all but the filters is the same.
fn has_same_modes(one: &Filters, other: &Filters) -> bool
    ensures { IsTrue result → HasSameModes one.now other.now }
{
    one.never == other.never
        && one.ingress_enforced == other.ingress_enforced
        && one.egress_enforced == other.egress_enforced
        && one.localhost == other.localhost
}

/// Whether filters of these sets stay, with these moves, as they are.
fn are_still(was: &Filters, was_rows: &[SetRow], is: &Filters, moves: &[Move]) -> bool
    ensures work { IsTrue result → (rows : List OneRow) → AllByRecursion Ascend rows → NamesFilters was.now is.now
        → MovesTell (record { filters = was.now; rows = was_rows.now }) is.now rows moves.now
        → IsWorkOf is.now rows (record { filters = was.now; rows = was_rows.now }) }
    ensures map { IsTrue result → (rows : List OneRow) → AllByRecursion Ascend rows → NamesFilters was.now is.now
        → MovesTell (record { filters = was.now; rows = was_rows.now }) is.now rows moves.now
        → distilled was.now was_rows.now ≡ distilled is.now rows }
{
    sets_ascend(was_rows);
    if !all_still(moves) {
        return false;
    }
    if !has_same_modes(was, is) {
        return false;
    }
    all_filters_stand(was, is)
}

impl Work {
    /// Whether these filters, with these moves of the sets, leave the work as it is: no filter comes or goes, and no set
    /// moves. Then it is the work of the filters and of any rows of which the moves tell, and its map is theirs. It may be
    /// false though nothing differs.
    pub fn stays_by(&self, filters: &Filters, moves: &Option<Moves>) -> bool
        ensures work { IsTrue result → (rows : List OneRow)
            → AllByRecursion Ascend rows → NamesFilters self.now.filters filters.now
            → IfSome moves.now (MovesTell self.now filters.now rows) → IsWorkOf filters.now rows self.now }
        ensures map { IsTrue result → (rows : List OneRow)
            → AllByRecursion Ascend rows → NamesFilters self.now.filters filters.now
            → IfSome moves.now (MovesTell self.now filters.now rows) → map_of self.now ≡ distilled filters.now rows }
    {
        match moves {
            Some(moves) => are_still(
                &self.filters,
                self.sets.as_slice(),
                filters,
                moves.as_slice(),
            ),
            None => false,
        }
    }
}
