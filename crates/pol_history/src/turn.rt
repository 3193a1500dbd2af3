//! What a sync learns of the slots, one after another, and that this is what a sync tells.
ghost use Rattle.std.specs.Prelude.{◌≡◌, ◌≢◌, ◌≤◌, List, Some, length, ℕ};
ghost use Rattle.std.specs.List.Sorted.{IsPermutation};
ghost use mathlib.Core.List.{IsPrefix};
ghost use Rattle.pol_model.specs.Committed.{slots_of};
ghost use Rattle.pol_model.specs.declared.answer.FullSlot.{FullSlot as Row};
ghost use Rattle.pol_model.specs.declared.options.Options.{Options};
ghost use Rattle.pol_model.specs.FullRows.{FullRowsAscend};
ghost use Rattle.pol_history.specs.declared.event.HistoryEvent.{HistoryEvent as OneEvent};
ghost use Rattle.pol_history.specs.declared.turn.SlotTurn.{SlotTurn as Turn};
ghost use Rattle.pol_history.specs.Calls.{IsSynced};
ghost use Rattle.pol_history.specs.Commits.{revision_of, state_now};
ghost use Rattle.pol_history.specs.Legal.{IsLegal};
ghost use Rattle.pol_history.specs.Regenerate.{IsAlready, IsFull, IsPublished};
ghost use Rattle.pol_history.specs.Reports.{size_at};
ghost use Rattle.pol_history.specs.SlotTurns.{EachTells, HasRowOf, HasShown, TellsTurn, rows_of};

use pol_model::FullSlot;

/// What a sync learns of a slot from its regeneration.
#[derive(Debug, Drop)]
pub enum SlotTurn {
    /// A map of the slot's endpoint that counts for the sync was published.
    Shown,
    /// Its map was reported as too large, in a report that counts for the sync.
    Full(FullSlot),
    /// The slot has no endpoint, or one that is gone.
    Gone,
}

/// What a regeneration answers tells what a sync learns of the slot, where the sync's revision is at most the number of
/// commits that had been seen before: also where nothing was done, whether the last report was published or blocked
/// ('profile').
pub fn regenerations_tell()
    ensures published { (options : Options) (slot synced : ℕ) (old new : List OneEvent) (revision : ℕ)
        → synced ≤ revision_of old → IsPublished options slot old new revision → HasShown options slot old new synced }
    ensures full { (options : Options) (slot synced : ℕ) (old new : List OneEvent) (row : Row)
        → synced ≤ revision_of old → (is : IsFull options slot old new row.revision row.count)
        → is.endpoint.name ≡ row.name → HasRowOf options slot old new synced row }
    ensures already { (options : Options) (slot synced : ℕ) (old new : List OneEvent) (revision : ℕ)
        → IsLegal options new → synced ≤ revision_of old
        → length old ≤ length new → (is : IsAlready options slot old new revision)
        → is.report.published ≡ Some revision → HasShown options slot old new synced }
    ensures already_full { (options : Options) (slot synced : ℕ) (old new : List OneEvent) (row : Row)
        → IsLegal options new → synced ≤ revision_of old
        → length old ≤ length new → (is : IsAlready options slot old new row.revision)
        → is.endpoint.name ≡ row.name → is.report.published ≢ Some row.revision
        → size_at options new is.endpoint row.revision ≡ Some row.count → HasRowOf options slot old new synced row }
{}

/// What a sync learned of a slot stays so for a longer history, and for less that had been seen ('profile').
pub fn turns_stay()
    ensures { (options : Options) (slot synced : ℕ) (shorter old new longer : List OneEvent) (turn : Turn)
        → IsPrefix shorter old → IsPrefix new longer
        → TellsTurn options slot old new synced turn → TellsTurn options slot shorter longer synced turn }
{}

/// A sync tells what it learned of the slots one after another, from a history that it showed first: the number of its
/// commits, and the rows, sorted. There has to be a turn of each slot that was in use then, and each turn goes on from that
/// history: else a report may be of before it, and a slot may have been empty before its endpoint came ('profile').
pub fn turns_make_syncs()
    ensures { (options : Options) (old then new : List OneEvent) (turns : List Turn) (full : List Row)
        → IsLegal options new → IsPrefix old then
        → IsPrefix then new → slots_of (state_now options then).endpoints ≤ length turns
        → EachTells options then new (revision_of then) 0 turns
        → IsPermutation (rows_of turns) full → FullRowsAscend full → IsSynced options old new (revision_of then) full }
{}
