//! What a slot's regeneration may answer, and for each of its conditions an answer that lacks it alone.
ghost use Rattle.std.specs.Prelude.{[]};
ghost use Rattle.pol_history.specs.ExampleEvents.{at_most};
ghost use Rattle.pol_history.specs.Regenerate.{HasGone, IsAlready, IsFull, IsGone, IsPublished};
ghost use Rattle.history_examples.specs.Histories as history;

/// A map is published past what was seen, canonical, of the slot's endpoint, at a revision between what was committed before
/// the call and after it ('profile').
pub fn published()
    ensures is { IsPublished (at_most 2) 0 history.added history.published 1 }
    ensures of_an_old_revision { IsPublished (at_most 2) 0 history.changed history.published_late 1 → ⊥ }
    ensures of_one_to_come { IsPublished (at_most 2) 0 history.added history.published_ahead 2 → ⊥ }
    ensures of_another_slot { IsPublished (at_most 2) 1 history.added history.published 1 → ⊥ }
    ensures seen_before { IsPublished (at_most 2) 0 history.published history.published 1 → ⊥ }
    ensures not_there { IsPublished (at_most 2) 0 history.added history.added 1 → ⊥ }
    ensures another_map { IsPublished (at_most 2) 0 history.added history.published_another 1 → ⊥ }
{}

/// So is one that is too large reported, with its count ('profile').
pub fn full()
    ensures is { IsFull (at_most 1) 0 history.added history.full 1 2 }
    ensures of_an_old_revision { IsFull (at_most 1) 0 history.changed history.full_late 1 2 → ⊥ }
    ensures of_one_to_come { IsFull (at_most 1) 0 history.added history.full_ahead 2 2 → ⊥ }
    ensures of_another_slot { IsFull (at_most 1) 1 history.added history.full 1 2 → ⊥ }
    ensures seen_before { IsFull (at_most 1) 0 history.full history.full 1 2 → ⊥ }
    ensures another_count { IsFull (at_most 1) 0 history.added history.full 1 3 → ⊥ }
    ensures of_one_that_has_gone { IsFull (at_most 1) 0 history.removed history.full_though_gone 2 2 → ⊥ }
{}

/// Nothing is reported where the endpoint's last report is of the taken revision ('profile').
pub fn already()
    ensures is { IsAlready (at_most 2) 0 history.published history.published 1 }
    ensures of_an_old_revision { IsAlready (at_most 2) 0 history.published_before history.published_before 1 → ⊥ }
    ensures of_another_slot { IsAlready (at_most 2) 1 history.published history.published 1 → ⊥ }
    ensures not_reported { IsAlready (at_most 2) 0 history.added history.added 1 → ⊥ }
    ensures reported_before { IsAlready (at_most 2) 0 history.published_before history.published_before 2 → ⊥ }
{}

/// A slot has nobody at some revision of the call, or somebody who has gone since ('profile').
pub fn gone()
    ensures nobody { IsGone (at_most 2) 0 [] [] }
    ensures another_slot { IsGone (at_most 2) 1 history.added history.added }
    ensures at_the_end { IsGone (at_most 2) 0 history.added history.removed }
    ensures lives { IsGone (at_most 2) 0 history.added history.added → ⊥ }
    ensures since { HasGone (at_most 2) 0 history.removed 1 }
    ensures nobody_was { HasGone (at_most 2) 1 history.removed 1 → ⊥ }
    ensures lives_on { HasGone (at_most 2) 0 history.added 1 → ⊥ }
{}
