//! How what a pass has seen grows in a call, and what lacks one of its conditions.
ghost use Rattle.std.specs.Prelude.{[], ◌∷◌};
ghost use Rattle.pol_history.specs.ExampleEvents.{add_web, at_most};
ghost use Rattle.pol_history.specs.Grows.{Grows, GrowsWhole, nothing_yet};
ghost use Rattle.pol_history.specs.SmallHistories.{added_twice};
ghost use Rattle.history_examples.specs.Histories as history;

/// A call that grows keeps what was seen, is legal, and tells what the pass committed ('profile').
pub fn calls_that_grow()
    ensures is { Grows (at_most 2) nothing_yet (history.one_own history.added) (add_web ∷ []) }
    ensures goes_back { Grows (at_most 2) (history.one_own history.added) (history.one_own []) [] → ⊥ }
    ensures not_legal { Grows (at_most 2) nothing_yet
        (record { history = added_twice; mine = add_web ∷ add_web ∷ [] }) (add_web ∷ add_web ∷ []) → ⊥ }
    ensures not_told { Grows (at_most 2) nothing_yet (history.one_own history.added) [] → ⊥ }
{}

/// After one that grows whole the pass has seen all its own commits, and knows of no other commit as its own ('profile').
pub fn calls_that_grow_whole()
    ensures is { GrowsWhole (at_most 2) 0 nothing_yet (history.one_own history.added) (add_web ∷ []) }
    ensures of_another { GrowsWhole (at_most 2) 1 nothing_yet (history.nothing_own history.added) [] }
    ensures grows_without { Grows (at_most 2) nothing_yet (history.nothing_own history.added) [] }
    ensures not_whole { GrowsWhole (at_most 2) 0 nothing_yet (history.nothing_own history.added) [] → ⊥ }
    ensures grows_unseen { Grows (at_most 2) nothing_yet (history.one_own []) (add_web ∷ []) }
    ensures not_seen { GrowsWhole (at_most 2) 0 nothing_yet (history.one_own []) (add_web ∷ []) → ⊥ }
{}
