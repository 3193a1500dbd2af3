//! How many changes may lead on from the map that was published last.
ghost use Rattle.std.specs.Prelude.{[], ◌∷◌};
ghost use Rattle.pol_map_changes.specs.declared.change.Change.{Change};
ghost use Rattle.pol_mapkey.specs.Entries.{Entry};
ghost use Rattle.pol_slot_map.specs.Base.{IsFew};

/// Changes are few up to twice as many as the maps before and after them have entries ('profile').
pub fn changes_that_are_few()
    ensures none { IsFew [] [] [] }
    ensures two_before { (change : Change) (entry : Entry) → IsFew (change ∷ change ∷ []) (entry ∷ []) [] }
    ensures two_after { (change : Change) (entry : Entry) → IsFew (change ∷ change ∷ []) [] (entry ∷ []) }
    ensures one_of_nothing { (change : Change) → IsFew (change ∷ []) [] [] → ⊥ }
    ensures three_before { (change : Change) (entry : Entry)
        → IsFew (change ∷ change ∷ change ∷ []) (entry ∷ []) [] → ⊥ }
    ensures three_after { (change : Change) (entry : Entry)
        → IsFew (change ∷ change ∷ change ∷ []) [] (entry ∷ []) → ⊥ }
{}
