//! What a pass of a queue of hints is, what a call adds to it, and what lacks a condition.
ghost use Rattle.std.specs.Prelude.{◌≡◌, [], ◌∷◌};
ghost use Rattle.pol_hints.specs.Passes.{Adds, HintsBelow, IsHintPassOf, Name, PutsRound, Sees};
ghost use Rattle.pol_hints.specs.Serving.{StopsServing};
ghost use Rattle.pol_hints.specs.Shares.{half, no_share, share, whole_share};
ghost use Rattle.pol_hints.specs.declared.standing.Share.{Share};
ghost use Rattle.pol_hints.specs.declared.turn.Turn.TheVariants.{Put, Taken};
ghost use Rattle.history_examples.specs.Hints.{pass, queue_with};

/// A pass is of one queue and has a share in it. What it has seen is a history, at whose end no more hints wait than there is
/// room ('profile').
pub fn passes_of_a_queue()
    ensures is { (queue : Name)
        → IsHintPassOf (queue_with 1 queue) (pass queue (half whole_share) (Put 1 ∷ Taken 1 ∷ Put 0 ∷ []) 0) }
    ensures of_another { (queue other : Name) → (other ≡ queue → ⊥)
        → IsHintPassOf (queue_with 1 queue) (pass other whole_share [] 0) → ⊥ }
    ensures without_a_share { (queue : Name)
        → IsHintPassOf (queue_with 1 queue) (pass queue no_share [] 0) → ⊥ }
    ensures share_of_nothing { (queue : Name)
        → IsHintPassOf (queue_with 1 queue) (pass queue (share 1 0) [] 0) → ⊥ }
    ensures taken_though_none_waits { (queue : Name)
        → IsHintPassOf (queue_with 1 queue) (pass queue whole_share (Taken 1 ∷ []) 0) → ⊥ }
    ensures more_than_room { (queue : Name)
        → IsHintPassOf (queue_with 1 queue) (pass queue whole_share (Put 1 ∷ Put 0 ∷ []) 0) → ⊥ }
{}

/// A call adds one turn behind all that was seen, and one to the pass's own. Of the only pass nothing comes between ('profile').
pub fn calls_that_add()
    ensures is { (queue : Name) (share : Share)
        → Adds (Put 1) (pass queue share [] 0) (pass queue share (Put 1 ∷ []) 1) }
    ensures not_its_own { (queue : Name) (share : Share)
        → Adds (Put 1) (pass queue share [] 0) (pass queue share (Put 1 ∷ []) 0) → ⊥ }
    ensures another_turn { (queue : Name) (share : Share)
        → Adds (Put 1) (pass queue share [] 0) (pass queue share (Put 2 ∷ []) 1) → ⊥ }
    ensures goes_back { (queue : Name) (share : Share)
        → Adds (Put 1) (pass queue share (Put 2 ∷ []) 1) (pass queue share (Put 1 ∷ []) 2) → ⊥ }
    ensures between { (queue : Name)
        → Adds (Put 1) (pass queue whole_share [] 0) (pass queue whole_share (Put 2 ∷ Put 1 ∷ []) 1) → ⊥ }
{}

/// Hints of slots below a number are put, and none is taken ('profile').
pub fn hints_that_are_put()
    ensures is { (queue : Name) (share : Share)
        → HintsBelow 2 (pass queue share [] 0) (pass queue share (Put 1 ∷ []) 1) }
    ensures of_a_slot_above { (queue : Name) (share : Share)
        → HintsBelow 1 (pass queue share [] 0) (pass queue share (Put 1 ∷ []) 1) → ⊥ }
    ensures one_is_taken { (queue : Name) (share : Share)
        → HintsBelow 2 (pass queue share [] 0) (pass queue share (Put 1 ∷ Taken 1 ∷ []) 2) → ⊥ }
    ensures one_is_forgotten { (queue : Name) (share : Share)
        → HintsBelow 2 (pass queue share (Put 1 ∷ []) 1) (pass queue share [] 1) → ⊥ }
{}

/// A refused call shows its pass what had come, adds nothing, and was refused for what waited then ('profile').
pub fn refused_calls()
    ensures is { (queue : Name) → Sees (λ hints.
        hints ≡ 1 ∷ []) (pass queue (half whole_share) [] 0) (pass queue (half whole_share) (Put 1 ∷ []) 0) }
    ensures not_so { (queue : Name) (share : Share)
        → Sees (λ hints. hints ≡ []) (pass queue share [] 0) (pass queue share (Put 1 ∷ []) 0) → ⊥ }
    ensures it_added { (queue : Name) (share : Share)
        → Sees (λ hints. hints ≡ 1 ∷ []) (pass queue share [] 0) (pass queue share (Put 1 ∷ []) 1) → ⊥ }
    ensures goes_back { (queue : Name) (share : Share)
        → Sees (λ hints. hints ≡ 1 ∷ []) (pass queue share (Put 2 ∷ []) 0) (pass queue share (Put 1 ∷ []) 0) → ⊥ }
    ensures between { (queue : Name) → Sees (λ hints.
        hints ≡ 1 ∷ []) (pass queue whole_share [] 0) (pass queue whole_share (Put 1 ∷ []) 0) → ⊥ }
{}

/// A round puts a hint for each slot, from some slot on, or fills the queue ('profile').
pub fn rounds_of_hints()
    ensures all { (queue : Name) (share : Share)
        → PutsRound 4 2 (pass queue share [] 0) (pass queue share (Put 1 ∷ Put 0 ∷ []) 2) }
    ensures until_full { (queue : Name) (share : Share)
        → PutsRound 1 2 (pass queue share [] 0) (pass queue share (Put 0 ∷ []) 1) }
    ensures one_is_left_out { (queue : Name) (share : Share)
        → PutsRound 4 2 (pass queue share [] 0) (pass queue share (Put 0 ∷ []) 1) → ⊥ }
    ensures none_is_put { (queue : Name) (share : Share)
        → PutsRound 4 2 (pass queue share [] 0) (pass queue share [] 0) → ⊥ }
    ensures not_its_own { (queue : Name) (share : Share)
        → PutsRound 4 2 (pass queue share [] 0) (pass queue share (Put 1 ∷ Put 0 ∷ []) 0) → ⊥ }
{}

/// A worker that stops for want of memory has run the job of each hint that it took, but of the last ('profile').
pub fn workers_that_stop()
    ensures is { (queue : Name) (share : Share)
        → StopsServing (λ slot. slot ≡ 1) (pass queue share (Put 1 ∷ Put 2 ∷ []) 0)
        (pass queue share (Put 1 ∷ Put 2 ∷ Taken 1 ∷ Taken 2 ∷ []) 2) }
    ensures job_not_run { (queue : Name) (share : Share)
        → StopsServing (λ slot. slot ≡ 2) (pass queue share (Put 1 ∷ Put 2 ∷ []) 0)
        (pass queue share (Put 1 ∷ Put 2 ∷ Taken 1 ∷ Taken 2 ∷ []) 2) → ⊥ }
{}
