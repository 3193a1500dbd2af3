//! Laws of histories of hints.
ghost use Rattle.std.specs.Prelude.{◌≡◌, ◌<◌, ◌≤◌, ℕ, List, [], ◌∷◌, ◌++◌, Some, length, slice_get};
ghost use mathlib.Core.List.{IsPrefix};
ghost use Rattle.pol_hints.specs.History.{IsHistory, hints_put, hints_taken, longer, waiting};
ghost use Rattle.pol_hints.specs.Passes.{one_round};
ghost use Rattle.pol_hints.specs.Shares.{IsAll, IsPart, IsSame, half, together};
ghost use Rattle.pol_hints.specs.declared.turn.Turn.{Turn as OneTurn};
ghost use Rattle.pol_hints.specs.declared.turn.Turn.TheVariants.{Put, Taken};
ghost use Rattle.pol_hints.specs.declared.standing.Share.{Share as OneShare};

/// Hints are a queue: in a history the hints taken are the first of the hints put, and the others wait in their order. A put
/// adds its hint to those put, a take its hint to those taken, and neither changes the other.
pub fn hints_are_a_queue()
    ensures first { (history : List OneTurn) → IsHistory history → IsPrefix (hints_taken history) (hints_put history) }
    ensures in_order { (history : List OneTurn)
        → IsHistory history → hints_taken history ++ waiting history ≡ hints_put history }
    ensures put { (history : List OneTurn) (slot : ℕ)
        → (hints_put (history ++ Put slot ∷ []) ≡ hints_put history ++ slot ∷ [])
        × (hints_taken (history ++ Put slot ∷ []) ≡ hints_taken history) }
    ensures taken { (history : List OneTurn) (slot : ℕ)
        → (hints_taken (history ++ Taken slot ∷ []) ≡ hints_taken history ++ slot ∷ [])
        × (hints_put (history ++ Taken slot ∷ []) ≡ hints_put history) }
{}

/// Of two that begin one history, the longer one goes on from both, and begins it too. What begins a history is one, and has
/// beginnings of the hints that were put in it and of those that were taken.
pub fn histories_go_on()
    ensures first { (v w whole : List OneTurn) → IsPrefix v whole → IsPrefix w whole → IsPrefix v (longer v w) }
    ensures second { (v w whole : List OneTurn) → IsPrefix v whole → IsPrefix w whole → IsPrefix w (longer v w) }
    ensures whole { (v w whole : List OneTurn) → IsPrefix v whole → IsPrefix w whole → IsPrefix (longer v w) whole }
    ensures begun { (v whole : List OneTurn) → IsPrefix v whole → IsHistory whole → IsHistory v }
    ensures put { (v whole : List OneTurn) → IsPrefix v whole → IsPrefix (hints_put v) (hints_put whole) }
    ensures taken { (v whole : List OneTurn) → IsPrefix v whole → IsPrefix (hints_taken v) (hints_taken whole) }
{}

/// Shares that were split off and are joined again, in any order, are what they were: so the pass that all others were
/// joined to is the only one again.
pub fn shares_come_together()
    ensures halves { (s : OneShare) → IsSame (together (half s) (half s)) s }
    ensures joined { (s t u w : OneShare) → IsSame s t → IsSame u w → IsSame (together s u) (together t w) }
    ensures either { (s t : OneShare) → IsSame (together s t) (together t s) }
    ensures three { (s t u : OneShare) → IsSame (together (together s t) u) (together s (together t u)) }
    ensures all { (s t : OneShare) → IsPart t → IsSame s t → IsAll t → IsAll s }
    ensures less { (s : OneShare) → IsPart s → IsAll s → IsAll (half s) → ⊥ }
{}

/// A round of hints has a place for each slot below its number, and no more places than slots: so it has each of them once.
pub fn rounds_reach_each_slot()
    ensures each { (first slots slot : ℕ)
        → first ≤ slots → slot < slots → (place : ℕ) × (slice_get (one_round first slots) place ≡ Some slot) }
    ensures no_more { (first slots : ℕ) → first ≤ slots → length (one_round first slots) ≡ slots }
{}
