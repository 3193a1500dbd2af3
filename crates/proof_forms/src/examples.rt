//! Laws and examples. Each function does nothing: its contract is the law.
ghost use Rattle.std.specs.Prelude.{◌≡◌, ◌++◌, ◌<◌, ◌∷◌, ℕ, List, [], None, Some, max};
ghost use Rattle.proof_forms.specs.Clauses.{Adds};
ghost use Rattle.proof_forms.specs.Faults.{first_fault};
ghost use Rattle.proof_forms.specs.Lists.{greatest, over};
ghost use Rattle.proof_forms.specs.Walks.{LeadDown};

/// Computed examples: each is `refl`, and refuses a definition that was turned.
pub fn small_lists()
    ensures none { greatest [] ≡ 0 }
    ensures greatest { greatest (3 ∷ 7 ∷ 5 ∷ []) ≡ 7 }
    ensures at_the_limit { over 5 (3 ∷ 7 ∷ 5 ∷ []) ≡ 7 ∷ [] }
    ensures first { first_fault 4 (3 ∷ 7 ∷ 5 ∷ []) ≡ Some 7 }
    ensures no_fault { first_fault 7 (3 ∷ 7 ∷ 5 ∷ []) ≡ None }
{}

/// A condition of a record that a small value lacks alone is refuted by that condition. So none of them is idle.
pub fn what_is_no_addition()
    ensures in_front { Adds (1 ∷ []) (2 ∷ 1 ∷ []) 2 → ⊥ }
    ensures up { LeadDown (1 ∷ 1 ∷ []) → ⊥ }
{}

/// A law of a definition, by induction on the list that it takes apart.
pub fn the_greatest_of_two_lists()
    ensures { (one other : List ℕ) → greatest (one ++ other) ≡ max (greatest one) (greatest other) }
{}
