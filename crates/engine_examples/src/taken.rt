//! What is taken of a state for an endpoint.
ghost use Rattle.std.specs.Prelude.{◌≡◌, ℕ, [], ◌∷◌, map};
ghost use Rattle.pol_model.specs.State.{State};
ghost use Rattle.pol_model.specs.declared.options.Options.{Options};
ghost use Rattle.pol_taken.specs.OfState.{IsTakenOf};
ghost use Rattle.pol_taken.specs.declared.taken.Taken.{Taken as OneTaken};

/// No two of its rows have the number of one selector ('profile').
pub fn rows_have_selectors_of_their_own()
    ensures { (options : Options) (s : State) (slot : ℕ) (taken : OneTaken)
        → IsTakenOf options s slot taken → map (λ row. row.selector) taken.sets ≡ 7 ∷ 7 ∷ [] → ⊥ }
{}
