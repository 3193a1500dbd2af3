//! Laws that compute: the changes of sets that a small journal makes. Each function does nothing: its contract is the law.
ghost use Rattle.std.specs.Prelude.{◌≡◌, ◌∷◌, [], ℕ, None, Option, Some, false, true, List};
ghost use Rattle.pol_sets.specs.declared.sets.Move.{Move as OneMove};
ghost use Rattle.pol_sets.specs.declared.sets.SetRow.{SetRow as OneRow};
ghost use Rattle.pol_model_laws.specs.WorkedMaps.{ordinary};
ghost use Rattle.pol_set_moves.specs.Changes.{IsListedSince, changes_between, horizon_of, is_listed, revision_before, revisions_until, set_in, state_at};
ghost use Rattle.pol_set_moves.specs.Examples.{listings, of_net, of_x};
ghost use Rattle.pol_set_moves.specs.Moves.{TellsMovesSince};

/// A set changes with the request that lists its peer first, where that peer selects somebody then, with each one that
/// changes whom it selects, and with the one after which it isn't listed; it counts once, however often it is listed.
pub fn changes_are_counted()
    ensures revisions { revisions_until ordinary listings 5 ≡ 5 ∷ 3 ∷ 2 ∷ [] }
    ensures none { changes_between (state_at ordinary listings 3) (state_at ordinary listings 4) ≡ 0 }
    ensures sets { (set_in (state_at ordinary listings 2) of_x ≡ [])
        × (set_in (state_at ordinary listings 3) of_x ≡ 257 ∷ []) }
    ensures horizon { horizon_of ordinary listings ≡ 0 }
    ensures before { (revision_before 0 (5 ∷ 3 ∷ 2 ∷ []) ≡ 5)
        × (revision_before 2 (5 ∷ 3 ∷ 2 ∷ []) ≡ 2) × (revision_before 3 (5 ∷ 3 ∷ 2 ∷ []) ≡ 0) }
{}

/// A peer is listed in a state by whatever policy, and ever since a revision where no state from it on lacks it.
pub fn listings_are_told()
    ensures by_two { is_listed (state_at ordinary listings 4) of_x ≡ true }
    ensures by_one { is_listed (state_at ordinary listings 5) of_x ≡ true }
    ensures another { is_listed (state_at ordinary listings 2) of_net ≡ true }
    ensures not_yet { is_listed (state_at ordinary listings 1) of_x ≡ false }
    ensures gone { is_listed (state_at ordinary listings 5) of_net ≡ false }
    ensures since { IsListedSince ordinary listings 2 of_x }
    ensures not_since { IsListedSince ordinary listings 1 of_x → ⊥ }
    ensures no_longer { IsListedSince ordinary listings 2 of_net → ⊥ }
{}

/// What is told of the moves of a row is one thing: since a revision from which on its peer is listed its one move, since
/// an earlier one none, and nothing where no revision is known.
pub fn moves_are_told()
    ensures since { (row : OneRow) (moves : Option (List OneMove))
        → row.peer ≡ of_x → TellsMovesSince ordinary listings (Some 2) (row ∷ []) moves
        → moves ≡ Some (record { selector = row.selector; gained = 257 ∷ []; lost = [] } ∷ []) }
    ensures still { (row : OneRow) (moves : Option (List OneMove))
        → row.peer ≡ of_x → TellsMovesSince ordinary listings (Some 3) (row ∷ []) moves
        → moves ≡ Some (record { selector = row.selector; gained = []; lost = [] } ∷ []) }
    ensures earlier { (row : OneRow) (moves : Option (List OneMove))
        → row.peer ≡ of_x → TellsMovesSince ordinary listings (Some 1) (row ∷ []) moves → moves ≡ Some [] }
    ensures unknown { (rows : List OneRow) (moves : Option (List OneMove))
        → TellsMovesSince ordinary listings None rows moves → moves ≡ None }
{}
