//! What lacks a condition of what the program promises, and what its statuses tell. Each function does nothing: its contract is the law.
ghost use Rattle.std.specs.Prelude.{◌≡◌, ℕ, List, Option, [], ◌∷◌, codes, false, map, None, Some, true};
ghost use Rattle.std.specs.Io.KnownBytes.{Appends};
ghost use Rattle.pol_answer.specs.Text.{texts_of};
ghost use Rattle.pol_answer.specs.declared.answer.Answer.TheVariants as answer;
ghost use Rattle.pol_generated.specs.Requests.{requests_asked};
ghost use Rattle.pol_history.specs.ExampleEvents.{add_web, commit, open_map, publish};
ghost use Rattle.pol_map_dump.specs.AtEnd.{is_live};
ghost use Rattle.pol_model.specs.declared.options.Options.{Options as AllOptions};
ghost use Rattle.pol_streams.specs.Bytes.{AppendsPart};
ghost use Rattle.policyd.specs.Ends.{has_read_all, is_answered, is_silent, status_number, statuses};
ghost use Rattle.policyd.specs.Headline.{HoldsText, LeavesHistory, LeavesRounds, WritesDrill, WritesFinding, WritesMap, WritesPartOfDrill};

/// A run of a script without lines leaves nothing: no history with a commit, or with a map of an endpoint that isn't there, no text,
/// and it writes nothing. And what was seen in the end is told: without rounds too it is a legal history, of the endpoints that are
/// added first ('profile').
pub(crate) fn runs_that_leave_nothing()
    ensures is { (options : AllOptions) → LeavesHistory options (Some []) (Some []) [] (Some []) }
    ensures nothing_seen { (options : AllOptions) (old new : Option (List ℕ)) (script : List ℕ)
        → LeavesHistory options old new script None → ⊥ }
    ensures not_written { (options : AllOptions) → LeavesHistory options (Some []) (Some (10 ∷ [])) [] (Some []) → ⊥ }
    ensures another_text { (options : AllOptions) → HoldsText options [] (10 ∷ []) [] → ⊥ }
    ensures answer_to_no_line { (options : AllOptions) → HoldsText options [] (texts_of (answer.Phase 1 ∷ [])) [] → ⊥ }
    ensures not_held { (options : AllOptions) → HoldsText options [] [] (commit 0 0 add_web ∷ []) → ⊥ }
    ensures not_legal { (options : AllOptions) → HoldsText options [] [] (publish 1 1 open_map ∷ []) → ⊥ }
    ensures no_rounds_seen { (options : AllOptions) (rounds : ℕ) → LeavesRounds options rounds None → ⊥ }
    ensures rounds_not_asked { (options : AllOptions) → LeavesRounds options 0 (Some []) → ⊥ }
    ensures rounds_not_legal { (options : AllOptions)
        → LeavesRounds options 0 (Some (publish 1 1 open_map ∷ map (commit 0 0) (requests_asked 0))) → ⊥ }
{}

/// With `--map` the status is 0 where an endpoint of the name is live in the end, and 1 where none is. With `--audit` it is 1 where
/// there is no divider. Where the disk fails before it is open, no line is answered, and nothing is found ('profile').
pub(crate) fn statuses_are_told()
    ensures live { (options : AllOptions) (name : List ℕ) (old new : Option (List ℕ)) (script : List ℕ) (status : ℕ)
        → is_live options name script ≡ true → WritesMap options name old new script status → status ≡ 0 }
    ensures nobody { (options : AllOptions) (name : List ℕ) (old new : Option (List ℕ)) (script : List ℕ) (status : ℕ)
        → is_live options name script ≡ false → WritesMap options name old new script status → status ≡ 1 }
    ensures no_divider { (old new : Option (List ℕ)) (status : ℕ) → WritesFinding old new [] status → status ≡ 1 }
    ensures not_opened { (options : AllOptions) (old new : Option (List ℕ)) (script : List ℕ) (status : ℕ)
        → WritesDrill options 3 old new script status → (status ≡ 0) × Appends old new (codes "restart 0\n") }
    ensures part_not_opened { (options : AllOptions) (old new : Option (List ℕ)) (script : List ℕ)
        → WritesPartOfDrill options 3 old new script → AppendsPart old new (codes "restart 0\n") }
{}

/// What is told of each status: its number; at which all answers were written and at which nothing was; and at which the script was
/// read whole ('profile').
pub(crate) fn statuses_tell_ends()
    ensures numbers { map status_number statuses ≡ 0 ∷ 1 ∷ 2 ∷ 3 ∷ 4 ∷ 5 ∷ 6 ∷ [] }
    ensures answered { map is_answered statuses ≡ true ∷ true ∷ false ∷ false ∷ false ∷ false ∷ false ∷ [] }
    ensures silent { map is_silent statuses ≡ false ∷ false ∷ true ∷ true ∷ false ∷ true ∷ true ∷ [] }
    ensures read { map has_read_all statuses ≡ true ∷ true ∷ false ∷ false ∷ true ∷ false ∷ false ∷ [] }
{}
