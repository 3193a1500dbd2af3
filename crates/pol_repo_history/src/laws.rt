//! Laws of a repository at a history, each the contract of a function that does nothing.
ghost use Rattle.std.specs.Prelude.{◌≡◌, ◌++◌, ◌∷◌, [], ℕ, List, None, Option};
ghost use Rattle.pol_mapkey.specs.Entries.{Entry as MapEntry};
ghost use Rattle.pol_sets.specs.declared.sets.Move.{Move};
ghost use Rattle.pol_sets.specs.declared.sets.SetRow.{SetRow};
ghost use Rattle.pol_model.specs.declared.options.Options.{Options};
ghost use Rattle.pol_model.specs.declared.request.Request.{Request};
ghost use Rattle.pol_history.specs.declared.event.EndpointId.{EndpointId};
ghost use Rattle.pol_history.specs.declared.event.HistoryEvent.{HistoryEvent};
ghost use Rattle.pol_history.specs.declared.event.HistoryEvent.TheVariants as event;
ghost use Rattle.pol_history.specs.Commits.{commits_in, revision_of, state_now};
ghost use Rattle.pol_taken.specs.OfState.{IsTakenOf};
ghost use Rattle.pol_taken.specs.declared.taken.Taken.{Taken};
ghost use Rattle.pol_set_moves.specs.Moves.{TellsMovesSince};
ghost use Rattle.pol_repo.specs.Repository.{Repository, state_in};
ghost use Rattle.pol_repo_history.specs.AtHistory.{IsAt};

/// Its state is that of the history's commits, and its revision how many they are.
pub fn a_repository_has_the_state_of_its_history()
    ensures state { (options : Options) (history : List HistoryEvent) (repo : Repository)
        → IsAt options history repo → state_in repo ≡ state_now options history }
    ensures revision { (options : Options) (history : List HistoryEvent) (repo : Repository)
        → IsAt options history repo → (state_in repo).revision ≡ revision_of history }
{}

/// Where the history goes on by a commit, it is at that with the request behind its own; where it goes on by a report, as it
/// is.
pub fn a_repository_goes_on_with_its_history()
    ensures commit { (options : Options) (history : List HistoryEvent) (repo : Repository) (pass number : ℕ)
        (request : Request) → IsAt options history repo → IsAt options (history ++ event.Commit pass number request
        ∷ []) (record repo { journal = repo.journal ++ request ∷ []; prepared = None }) }
    ensures publish { (options : Options)
        (history : List HistoryEvent) (repo : Repository) (endpoint : EndpointId) (revision : ℕ) (table : List MapEntry)
        → IsAt options history repo → IsAt options (history ++ event.Publish endpoint revision table ∷ []) repo }
    ensures blocked { (options : Options)
        (history : List HistoryEvent) (repo : Repository) (endpoint : EndpointId) (revision count : ℕ)
        → IsAt options history repo → IsAt options (history ++ event.Blocked endpoint revision count ∷ []) repo }
{}

/// What is taken of it, and the moves that it tells, are those of the history, whatever the limit of maps.
pub fn what_is_taken_is_of_the_history()
    ensures taken { (options : Options) (history : List HistoryEvent) (repo : Repository) (slot : ℕ) (taken : Taken)
        → IsAt options history repo → IsTakenOf repo.options (state_in repo) slot taken
        → IsTakenOf options (state_now options history) slot taken }
    ensures moves { (options : Options) (history : List HistoryEvent)
        (repo : Repository) (since : Option ℕ) (rows : List SetRow) (moves : Option (List Move))
        → IsAt options history repo → TellsMovesSince repo.options repo.journal since rows moves
        → TellsMovesSince options (commits_in history) since rows moves }
{}
