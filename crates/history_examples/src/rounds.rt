//! What the history of a generated script holds, and what lacks a condition of it.
ghost use Rattle.std.specs.Prelude.{◌≡◌, ℕ, [], slice_get, Some};
ghost use Rattle.pol_generated.specs.Asked.{asked};
ghost use Rattle.pol_generated.specs.HistoryOfRounds.{HasMapFor, IsHistoryOfRounds};
ghost use Rattle.pol_generated.specs.Requests.{requests_asked};
ghost use Rattle.pol_history.specs.Commits.{Lives, commits_in, state_after};
ghost use Rattle.pol_history.specs.ExampleEvents.{web_since};
ghost use Rattle.pol_model.specs.declared.request.Query.{Query};
ghost use Rattle.pol_run.specs.ExampleLines.{db, packet_to, unlimited, web};
ghost use Rattle.pol_run_laws.specs.HistoryOfRun.{HasPublished};
ghost use Rattle.pol_script.specs.declared.command.Command.TheVariants as command;
ghost use Rattle.history_examples.specs.Histories as history;
ghost use Rattle.history_examples.specs.Rounds.{committed, published_though_gone};

/// The map of a verdict is of the endpoint that the query names, and that lives at the revision. What is refuted lacks one of these:
/// an endpoint that has gone has a published map, and one whose map wasn't published lives ('profile').
pub fn maps_of_verdicts()
    ensures is { HasMapFor unlimited history.published (packet_to web) 1 }
    ensures not_published { HasMapFor unlimited history.added (packet_to web) 1 → ⊥ }
    ensures of_another_name { HasMapFor unlimited history.published (packet_to db) 1 → ⊥ }
    ensures of_one_that_has_gone { HasMapFor unlimited published_though_gone (packet_to web) 2 → ⊥ }
    ensures added_lives { Lives (state_after unlimited history.added 1) (web_since 1) }
    ensures gone_is_published { HasPublished published_though_gone (web_since 1) 2 }
{}

/// The commits are the requests of the script, and for each verdict the map was published. What is refuted lacks one of the two: the
/// history without maps has all commits, and a script without rounds asks for no verdict ('profile').
pub fn histories_of_rounds()
    ensures all_commits { commits_in (committed (requests_asked 1)) ≡ requests_asked 1 }
    ensures no_map { IsHistoryOfRounds unlimited 1 (committed (requests_asked 1)) → ⊥ }
    ensures no_verdicts { (i session : ℕ) (query : Query)
        → slice_get (asked 0) i ≡ Some (command.Look session query) → ⊥ }
    ensures no_commits { IsHistoryOfRounds unlimited 0 [] → ⊥ }
{}
