//! What the history of a run holds of its answers, and for conditions of it histories that lack one alone.
ghost use Rattle.std.specs.Prelude.{List, [], ◌∷◌, Some, ℕ};
ghost use Rattle.pol_history.specs.Calls.{IsAccepted};
ghost use Rattle.pol_history.specs.ExampleEvents.{add_web, at_most, web_since};
ghost use Rattle.pol_history.specs.declared.event.HistoryEvent.{HistoryEvent};
ghost use Rattle.pol_model.specs.declared.options.Options.{Options};
ghost use Rattle.pol_run.specs.ExampleLines.{unlimited};
ghost use Rattle.pol_run.specs.Spots.{Line};
ghost use Rattle.pol_run_laws.specs.HistoryOfRun.{HasBlocked, HasPublished, HasReport, IsHistoryOf};
ghost use Rattle.history_examples.specs.Conditions.{Apart, Commits, Condition, Holds, LacksAlone, OnePass, Rows, Syncs, Verdicts};
ghost use Rattle.history_examples.specs.Held as held;
ghost use Rattle.history_examples.specs.Histories as history;

/// A published map is of the revision, a report of the revision or a later one, and a row of its name and count
/// ('profile').
pub fn reports()
    ensures published { HasPublished history.published (web_since 1) 1 }
    ensures published_before { HasPublished history.published (web_since 1) 2 → ⊥ }
    ensures published_of_another { HasPublished history.published (web_since 2) 1 → ⊥ }
    ensures blocked { HasBlocked history.full held.row }
    ensures of_another_name { HasBlocked history.full held.row_of_another → ⊥ }
    ensures of_another_count { HasBlocked history.full held.row_of_three → ⊥ }
    ensures at_another_revision { HasBlocked history.full held.row_at_two → ⊥ }
    ensures reported { HasReport history.published (web_since 1) 1 }
    ensures reported_before { HasReport history.published (web_since 1) 2 → ⊥ }
    ensures not_reported { HasReport history.added (web_since 1) 1 → ⊥ }
{}

/// An accepted request is the pass's, committed in the call, and answered with its revision, its identity and the slots there
/// ('profile').
pub fn acceptances()
    ensures is { IsAccepted (at_most 2) 0
        [] history.added add_web (record { revision = 1; identity = Some 256; slots = 1 }) }
    ensures of_another_pass { IsAccepted
        (at_most 2) 1 [] history.added add_web (record { revision = 1; identity = Some 256; slots = 1 }) → ⊥ }
    ensures seen_before { IsAccepted (at_most 2) 0 history.added history.added add_web
        (record { revision = 1; identity = Some 256; slots = 1 }) → ⊥ }
    ensures another_revision { IsAccepted
        (at_most 2) 0 [] history.added add_web (record { revision = 2; identity = Some 256; slots = 1 }) → ⊥ }
    ensures another_identity { IsAccepted
        (at_most 2) 0 [] history.added add_web (record { revision = 1; identity = Some 257; slots = 1 }) → ⊥ }
    ensures another_number_of_slots { IsAccepted
        (at_most 2) 0 [] history.added add_web (record { revision = 1; identity = Some 256; slots = 2 }) → ⊥ }
{}

/// The conditions of `IsHistoryOf` are these six, and all of them make one ('profile').
pub fn conditions_of_histories()
    ensures each { (options : Options) (history : List HistoryEvent)
        (lines : List Line) (it : IsHistoryOf options history lines) (condition : Condition)
        → Holds condition options history lines it.pass_of }
    ensures all { (options : Options) (history : List HistoryEvent) (lines : List Line) (pass_of : ℕ → ℕ)
        → ((condition : Condition) → Holds condition options history lines pass_of)
        → IsHistoryOf options history lines }
{}

/// The commits are those of the run, a session's of one pass, and those of two sessions of two. The map of each verdict was published,
/// each row that was told was reported, and behind `synced` each endpoint that lives on has a report. What lacks one of these alone is
/// no history of the run ('profile').
pub fn histories_of_runs()
    ensures is { IsHistoryOf unlimited history.published held.told_both }
    ensures other_commits { LacksAlone Commits unlimited history.added [] }
    ensures two_passes_of_a_session { LacksAlone OnePass unlimited held.by_two_passes held.of_one_session }
    ensures two_sessions_of_a_pass { LacksAlone Apart unlimited held.by_one_pass held.of_two_sessions }
    ensures map_not_published { LacksAlone Verdicts unlimited history.added held.told_a_verdict }
    ensures row_not_reported { LacksAlone Rows unlimited history.published held.told_a_row }
    ensures synced_without_report { LacksAlone Syncs unlimited history.added held.told_no_row }
{}
