//! Laws of generated scripts, over the definitions alone.
//! Each function does nothing: its contract is the law.
ghost use Rattle.std.specs.Prelude.{◌≡◌, ℕ, ◌+◌, ◌*◌, ◌/◌, List, Option, length, map, Ok};
ghost use Rattle.std.specs.List.{count_by};
ghost use Rattle.pol_model_laws.specs.WithoutFaults.{WithoutFaults};
ghost use Rattle.pol_gen.specs.Generated.{generated};
ghost use Rattle.pol_model.specs.declared.options.Options.{Options};
ghost use Rattle.pol_run.specs.Run.{readings_of, status_of};
ghost use Rattle.pol_run.specs.Serial.{serial_answers};
ghost use Rattle.pol_run.specs.Spots.{Reading};
ghost use Rattle.pol_script.specs.Lines.{lines_of};
ghost use Rattle.pol_script.specs.Reading.{reading_of};
ghost use Rattle.pol_generated.specs.Asked.{asked};
ghost use Rattle.pol_generated.specs.HistoryOfRounds.{HistoriesHoldRounds};
ghost use Rattle.pol_generated.specs.Maps.{MapsAreSmall};
ghost use Rattle.pol_generated.specs.OneRun.{HasOneRun, SerialAnswersAreARun};
ghost use Rattle.pol_generated.specs.Requests.{is_committed, is_verdict, requests_asked, requests_read};

/// Each line of a generated script is read as what it is to ask, for every number, and there are no other
/// lines. So none has a fault of its own ('profile').
pub fn generated_lines_are_read()
    ensures { (n : ℕ) → map reading_of (lines_of (generated n)) ≡ map Ok (asked n) }
{}

/// The requests of a generated script are those which its lines read as, in their order, and there are 32 and one for each
/// round ('profile').
pub fn requests_are_those_of_lines()
    ensures lines { (n : ℕ) → requests_read (readings_of (generated n)) ≡ requests_asked n }
    ensures count { (n : ℕ) → length (requests_asked n) ≡ 32 + n }
{}

/// The requests of a generated script commit one after another, for every number and whatever the options: each is
/// valid, and none has a fault in the state that those before it made ('profile').
pub fn no_request_has_a_fault()
    ensures { (options : Options) (n : ℕ) → WithoutFaults options (requests_asked n) }
{}

/// So no line of a generated script is refused, and none asks for an endpoint that isn't there: answered in input
/// order, from the state alone, none has an answer that makes the status 1 ('profile').
pub fn no_generated_line_is_refused()
    ensures { (options : Options) (n : ℕ) → status_of (serial_answers options (readings_of (generated n))) ≡ 0 }
{}

/// So 32 lines of a generated script and one for each round are answered by a commit: answered in input order, from the
/// state alone, as the summary counts them ('profile').
pub fn commits_are_counted()
    ensures { (options : Options) (n : ℕ)
        → count_by is_committed (serial_answers options (readings_of (generated n))) ≡ 32 + n }
{}

/// And there are 32 verdicts for each ten rounds, the last of them perhaps begun: answered in input order, from the state
/// alone, as the summary counts them by their words ('profile').
pub fn verdicts_are_counted()
    ensures { (options : Options) (n : ℕ)
        → count_by is_verdict (serial_answers options (readings_of (generated n))) ≡ 32 * ((n + 9) / 10) }
{}

/// No policy map of a generated script has more than 1,923 entries, at any number of its commits, for every number and
/// whatever the options ('profile').
pub fn maps_are_small()
    ensures { (options : Options) (n : ℕ) → MapsAreSmall options n }
{}

/// A generated script has one run: where maps have no limit, or one of 1,923 entries at least, the answers in input order are
/// a run, and each run has these answers, so each has the same commits, words and counts ('profile').
pub fn generated_scripts_have_one_run()
    ensures run { SerialAnswersAreARun }
    ensures one { HasOneRun }
{}

/// So whatever history places such a run, its commits are the requests of the script, in order, and for each verdict the map
/// of its endpoint was published at the number of commits before the line ('profile').
pub fn histories_hold_generated_scripts()
    ensures { HistoriesHoldRounds }
{}

/// Answers in input order don't depend on the limit of maps, whatever the lines: so the summary of a generated script doesn't
/// ('profile').
pub fn no_limit_changes_answers()
    ensures { (options : Options) (limit : Option ℕ) (readings : List Reading)
        → serial_answers (record options { map_max = limit }) readings ≡ serial_answers options readings }
{}
