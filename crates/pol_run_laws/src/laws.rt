//! The law of runs, over the definitions alone.
ghost use Rattle.pol_run_laws.specs.LawOfRuns.{HistoriesHoldTheRun, PlacedAnswersAreARun, PlacedLinesAreARun};

/// The law of runs: where a history is legal and places the lines, each between two beginnings of it with an answer that
/// the line's call of the node allows there, the lines are a run of the policy machine: every clause, with the floors and
/// the rows. It holds for any number of sessions, phases and reports, in whatever order they stand ('profile').
pub fn placed_lines_are_a_run()
    ensures { PlacedLinesAreARun }
{}

/// So the texts of one placed answer for each line of a script, with their status, are a run ('profile').
pub fn placed_answers_are_a_run()
    ensures { PlacedAnswersAreARun }
{}

/// And the history holds what was written: its commits are those of the run, each session's by a pass of its own; the map
/// of each verdict was published and that of each row blocked; and each endpoint that a `synced` line speaks for and that
/// is still live has a report at its revision or later ('profile').
pub fn histories_hold_runs()
    ensures { HistoriesHoldTheRun }
{}
