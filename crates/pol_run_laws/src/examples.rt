//! Small outputs that a legal history places, so that the premises of the law of runs are possible. Three are
//! of those of `pol_run` that no lines answered in input order give.
ghost use Rattle.std.specs.Prelude.{◌≡◌};
ghost use Rattle.pol_history.specs.Legal.{IsLegal};
ghost use Rattle.pol_run_laws.specs.Cut.{answers_to, script_of};
ghost use Rattle.pol_run_laws.specs.Examples as history;
ghost use Rattle.pol_run_laws.specs.Placed.{IsPlaced};
ghost use Rattle.pol_run.specs.ExampleLines.{one_entry, unlimited};
ghost use Rattle.pol_run.specs.RightRuns as lines;

/// A session is shown an older map than another one has seen ('profile').
pub fn older_map()
    ensures legal { IsLegal unlimited history.older_map }
    ensures placed { IsPlaced unlimited history.older_map lines.older_map }
{}

/// Commits of two sessions have their numbers in another order than their lines, over three phases ('profile').
pub fn interleaved()
    ensures legal { IsLegal unlimited history.interleaved }
    ensures placed { IsPlaced unlimited history.interleaved lines.interleaved }
{}

/// A `synced` line has a row of an endpoint that is gone and one of its successor of the same name ('profile').
pub fn rows_of_old_and_new()
    ensures legal { IsLegal one_entry history.rows_of_old_and_new }
    ensures placed { IsPlaced one_entry history.rows_of_old_and_new lines.rows_of_old_and_new }
{}

/// Lines of two sessions over three phases, and a faulty one: the commands of each session in each phase, and the answers
/// in the order of the lines ('profile').
pub fn cut_and_put_back()
    ensures cut { script_of 2 history.read_lines ≡ history.cut_lines }
    ensures put_back { answers_to history.read_lines history.told_lines ≡ history.answered_lines }
{}
