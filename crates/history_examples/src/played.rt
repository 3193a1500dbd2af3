//! Two sessions that play a script in two phases, and the history that places its answers: the premises of the laws of runs and
//! of phases are possible with a faulty line, a refusal and `noendpoint`.
ghost use Rattle.std.specs.Prelude.{◌≡◌, ℕ, List, [], ◌∷◌};
ghost use Rattle.pol_answer.specs.declared.answer.Answer.TheVariants as answer;
ghost use Rattle.pol_history.specs.Legal.{IsLegal};
ghost use Rattle.pol_run_laws.specs.Cut.{AreSeated, answers_to, script_of};
ghost use Rattle.pol_run_laws.specs.Phases.{ArePlayedInPhases};
ghost use Rattle.pol_run_laws.specs.Placed.{IsPlaced};
ghost use Rattle.pol_run_laws.specs.Seats.{AreNewSeats, ArePhases};
ghost use Rattle.pol_run.specs.ExampleLines.{unlimited};
ghost use Rattle.pol_run.specs.Spots.{Line};
ghost use Rattle.pol_script.specs.declared.line_fault.LineFault.TheVariants.{Json, NoOp};
ghost use Rattle.std.specs.Prelude.{Err};
ghost use Rattle.history_examples.specs.Sessions as sessions;

/// The sessions play the script phase by phase, and so its lines were played in phases ('profile').
pub fn in_phases()
    ensures new { AreNewSeats (1 ∷ 2 ∷ []) sessions.seats }
    ensures seated { AreSeated 2 sessions.readings }
    ensures are { ArePhases unlimited (1
        ∷ 2 ∷ []) sessions.seats (script_of 2 sessions.readings) sessions.told sessions.seats_after }
    ensures legal { IsLegal unlimited sessions.history }
    ensures played { ArePlayedInPhases unlimited sessions.history sessions.lines }
{}

/// The history places the lines. A faulty line with another answer is placed by none ('profile').
pub fn by_one_history()
    ensures placed { IsPlaced unlimited sessions.history sessions.lines }
    ensures another_fault { IsPlaced unlimited [] ((Err Json, answer.BadLine NoOp) ∷ []) → ⊥ }
    ensures no_fault { IsPlaced unlimited [] ((Err Json, answer.NoEndpoint 0) ∷ []) → ⊥ }
{}
