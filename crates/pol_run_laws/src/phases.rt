//! Laws of scripts that sessions play phase by phase, over the definitions alone.
ghost use Rattle.std.specs.Prelude.{◌≡◌, ◌∷◌, ◌++◌, [], Err, List, Ok, length, map, ℕ};
ghost use Rattle.std.specs.List.{zip};
ghost use Rattle.pol_answer.specs.declared.answer.Answer.{Answer};
ghost use Rattle.pol_history.specs.declared.event.HistoryEvent.{HistoryEvent};
ghost use Rattle.pol_history.specs.Grows.{PassState};
ghost use Rattle.pol_history.specs.Meet.{HaveMet, meetings_of};
ghost use Rattle.pol_model.specs.declared.options.Options.{Options};
ghost use Rattle.pol_model.specs.declared.request.Request.{Request};
ghost use Rattle.pol_run.specs.Run.{readings_of};
ghost use Rattle.pol_run.specs.Spots.{Reading, session_of};
ghost use Rattle.pol_script.specs.declared.command.Command.{Command};
ghost use Rattle.pol_script.specs.declared.line_fault.LineFault.{LineFault};
ghost use Rattle.pol_run_laws.specs.Cut.{AreSeated, answers_to, command_behind, in_phase, script_of};
ghost use Rattle.pol_run_laws.specs.LawOfRuns.{PhasesArePlayed, PhasesAreARun, PhasesAreOfAHistory};
ghost use Rattle.pol_run_laws.specs.Phases.{played_in};
ghost use Rattle.pol_run_laws.specs.Seats.{ArePhases, HasGoneOn, HaveGoneOn, IsPhase};

/// The answers that are put back in the order of the lines are one for each, and in each phase each session's commands
/// have the answers that the session was told there, one behind another ('profile').
pub fn answers_are_put_back()
    ensures one_each { (lines : List Reading) (told : List (List (List Answer)))
        → length (answers_to lines told) ≡ length lines }
    ensures in_order { (sessions : ℕ) (lines : List Reading) (told : List (List (List Answer)))
        → AreSeated sessions lines → ((phase session : ℕ)
        → length (in_phase told phase session) ≡ length (in_phase (script_of sessions lines) phase session))
        → (phase session : ℕ) → played_in phase session (zip lines (answers_to lines told))
        ≡ zip (in_phase (script_of sessions lines) phase session) (in_phase told phase session) }
{}

/// One more: a line behind a script, a session beside those that went on, a phase behind those that were played ('profile').
pub fn phases_go_on()
    ensures command { (sessions : ℕ) (lines : List Reading) (command : Command)
        → script_of sessions (lines ++ Ok command ∷ [])
        ≡ command_behind sessions command (session_of (Ok command)) (script_of sessions lines) }
    ensures fault { (sessions : ℕ) (lines : List Reading) (fault : LineFault)
        → script_of sessions (lines ++ Err fault ∷ []) ≡ script_of sessions lines }
    ensures session { (options : Options)
        (olds : List PassState) (commands : List (List Command)) (told : List (List Answer))
        (thens : List PassState) (old : PassState) (its : List Command) (answers : List Answer) (then : PassState)
        → HaveGoneOn options olds commands told thens → HasGoneOn options old its answers then
        → HaveGoneOn options (olds ++ old ∷ []) (commands ++ its ∷ []) (told ++ answers ∷ []) (thens ++ then ∷ []) }
    ensures phase { (options : Options) (handed_out : List ℕ)
        (olds : List PassState) (commands : List (List (List Command))) (told : List (List (List Answer)))
        (thens news : List PassState) (its : List (List Command)) (answers : List (List Answer))
        → ArePhases options handed_out olds commands told thens → IsPhase options handed_out thens its answers news
        → ArePhases options handed_out olds (commands ++ its ∷ []) (told ++ answers ∷ []) news }
{}

/// Where each session went on, and then all passes met, a phase was played ('profile').
pub fn meetings_end_phases()
    ensures { (options : Options) (handed_out : List ℕ) (olds : List PassState) (commands : List (List Command))
        (told : List (List Answer)) (thens news : List PassState) → HaveGoneOn options olds commands told thens
        → map (λ (pass : PassState). pass.number) news ≡ map (λ (pass : PassState). pass.number) thens
        → HaveMet options handed_out (meetings_of thens news) → IsPhase options handed_out olds commands told news }
{}

/// Each line that is read, and is of a session, is of one of eight ('profile').
pub fn lines_are_seated()
    ensures { (script : List ℕ) → AreSeated 8 (readings_of script) }
{}

/// Where sessions play a script phase after phase, each on from what all had seen, and meet at the end of each, what they
/// have seen in the end is legal, and the lines were played in phases in it ('profile').
pub fn phases_are_played()
    ensures { PhasesArePlayed }
{}

/// So the lines with the answers that are put back are a run of the policy machine ('profile').
pub fn phases_are_a_run()
    ensures { PhasesAreARun }
{}

/// And what the sessions have seen in the end holds what was written ('profile').
pub fn phases_are_of_a_history()
    ensures { PhasesAreOfAHistory }
{}
