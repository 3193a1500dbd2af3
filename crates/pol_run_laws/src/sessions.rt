//! Laws of playing the lines of sessions, over the definitions alone.
ghost use Rattle.std.specs.Prelude.{◌++◌, ◌∷◌, [], List, Ok, ℕ};
ghost use mathlib.Core.List.{IsPrefix};
ghost use Rattle.pol_model.specs.declared.options.Options.{Options};
ghost use Rattle.pol_answer.specs.declared.answer.Answer.{Answer};
ghost use Rattle.pol_script.specs.declared.command.Command.{Command};
ghost use Rattle.pol_run.specs.Spots.{Line};
ghost use Rattle.pol_history.specs.declared.event.HistoryEvent.{HistoryEvent};
ghost use Rattle.pol_run_laws.specs.Phases.{ArePlayedInPhases};
ghost use Rattle.pol_run_laws.specs.Placed.{Allows, IsPlaced};
ghost use Rattle.pol_run_laws.specs.Session.{PlaysOn};

/// One line more: where its call allows the answer from what was seen so far, the session plays on. And what was seen
/// at first is a beginning of what was seen in the end ('profile').
pub fn sessions_play_on()
    ensures more { (options : Options) (pass : ℕ) (old then new : List HistoryEvent) (played : List (Command
        × Answer)) (command : Command) (told : Answer)
        → PlaysOn options pass old then played → IsPrefix then new → Allows options pass then new (Ok command) told
        → PlaysOn options pass old new (played ++ (command, told) ∷ []) }
    ensures grows { (options : Options) (pass : ℕ) (old new : List HistoryEvent) (played : List (Command × Answer))
        → PlaysOn options pass old new played → IsPrefix old new }
{}

/// Lines that sessions play phase by phase, and whose passes meet at the end of each phase, are placed in one history
/// ('profile').
pub fn played_lines_are_placed()
    ensures { (options : Options) (history : List HistoryEvent) (lines : List Line)
        → ArePlayedInPhases options history lines → IsPlaced options history lines }
{}
