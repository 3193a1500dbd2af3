//! What a call of a session leaves its pass with, when a script is played, and what lacks a condition of either.
ghost use Rattle.std.specs.Prelude.{[], ◌∷◌};
ghost use Rattle.pol_answer.specs.declared.answer.Answer.TheVariants as answer;
ghost use Rattle.pol_run.specs.ExampleLines.{first_number, unlimited};
ghost use Rattle.pol_sessions.specs.Sessions.{GoesOn, IsScriptPlayed};
ghost use Rattle.session_examples.specs.Stopped.{added, adds, another_pass, done, looks, new_pass, syncs};

/// The call of a line answers as it may, and the session's pass goes on by it ('profile').
pub fn calls_that_go_on()
    ensures commits { GoesOn unlimited new_pass adds (answer.Committed 1 first_number) (done added) }
    ensures asks { GoesOn unlimited new_pass looks (answer.NoEndpoint 0) new_pass }
    ensures not_allowed { GoesOn unlimited new_pass syncs (answer.Phase 1) new_pass → ⊥ }
    ensures of_another_pass { GoesOn unlimited new_pass looks (answer.NoEndpoint 0) another_pass → ⊥ }
    ensures commits_unasked { GoesOn unlimited new_pass looks (answer.NoEndpoint 0) (done []) → ⊥ }
{}

/// So many sessions play the script, each by a pass that is new, and what was seen in the end is what some pass has seen
/// ('profile').
pub fn scripts_that_are_played()
    ensures idle { IsScriptPlayed unlimited 1 [] [] [] }
    ensures seen_by_none { IsScriptPlayed unlimited 1 [] [] added → ⊥ }
    ensures by_none { IsScriptPlayed unlimited 0 [] [] [] → ⊥ }
    ensures told_of_no_phase { IsScriptPlayed unlimited 1 [] ([] ∷ []) [] → ⊥ }
{}
