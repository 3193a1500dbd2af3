//! What was played in a session that ended for want of memory, and what lacks one of its conditions.
ghost use Rattle.std.specs.Prelude.{[], ◌∷◌};
ghost use Rattle.pol_run.specs.ExampleLines.{unlimited};
ghost use Rattle.pol_sessions.specs.Sessions.{HasStopped};
ghost use Rattle.session_examples.specs.Stopped.{adds, added, another_pass, done, idle, new_pass, of_another, of_both, sets, twice};

/// Memory was wanting at the second line, or at the first one, and another pass went on. Else some line asks for what was
/// committed, and its commit was seen; it is the session's pass, whose history goes on and is legal ('profile').
pub fn sessions_that_stop()
    ensures behind_a_line { HasStopped unlimited new_pass (adds ∷ sets ∷ []) (done of_both) }
    ensures at_the_first { HasStopped unlimited new_pass (adds ∷ []) (idle of_another) }
    ensures of_no_line { HasStopped unlimited new_pass (sets ∷ []) (done of_both) → ⊥ }
    ensures not_committed { HasStopped unlimited new_pass (adds ∷ []) (done []) → ⊥ }
    ensures of_another_pass { HasStopped unlimited new_pass (adds ∷ []) another_pass → ⊥ }
    ensures goes_back { HasStopped unlimited (done added) [] (done []) → ⊥ }
    ensures not_legal { HasStopped unlimited new_pass [] (idle twice) → ⊥ }
{}
