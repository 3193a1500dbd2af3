//! A script of two sessions that is cut in two parts: the second part goes on in the first phase, where the first one ends.
ghost use Rattle.std.specs.Prelude.{◌≡◌, drop, take};
ghost use Rattle.pol_phases.specs.Marks.{joined};
ghost use Rattle.pol_run_laws.specs.Cut.{script_of};
ghost use Rattle.history_examples.specs.Sessions as sessions;

/// The phases of both parts: session 1 has a command of each part in the first phase, in their order, and what is behind it
/// comes from the second part alone ('profile').
pub fn parts_of_a_script()
    ensures whole { script_of 2 sessions.readings ≡ sessions.phases }
    ensures joined { joined (script_of 2 (take 2 sessions.readings)) (script_of 2 (drop 2 sessions.readings))
        ≡ sessions.phases }
{}
