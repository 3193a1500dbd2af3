//! What a drill is, in small and in general. Each function does nothing: its contract is the law.
ghost use Rattle.std.specs.Prelude.{◌≡◌, ◌+◌, ◌*◌, ◌<◌, ◌≤◌, ℕ, List, [], ◌∷◌, ◌++◌, codes, length, map, take};
ghost use Rattle.pol_answer.specs.Text.{texts_of};
ghost use Rattle.pol_crash_drill.specs.Drill.{IsDrill, found, lines_played, requests_before, restart_text};
ghost use Rattle.pol_machine.specs.Serial.{machine_of};
ghost use Rattle.pol_model.specs.declared.options.Options.{Options};
ghost use Rattle.pol_play_kept.specs.Answering.{IsAccepted};
ghost use Rattle.pol_run.specs.Spots.{Reading};
ghost use Rattle.pol_serial_run.specs.Accepted.{accepted};
ghost use Rattle.pol_serial_run.specs.SerialRun.{machine_after_lines};
ghost use Rattle.pol_serial_run.specs.Worked.{answers, lines, usual};

/// Where no call fails all lines are answered, where opening fails none, and else those before the line of the request that the call
/// was for ('profile').
pub fn which_lines_are_answered()
    ensures all { (options : Options) (call : ℕ) (readings : List Reading)
        → 3 + 4 * length (accepted options [] readings) < call → lines_played options call readings ≡ readings }
    ensures none { (options : Options) (call : ℕ) (readings : List Reading)
        → call ≤ 3 → lines_played options call readings ≡ [] }
    ensures before { (options : Options) (call : ℕ) (before : List Reading) (reading : Reading) (later : List Reading)
        → 3 < call → length (accepted options [] before) ≡ requests_before call
        → IsAccepted options (machine_after_lines options (machine_of options []) before) reading
        → lines_played options call (before ++ reading ∷ later) ≡ before }
{}

/// A drill of a script at a call has one text and one status.
pub fn drills_have_one_text()
    ensures { (options : Options) (call : ℕ) (readings : List Reading) (text other : List ℕ) (status number : ℕ)
        → IsDrill options call readings text status
        → IsDrill options call readings other number → (text ≡ other) × (status ≡ number) }
{}

/// Of four accepted requests, the calls 1 to 20 in turn. A request is found from the last of its four calls on ('profile').
pub fn how_many_are_found()
    ensures { map (λ call. found call 4) (1 ∷ 2 ∷ 3 ∷ 4 ∷ 5 ∷ 6 ∷ 7 ∷ 8 ∷ 9 ∷ 10 ∷ 11 ∷ 12 ∷ 13 ∷ 14 ∷ 15 ∷ 16 ∷ 17
        ∷ 18 ∷ 19 ∷ 20 ∷ []) ≡ (0 ∷ 0 ∷ 0 ∷ 0 ∷ 0 ∷ 0 ∷ 1 ∷ 1 ∷ 1 ∷ 1 ∷ 2 ∷ 2 ∷ 2 ∷ 2 ∷ 3 ∷ 3 ∷ 3 ∷ 3 ∷ 4 ∷ 4 ∷ []) }
{}

/// A small script of eight lines, of which four ask what is accepted and the third asks what is refused ('profile').
pub fn worked_drills()
    ensures opening { IsDrill usual 3 lines (restart_text 0) 0 }
    ensures record_kept { IsDrill usual 9 lines (texts_of (take 1 answers) ++ restart_text 1) 0 }
    ensures gate_kept { IsDrill usual 11 lines (texts_of (take 1 answers) ++ restart_text 2) 0 }
    ensures refused { IsDrill usual 12 lines (texts_of (take 3 answers) ++ restart_text 2) 1 }
    ensures last { IsDrill usual 19 lines (texts_of (take 4 answers) ++ restart_text 4) 1 }
    ensures whole { IsDrill usual 20 lines (texts_of answers ++ restart_text 4) 1 }
    ensures text { restart_text 4 ≡ codes "restart 4\n" }
{}
