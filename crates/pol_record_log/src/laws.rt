//! What small logs stand for. Each function does nothing: its contract is the law.
ghost use Rattle.std.specs.Prelude.{◌≡◌, [], ◌∷◌, Ok, Err};
ghost use Rattle.pol_record_log.specs.Examples.{rising};
ghost use Rattle.pol_record_log.specs.Log.{last_gate, log_of};
ghost use Rattle.pol_record_log.specs.Steps.{cut_to_log};

/// A log of at most one byte is empty, and a closed gate ends one, whatever stands behind it. Any other gate is open. A length has
/// its most significant byte first ('profile').
pub fn whole_logs()
    ensures nothing { log_of rising 0 [] ≡ Ok [] }
    ensures one_byte { log_of rising 0 (7 ∷ []) ≡ Ok [] }
    ensures closed { log_of rising 0 (0 ∷ 9 ∷ 9 ∷ []) ≡ Ok [] }
    ensures one { log_of rising 0 (1 ∷ 0 ∷ 0 ∷ 0 ∷ 1 ∷ 5 ∷ 0 ∷ []) ≡ Ok (5 ∷ []) }
    ensures two { log_of rising 0 (1 ∷ 0 ∷ 0 ∷ 0 ∷ 1 ∷ 5 ∷ 7 ∷ 0 ∷ 0 ∷ 0 ∷ 1 ∷ 6 ∷ 0 ∷ 4 ∷ []) ≡ Ok (5 ∷ 6 ∷ []) }
{}

/// A log is damaged at the gate whose record or next gate doesn't lie in the bytes, whose line asks nothing, or asks what has a
/// fault after what stands before it ('profile').
pub fn damaged_logs()
    ensures no_length { log_of rising 0 (1 ∷ 0 ∷ []) ≡ Err 0 }
    ensures no_line { log_of rising 0 (1 ∷ 0 ∷ 0 ∷ 0 ∷ 1 ∷ []) ≡ Err 0 }
    ensures no_next_gate { log_of rising 0 (1 ∷ 0 ∷ 0 ∷ 0 ∷ 1 ∷ 5 ∷ []) ≡ Err 0 }
    ensures least_byte_first { log_of rising 0 (1 ∷ 1 ∷ 0 ∷ 0 ∷ 0 ∷ 5 ∷ 0 ∷ []) ≡ Err 0 }
    ensures asks_nothing { log_of rising 0 (1 ∷ 0 ∷ 0 ∷ 0 ∷ 1 ∷ 5 ∷ 1 ∷ 0 ∷ 0 ∷ 0 ∷ 2 ∷ 6 ∷ 6 ∷ 0 ∷ []) ≡ Err 6 }
    ensures has_a_fault { log_of rising 0 (1 ∷ 0 ∷ 0 ∷ 0 ∷ 1 ∷ 5 ∷ 1 ∷ 0 ∷ 0 ∷ 0 ∷ 1 ∷ 5 ∷ 0 ∷ []) ≡ Err 6 }
    ensures cut_behind_a_record { log_of rising 0 (1 ∷ 0 ∷ 0 ∷ 0 ∷ 1 ∷ 5 ∷ 1 ∷ 0 ∷ []) ≡ Err 6 }
{}

/// A log ends at its first closed gate, which the lengths of the records before it find. What an opened log has ends there; over at
/// most one byte it is a closed gate ('profile').
pub fn ends_of_logs()
    ensures closed { last_gate (0 ∷ 9 ∷ 9 ∷ []) ≡ 0 }
    ensures one { last_gate (1 ∷ 0 ∷ 0 ∷ 0 ∷ 1 ∷ 0 ∷ 0 ∷ 0 ∷ []) ≡ 6 }
    ensures two { last_gate (1 ∷ 0 ∷ 0 ∷ 0 ∷ 1 ∷ 5 ∷ 7 ∷ 0 ∷ 0 ∷ 0 ∷ 2 ∷ 6 ∷ 0 ∷ 0 ∷ 4 ∷ []) ≡ 13 }
    ensures nothing_is_cut { cut_to_log [] ≡ 0 ∷ [] }
    ensures one_byte_is_cut { cut_to_log (7 ∷ []) ≡ 0 ∷ [] }
    ensures two_bytes_are_cut { cut_to_log (0 ∷ 9 ∷ []) ≡ 0 ∷ [] }
    ensures one_is_cut { cut_to_log (1 ∷ 0 ∷ 0 ∷ 0 ∷ 1 ∷ 5 ∷ 0 ∷ 4 ∷ []) ≡ 1 ∷ 0 ∷ 0 ∷ 0 ∷ 1 ∷ 5 ∷ 0 ∷ [] }
{}
