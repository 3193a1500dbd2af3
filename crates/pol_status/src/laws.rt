//! Laws of statuses, of the limits of a script, and of what is said of sources and sinks, over the definitions alone. Each function does
//! nothing: its contract is the law.
ghost use Rattle.std.specs.Prelude.{◌≡◌, ◌||◌, ◌∷◌, [], ℕ, List, Some, false, length, map, nat_lt, true};
ghost use Rattle.pol_script.specs.Lines.{lines_of};
ghost use Rattle.pol_status.specs.Ends.{has_opened, has_read_all, is_answered, is_silent, status_number, statuses};
ghost use Rattle.pol_status.specs.Limits.{fits_limits, is_too_long};
ghost use Rattle.pol_streams.specs.Bytes.{AppendsPart, ConsumesSome};
ghost use Rattle.pol_streams.specs.Faults.{DidNotRise, Rose};

/// What is told of each status: its number, and at which all answers were written; and, where the script is read whole first, at
/// which nothing was written, at which the script was read and at which the disk was opened ('profile').
pub fn statuses_tell_ends()
    ensures numbers { map status_number statuses ≡ 0 ∷ 1 ∷ 2 ∷ 3 ∷ 4 ∷ 5 ∷ 6 ∷ 7 ∷ 8 ∷ [] }
    ensures answered { map is_answered statuses
        ≡ true ∷ true ∷ false ∷ false ∷ false ∷ false ∷ false ∷ false ∷ false ∷ [] }
    ensures silent { map is_silent statuses ≡ false ∷ false ∷ true ∷ true ∷ false ∷ true ∷ true ∷ false ∷ true ∷ [] }
    ensures read { map has_read_all statuses ≡ true ∷ true ∷ false ∷ false ∷ true ∷ false ∷ false ∷ true ∷ true ∷ [] }
    ensures opened { map has_opened statuses ≡ true ∷ true ∷ false ∷ false ∷ true ∷ false ∷ false ∷ false ∷ false ∷ [] }
{}

/// A script has at most 67,108,864 bytes, and at most 1,000,000 lines ('profile').
pub fn limits_of_scripts()
    ensures too_long { (script : List ℕ)
        → is_too_long script ≡ (nat_lt 67108864 (length script) || nat_lt 1000000 (length (lines_of script))) }
    ensures fits { fits_limits (0 ∷ []) ≡ true }
{}

/// A count that stands hasn't risen, and one that fell neither. A part of some bytes is not all of them, and begins as they do; what
/// is taken of a source is taken from its front ('profile').
pub fn counts_and_parts()
    ensures rises { Rose 0 1 }
    ensures stands { Rose 1 1 → ⊥ }
    ensures falls { Rose 2 1 → ⊥ }
    ensures not_risen { DidNotRise 1 1 }
    ensures part { AppendsPart (Some (1 ∷ [])) (Some (1 ∷ 2 ∷ [])) (2 ∷ 3 ∷ []) }
    ensures all { AppendsPart (Some []) (Some (2 ∷ [])) (2 ∷ []) → ⊥ }
    ensures other_bytes { AppendsPart (Some []) (Some (3 ∷ [])) (2 ∷ 3 ∷ []) → ⊥ }
    ensures from_the_front { ConsumesSome (Some (1 ∷ 2 ∷ [])) (Some (2 ∷ [])) }
    ensures from_the_back { ConsumesSome (Some (1 ∷ 2 ∷ [])) (Some (1 ∷ [])) → ⊥ }
{}
