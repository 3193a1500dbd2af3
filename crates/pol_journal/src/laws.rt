//! What small journals stand for. Each function does nothing: its contract is the law.
ghost use Rattle.std.specs.Prelude.{◌≡◌, ◌≢◌, ◌<◌, ◌^◌, ℕ, List, [], ◌∷◌, ◌++◌, length, None, Some, Ok, Err};
ghost use Rattle.pol_journal.specs.Journal.{IsJournal, asked_in, journal_of};
ghost use Rattle.pol_model.specs.After.{state_of};
ghost use Rattle.pol_model.specs.Fault.{fault_of};
ghost use Rattle.pol_model.specs.declared.answer.Fault.{Fault};
ghost use Rattle.pol_model.specs.declared.options.Options.{Options};
ghost use Rattle.pol_model.specs.declared.request.Request.{Request};
ghost use Rattle.pol_record_log.specs.Records.{record_of};

/// At most one byte is the empty journal, and a closed gate ends one, whatever stands behind it. A record is one request more
/// ('profile').
pub fn whole_journals()
    ensures nothing { (options : Options) → IsJournal options [] [] }
    ensures one_byte { (options : Options) (byte : ℕ) → IsJournal options [] (byte ∷ []) }
    ensures closed { (options : Options) (rest : List ℕ) → IsJournal options [] (0 ∷ rest) }
    ensures one { (options : Options) (request : Request) (line rest : List ℕ)
        → length line < 2 ^ 32 → asked_in line ≡ Some request → fault_of (state_of options []) request ≡ None
        → IsJournal options (request ∷ []) ((1 ∷ record_of line) ++ 0 ∷ rest) }
{}

/// A journal is damaged at the open gate whose record isn't whole, whose line isn't read as a commit, or whose request has a fault
/// after those before it ('profile').
pub fn damaged_journals()
    ensures no_record { (options : Options) → journal_of options (1 ∷ 0 ∷ []) ≡ Err 0 }
    ensures no_next_gate { (options : Options) → journal_of options (1 ∷ 0 ∷ 0 ∷ 0 ∷ 0 ∷ []) ≡ Err 0 }
    ensures no_commit { (options : Options) (line rest : List ℕ) → length line < 2 ^ 32 → asked_in line ≡ None
        → journal_of options ((1 ∷ record_of line) ++ 0 ∷ rest) ≡ Err 0 }
    ensures a_fault { (options : Options) (request : Request) (fault : Fault) (line rest : List ℕ)
        → length line < 2 ^ 32 → asked_in line ≡ Some request → fault_of (state_of options []) request ≡ Some fault
        → journal_of options ((1 ∷ record_of line) ++ 0 ∷ rest) ≡ Err 0 }
{}
