//! What a crash may have left as time goes on, and what a disk still holds. Each function does nothing: its contract is the law.
ghost use Rattle.std.specs.Prelude.{◌≡◌, ◌⊎◌, ℕ, List, [], ◌∷◌};
ghost use Rattle.pol_disk.specs.Images.{Elapses, LeavesOnly};
ghost use Rattle.pol_kept.specs.Calls.{StopsOpening};
ghost use Rattle.pol_kept.specs.Keeps.{HoldsStill};
ghost use Rattle.pol_kept.specs.declared.error.OpenError.TheVariants as opened;
ghost use Rattle.kept_example.specs.Counting.{CountsOne, NeverFails};

/// Of a disk that was empty, a crash may have left nothing since then, and what it may leave now: no less, and no more. Time doesn't
/// go back ('profile').
pub(crate) fn time_goes_on()
    ensures is { Elapses 0 1 (λ t c. c ≡ []) (λ t c. (c ≡ []) ⊎ (c ≡ 1 ∷ [])) (λ c. c ≡ 1 ∷ []) }
    ensures back { Elapses 1 0 (λ t c. c ≡ []) (λ t c. c ≡ []) (λ c. ⊥) → ⊥ }
    ensures forgotten { Elapses 0 0 (λ t c. c ≡ []) (λ t c. ⊥) (λ c. ⊥) → ⊥ }
    ensures something_else { Elapses 0 0 (λ t c. ⊥) (λ t c. c ≡ []) (λ c. ⊥) → ⊥ }
{}

/// What a crash may have left since the old disk is as is said, and so is what it may have left since an earlier moment, beside what it
/// might have left by then. Here disks are numbers, and the moment is the disk, or always the same ('profile').
pub(crate) fn crashes_leave_only_this()
    ensures is { LeavesOnly (λ (disk : ℕ). disk) (λ disk t c. c ≡ []) 0 1 (λ c. c ≡ []) }
    ensures back { LeavesOnly (λ (disk : ℕ). disk) (λ disk t c. ⊥) 1 0 (λ c. c ≡ []) → ⊥ }
    ensures something_else { LeavesOnly (λ (disk : ℕ). 0) (λ disk t c. c ≡ []) 0 1 (λ c. ⊥) → ⊥ }
    ensures something_else_before { LeavesOnly (λ (disk : ℕ). 1) (λ disk t c. (t ≡ 0) × (disk ≡ 1)) 0 1 (λ c. ⊥) → ⊥ }
{}

/// A disk holds still what it held, and a crash leaves what it might have left before. Here disks are lists of bytes ('profile').
pub(crate) fn disks_hold_still()
    ensures is { (disk : List ℕ) → HoldsStill (λ (d : List ℕ). d) (λ d c. c ≡ d) (λ d. 0) (λ d t c. c ≡ d) disk disk }
    ensures other_bytes { HoldsStill (λ (d : List ℕ). d) (λ d c. c ≡ d) (λ d. 0) (λ d t c. ⊥) (1 ∷ []) [] → ⊥ }
    ensures left_otherwise { HoldsStill (λ (d : List ℕ). []) (λ d c. c ≡ d) (λ d. 0) (λ d t c. c ≡ d) (1 ∷ []) [] → ⊥ }
{}

/// Where the bytes are damaged an opening has synced and read them, two calls. For want of memory it has made the first of these calls,
/// or none, or both ('profile').
pub(crate) fn openings_that_fail()
    ensures damaged { StopsOpening CountsOne NeverFails (0 ∷ 7 ∷ []) 0 (opened.Damaged 0) 2 }
    ensures damaged_unread { StopsOpening CountsOne NeverFails (0 ∷ 7 ∷ []) 0 (opened.Damaged 0) 1 → ⊥ }
    ensures no_memory { StopsOpening CountsOne NeverFails (0 ∷ 7 ∷ []) 0 opened.Memory 1 }
    ensures no_memory_behind { StopsOpening CountsOne NeverFails (0 ∷ 7 ∷ []) 0 opened.Memory 3 → ⊥ }
{}
