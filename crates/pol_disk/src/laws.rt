//! What a crash may leave of small disks, and what it can't, over the definitions alone. Each function does nothing: its contract is
//! the law.
ghost use Rattle.std.specs.Prelude.{◌≡◌, ◌∷◌, []};
ghost use Rattle.pol_disk.specs.Images.{CutShort, Torn, overwritten};

/// A write puts its bytes over those at its place, and lengthens the file at its end. Where a crash cuts it short its range may hold any
/// bytes, and past the old end any up to the new one; all others stay ('profile').
pub fn writes_are_torn()
    ensures written { overwritten (1 ∷ 2 ∷ 3 ∷ []) 1 (9 ∷ []) ≡ 1 ∷ 9 ∷ 3 ∷ [] }
    ensures appended { overwritten (1 ∷ 2 ∷ []) 1 (8 ∷ 9 ∷ []) ≡ 1 ∷ 8 ∷ 9 ∷ [] }
    ensures any_bytes { Torn 0 2 (1 ∷ 2 ∷ 3 ∷ []) (7 ∷ 8 ∷ 3 ∷ []) }
    ensures part_of_the_end { Torn 2 2 (1 ∷ 2 ∷ []) (1 ∷ 2 ∷ 7 ∷ []) }
    ensures before_it { Torn 1 1 (1 ∷ 2 ∷ []) (7 ∷ 2 ∷ []) → ⊥ }
    ensures behind_it { Torn 0 1 (1 ∷ 2 ∷ []) (1 ∷ 7 ∷ []) → ⊥ }
    ensures shorter { Torn 0 2 (1 ∷ 2 ∷ []) (1 ∷ []) → ⊥ }
    ensures longer { Torn 1 1 (1 ∷ []) (1 ∷ 2 ∷ 3 ∷ []) → ⊥ }
{}

/// A cut leaves the old length or the new one, and none in between ('profile').
pub fn cuts_are_whole()
    ensures not_yet { CutShort 1 (1 ∷ 2 ∷ 3 ∷ []) (1 ∷ 2 ∷ 3 ∷ []) }
    ensures cut { CutShort 1 (1 ∷ 2 ∷ 3 ∷ []) (1 ∷ []) }
    ensures halfway { CutShort 1 (1 ∷ 2 ∷ 3 ∷ []) (1 ∷ 2 ∷ []) → ⊥ }
{}
