//! Laws of what is found of texts. Each function does nothing: its contract is the law.
ghost use Rattle.std.specs.Prelude.{◌≡◌, ℕ, List, [], codes, None, Some};
ghost use Rattle.pol_compare.specs.declared.finding.Finding.{Finding as OneFinding};
ghost use Rattle.pol_compare.specs.Finding.{AreSmall, IsFinding};
ghost use Rattle.pol_compare.specs.Parts.{parts_of};

/// The divider is the first line that is `--` and ends with a newline byte ('profile'). Each case is computed.
pub fn texts_are_divided_once()
    ensures alone { parts_of (codes "--\n") ≡ record { front = []; back = Some [] } }
    ensures nothing { parts_of [] ≡ record { front = []; back = None } }
    ensures no_newline { parts_of (codes "--") ≡ record { front = codes "--"; back = None } }
    ensures begun { parts_of (codes "a--\n") ≡ record { front = codes "a--\n"; back = None } }
    ensures longer { parts_of (codes "---\n") ≡ record { front = codes "---\n"; back = None } }
    ensures first { parts_of (codes "a\n--\nb\n--\nc")
        ≡ record { front = codes "a\n"; back = Some (codes "b\n--\nc") } }
{}

/// A text has one finding: two that are both so are the same, so what `compare` answers is the only answer that it may give.
pub fn texts_have_one_finding()
    ensures { (text : List ℕ) (one other : OneFinding)
        → AreSmall one → AreSmall other → IsFinding text one → IsFinding text other → one ≡ other }
{}
