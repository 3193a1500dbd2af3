//! What follows from what a status says. Each function does nothing: its contract is the law.
ghost use Rattle.std.specs.Prelude.{◌≡◌, ◌∷◌, [], ℕ, List, Option, false, map, true};
ghost use Rattle.pol_journal.specs.Journal.{IsJournal};
ghost use Rattle.pol_model.specs.declared.options.Options.{Options};
ghost use Rattle.pol_model.specs.declared.request.Request.{Request};
ghost use Rattle.pol_status.specs.Ends.{statuses};
ghost use Rattle.pol_status.specs.declared.status.Status.{Status};
ghost use Rattle.pol_status.specs.declared.status.Status.TheVariants.{Damaged, Usage};
ghost use Rattle.policyd_kept.specs.Acknowledged.{Acknowledges, KeepsAcknowledged};
ghost use Rattle.policyd_kept.specs.Ends.{has_served, is_answered_end};
ghost use Rattle.policyd_kept.specs.Served.{IsServed};
ghost use Rattle.policyd_kept.specs.declared.end.FileEnd.TheVariants.{Held, NotOpened, Served};

use pol_disk::Disk;

/// At each status at which lines may have been answered, the answers to the first lines were written whole, and at most a part of the next
/// line's. Each image that a crash may leave is a journal of the requests that were there before, then of exactly those of the whole `ok`
/// lines in their order, and of at most one more, which is then the next that the script accepts ('profile').
pub fn acknowledged_requests_are_there<D: Disk>()
    ensures { (options : Options) (start : List Request)
        (script : List ℕ) (disk : D) (old new : Option (List ℕ)) (status : Status) → (status ≡ Usage → ⊥)
        → (status ≡ Damaged → ⊥) → IsServed options start script (D.may_leave disk) old new status
        → Acknowledges options start script (D.may_leave disk) old new }
{}

/// Where nothing was acknowledged, one request may be there and not two, and only one that the script accepts ('profile').
pub fn one_more_at_most()
    ensures one_more { (options : Options) (a b : Request) (c : List ℕ)
        → IsJournal options (a ∷ []) c → KeepsAcknowledged options [] [] (a ∷ b ∷ []) c }
    ensures two_more { (options : Options) (a b : Request) (c : List ℕ)
        → IsJournal options (a ∷ b ∷ []) c → KeepsAcknowledged options [] [] (a ∷ b ∷ []) c → ⊥ }
    ensures not_accepted { (options : Options) (a : Request) (c : List ℕ)
        → IsJournal options (a ∷ []) c → KeepsAcknowledged options [] [] [] c → ⊥ }
{}

/// At which statuses the journal was opened and lines were answered, up to the end or up to what is told, and at which ends every line
/// was ('profile').
pub fn statuses_tell_ends()
    ensures served { map has_served statuses
        ≡ true ∷ true ∷ false ∷ true ∷ true ∷ false ∷ true ∷ false ∷ false ∷ [] }
    ensures answered { map (λ status. is_answered_end (Served status)) statuses
        ≡ true ∷ true ∷ false ∷ false ∷ false ∷ false ∷ false ∷ false ∷ false ∷ [] }
    ensures not_opened { is_answered_end NotOpened ≡ false }
    ensures held { is_answered_end Held ≡ false }
{}
