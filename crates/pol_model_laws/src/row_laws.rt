//! Laws of the rows of identities: what they keep as label sets and prefixes are held and numbers released, what each
//! hold adds, and what each release takes away.
ghost use Rattle.std.specs.Prelude.{◌≡◌, ◌==◌, ◌++◌, ◌&&◌, ◌||◌, ◌+◌, ◌-◌, ◌<◌, ◌≤◌, ◌⊎◌, ◌↔◌, ℕ, List, Option, None, Some, IsTrue, true, false, not, if◌then◌else◌, drop, filter, map};
ghost use Rattle.std.specs.List.{AllByRecursion, Contains, list_any};
ghost use Rattle.pol_addr.specs.Cidr.{IsPrefix};
ghost use Rattle.pol_addr.specs.declared.network.Prefix.{Prefix};
ghost use Rattle.pol_labels.specs.declared.label.Label.{Label};
ghost use Rattle.pol_labels.specs.Order.{IsLabelSet};
ghost use Rattle.pol_rule.specs.declared.policy.Peer.{Peer};
ghost use Rattle.pol_rule.specs.Prefixes.{policy_prefixes};
ghost use Rattle.pol_model.specs.declared.limits.TheConstants.{CLUSTER_FIRST, CLUSTER_LAST, EVERY_IDENTITY, LOCAL_IDENTITIES, RESERVED_LAST};
ghost use Rattle.pol_model.specs.declared.row.IdentityRow.{IdentityRow as OneRow};
ghost use Rattle.pol_model.specs.declared.row.Stamped.{Stamped as OnePolicy};
ghost use Rattle.pol_model.specs.Ascending.{Ascends};
ghost use Rattle.pol_model.specs.Fault.{has_reserved, is_exhausted, is_init, locals_held, locals_wanted};
ghost use Rattle.pol_model_laws.specs.Holding.{has_row, is_held, row_of, times_named, IsPartOf};
ghost use Rattle.pol_model.specs.Identities.{is_local, is_reserved, labels_held, number_for, number_of_labels, number_released, released, reserved_identities};
ghost use Rattle.pol_model_laws.specs.Keeps.{IsClusterRow, IsLocalRow, KeepsRows, names_prefix};
ghost use Rattle.pol_model.specs.Prefixes.{number_of_prefix, prefix_held, prefixes_held, prefixes_released};
ghost use Rattle.pol_model.specs.Selects.{is_all, selects_number, set_at};

/// What the rows keep (`KeepsRows`), from the start on: a label set whose labels may be held and for which a number is
/// left, a prefix for which one is, and each release leave it so.
pub fn rows_keep()
    ensures start { KeepsRows reserved_identities }
    ensures labels { (labels : List Label) (rows : List OneRow)
        → KeepsRows rows → IsLabelSet labels → (has_reserved labels && not (is_init labels)) ≡ false
        → is_exhausted labels rows ≡ false → KeepsRows (labels_held labels rows) }
    ensures prefix { (prefix : Prefix) (rows : List OneRow)
        → KeepsRows rows → IsPrefix prefix → (number_of_prefix prefix rows ≡ None → locals_held rows < LOCAL_IDENTITIES)
        → KeepsRows (prefix_held prefix rows) }
    ensures prefixes { (prefixes : List Prefix) (rows : List OneRow) → KeepsRows rows → AllByRecursion IsPrefix prefixes
        → locals_held rows + locals_wanted rows prefixes ≤ LOCAL_IDENTITIES → KeepsRows (prefixes_held prefixes rows) }
    ensures number { (number : Option ℕ) (rows : List OneRow)
        → KeepsRows rows → KeepsRows (number_released number rows) }
    ensures prefixes_gone { (prefixes : List Prefix) (rows : List OneRow)
        → KeepsRows rows → KeepsRows (prefixes_released prefixes rows) }
{}

/// Each row is found by its number, by its labels if it isn't a prefix's, and by its prefix. The first rows are the
/// reserved ones; each other one is a label set's or a prefix's; and none has the number 0.
pub fn rows_are_found()
    ensures number { (rows : List OneRow) (row : OneRow)
        → KeepsRows rows → Contains rows row → row_of row.number rows ≡ Some row }
    ensures labels { (rows : List OneRow) (row : OneRow) → KeepsRows rows
        → Contains rows row → is_local row.number ≡ false → number_of_labels row.labels rows ≡ Some row.number }
    ensures prefix { (rows : List OneRow) (row : OneRow) (prefix : Prefix) → KeepsRows rows
        → Contains rows row → row.prefix ≡ Some prefix → number_of_prefix prefix rows ≡ Some row.number }
    ensures first { (rows : List OneRow) → KeepsRows rows → rows ≡ reserved_identities ++ drop RESERVED_LAST rows }
    ensures reserved { (rows : List OneRow) (row : OneRow)
        → KeepsRows rows → Contains reserved_identities row → Contains rows row }
    ensures kinds { (rows : List OneRow) (row : OneRow)
        → KeepsRows rows → Contains rows row → Contains reserved_identities row ⊎ (IsClusterRow row ⊎ IsLocalRow row) }
    ensures none { (rows : List OneRow) → KeepsRows rows → has_row EVERY_IDENTITY rows ≡ false }
{}

/// A reserved row counts one holder, and any other one too. Prefixes hold no more numbers than there are.
pub fn rows_are_held()
    ensures reserved { (rows : List OneRow) (row : OneRow)
        → KeepsRows rows → Contains rows row → is_reserved row.number ≡ true → row.holders ≡ 1 }
    ensures some { (rows : List OneRow) (row : OneRow) → KeepsRows rows → Contains rows row → 0 < row.holders }
    ensures locals { (rows : List OneRow) → KeepsRows rows → locals_held rows ≤ LOCAL_IDENTITIES }
{}

/// Of rows that are part of others (`IsPartOf`), each is one of the others with another count, each of the others whose
/// number is there is one of them with another count, and a part of a part is a part.
pub fn parts_have_rows()
    ensures outward { (rows others : List OneRow) (row : OneRow)
        → IsPartOf rows others → Contains rows row → (count : ℕ) × Contains others (record row { holders = count }) }
    ensures inward { (rows others : List OneRow) (row : OneRow) → IsPartOf rows others → Contains others row
        → has_row row.number rows ≡ true → (count : ℕ) × Contains rows (record row { holders = count }) }
    ensures number { (rows others : List OneRow) (number : ℕ)
        → IsPartOf rows others → has_row number rows ≡ true → has_row number others ≡ true }
    ensures itself { (rows : List OneRow) → IsPartOf rows rows }
    ensures further { (rows others more : List OneRow)
        → IsPartOf rows others → IsPartOf others more → IsPartOf rows more }
{}

/// The set of a peer ascends. A peer selects a number exactly where it is `all` or the number is in its set, and its set
/// in a part of the rows is what the part has of its set in all of them.
pub fn peers_have_sets()
    ensures ascends { (rows : List OneRow) (peer : Peer)
        → Ascends (map (λ row. row.number) rows) → Ascends (set_at rows peer) }
    ensures selected { (rows : List OneRow) (number : ℕ) (peer : Peer)
        → selects_number rows number peer ≡ (is_all peer || list_any (λ other. other == number) (set_at rows peer)) }
    ensures part { (rows others : List OneRow) (peer : Peer)
        → IsPartOf rows others → set_at rows peer ≡ filter (λ number. has_row number rows) (set_at others peer) }
{}

/// Holding a label set leaves each row its number, its labels and its prefix, and adds one at most: that of the
/// number that the label set holds, which has these labels. The count of that number alone rises, by one.
pub fn label_sets_are_held()
    ensures kept { (labels : List Label) (rows : List OneRow)
        → Ascends (map (λ row. row.number) rows) → IsPartOf rows (labels_held labels rows) }
    ensures one { (labels : List Label) (rows : List OneRow) (number : ℕ)
        → has_row number (labels_held labels rows) ≡ true
        → (has_row number rows ≡ true) ⊎ (number ≡ number_for labels rows) }
    ensures row { (labels : List Label) (rows : List OneRow)
        → has_row (number_for labels rows) (labels_held labels rows) ≡ true }
    ensures its_labels { (labels : List Label) (rows : List OneRow) (row : OneRow)
        → Ascends (map (λ row. row.number) rows)
        → row_of (number_for labels rows) (labels_held labels rows) ≡ Some row → row.labels ≡ labels }
    ensures count { (labels : List Label) (rows : List OneRow) (row : OneRow) → Ascends (map (λ row. row.number) rows)
        → Contains rows row → is_reserved row.number ≡ false → Contains (labels_held labels rows)
        (record row { holders = row.holders + (if row.number == number_for labels rows then 1 else 0) }) }
    ensures ascend { (labels : List Label) (rows : List OneRow)
        → Ascends (map (λ row. row.number) rows) → Ascends (map (λ row. row.number) (labels_held labels rows)) }
{}

/// Holding prefixes leaves each row its number, its labels and its prefix, and adds rows of these prefixes alone;
/// each of them has a row then. A row's count rises by as many of them as are its own.
pub fn prefixes_are_held()
    ensures kept { (prefixes : List Prefix) (rows : List OneRow)
        → Ascends (map (λ row. row.number) rows) → IsPartOf rows (prefixes_held prefixes rows) }
    ensures theirs { (prefixes : List Prefix) (rows : List OneRow) (row : OneRow)
        → Ascends (map (λ row. row.number) rows)
        → Contains (prefixes_held prefixes rows) row → (has_row row.number rows ≡ true)
        ⊎ ((prefix : Prefix) × Contains prefixes prefix × (row.prefix ≡ Some prefix)) }
    ensures each { (prefixes : List Prefix) (rows : List OneRow) (prefix : Prefix)
        → Contains prefixes prefix → is_held prefix (prefixes_held prefixes rows) ≡ true }
    ensures count { (prefixes : List Prefix) (rows : List OneRow) (row : OneRow)
        → KeepsRows rows → Contains rows row → is_reserved row.number ≡ false
        → Contains (prefixes_held prefixes rows) (record row { holders = row.holders + times_named prefixes row }) }
    ensures ascend { (prefixes : List Prefix) (rows : List OneRow)
        → Ascends (map (λ row. row.number) rows) → Ascends (map (λ row. row.number) (prefixes_held prefixes rows)) }
{}

/// Releasing a number takes away its row at most, and leaves each row its number, its labels and its prefix. The
/// row's count falls by one, and it goes with its last holder; reserved rows stay as they are (`rows_keep`).
pub fn numbers_are_released()
    ensures kept { (number : Option ℕ) (rows : List OneRow)
        → Ascends (map (λ row. row.number) rows) → IsPartOf (number_released number rows) rows }
    ensures alone { (number other : ℕ) (rows : List OneRow) → ((row : OneRow) → Contains rows row → 0 < row.holders)
        → has_row other rows ≡ true → has_row other (released number rows) ≡ false → other ≡ number }
    ensures count { (number : ℕ) (rows : List OneRow) (row : OneRow) → Contains rows row
        → is_reserved row.number ≡ false → (if row.number == number then 1 else 0) < row.holders → Contains
        (released number rows) (record row { holders = row.holders - (if row.number == number then 1 else 0) }) }
    ensures gone { (number : ℕ) (rows : List OneRow) (row : OneRow)
        → Ascends (map (λ row. row.number) rows) → Contains rows row → is_reserved row.number ≡ false
        → row.holders ≤ (if row.number == number then 1 else 0) → has_row row.number (released number rows) ≡ false }
    ensures ascend { (number : Option ℕ) (rows : List OneRow)
        → Ascends (map (λ row. row.number) rows) → Ascends (map (λ row. row.number) (number_released number rows)) }
{}

/// Releasing prefixes leaves each row its number, its labels and its prefix. A row's count falls by as many of them
/// as are its own, and it goes with its last holder. A policy names each of its prefixes once.
pub fn prefixes_are_released()
    ensures kept { (prefixes : List Prefix) (rows : List OneRow)
        → Ascends (map (λ row. row.number) rows) → IsPartOf (prefixes_released prefixes rows) rows }
    ensures count { (prefixes : List Prefix) (rows : List OneRow) (row : OneRow)
        → KeepsRows rows → Contains rows row → is_reserved row.number ≡ false → times_named prefixes row < row.holders
        → Contains (prefixes_released prefixes rows) (record row { holders = row.holders - times_named prefixes row }) }
    ensures gone { (prefixes : List Prefix) (rows : List OneRow) (row : OneRow)
        → KeepsRows rows → Contains rows row → is_reserved row.number ≡ false
        → row.holders ≤ times_named prefixes row → has_row row.number (prefixes_released prefixes rows) ≡ false }
    ensures once { (row : OneRow) (policy : OnePolicy)
        → times_named (policy_prefixes policy.policy) row ≡ (if names_prefix row.prefix policy then 1 else 0) }
    ensures ascend { (prefixes : List Prefix) (rows : List OneRow)
        → Ascends (map (λ row. row.number) rows) → Ascends (map (λ row. row.number) (prefixes_released prefixes rows)) }
{}

/// What is held and then released leaves the rows as they were.
pub fn releases_undo_holds()
    ensures labels { (labels : List Label) (rows : List OneRow)
        → KeepsRows rows → IsLabelSet labels → (has_reserved labels && not (is_init labels)) ≡ false
        → is_exhausted labels rows ≡ false → released (number_for labels rows) (labels_held labels rows) ≡ rows }
    ensures prefixes { (prefixes : List Prefix) (rows : List OneRow) → KeepsRows rows
        → AllByRecursion IsPrefix prefixes → locals_held rows + locals_wanted rows prefixes ≤ LOCAL_IDENTITIES
        → prefixes_released prefixes (prefixes_held prefixes rows) ≡ rows }
{}

/// The cluster's numbers run out exactly where each of them has a row, and the label set has none.
pub fn numbers_run_out()
    ensures { (labels : List Label) (rows : List OneRow) → Ascends (map (λ row. row.number) rows)
        → IsTrue (is_exhausted labels rows) ↔ ((number_of_labels labels rows ≡ None)
        × ((number : ℕ) → CLUSTER_FIRST ≤ number → number ≤ CLUSTER_LAST → has_row number rows ≡ true)) }
{}
