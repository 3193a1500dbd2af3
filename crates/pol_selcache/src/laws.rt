//! Laws of the cache, over the definitions alone. Each function does nothing: its contract is the law.
ghost use Rattle.std.specs.Prelude.{◌≡◌, ◌<◌, ℕ, List, [], ◌∷◌, true, false, not, map};
ghost use Rattle.std.specs.List.{Contains};
ghost use Rattle.pol_model.specs.Ascending.{Ascends};
ghost use Rattle.pol_model.specs.declared.row.IdentityRow.{IdentityRow as OneRow};
ghost use Rattle.pol_model_laws.specs.Holding.{has_row, IsPartOf};
ghost use Rattle.pol_labels.specs.declared.label.Label.{Label};
ghost use Rattle.pol_model.specs.Identities.{labels_held, number_for};
ghost use Rattle.pol_set_changes.specs.Ids.{has};
ghost use Rattle.pol_set_changes.specs.Log.{newest};
ghost use Rattle.pol_rule.specs.declared.policy.Peer.{Peer};
ghost use Rattle.pol_selcache.specs.Cache.{Cache, IsSound, MayPlan, added, dropped, number_added};
ghost use Rattle.pol_selcache.specs.Live.{Live, AreExact, is_live, rows_without, with_reference, without_reference};
ghost use Rattle.pol_selcache.specs.Told.{StartsTold, StaysTold, TellsDifference};

/// Sets that are exact stay so where identities come, over the rows without them, and where the ones that go have gone.
/// A reference more or less leaves them exact.
pub fn sets_stay_exact()
    ensures come { (rows all : List OneRow) (come : List ℕ) (live : List Live) → Ascends (map (λ row. row.number) all)
        → IsPartOf rows all → ((number : ℕ) → has_row number all ≡ true → has number come ≡ not (has_row number rows))
        → AreExact rows live → AreExact (rows_without come all) live }
    ensures gone { (all rows : List OneRow) (gone : List ℕ) (live : List Live) → Ascends (map (λ row. row.number) all)
        → IsPartOf rows all → ((number : ℕ) → has_row number all ≡ true → has number gone ≡ not (has_row number rows))
        → AreExact (rows_without gone all) live → AreExact rows live }
    ensures referred { (rows : List OneRow) (number : ℕ) (live : List Live)
        → AreExact rows live → AreExact rows (with_reference number live) }
    ensures dropped { (rows : List OneRow) (number : ℕ) (live : List Live)
        → AreExact rows live → AreExact rows (without_reference number live) }
{}

/// A label set that takes a new number may come: what a plan asks holds of that number, over the rows with it.
pub fn a_label_set_may_come()
    ensures { (labels : List Label) (rows : List OneRow) (number revision : ℕ) (cache : Cache)
        → Ascends (map (λ row. row.number) rows)
        → number ≡ number_for labels rows → has_row number rows ≡ false → newest cache.log < revision
        → AreExact rows cache.live → MayPlan revision (number ∷ []) [] (labels_held labels rows) cache }
{}

/// What `add` gives is live, and `drop_ref` of it takes back what `add` did: the selectors are as they were, each with
/// its references and its set.
pub fn a_reference_taken_back_leaves_the_selectors()
    ensures lives { (peer : Peer) (rows : List OneRow) (cache : Cache)
        → is_live (number_added peer cache) (added peer rows cache).live ≡ true }
    ensures back { (peer : Peer) (rows : List OneRow) (cache : Cache) → IsSound cache
        → (dropped (number_added peer cache) (added peer rows cache)).live ≡ cache.live }
{}

/// What `add` gives a new selector is what all changes since the start would have made of it: over the same rows two
/// selectors of equal peers have the same set, however early each was added.
pub fn late_selectors_have_what_early_ones_have()
    ensures { (rows : List OneRow) (early late : List Live) (s t : Live) → AreExact rows early → AreExact rows late
        → Contains early s → Contains late t → s.peer ≡ t.peer → s.set ≡ t.set }
{}

/// What `changes_since` tells: the numbers that are in the set now and weren't at that revision, and those that were and
/// aren't. What a set was at a revision begins as what it is, and stays told through each later plan.
pub fn changes_tell_what_sets_were()
    ensures starts { StartsTold }
    ensures stays { StaysTold }
    ensures tells { TellsDifference }
{}
