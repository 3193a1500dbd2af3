//! An identity that comes and goes.
ghost use Rattle.std.specs.Prelude.{◌≡◌, ◌+◌, ◌<◌, ◌≤◌, ◌^◌, ◌∷◌, [], List, true, false, None, IfSome, IsTrue};
ghost use Rattle.pol_set_changes.specs.Log.{newest};
ghost use Rattle.pol_model_laws.specs.Holding.{has_row};
ghost use Rattle.pol_model.specs.Fault.{has_reserved};
ghost use Rattle.pol_model.specs.Identities.{number_of_labels};
ghost use Rattle.pol_model.specs.Prefixes.{number_of_prefix};
ghost use Rattle.pol_selcache.specs.Cache.{MayCome, MayPlan};
ghost use Rattle.pol_selcache.specs.Live.{AreExact, Live, rows_without};

use crate::holder::Holder;
use crate::watch::Watch;
use pol_addr::Prefix;
use pol_data::Steps;
use pol_ident::Identities;
use pol_labels::LabelSet;
use pol_model::has_reserved;
use pol_selcache::SelectorCache;
use std::rt::Clock;
use std::sync::ledger::Ledger;

/// How many times the identity comes and goes in one round.
const TURNS: u32 = 20;

/// How many rounds there are; the shortest counts.
const ROUNDS: u32 = 100;

/// Takes a number for a label set that has none.
fn labels_acquired(identities: &mut Identities, labels: &LabelSet) -> Option<u32>
    requires allowed { has_reserved labels.now ≡ false }
    requires new { number_of_labels labels.now identities.old ≡ None }
    ensures may { IfSome result (λ number. MayCome number identities.old identities.new) }
    ensures held { IfSome result (λ number. has_row number identities.new ≡ true) }
{
    // No identity has the number 0. The call tells that the rows ascend.
    identities.fits_together();
    match identities.acquire(labels) {
        Ok(number) => Some(number),
        Err(_) => None,
    }
}

/// The same, where the label set has none and may have one.
fn labels_taken(identities: &mut Identities, labels: &LabelSet) -> Option<u32>
    ensures may { IfSome result (λ number. MayCome number identities.old identities.new) }
    ensures held { IfSome result (λ number. has_row number identities.new ≡ true) }
{
    if has_reserved(labels) {
        return None;
    }
    match identities.number_of(labels) {
        Some(_) => None,
        None => labels_acquired(identities, labels),
    }
}

/// Takes a number for a prefix that has none.
fn prefix_acquired(identities: &mut Identities, prefix: Prefix) -> Option<u32>
    requires new { number_of_prefix prefix identities.old ≡ None }
    ensures may { IfSome result (λ number. MayCome number identities.old identities.new) }
    ensures held { IfSome result (λ number. has_row number identities.new ≡ true) }
{
    // No identity has the number 0. The call tells that the rows ascend.
    identities.fits_together();
    match identities.acquire_prefix(prefix) {
        Ok(number) => Some(number),
        Err(_) => None,
    }
}

/// The same, where the prefix has none.
fn prefix_taken(identities: &mut Identities, prefix: Prefix) -> Option<u32>
    ensures may { IfSome result (λ number. MayCome number identities.old identities.new) }
    ensures held { IfSome result (λ number. has_row number identities.new ≡ true) }
{
    match identities.number_of_prefix(&prefix) {
        Some(_) => None,
        None => prefix_acquired(identities, prefix),
    }
}

/// Takes a number for what comes, where it has none.
fn taken(identities: &mut Identities, holder: &Holder) -> Option<u32>
    ensures may { IfSome result (λ number. MayCome number identities.old identities.new) }
    ensures held { IfSome result (λ number. has_row number identities.new ≡ true) }
{
    match holder {
        Holder::Labels(labels) => labels_taken(identities, labels),
        Holder::Prefix(prefix) => prefix_taken(identities, *prefix),
    }
}

/// Whether the sets took a number that came.
fn comes<L: Ledger>(
    cache: &mut SelectorCache,
    identities: &Identities,
    number: u32,
    revision: u64,
    steps: &mut Steps<L>,
) -> bool
    requires may { MayPlan revision (number ∷ []) [] identities.now cache.old }
    ensures exact { IsTrue result → AreExact identities.now cache.new.live }
    ensures newest { IsTrue result → newest cache.new.log ≤ revision }
{
    match cache.change(revision, &[number], &[], identities, steps) {
        Ok(()) => true,
        Err(_) => false,
    }
}

/// Whether the sets lost a number that goes.
fn goes<L: Ledger>(
    cache: &mut SelectorCache,
    identities: &Identities,
    number: u32,
    revision: u64,
    steps: &mut Steps<L>,
) -> bool
    requires newer { newest cache.old.log < revision }
    requires held { has_row number identities.now ≡ true }
    requires exact { AreExact identities.now cache.old.live }
    ensures exact { IsTrue result → AreExact (rows_without (number ∷ []) identities.now) cache.new.live }
    ensures newest { IsTrue result → newest cache.new.log ≤ revision }
{
    match cache.change(revision, &[], &[number], identities, steps) {
        Ok(()) => true,
        Err(_) => false,
    }
}

/// Gives the number back, and says whether it went with its one holder.
fn is_given_back(identities: &mut Identities, number: u32) -> bool
    requires held { has_row number identities.old ≡ true }
    ensures exact { IsTrue result → (live : List Live)
        → AreExact (rows_without (number ∷ []) identities.old) live → AreExact identities.new live }
{
    // No identity has the number 0. The call tells that the rows fit together.
    identities.fits_together();
    identities.release(number);
    !identities.held(number)
}

/// The identity comes at a revision and goes at the next: the nanoseconds that the sets took for each.
fn turn<R: Clock, L: Ledger>(
    rt: &R,
    watch: Watch,
    cache: &mut SelectorCache,
    identities: &mut Identities,
    holder: &Holder,
    revision: u64,
    steps: &mut Steps<L>,
) -> Option<(u128, u128)>
    requires newer { newest cache.old.log < revision }
    requires exact { AreExact identities.old cache.old.live }
    requires fits { revision + 1 < 2 ^ 64 }
    ensures newest { IfSome result (λ took. newest cache.new.log ≤ revision + 1) }
    ensures exact { IfSome result (λ took. AreExact identities.new cache.new.live) }
{
    let number = taken(identities, holder)?;
    let start = watch.nanos(rt);
    if !comes(cache, identities, number, revision, steps) {
        return None;
    }
    let came = watch.nanos(rt);
    if !goes(cache, identities, number, revision + 1, steps) {
        return None;
    }
    let went = watch.nanos(rt);
    if !is_given_back(identities, number) {
        return None;
    }
    Some((came.wrapping_sub(start), went.wrapping_sub(came)))
}

/// The means of a round of turns, whose revisions are above the given one.
fn round<R: Clock, L: Ledger>(
    rt: &R,
    watch: Watch,
    cache: &mut SelectorCache,
    identities: &mut Identities,
    holder: &Holder,
    before: u64,
    steps: &mut Steps<L>,
) -> Option<(u128, u128)>
    requires newest { newest cache.old.log ≤ before }
    requires exact { AreExact identities.old cache.old.live }
    requires fits { before < 2 ^ 32 }
    ensures newest { IfSome result (λ took. newest cache.new.log ≤ before + 40) }
    ensures exact { IfSome result (λ took. AreExact identities.new cache.new.live) }
{
    let mut coming = 0u128;
    let mut going = 0u128;
    for i in 0..TURNS {
        let revision = before + 2 * u64::from(i) + 1;
        let (came, went) = turn(rt, watch, cache, identities, holder, revision, steps)?;
        coming = coming.wrapping_add(came);
        going = going.wrapping_add(went);
    }
    let turns = u128::from(TURNS);
    Some((coming / turns, going / turns))
}

/// The shortest means of all rounds.
pub(crate) fn rounds<R: Clock, L: Ledger>(
    rt: &R,
    watch: Watch,
    cache: &mut SelectorCache,
    identities: &mut Identities,
    holder: &Holder,
    steps: &mut Steps<L>,
) -> Option<(u128, u128)>
    requires newest { newest cache.old.log ≡ 0 }
    requires exact { AreExact identities.old cache.old.live }
{
    let mut coming = u128::MAX;
    let mut going = u128::MAX;
    for i in 0..ROUNDS {
        let before = u64::from(i) * 40;
        let (came, went) = round(rt, watch, cache, identities, holder, before, steps)?;
        coming = coming.min(came);
        going = going.min(went);
    }
    Some((coming, going))
}
