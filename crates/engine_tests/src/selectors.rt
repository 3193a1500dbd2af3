//! A selector's set as an identity comes and goes: what it gained, and since when, also after more changes than are kept.
ghost use Rattle.std.specs.Prelude.{◌≡◌, ℕ, ◌+◌, ◌^◌, ◌<◌, ◌≤◌, ◌∷◌, [], List, None, true, false, IfSome, IsTrue};
ghost use Rattle.pol_set_changes.specs.Log.{newest};
ghost use Rattle.pol_model_laws.specs.Holding.{has_row};
ghost use Rattle.pol_model.specs.Fault.{has_reserved};
ghost use Rattle.pol_model.specs.Identities.{number_of_labels};
ghost use Rattle.pol_selcache.specs.Cache.{MayCome, MayPlan};
ghost use Rattle.pol_selcache.specs.Live.{AreExact, Live, is_live, rows_without};

use pol_data::{Items, Memory, Steps, Text};
use pol_ident::Identities;
use pol_labels::{Label, LabelSet, Operator, Requirement, Selector};
use pol_model::has_reserved;
use pol_rule::Peer;
use pol_selcache::{Move, SelectorCache};
use std::alloc::Global;
use std::marker::Brand;
use std::sync::ledger::{Blank, Ledger};

/// The set of this one label.
fn label_set(alloc: Global, text: &str) -> Option<LabelSet> {
    let label = Label::parse(alloc, text).ok()?;
    let labels = Items::one(alloc, label).ok()?;
    LabelSet::from_labels(alloc, labels.into_vec()).ok()
}

/// `app: x`, of any source.
fn requirement(alloc: Global) -> Result<Requirement, Memory> {
    Ok(Requirement {
        any_source: true,
        source: Text::empty(alloc),
        key: Text::from_str(alloc, "app")?,
        op: Operator::OneOf,
        values: Items::one(alloc, Text::from_str(alloc, "x")?)?,
    })
}

/// The peer that asks for that.
fn peer(alloc: Global) -> Option<Peer> {
    let requirements = Items::one(alloc, requirement(alloc).ok()?).ok()?;
    let selector = Selector::from_requirements(alloc, requirements.into_vec()).ok()?;
    Some(Peer::Labels(selector))
}

/// Takes a number for a label set that has none.
fn acquired(identities: &mut Identities, labels: &LabelSet) -> Option<u32>
    requires allowed { has_reserved labels.now ≡ false }
    requires new { number_of_labels labels.now identities.old ≡ None }
    ensures may { IfSome result (λ number. MayCome number identities.old identities.new) }
    ensures held { IfSome result (λ number. has_row number identities.new ≡ true) }
{
    // No identity has the number 0. The call tells that the rows ascend.
    identities.fits_together();
    match identities.acquire(labels) {
        Ok(number) => Some(number),
        Err(_) => None,
    }
}

/// The same, where the label set has none and may have one.
fn taken(identities: &mut Identities, labels: &LabelSet) -> Option<u32>
    ensures may { IfSome result (λ number. MayCome number identities.old identities.new) }
    ensures held { IfSome result (λ number. has_row number identities.new ≡ true) }
{
    if has_reserved(labels) {
        return None;
    }
    match identities.number_of(labels) {
        Some(_) => None,
        None => acquired(identities, labels),
    }
}

/// Whether the sets took a number that came.
fn joins<L: Ledger>(
    cache: &mut SelectorCache,
    identities: &Identities,
    number: u32,
    revision: u64,
    steps: &mut Steps<L>,
) -> bool
    requires may { MayPlan revision (number ∷ []) [] identities.now cache.old }
    ensures exact { IsTrue result → AreExact identities.now cache.new.live }
    ensures newest { IsTrue result → newest cache.new.log ≤ revision }
    ensures live { (number : ℕ) → is_live number cache.new.live ≡ is_live number cache.old.live }
{
    match cache.change(revision, &[number], &[], identities, steps) {
        Ok(()) => true,
        Err(_) => false,
    }
}

/// Whether the sets lost a number that goes.
fn leaves<L: Ledger>(
    cache: &mut SelectorCache,
    identities: &Identities,
    number: u32,
    revision: u64,
    steps: &mut Steps<L>,
) -> bool
    requires newer { newest cache.old.log < revision }
    requires held { has_row number identities.now ≡ true }
    requires exact { AreExact identities.now cache.old.live }
    ensures exact { IsTrue result → AreExact (rows_without (number ∷ []) identities.now) cache.new.live }
    ensures newest { IsTrue result → newest cache.new.log ≤ revision }
    ensures live { (number : ℕ) → is_live number cache.new.live ≡ is_live number cache.old.live }
{
    match cache.change(revision, &[], &[number], identities, steps) {
        Ok(()) => true,
        Err(_) => false,
    }
}

/// Gives the number back, and says whether it went with its one holder.
fn is_given_back(identities: &mut Identities, number: u32) -> bool
    requires held { has_row number identities.old ≡ true }
    ensures exact { IsTrue result → (live : List Live)
        → AreExact (rows_without (number ∷ []) identities.old) live → AreExact identities.new live }
{
    // No identity has the number 0. The call tells that the rows fit together.
    identities.fits_together();
    identities.release(number);
    !identities.held(number)
}

/// The number of a label set that comes at a revision; none where it had one.
fn comes<L: Ledger>(
    cache: &mut SelectorCache,
    identities: &mut Identities,
    labels: &LabelSet,
    revision: u64,
    steps: &mut Steps<L>,
) -> Option<u32>
    requires newer { newest cache.old.log < revision }
    requires exact { AreExact identities.old cache.old.live }
    ensures newest { IfSome result (λ number. newest cache.new.log ≤ revision) }
    ensures exact { IfSome result (λ number. AreExact identities.new cache.new.live) }
    ensures held { IfSome result (λ number. has_row number identities.new ≡ true) }
    ensures live { (number : ℕ) → is_live number cache.new.live ≡ is_live number cache.old.live }
{
    let number = taken(identities, labels)?;
    if !joins(cache, identities, number, revision, steps) {
        return None;
    }
    Some(number)
}

/// Whether the number went at a revision, with its one holder.
fn goes<L: Ledger>(
    cache: &mut SelectorCache,
    identities: &mut Identities,
    number: u32,
    revision: u64,
    steps: &mut Steps<L>,
) -> bool
    requires newer { newest cache.old.log < revision }
    requires held { has_row number identities.old ≡ true }
    requires exact { AreExact identities.old cache.old.live }
    ensures newest { IsTrue result → newest cache.new.log ≤ revision }
    ensures exact { IsTrue result → AreExact identities.new cache.new.live }
    ensures live { (number : ℕ) → is_live number cache.new.live ≡ is_live number cache.old.live }
{
    if !leaves(cache, identities, number, revision, steps) {
        return false;
    }
    is_given_back(identities, number)
}

/// Whether the label set came at a revision and went at the next.
fn comes_and_goes<L: Ledger>(
    cache: &mut SelectorCache,
    identities: &mut Identities,
    labels: &LabelSet,
    revision: u64,
    steps: &mut Steps<L>,
) -> bool
    requires fits { revision + 1 < 2 ^ 64 }
    requires newer { newest cache.old.log < revision }
    requires exact { AreExact identities.old cache.old.live }
    ensures newest { IsTrue result → newest cache.new.log ≤ revision + 1 }
    ensures exact { IsTrue result → AreExact identities.new cache.new.live }
    ensures live { (number : ℕ) → is_live number cache.new.live ≡ is_live number cache.old.live }
{
    match comes(cache, identities, labels, revision, steps) {
        Some(number) => goes(cache, identities, number, revision + 1, steps),
        None => false,
    }
}

/// Whether the label set came and went so many times, at the revisions from 1 on.
fn come_and_go<L: Ledger>(
    cache: &mut SelectorCache,
    identities: &mut Identities,
    labels: &LabelSet,
    turns: u32,
    steps: &mut Steps<L>,
) -> bool
    requires newest { newest cache.old.log ≡ 0 }
    requires exact { AreExact identities.old cache.old.live }
    ensures newest { IsTrue result → newest cache.new.log ≤ turns + turns }
    ensures exact { IsTrue result → AreExact identities.new cache.new.live }
    ensures live { (number : ℕ) → is_live number cache.new.live ≡ is_live number cache.old.live }
{
    for turn in 0..turns {
        let revision = u64::from(turn) + u64::from(turn) + 1;
        if !comes_and_goes(cache, identities, labels, revision, steps) {
            return false;
        }
    }
    true
}

/// The identities with one of this label.
fn identities(alloc: Global, text: &str) -> Option<Identities> {
    let labels = label_set(alloc, text)?;
    let mut identities = Identities::new(alloc).ok()?;
    if has_reserved(&labels) {
        return None;
    }
    identities.acquire(&labels).ok()?;
    Some(identities)
}

/// A cache with a selector of the peer alone, and its number.
fn cache_of<L: Ledger>(
    alloc: Global,
    peer: &Peer,
    identities: &Identities,
    steps: &mut Steps<L>,
) -> Option<(SelectorCache, u64)>
    ensures newest { IfSome result (λ made. newest made.0.log ≡ 0) }
    ensures exact { IfSome result (λ made. AreExact identities.now made.0.live) }
    ensures live { IfSome result (λ made. is_live made.1 made.0.live ≡ true) }
{
    let mut cache = SelectorCache::new(alloc);
    let selector = cache.add(peer, identities, steps).ok()?;
    Some((cache, selector))
}

/// The same of `app: x`, after an identity of that label came at revision 2.
fn grown<L: Ledger>(
    alloc: Global,
    identities: &mut Identities,
    steps: &mut Steps<L>,
) -> Option<(SelectorCache, u64)>
    ensures live { IfSome result (λ made. is_live made.1 made.0.live ≡ true) }
{
    let peer = peer(alloc)?;
    let labels = label_set(alloc, "k8s:app=x")?;
    let (mut cache, selector) = cache_of(alloc, &peer, identities, steps)?;
    match comes(&mut cache, identities, &labels, 2, steps) {
        Some(257) => Some((cache, selector)),
        _ => None,
    }
}

/// The same after 65,537 changes of the selector's set: one identity came 32,769 times, and went each time but the last.
fn worn<L: Ledger>(
    alloc: Global,
    identities: &mut Identities,
    steps: &mut Steps<L>,
) -> Option<(SelectorCache, u64)>
    ensures live { IfSome result (λ made. is_live made.1 made.0.live ≡ true) }
{
    let peer = peer(alloc)?;
    let labels = label_set(alloc, "k8s:app=x")?;
    let (mut cache, selector) = cache_of(alloc, &peer, identities, steps)?;
    if !come_and_go(&mut cache, identities, &labels, 32_768, steps) {
        return None;
    }
    match comes(&mut cache, identities, &labels, 65_537, steps) {
        Some(257) => Some((cache, selector)),
        _ => None,
    }
}

/// What a selector's set gained and lost since a revision, how many numbers it has, and the horizon.
fn seen(
    alloc: Global,
    cache: &SelectorCache,
    selector: u64,
    revision: u64,
) -> Option<(Move, usize, u64)>
    requires live { is_live selector cache.now.live ≡ true }
{
    let count = cache.set_at_now(selector).ok()?.len();
    let moved = cache.changes_since(alloc, selector, revision).ok()??;
    Some((moved, count, cache.horizon()))
}

/// The same of the selector of `app: x`, which was there at revision 1 and whose identity came at 2.
fn told<L: Ledger>(blank: Blank, alloc: Global, revision: u64) -> Option<(Move, usize, u64)>
    requires name { blank.name ≡ L.name }
    requires parts { blank.parts ≡ L.parts }
    requires some { blank.parts ≡ 1 }
{
    let mut steps = Steps::<L>::new(blank);
    let mut identities = identities(alloc, "k8s:app=web")?;
    let (cache, selector) = grown(alloc, &mut identities, &mut steps)?;
    seen(alloc, &cache, selector, revision)
}

/// What is told for a caller that counts no steps.
fn told_uncounted(alloc: Global, revision: u64) -> Option<(Move, usize, u64)> {
    told::<Brand>(Blank::new(1), alloc, revision)
}

/// The same of the selector of `app: x` after 65,537 changes.
fn told_when_worn<L: Ledger>(
    blank: Blank,
    alloc: Global,
    revision: u64,
) -> Option<(Move, usize, u64)>
    requires name { blank.name ≡ L.name }
    requires parts { blank.parts ≡ L.parts }
    requires some { blank.parts ≡ 1 }
{
    let mut steps = Steps::<L>::new(blank);
    let mut identities = identities(alloc, "k8s:app=web")?;
    let (cache, selector) = worn(alloc, &mut identities, &mut steps)?;
    seen(alloc, &cache, selector, revision)
}

fn worn_uncounted(alloc: Global, revision: u64) -> Option<(Move, usize, u64)> {
    told_when_worn::<Brand>(Blank::new(1), alloc, revision)
}

/// Whether a set of one number is told that gained these and lost none, and this horizon.
fn is_gain(told: &Option<(Move, usize, u64)>, gained: &[u32], horizon: u64) -> bool {
    match told {
        Some((moved, 1, oldest)) => *oldest == horizon
            && moved.gained.iter().eq(gained.iter().copied())
            && moved.lost.is_empty(),
        _ => false,
    }
}

#[test]
fn a_number_that_came_is_told(rt: HostRuntime) {
    let since_before = told_uncounted(rt.alloc(), 1);
    assert!(rt; is_gain(&since_before, &[257], 0));
}

#[test]
fn nothing_came_since_then(rt: HostRuntime) {
    let since_then = told_uncounted(rt.alloc(), 2);
    assert!(rt; is_gain(&since_then, &[], 0));
}

#[test]
fn of_65537_changes_the_last_is_told(rt: HostRuntime) {
    let since_last = worn_uncounted(rt.alloc(), 65_536);
    assert!(rt; is_gain(&since_last, &[257], 1));
}

#[test]
fn of_65537_changes_nothing_is_left_since_the_first(rt: HostRuntime) {
    let since_first = worn_uncounted(rt.alloc(), 1);
    assert!(rt; is_gain(&since_first, &[], 1));
}

#[test]
fn of_65537_changes_the_first_is_dropped(rt: HostRuntime) {
    let since_start = worn_uncounted(rt.alloc(), 0);
    assert!(rt; since_start.is_none());
}
