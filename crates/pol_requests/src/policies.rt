//! Policies that come and go.
ghost use Rattle.std.specs.Prelude.{◌≡◌, ◌<◌, ◌+◌, ◌-◌, ◌^◌, IfOk, IfErr, None};
ghost use Rattle.pol_rule.specs.Prefixes.{policy_prefixes};
ghost use Rattle.pol_model.specs.declared.request.Request.TheVariants.{Apply, Remove};
ghost use Rattle.pol_model.specs.Fault.{fault_of};
ghost use Rattle.pol_model.specs.Policies.{policy_at, prefixes_of};
ghost use Rattle.pol_model.specs.Sizes.{IsShortPolicy};
ghost use Rattle.pol_model.specs.State.{State};
ghost use Rattle.pol_model_laws.specs.Keeps.{Keeps};
ghost use Rattle.pol_rule.specs.Listed.{listed_peers};
ghost use Rattle.pol_peers.specs.Numbering.{GainsSelectors, LosesSelectors};
ghost use Rattle.pol_peers.specs.References.{HasRefs};
ghost use Rattle.pol_selcache.specs.Cache.{with_room};
ghost use Rattle.pol_requests.specs.Causes.{policy_error};
ghost use Rattle.pol_requests.specs.Prepared.{Changes, IsCause, IsPrepared, MayChange, PreparesOrNot};
ghost use Rattle.pol_store.specs.Store.{StandsFor, StandsForSome};
ghost use Rattle.pol_requests.specs.declared.prepared.Prepared.{Prepared as OnePrepared};

use crate::error::PrepareError;
use crate::prepared::{Prepared, TableChange};
use pol_data::{Memory, Steps};
use pol_ident::IdentError;
use pol_model::{Fault, Stamped};
use pol_prefixes::are_too_many;
use pol_rule::{Policy, PolicyKey, Prefixes};
use pol_store::Store;
use std::alloc::Global;
use std::sync::ledger::Ledger;

/// What a policy's request does to the tables.
#[derive(Drop)]
struct NewPolicy {
    /// The policy with its stamp.
    stamped: Stamped,
    /// Its key, for the index.
    key: PolicyKey,
    /// The prefixes that it holds.
    taken: Prefixes,
    /// Those of the policy that it replaces.
    given_up: Prefixes,
}

/// The key of a policy, and the prefixes that it holds.
#[derive(Drop)]
struct KeyAndPrefixes {
    key: PolicyKey,
    prefixes: Prefixes,
}

/// Why a policy isn't prepared, where its prefixes aren't held.
fn policy_error(error: IdentError) -> PrepareError
    ensures { result ≡ policy_error error }
{
    match error {
        IdentError::Exhausted => PrepareError::Fault(Fault::LocalExhausted),
        IdentError::Memory => PrepareError::Memory,
    }
}

/// The key of the policy, and the prefixes that it holds.
fn key_and_prefixes(alloc: Global, policy: &Policy) -> Result<KeyAndPrefixes, Memory>
    ensures key { IfOk result (λ own. own.key ≡ policy.now.key) }
    ensures prefixes { IfOk result (λ own. own.prefixes ≡ policy_prefixes policy.now) }
{
    Ok(KeyAndPrefixes {
        key: policy.key.copy(alloc)?,
        prefixes: policy.prefixes(alloc)?,
    })
}

/// What the policy's request does to the tables.
fn new_policy(store: &Store, policy: &Policy) -> Result<NewPolicy, Memory>
    requires room { store.now.state.revision < 2 ^ 64 - 1 }
    ensures stamped { IfOk result (λ new.
        new.stamped ≡ record { policy = policy.now; stamp = store.now.state.revision + 1 }) }
    ensures key { IfOk result (λ new. new.key ≡ policy.now.key) }
    ensures taken { IfOk result (λ new. new.taken ≡ policy_prefixes policy.now) }
    ensures given_up { IfOk result (λ new.
        new.given_up ≡ prefixes_of (policy_at policy.now.key store.now.state.policies)) }
{
    let stamped = store.stamped(policy)?;
    let given_up = store.prefixes_at(&policy.key)?;
    let own = key_and_prefixes(store.allocator(), policy)?;
    Ok(NewPolicy {
        stamped,
        key: own.key,
        taken: own.prefixes,
        given_up,
    })
}

/// The key and the prefixes of the policy of that key. `Fault` says that there is none.
fn old_policy(store: &Store, key: &PolicyKey) -> Result<KeyAndPrefixes, PrepareError>
    ensures key { IfOk result (λ old. old.key ≡ key.now) }
    ensures prefixes { IfOk result (λ old. old.prefixes ≡ prefixes_of (policy_at key.now store.now.state.policies)) }
    ensures no_fault { IfOk result (λ old. fault_of store.now.state (Remove key.now) ≡ None) }
    ensures cause { IfErr result (IsCause store.now.state (Remove key.now)) }
{
    match store.policies().find(key) {
        Some(stamped) => Ok(KeyAndPrefixes {
            key: key.copy(store.allocator())?,
            prefixes: stamped.policy.prefixes(store.allocator())?,
        }),
        None => Err(PrepareError::Fault(Fault::UnknownPolicy)),
    }
}

/// Prepares a policy: its peers have references, and its prefixes are held.
pub(crate) fn prepare_policy<L: Ledger>(
    store: &mut Store,
    policy: &Policy,
    steps: &mut Steps<L>,
) -> Result<Prepared, PrepareError>
    requires stands { StandsForSome store.old }
    requires room { store.old.state.revision < 2 ^ 64 - 1 }
    requires short { IsShortPolicy policy.now }
    ensures prepared { PreparesOrNot (Apply policy.now) store.old store.new result }
    ensures selectors { GainsSelectors store.old.cache store.new.cache }
{
    store.fits_together();
    store.reserve_policy()?;
    let new = new_policy(store, policy)?;
    // Before selectors are made, which takes long where there are millions of prefixes.
    if are_too_many(store.numbers().identities(), new.taken.as_slice()) {
        return Err(PrepareError::Fault(Fault::LocalExhausted));
    }
    store.refer(policy, steps)?;
    match store.hold_prefixes(new.taken.as_slice(), new.given_up.as_slice(), steps) {
        Ok(plan) => Ok(Prepared {
            plan,
            change: TableChange::Policy {
                stamped: new.stamped,
                key: new.key,
                taken: new.taken,
                given_up: new.given_up,
            },
        }),
        Err(error) => {
            store.unrefer(policy);
            Err(policy_error(error))
        }
    }
}

/// Prepares that the policy of that key goes.
pub(crate) fn prepare_no_policy<L: Ledger>(
    store: &mut Store,
    key: &PolicyKey,
    steps: &mut Steps<L>,
) -> Result<Prepared, PrepareError>
    requires stands { StandsForSome store.old }
    requires room { store.old.state.revision < 2 ^ 64 - 1 }
    ensures prepared { PreparesOrNot (Remove key.now) store.old store.new result }
    ensures sets { store.new.cache ≡ with_room store.new.cache.log.spare store.old.cache }
{
    let old = old_policy(store, key)?;
    let plan = store.plan_prefixes(old.prefixes.as_slice(), steps)?;
    Ok(Prepared {
        plan,
        change: TableChange::NoPolicy(old.key, old.prefixes),
    })
}

/// Places the policy; what one of the same key held and referred to is given up.
pub(crate) fn accept_policy(
    store: &mut Store,
    new: Stamped,
    key: PolicyKey,
    taken: Prefixes,
    given_up: Prefixes,
)
    requires may { MayChange store.old (TableChange.Policy new key taken given_up) }
    ensures done { Changes store.old (TableChange.Policy new key taken given_up) store.new }
    ensures selectors { LosesSelectors store.old.cache store.new.cache }
{
    let old = store.put(new, key);
    store.unrefer_old(old);
    store.release_prefixes(given_up.as_slice());
}

/// Takes the policy out, and gives up what it held and referred to.
pub(crate) fn accept_no_policy(store: &mut Store, key: PolicyKey, given_up: Prefixes)
    requires may { MayChange store.old (TableChange.NoPolicy key given_up) }
    ensures done { Changes store.old (TableChange.NoPolicy key given_up) store.new }
    ensures selectors { LosesSelectors store.old.cache store.new.cache }
{
    let old = store.take_out(&key);
    store.unrefer_old(old);
    store.release_prefixes(given_up.as_slice());
}

/// Gives back what a prepared policy holds and refers to.
pub(crate) fn withdraw_policy(store: &mut Store, policy: &Policy, taken: &Prefixes)
    requires referred { HasRefs (listed_peers policy.now) store.old.cache.live }
    ensures back { (s : State) (prepared : OnePrepared) → Keeps s → IsPrepared s (Apply policy.now) store.old prepared
        → taken.now ≡ policy_prefixes policy.now → StandsFor s store.new }
    ensures selectors { LosesSelectors store.old.cache store.new.cache }
{
    store.release_prefixes(taken.as_slice());
    store.unrefer(policy);
}
