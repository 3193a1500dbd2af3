//! The parts of the store that a policy's request changes, each by one call.
ghost use Rattle.std.specs.Prelude.{◌≡◌, ◌<◌, ◌+◌, ◌-◌, ◌^◌, ◌↔◌, [], IfOk, OnOk, OnErr, IsErrOf};
ghost use Rattle.std.specs.List.{AllByRecursion, IsDistinct};
ghost use Rattle.pol_addr.specs.Cidr.{IsPrefix};
ghost use Rattle.pol_addr.specs.Prefix.{same_prefix};
ghost use Rattle.pol_model.specs.declared.limits.TheConstants.{LOCAL_IDENTITIES as MOST};
ghost use Rattle.pol_model.specs.Fault.{locals_held, locals_wanted};
ghost use Rattle.pol_model.specs.Policies.{applied, policy_at, removed};
ghost use Rattle.pol_model.specs.Prefixes.{prefixes_held, prefixes_released};
ghost use Rattle.pol_model.specs.Sizes.{IsShortPolicy};
ghost use Rattle.pol_selcache.specs.Cache.{with_room};
ghost use Rattle.pol_selcache.specs.Live.{AreExact};
ghost use Rattle.pol_rule.specs.Listed.{listed_peers};
ghost use Rattle.pol_peers.specs.Numbering.{GainsRefs, LosesRefs};
ghost use Rattle.pol_peers.specs.References.{HasRefs, IsMoreBy};
ghost use Rattle.pol_allocator.specs.Held.{AreApart, IsSettled, Prepares};
ghost use Rattle.pol_store.specs.Inside.{left_by};
ghost use Rattle.pol_store.specs.Parts.{numbers_of};
ghost use Rattle.pol_store.specs.PolicyParts.{listed_of, with_cache, with_policies, with_rows};
ghost use Rattle.pol_store.specs.Store.{with_rooms};

use crate::store::Store;
use pol_addr::Prefix;
use pol_data::{Memory, Steps};
use pol_ident::IdentError;
use pol_model::Stamped;
use pol_rule::{Policy, PolicyKey};
use pol_selcache::Plan;
use pol_taken::Addresses;
use std::sync::Arc;
use std::sync::ledger::Ledger;

/// What each address is is let go where there are prefixes, which come or go. So the table of prefixes can be changed in place
/// where no take has it.
fn let_go(addresses: &mut Option<Arc<Addresses>>, prefixes: &[Prefix])
    ensures left { addresses.new ≡ left_by prefixes.now addresses.old }
{
    if !prefixes.is_empty() {
        *addresses = None;
    }
}

impl Store {
    /// Room for one policy more. The one error is want of memory.
    pub fn reserve_policy(&mut self) -> Result<(), Memory>
        ensures same { self.new ≡ with_rooms self.new.rooms self.old }
        ensures room { OnOk result (0 < self.new.rooms.policies) }
    {
        self.policies.reserve()
    }

    /// One reference more for each peer that the policy lists, or for none. The one error is want of memory.
    pub fn refer<L: Ledger>(&mut self, policy: &Policy, steps: &mut Steps<L>) -> Result<(), Memory>
        requires exact { AreExact self.old.state.identities self.old.cache.live }
        // On success, and on failure.
        ensures ok { OnOk result (IsMoreBy (listed_peers policy.now) self.old.cache.live self.new.cache.live) }
        ensures err { OnErr result (IsMoreBy [] self.old.cache.live self.new.cache.live) }
        // In both cases.
        ensures same { self.new ≡ with_cache self.new.cache self.old }
        ensures gains { GainsRefs self.old.state.identities self.old.cache self.new.cache }
    {
        self.numbers.fits_together();
        self.numbers.refer(policy, steps)
    }

    /// One reference less for each peer that the policy lists.
    pub fn unrefer(&mut self, policy: &Policy)
        requires referred { HasRefs (listed_peers policy.now) self.old.cache.live }
        ensures same { self.new ≡ with_cache self.new.cache self.old }
        ensures peers { IsMoreBy (listed_peers policy.now) self.new.cache.live self.old.cache.live }
        ensures loses { LosesRefs self.old.cache self.new.cache }
    {
        self.numbers.unrefer(policy);
    }

    /// The same for a policy that was replaced or taken out, if there was one.
    pub fn unrefer_old(&mut self, old: Option<Stamped>)
        requires referred { HasRefs (listed_of old) self.old.cache.live }
        ensures same { self.new ≡ with_cache self.new.cache self.old }
        ensures peers { IsMoreBy (listed_of old) self.new.cache.live self.old.cache.live }
        ensures loses { LosesRefs self.old.cache self.new.cache }
    {
        if let Some(stamped) = old {
            self.unrefer(&stamped.policy);
        }
    }

    /// Holds the prefixes of a policy once more, and plans what that changes of the sets at the next revision, where those
    /// of another policy are released then.
    pub fn hold_prefixes<L: Ledger>(
        &mut self,
        taken: &[Prefix],
        given_up: &[Prefix],
        steps: &mut Steps<L>,
    ) -> Result<Plan, IdentError>
        requires room { self.old.state.revision < 2 ^ 64 - 1 }
        requires settled { IsSettled (self.old.state.revision + 1) (numbers_of self.old) }
        requires once { IsDistinct same_prefix given_up.now }
        requires apart { AreApart taken.now given_up.now self.old.state.identities }
        // On success.
        ensures rows { OnOk result (self.new
            ≡ with_rows (prefixes_held taken.now self.old.state.identities) (with_cache self.new.cache self.old)) }
        ensures plan { IfOk result (λ plan. Prepares (self.old.state.revision + 1)
            (prefixes_released given_up.now (prefixes_held taken.now self.old.state.identities)) self.new.cache plan) }
        ensures within { OnOk result (AllByRecursion IsPrefix taken.now) }
        // On failure.
        ensures err { OnErr result (self.new ≡ self.old) }
        ensures exhausted { IsErrOf result IdentError.Exhausted
            ↔ (MOST < locals_held self.old.state.identities + locals_wanted self.old.state.identities taken.now) }
        // In both cases.
        ensures sets { self.new.cache ≡ with_room self.new.cache.log.spare self.old.cache }
    {
        let_go(&mut self.addresses, taken);
        let_go(&mut self.addresses, given_up);
        self.numbers
            .hold_prefixes(self.revision + 1, taken, given_up, steps)
    }

    /// What changes of the sets at the next revision where the prefixes of a policy are released. The one error is want of
    /// memory.
    pub fn plan_prefixes<L: Ledger>(
        &mut self,
        given_up: &[Prefix],
        steps: &mut Steps<L>,
    ) -> Result<Plan, Memory>
        requires room { self.old.state.revision < 2 ^ 64 - 1 }
        requires settled { IsSettled (self.old.state.revision + 1) (numbers_of self.old) }
        requires once { IsDistinct same_prefix given_up.now }
        ensures plan { IfOk result (λ plan. Prepares (self.old.state.revision + 1)
            (prefixes_released given_up.now self.old.state.identities) self.new.cache plan) }
        ensures same { self.new ≡ with_cache (with_room self.new.cache.log.spare self.old.cache) self.old }
    {
        let_go(&mut self.addresses, given_up);
        self.numbers
            .plan_prefixes(self.revision + 1, given_up, steps)
    }

    /// Takes one holder away from each of the prefixes. The sets stay as they are.
    pub fn release_prefixes(&mut self, prefixes: &[Prefix])
        ensures rows { self.new ≡ with_rows (prefixes_released prefixes.now self.old.state.identities) self.old }
    {
        let_go(&mut self.addresses, prefixes);
        self.numbers.release_prefixes(prefixes);
    }

    /// Puts a policy in place of one of the same key, which it gives back, and else last.
    pub fn put(&mut self, new: Stamped, key: PolicyKey) -> Option<Stamped>
        requires room { 0 < self.old.rooms.policies }
        requires key { key ≡ new.policy.key }
        requires short { IsShortPolicy new.policy }
        ensures same { self.new
            ≡ with_rooms self.new.rooms (with_policies (applied new self.old.state.policies) self.old) }
        ensures replaced { result ≡ policy_at new.policy.key self.old.state.policies }
    {
        self.kept.forget_selected(&new.policy);
        let old = self.policies.put(new, key);
        self.kept.forget_old(&old);
        old
    }

    /// Takes out the policy of that key, and gives it back.
    pub fn take_out(&mut self, key: &PolicyKey) -> Option<Stamped>
        ensures same { self.new
            ≡ with_rooms self.new.rooms (with_policies (removed key.now self.old.state.policies) self.old) }
        ensures removed { result ≡ policy_at key.now self.old.state.policies }
    {
        let old = self.policies.remove(key);
        self.kept.forget_old(&old);
        old
    }
}
