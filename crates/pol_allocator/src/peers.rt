//! The selectors that the peers of policies refer to.
ghost use Rattle.std.specs.Prelude.{◌≡◌, ◌+◌, ◌≤◌, [], OnOk, OnErr, length};
ghost use Rattle.pol_selcache.specs.Live.{AreExact};
ghost use Rattle.pol_rule.specs.Listed.{listed_peers};
ghost use Rattle.pol_peers.specs.Numbering.{GainsRefs, LosesRefs};
ghost use Rattle.pol_peers.specs.References.{HasRefs, IsMoreBy, steps_to_hold};

use crate::Allocator;
use pol_data::{Memory, Steps};
use pol_peers::{drop_peers, hold_peers};
use pol_rule::Policy;
use std::sync::ledger::Ledger;

impl Allocator {
    /// One reference more for each peer that the policy lists, or for none. A new selector has the held numbers that its
    /// peer selects; the sets of the others stay as they are. `Memory` is want of memory, or a count at its end.
    pub fn refer<L: Ledger>(&mut self, policy: &Policy, steps: &mut Steps<L>) -> Result<(), Memory>
        requires exact { AreExact self.old.rows self.old.cache.live }
        // On success, and on failure.
        ensures ok { OnOk result (IsMoreBy (listed_peers policy.now) self.old.cache.live self.new.cache.live) }
        ensures err { OnErr result (IsMoreBy [] self.old.cache.live self.new.cache.live) }
        // In both cases.
        ensures rows { self.new.rows ≡ self.old.rows }
        ensures gains { GainsRefs self.old.rows self.old.cache self.new.cache }
        ensures cost { steps.new ≤ steps.old + steps_to_hold (listed_peers policy.now) (length self.old.rows) }
    {
        hold_peers(
            self.alloc,
            &mut self.selectors,
            policy,
            &self.identities,
            steps,
        )
    }

    /// One reference less for each peer that the policy lists; a selector goes with its last one. It takes no memory.
    pub fn unrefer(&mut self, policy: &Policy)
        requires referred { HasRefs (listed_peers policy.now) self.old.cache.live }
        ensures rows { self.new.rows ≡ self.old.rows }
        ensures peers { IsMoreBy (listed_peers policy.now) self.new.cache.live self.old.cache.live }
        ensures loses { LosesRefs self.old.cache self.new.cache }
    {
        let _ = &self.identities;
        drop_peers(&mut self.selectors, policy);
    }
}
