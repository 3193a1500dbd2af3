//! The prefixes of policies: held, and planned to be released.
ghost use Rattle.std.specs.Prelude.{◌≡◌, ◌<◌, ◌+◌, ◌↔◌, IfOk, OnOk, OnErr, IsErrOf};
ghost use Rattle.std.specs.List.{AllByRecursion, IsDistinct};
ghost use Rattle.pol_addr.specs.Cidr.{IsPrefix};
ghost use Rattle.pol_addr.specs.Prefix.{same_prefix};
ghost use Rattle.pol_model.specs.declared.limits.TheConstants.{LOCAL_IDENTITIES as MOST};
ghost use Rattle.pol_model.specs.Fault.{locals_held, locals_wanted};
ghost use Rattle.pol_model.specs.Prefixes.{prefixes_held, prefixes_released};
ghost use Rattle.pol_selcache.specs.Cache.{with_room};
ghost use Rattle.pol_allocator.specs.Held.{AreApart, IsSettled, Prepares, with_log_room};

use crate::Allocator;
use pol_addr::Prefix;
use pol_data::{Memory, Steps};
use pol_ident::IdentError;
use pol_selcache::Plan;
use std::sync::ledger::Ledger;

impl Allocator {
    /// Holds the prefixes of a policy once more, and finds what that changes of the sets at a revision, and what it changes
    /// that those of another policy are released then. No set is changed yet.
    ///
    /// `Exhausted` comes exactly where prefixes would hold more numbers than there are. `Memory` is want of memory, or a count
    /// of holders at its end. After an error all is as before.
    pub fn hold_prefixes<L: Ledger>(
        &mut self,
        revision: u64,
        taken: &[Prefix],
        given_up: &[Prefix],
        steps: &mut Steps<L>,
    ) -> Result<Plan, IdentError>
        requires settled { IsSettled revision self.old }
        requires once { IsDistinct same_prefix given_up.now }
        requires apart { AreApart taken.now given_up.now self.old.rows }
        // On success.
        ensures rows { OnOk result (self.new.rows ≡ prefixes_held taken.now self.old.rows) }
        ensures plan { IfOk result (λ plan. Prepares revision
            (prefixes_released given_up.now (prefixes_held taken.now self.old.rows)) self.new.cache plan) }
        ensures within { OnOk result (AllByRecursion IsPrefix taken.now) }
        // On failure.
        ensures err { OnErr result (self.new ≡ self.old) }
        ensures exhausted { IsErrOf result IdentError.Exhausted
            ↔ (MOST < locals_held self.old.rows + locals_wanted self.old.rows taken.now) }
        // In both cases.
        ensures sets { self.new.cache ≡ with_room self.new.cache.log.spare self.old.cache }
    {
        let come = self.take(taken)?;
        match self.plan_moves(revision, come.as_slice(), given_up, steps) {
            Ok(plan) => Ok(plan),
            Err(_) => {
                self.release_prefixes(taken);
                Err(IdentError::Memory)
            }
        }
    }

    /// What changes of the sets at a revision where the prefixes of a policy are released. No set is changed yet. The one
    /// error is want of memory.
    pub fn plan_prefixes<L: Ledger>(
        &mut self,
        revision: u64,
        given_up: &[Prefix],
        steps: &mut Steps<L>,
    ) -> Result<Plan, Memory>
        requires settled { IsSettled revision self.old }
        requires once { IsDistinct same_prefix given_up.now }
        ensures plan { IfOk result (λ plan.
            Prepares revision (prefixes_released given_up.now self.old.rows) self.new.cache plan) }
        ensures same { self.new ≡ with_log_room self.new.cache.log.spare self.old }
        ensures err { OnErr result (self.new ≡ self.old) }
    {
        let plan = self.plan_moves(revision, &[], given_up, steps)?;
        Ok(plan)
    }
}
