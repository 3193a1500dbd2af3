//! What numbers that come and go change of the sets.
ghost use Rattle.std.specs.Prelude.{◌≡◌, ◌+◌, ◌≤◌, ◌*◌, IfOk, OnErr, length};
ghost use Rattle.pol_selcache.specs.Cache.{MayPlan};
ghost use Rattle.pol_selcache.specs.Live.{label_selectors, rows_without};
ghost use Rattle.pol_allocator.specs.Held.{IsSettled, Prepares, with_log_room};

use crate::Allocator;
use pol_data::{Memory, Steps};
use pol_selcache::Plan;
use std::sync::ledger::Ledger;

impl Allocator {
    /// What changes where some numbers come and others go, which are all held now. No set is changed yet. The one error
    /// is want of memory.
    pub(crate) fn plan<L: Ledger>(
        &mut self,
        revision: u64,
        come: &[u32],
        gone: &[u32],
        steps: &mut Steps<L>,
    ) -> Result<Plan, Memory>
        requires may { MayPlan revision come.now gone.now self.old.rows self.old.cache }
        ensures plan { IfOk result (λ plan.
            Prepares revision (rows_without gone.now self.old.rows) self.new.cache plan) }
        ensures same { self.new ≡ with_log_room self.new.cache.log.spare self.old }
        ensures err { OnErr result (self.new ≡ self.old) }
        ensures cost { steps.new ≤ steps.old + label_selectors self.old.cache.live * length come.now }
    {
        let plan = self
            .selectors
            .plan(revision, come, gone, &self.identities, steps)?;
        Ok(plan)
    }

    /// What changes of the sets where nothing comes and nothing goes: a plan of nothing. The one error is want of memory.
    pub fn plan_nothing<L: Ledger>(
        &mut self,
        revision: u64,
        steps: &mut Steps<L>,
    ) -> Result<Plan, Memory>
        requires settled { IsSettled revision self.old }
        ensures plan { IfOk result (λ plan. Prepares revision self.old.rows self.new.cache plan) }
        ensures same { self.new ≡ with_log_room self.new.cache.log.spare self.old }
        ensures err { OnErr result (self.new ≡ self.old) }
        ensures cost { steps.new ≤ steps.old }
    {
        self.plan(revision, &[], &[], steps)
    }
}
