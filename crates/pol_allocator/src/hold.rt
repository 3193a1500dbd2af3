//! Label sets held.
ghost use Rattle.std.specs.Prelude.{◌≡◌, ◌+◌, ◌≤◌, ◌&&◌, ◌↔◌, ◌∷◌, [], not, true, false, if◌then◌else◌, IfOk, OnErr, IsErrOf};
ghost use Rattle.pol_model.specs.Fault.{has_reserved, is_exhausted, is_init};
ghost use Rattle.pol_selcache.specs.Cache.{MayPlan};
ghost use Rattle.pol_selcache.specs.Live.{label_selectors};
ghost use Rattle.pol_allocator.specs.Held.{HoldsLabels, IsSettled, Prepares, with_log_room};

use crate::Allocator;
use pol_data::{Memory, Steps};
use pol_ident::IdentError;
use pol_labels::LabelSet;
use pol_selcache::Plan;
use std::sync::ledger::Ledger;

/// What a label set took.
#[derive(Drop)]
pub struct LabelsHeld {
    /// The number that it holds.
    pub number: u32,
    /// What changes of the sets.
    pub plan: Plan,
}

impl Allocator {
    /// What changes of the sets where this number was taken: nothing where it isn't new.
    fn plan_taken<L: Ledger>(
        &mut self,
        revision: u64,
        number: u32,
        is_new: bool,
        steps: &mut Steps<L>,
    ) -> Result<Plan, Memory>
        requires may { MayPlan revision (if is_new then number ∷ [] else []) [] self.old.rows self.old.cache }
        ensures plan { IfOk result (λ plan. Prepares revision self.old.rows self.new.cache plan) }
        ensures same { self.new ≡ with_log_room self.new.cache.log.spare self.old }
        ensures err { OnErr result (self.new ≡ self.old) }
        ensures cost { steps.new ≤ steps.old + label_selectors self.old.cache.live }
    {
        if is_new {
            self.plan(revision, &[number], &[], steps)
        } else {
            self.plan(revision, &[], &[], steps)
        }
    }

    /// Holds the label set once more: its number, which is that of an equal set or else the least free one of 256 to
    /// 65535, and what that changes of the sets at a revision (Cilium, Terminology, "Identity"; which free number is
    /// profile). No set is changed yet.
    ///
    /// `Exhausted` comes exactly where all of these numbers are held and the set has none. `Memory` is want of memory,
    /// or a count of holders at its end. After an error all is as before.
    pub fn hold_labels<L: Ledger>(
        &mut self,
        revision: u64,
        labels: &LabelSet,
        steps: &mut Steps<L>,
    ) -> Result<LabelsHeld, IdentError>
        requires allowed { (has_reserved labels.now && not (is_init labels.now)) ≡ false }
        requires settled { IsSettled revision self.old }
        ensures held { IfOk result (λ held. HoldsLabels revision labels.now self.old self.new held.number held.plan) }
        ensures err { OnErr result (self.new ≡ self.old) }
        ensures exhausted { IsErrOf result IdentError.Exhausted ↔ (is_exhausted labels.now self.old.rows ≡ true) }
        ensures cost { steps.new ≤ steps.old + label_selectors self.old.cache.live }
    {
        let _ordered = labels.as_slice();
        let is_new = self.identities.number_of(labels).is_none();
        let number = self.identities.acquire(labels)?;
        match self.plan_taken(revision, number, is_new, steps) {
            Ok(plan) => Ok(LabelsHeld { number, plan }),
            Err(_) => {
                self.release(number);
                Err(IdentError::Memory)
            }
        }
    }
}
