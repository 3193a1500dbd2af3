//! Numbers given back.
ghost use Rattle.std.specs.Prelude.{◌≡◌, ◌==◌, ◌≤◌, ◌&&◌, nat_lt, not, true, false, IfOk, OnErr};
ghost use Rattle.pol_model.specs.declared.limits.TheConstants.{RESERVED_LAST as LAST};
ghost use Rattle.pol_model.specs.Identities.{is_local, released};
ghost use Rattle.pol_model_laws.specs.Holding.{has_row};
ghost use Rattle.pol_model_laws.specs.Keeps.{KeepsRows};
ghost use Rattle.pol_allocator.specs.Held.{IsSettled, Prepares, with_log_room};

use crate::Allocator;
use pol_data::{Memory, Steps};
use pol_model::RESERVED_LAST;
use pol_selcache::Plan;
use std::sync::ledger::Ledger;

/// Whether the number isn't reserved, and has one holder.
fn goes_with_one(number: u32, holders: u64) -> bool
    ensures { result ≡ (nat_lt LAST number && (holders == 1)) }
{
    number > RESERVED_LAST && holders == 1
}

impl Allocator {
    /// Whether the number goes with one holder less: it has no other, and isn't a reserved one.
    fn is_last(&self, number: u32) -> bool
        requires held { has_row number self.now.rows ≡ true }
        ensures last { result ≡ not (has_row number (released number self.now.rows)) }
        ensures sound { KeepsRows self.now.rows }
    {
        match self.identities.holders_of(number) {
            Some(holders) => goes_with_one(number, holders),
            None => false,
        }
    }

    /// What changes of the sets at a revision where one holder of this number goes: nothing where others stay. No set is
    /// changed yet, and the number is held as before. The one error is want of memory.
    pub fn plan_release<L: Ledger>(
        &mut self,
        revision: u64,
        number: u32,
        steps: &mut Steps<L>,
    ) -> Result<Plan, Memory>
        requires held { has_row number self.old.rows ≡ true }
        requires settled { IsSettled revision self.old }
        ensures plan { IfOk result (λ plan. Prepares revision (released number self.old.rows) self.new.cache plan) }
        ensures same { self.new ≡ with_log_room self.new.cache.log.spare self.old }
        ensures err { OnErr result (self.new ≡ self.old) }
        ensures cost { steps.new ≤ steps.old }
    {
        if self.is_last(number) {
            self.plan(revision, &[], &[number], steps)
        } else {
            self.plan(revision, &[], &[], steps)
        }
    }

    /// Takes one holder away from a number that isn't a prefix's. With its last holder the identity goes, and its number
    /// is free. The reserved numbers 1 to 10 stay as they are, and so do the sets. It takes no memory.
    pub fn release(&mut self, number: u32)
        requires held { has_row number self.old.rows ≡ true }
        requires not_local { is_local number ≡ false }
        ensures released { self.new ≡ record self.old { rows = released number self.old.rows } }
        ensures sound { KeepsRows self.new.rows }
    {
        let _ = &self.selectors;
        self.identities.release(number);
    }
}
