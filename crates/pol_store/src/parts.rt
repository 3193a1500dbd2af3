//! The parts of the store, each changed by one call.
ghost use Rattle.std.specs.Prelude.{◌≡◌, ◌<◌, ◌+◌, ◌-◌, ◌^◌, ◌≤◌, ◌&&◌, ◌↔◌, ◌++◌, ◌∷◌, [], not, true, false, None, IfOk, OnOk, OnErr, IsErrOf};
ghost use Rattle.pol_labels.specs.Order.{IsLabelSet};
ghost use Rattle.pol_model.specs.declared.limits.TheConstants.{ENDPOINTS_MAX};
ghost use Rattle.pol_model.specs.Endpoints.{endpoint_of, free_slot, without_endpoint, without_named};
ghost use Rattle.pol_model.specs.Fault.{has_reserved, is_exhausted, is_init};
ghost use Rattle.pol_model.specs.Identities.{is_local, released};
ghost use Rattle.pol_model.specs.Numbers.{placed_by};
ghost use Rattle.pol_model.specs.Remote.{endpoint_at};
ghost use Rattle.pol_model_laws.specs.Holding.{has_row};
ghost use Rattle.pol_set_changes.specs.Log.{newest};
ghost use Rattle.pol_selcache.specs.Cache.{IsPlanFor};
ghost use Rattle.pol_selcache.specs.Live.{label_selectors};
ghost use Rattle.pol_tables.specs.Tables.{SameNumbers, number_named};
ghost use Rattle.pol_allocator.specs.Held.{HoldsLabels, IsSettled, Prepares, with_log_room};
ghost use Rattle.pol_store.specs.Parts.{begun, numbers_of, with_numbers};
ghost use Rattle.pol_store.specs.Store.{with_rooms};

use crate::store::Store;
use pol_allocator::LabelsHeld;
use pol_data::{Memory, Steps, Text};
use pol_ident::IdentError;
use pol_labels::LabelSet;
use pol_model::{Endpoint, Mode};
use pol_selcache::Plan;
use std::alloc::Global;
use std::sync::ledger::Ledger;

impl Store {
    /// The allocator.
    pub fn allocator(&self) -> Global {
        self.alloc
    }

    /// The mode from now on.
    pub fn set_mode(&mut self, mode: Mode)
        ensures mode { self.new ≡ record self.old { state = record self.old.state { mode = mode } } }
    {
        self.mode = mode;
        self.kept.forget_all();
    }

    /// The revision of the next request.
    pub fn next_revision(&self) -> u64
        requires room { self.now.state.revision < 2 ^ 64 - 1 }
        ensures next { result ≡ self.now.state.revision + 1 }
    {
        self.revision + 1
    }

    /// Room for one endpoint more. The one error is want of memory.
    pub fn reserve_endpoint(&mut self) -> Result<(), Memory>
        ensures same { self.new ≡ with_rooms (record self.old.rooms { endpoints = self.new.rooms.endpoints }) self.old }
        ensures room { OnOk result (0 < self.new.rooms.endpoints) }
    {
        self.endpoints.reserve()
    }

    /// Room for one named identity more. The one error is want of memory.
    pub fn reserve_name(&mut self) -> Result<(), Memory>
        ensures same { self.new ≡ with_rooms (record self.old.rooms { named = self.new.rooms.named }) self.old }
        ensures room { OnOk result (0 < self.new.rooms.named) }
    {
        self.named.reserve()
    }

    /// Holds the label set once more, and finds what that changes of the sets at the next revision. After an error all is as
    /// before.
    pub fn hold_labels<L: Ledger>(
        &mut self,
        labels: &LabelSet,
        steps: &mut Steps<L>,
    ) -> Result<LabelsHeld, IdentError>
        requires allowed { (has_reserved labels.now && not (is_init labels.now)) ≡ false }
        requires settled { IsSettled (self.old.state.revision + 1) (numbers_of self.old) }
        requires room { self.old.state.revision < 2 ^ 64 - 1 }
        ensures held { IfOk result (λ held. HoldsLabels (self.old.state.revision + 1) labels.now
            (numbers_of self.old) (numbers_of self.new) held.number held.plan) }
        ensures same { self.new ≡ with_numbers (numbers_of self.new) self.old }
        ensures err { OnErr result (self.new ≡ self.old) }
        ensures exhausted { IsErrOf result IdentError.Exhausted
            ↔ (is_exhausted labels.now self.old.state.identities ≡ true) }
        ensures ordered { IsLabelSet labels.now }
        ensures cost { steps.new ≤ steps.old + label_selectors self.old.cache.live }
    {
        // The call tells that the labels are a label set.
        let _ordered = labels.as_slice();
        self.numbers.hold_labels(self.revision + 1, labels, steps)
    }

    /// What changes of the sets at the next revision where one holder of this number goes. The one error is want of memory.
    pub fn plan_release<L: Ledger>(
        &mut self,
        number: u32,
        steps: &mut Steps<L>,
    ) -> Result<Plan, Memory>
        requires held { has_row number self.old.state.identities ≡ true }
        requires settled { IsSettled (self.old.state.revision + 1) (numbers_of self.old) }
        requires room { self.old.state.revision < 2 ^ 64 - 1 }
        ensures plan { IfOk result (λ plan.
            Prepares (self.old.state.revision + 1) (released number self.old.state.identities) self.new.cache plan) }
        ensures same { self.new ≡ with_numbers (with_log_room self.new.cache.log.spare (numbers_of self.old)) self.old }
        ensures err { OnErr result (self.new ≡ self.old) }
        ensures cost { steps.new ≤ steps.old }
    {
        self.numbers.plan_release(self.revision + 1, number, steps)
    }

    /// What changes of the sets at the next revision where no number comes or goes. The one error is want of memory.
    pub fn plan_nothing<L: Ledger>(&mut self, steps: &mut Steps<L>) -> Result<Plan, Memory>
        requires settled { IsSettled (self.old.state.revision + 1) (numbers_of self.old) }
        requires room { self.old.state.revision < 2 ^ 64 - 1 }
        ensures plan { IfOk result (λ plan.
            Prepares (self.old.state.revision + 1) self.old.state.identities self.new.cache plan) }
        ensures same { self.new ≡ with_numbers (with_log_room self.new.cache.log.spare (numbers_of self.old)) self.old }
        ensures err { OnErr result (self.new ≡ self.old) }
        ensures cost { steps.new ≤ steps.old }
    {
        self.numbers.plan_nothing(self.revision + 1, steps)
    }

    /// Raises the revision, and makes the planned changes of the sets.
    pub fn accept(&mut self, plan: Plan)
        requires fits { IsPlanFor plan self.old.cache }
        requires room { self.old.state.revision < 2 ^ 64 - 1 }
        ensures begun { self.new ≡ begun plan self.old }
        ensures newest { newest self.new.cache.log ≤ plan.revision }
    {
        self.numbers.fits_together();
        self.numbers.carry_out(plan);
        self.revision += 1;
    }

    /// Takes one holder away from a number that isn't a prefix's.
    pub fn release(&mut self, number: u32)
        requires held { has_row number self.old.state.identities ≡ true }
        requires not_local { is_local number ≡ false }
        ensures released { self.new ≡ with_numbers
            (record (numbers_of self.old) { rows = released number self.old.state.identities }) self.old }
    {
        self.numbers.fits_together();
        self.numbers.release(number);
    }

    /// The row of a new endpoint is placed.
    pub fn put_endpoint(&mut self, endpoint: Endpoint, name: Text)
        requires room { 0 < self.old.rooms.endpoints }
        requires name { name ≡ endpoint.name }
        requires new_name { endpoint_of endpoint.name self.old.state.endpoints ≡ None }
        requires new_address { endpoint_at endpoint.address self.old.state.endpoints ≡ None }
        requires slot { endpoint.slot ≡ free_slot self.old.state.endpoints }
        requires within { endpoint.slot < ENDPOINTS_MAX }
        ensures placed { self.new ≡ record self.old {
          state = record self.old.state {
            endpoints = placed_by (λ endpoint. endpoint.slot) endpoint self.old.state.endpoints;
          };
          rooms = self.new.rooms;
        } }
    {
        self.endpoints.place(endpoint, name);
        self.addresses = None;
    }

    /// The row of the endpoint of that name goes.
    pub fn drop_endpoint(&mut self, name: &str)
        ensures gone { self.new ≡ record self.old {
          state = record self.old.state { endpoints = without_endpoint name.now self.old.state.endpoints };
          rooms = self.new.rooms;
        } }
    {
        self.endpoints.remove(name);
        self.addresses = None;
    }

    /// The row of a new named identity is placed.
    pub fn put_name(&mut self, name: Text, number: u32)
        requires room { 0 < self.old.rooms.named }
        requires new { number_named name self.old.state.named ≡ None }
        ensures placed { self.new
            ≡ record self.old {
              state = record self.old.state {
                named = self.old.state.named ++ record {
                  name = name;
                  number = number;
                } ∷ [];
              };
              rooms = self.new.rooms;
            } }
    {
        self.named.place(name, number);
    }

    /// The row of the named identity of that name goes.
    pub fn drop_name(&mut self, name: &str)
        ensures gone { self.new ≡ record self.old
            { state = record self.old.state { named = self.new.state.named }; rooms = self.new.rooms } }
        ensures numbers { SameNumbers self.new.state.named (without_named name.now self.old.state.named) }
    {
        self.named.remove(name);
    }
}
