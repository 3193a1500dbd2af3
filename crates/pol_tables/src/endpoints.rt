//! Live endpoints, by name, address and slot.
ghost use Rattle.std.specs.Prelude.{◌≡◌, ◌<◌, [], None, length, OnOk};
ghost use Rattle.std.specs.Option.{option_copied};
ghost use Rattle.pol_model.specs.Committed.{slots_of};
ghost use Rattle.pol_model.specs.Endpoints.{endpoint_of, free_slot, without_endpoint};
ghost use Rattle.pol_model.specs.Numbers.{placed_by};
ghost use Rattle.pol_model.specs.Remote.{endpoint_at};
ghost use Rattle.pol_tables.specs.Tables.{endpoint_in};

use crate::slots::{at_slot, count_slots, least_slot, place_of};
use indexmap::IndexMap;
use pol_addr::Addr;
use pol_data::{Memory, Text};
use pol_model::{ENDPOINTS_MAX, Endpoint};
use std::alloc::Global;
use std::marker::Model;

/// The live endpoints, ascending by slot; no two have one name, address or slot.
#[derive(Drop)]
pub struct EndpointTable {
    // In the order of slots.
    by_name: IndexMap<String, Endpoint>,
    // The slot of the endpoint that has the address.
    by_address: IndexMap<Addr, u32>,
}

impl Model for EndpointTable {
    ghost use Rattle.pol_tables.specs.Tables.{EndpointTable};

    ghost Value = { EndpointTable };

    ghost use Rattle.std.specs.Prelude.{min};
    ghost use Rattle.indexmap.specs.IndexMap.{spare, values};
    ghost use Rattle.pol_tables.specs.Tied.{IsEndpoints};

    ghost view = { λ e. record { list = values e.by_name; room = min (spare e.by_name) (spare e.by_address) } };

    ghost invariant = { λ e. IsEndpoints e.by_name.entries e.by_address.entries };
}

impl EndpointTable {
    /// No endpoint. It takes no memory.
    pub fn new(alloc: Global) -> EndpointTable
        ensures list { result.list ≡ [] }
    {
        EndpointTable {
            by_name: IndexMap::new(alloc),
            by_address: IndexMap::new(alloc),
        }
    }

    /// The endpoints, ascending by slot. It takes no memory.
    pub fn as_slice(&self) -> &[Endpoint]
        ensures list { result.now ≡ self.now.list }
    {
        self.by_name.values().as_slice()
    }

    /// How many endpoints are live.
    pub fn len(&self) -> usize
        ensures len { result ≡ length self.now.list }
    {
        self.as_slice().len()
    }

    /// The live endpoint of that name. It takes no memory.
    pub fn find(&self, name: &str) -> Option<&Endpoint>
        ensures found { option_copied result ≡ endpoint_of name.now self.now.list }
    {
        self.by_name.get(name)
    }

    /// The live endpoint of that slot. It takes no memory.
    pub fn at_slot(&self, slot: u32) -> Option<&Endpoint>
        ensures found { option_copied result ≡ endpoint_in slot self.now.list }
    {
        at_slot(self.by_name.values().as_slice(), slot)
    }

    /// The live endpoint that has the address. It takes no memory.
    pub fn at_address(&self, address: Addr) -> Option<&Endpoint>
        ensures found { option_copied result ≡ endpoint_at address self.now.list }
    {
        match self.by_address.get(&address) {
            Some(slot) => at_slot(self.by_name.values().as_slice(), *slot),
            None => None,
        }
    }

    /// The least slot that no live endpoint has. It takes no memory.
    pub fn free_slot(&self) -> u32
        ensures free { result ≡ free_slot self.now.list }
        ensures within { length self.now.list < ENDPOINTS_MAX → result < ENDPOINTS_MAX }
    {
        least_slot(self.by_name.values().as_slice())
    }

    /// One more than the greatest slot, 0 where no endpoint is live. It takes no memory.
    pub fn slots(&self) -> u32
        ensures slots { result ≡ slots_of self.now.list }
    {
        count_slots(self.by_name.values().as_slice())
    }

    /// Room for one endpoint more. The one error is want of memory.
    pub fn reserve(&mut self) -> Result<(), Memory>
        ensures list { self.new.list ≡ self.old.list }
        ensures room { OnOk result (0 < self.new.room) }
    {
        self.by_name.reserve(1)?;
        self.by_address.reserve(1)
    }

    /// A new endpoint, which takes the least free slot. The name is the index's own copy. It takes no memory.
    pub fn place(&mut self, endpoint: Endpoint, name: Text)
        requires room { 0 < self.old.room }
        requires name { name ≡ endpoint.name }
        requires new_name { endpoint_of endpoint.name self.old.list ≡ None }
        requires new_address { endpoint_at endpoint.address self.old.list ≡ None }
        requires slot { endpoint.slot ≡ free_slot self.old.list }
        requires within { endpoint.slot < ENDPOINTS_MAX }
        ensures list { self.new.list ≡ placed_by (λ endpoint. endpoint.slot) endpoint self.old.list }
    {
        let place = place_of(self.by_name.values().as_slice(), endpoint.slot);
        self.by_address
            .insert(endpoint.address, endpoint.slot)
            .unwrap();
        self.by_name
            .shift_insert(place, name.into_string(), endpoint)
            .unwrap();
    }

    /// Takes out the endpoint of that name, and gives it back. It takes no memory.
    pub fn remove(&mut self, name: &str) -> Option<Endpoint>
        ensures list { self.new.list ≡ without_endpoint name.now self.old.list }
        ensures removed { result ≡ endpoint_of name.now self.old.list }
    {
        match self.by_name.shift_remove(name) {
            Some(endpoint) => {
                self.by_address.swap_remove(&endpoint.address);
                Some(endpoint)
            }
            None => None,
        }
    }
}
