//! The rows of the state under their indexes.
ghost use Rattle.std.specs.Prelude.{◌≡◌, IfOk};
ghost use Rattle.std.specs.List.{AllByRecursion};
ghost use Rattle.pol_model.specs.declared.options.Options.{Options as AllOptions};
ghost use Rattle.pol_model.specs.After.{start};
ghost use Rattle.pol_selcache.specs.Cache.{IsSound};
ghost use Rattle.pol_model.specs.Sizes.{IsShortPolicy};
ghost use Rattle.pol_model.specs.Remote.{number_at};
ghost use Rattle.pol_allocator.specs.Held.{nothing_held};
ghost use Rattle.pol_store.specs.Parts.{numbers_of};
ghost use Rattle.pol_store.specs.Store.{StandsFor};

use pol_addr::Addr;
use pol_allocator::Allocator;
use pol_data::Memory;
use pol_kept_filters::KeptFilters;
use pol_model::{Mode, world_identity_of};
use pol_tables::{EndpointTable, Named, Policies};
use pol_taken::Addresses;
use std::alloc::Global;
use std::marker::Model;
use std::sync::Arc;

/// The state of the policy core under its indexes, with the sets of the selectors that its policies list. Contracts see
/// the rows and the selectors (`specs/Store`).
pub struct Store {
    pub(crate) alloc: Global,
    pub(crate) revision: u64,
    pub(crate) mode: Mode,
    pub(crate) endpoints: EndpointTable,
    pub(crate) named: Named,
    pub(crate) policies: Policies,
    pub(crate) numbers: Allocator,
    // The filters that were taken for the endpoint of each slot, with the rows of the peers that they list. What a policy or
    // the mode changes is forgotten.
    pub(crate) kept: KeptFilters,
    // What each address is. None where endpoints or prefixes changed since it was made.
    pub(crate) addresses: Option<Arc<Addresses>>,
}

impl Model for Store {
    ghost use Rattle.pol_store.specs.Store.{Stored};

    ghost Value = { Stored };

    ghost use Rattle.std.specs.List.{AllByRecursion};
    ghost use Rattle.pol_model.specs.Sizes.{IsShortPolicy};
    ghost use Rattle.pol_kept_filters.specs.Kept.{AreKeptOf, KeysDiffer};
    ghost use Rattle.pol_store.specs.Inside.{IsKeptIn, Told};

    ghost view = { λ store. record {
      state = record {
        revision = store.revision;
        mode = store.mode;
        identities = store.numbers.rows;
        named = store.named.list;
        policies = store.policies.list;
        endpoints = store.endpoints.list;
      };
      cache = store.numbers.cache;
      rooms = record { endpoints = store.endpoints.room; named = store.named.room; policies = store.policies.room };
    } };

    ghost invariant = { λ store. AllByRecursion (λ stamped. IsShortPolicy stamped.policy) store.policies.list
        × KeysDiffer store.policies.list
        × AreKeptOf store.policies.list store.mode store.kept
        × Told store.endpoints.list store.numbers.rows store.addresses
        × IsKeptIn store.numbers.cache store.kept };
}

/// A destructor of its own, so that how the parts go is proved here, and not in each crate that lets a store go.
impl Drop for Store {
    fn drop(self) {
        let Store {
            alloc: _alloc,
            revision: _revision,
            mode: _mode,
            endpoints: _endpoints,
            named: _named,
            policies: _policies,
            numbers: _numbers,
            kept: _kept,
            addresses: _addresses,
        } = self;
    }
}

impl Store {
    /// The state before the first request, in this mode. The one error is want of memory.
    pub fn new(alloc: Global, mode: Mode) -> Result<Store, Memory>
        ensures start { IfOk result (λ store.
            (options : AllOptions) → options.mode ≡ mode → StandsFor (start options) store) }
        ensures nothing { IfOk result (λ store. store.cache ≡ nothing_held.cache) }
    {
        Ok(Store {
            alloc,
            revision: 0,
            mode,
            endpoints: EndpointTable::new(alloc),
            named: Named::new(alloc),
            policies: Policies::new(alloc),
            numbers: Allocator::new(alloc)?,
            kept: KeptFilters::new(alloc),
            addresses: None,
        })
    }

    /// How many requests were done so far.
    pub fn revision(&self) -> u64
        ensures revision { result ≡ self.now.state.revision }
    {
        self.revision
    }

    /// The mode of enforcement.
    pub fn mode(&self) -> Mode
        ensures mode { result ≡ self.now.state.mode }
    {
        self.mode
    }

    /// The live endpoints, under their indexes.
    pub fn endpoints(&self) -> &EndpointTable
        ensures list { result.now.list ≡ self.now.state.endpoints }
    {
        &self.endpoints
    }

    /// The named identities, by name.
    pub fn named(&self) -> &Named
        ensures list { result.now.list ≡ self.now.state.named }
    {
        &self.named
    }

    /// The policies in force, by key.
    pub fn policies(&self) -> &Policies
        ensures list { result.now.list ≡ self.now.state.policies }
        ensures short { AllByRecursion (λ stamped. IsShortPolicy stamped.policy) self.now.state.policies }
    {
        &self.policies
    }

    /// The numbers that are held, and the selectors with their sets.
    pub fn numbers(&self) -> &Allocator
        ensures numbers { result.now ≡ numbers_of self.now }
    {
        &self.numbers
    }

    /// The call tells that the selectors fit together.
    pub fn fits_together(&self)
        ensures sound { IsSound self.now.cache }
    {
        self.numbers.fits_together();
    }

    /// The identity of an address: that of the endpoint that has it, else of the longest held prefix that contains it, else
    /// of the world of its family (Cilium, Terminology, "Identity").
    pub fn number_at(&self, address: Addr) -> u32
        ensures number { result ≡ number_at address self.now.state.endpoints self.now.state.identities }
    {
        match self.endpoints.at_address(address) {
            Some(endpoint) => endpoint.identity,
            None => self
                .numbers
                .number_at(address)
                .unwrap_or(world_identity_of(address)),
        }
    }
}
