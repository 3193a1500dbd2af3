//! What is taken of the state for an endpoint.
ghost use Rattle.std.specs.Prelude.{◌≡◌, ◌↔◌, ℕ, Some, None, IfOk, IfSome, IsErrOf, IsSome};
ghost use Rattle.std.specs.Arc.{arc_value};
ghost use Rattle.std.specs.List.{AllByRecursion};
ghost use Rattle.pol_model.specs.declared.options.Options.{Options as AllOptions};
ghost use Rattle.pol_model.specs.State.{State};
ghost use Rattle.pol_selcache.specs.Live.{number_of};
ghost use Rattle.pol_peers.specs.References.{RefsOf};
ghost use Rattle.pol_kept_filters.specs.Kept.{IsListedIn};
ghost use Rattle.pol_tables.specs.Tables.{endpoint_in};
ghost use Rattle.pol_taken.specs.OfState.{IsTakenOf};
ghost use Rattle.pol_taken.specs.PeerRows.{AreSetsFor, filter_peers};
ghost use Rattle.pol_store.specs.Inside.{TellsAddresses};
ghost use Rattle.pol_store.specs.Takes.{ArePartsFor};
ghost use Rattle.pol_store.specs.Store.{StandsFor, peers_of};

use crate::store::Store;
use pol_data::Memory;
use pol_filters::{Filters, resolve};
use pol_kept_filters::Kept;
use pol_labels::LabelSet;
use pol_model::Endpoint;
use pol_selcache::SelectorCache;
use pol_taken::{Addresses, Sets, TakeError, Taken, sets_of};
use std::alloc::Global;
use std::sync::Arc;

/// The filters of an endpoint, and the sets of the peers that they list.
#[derive(Drop)]
pub(crate) struct Parts {
    pub(crate) filters: Arc<Filters>,
    pub(crate) sets: Sets,
}

/// The filters, and the sets of the peers that they list, looked for by their peers.
fn parts_with(alloc: Global, cache: &SelectorCache, filters: Arc<Filters>) -> Result<Parts, Memory>
    requires live { AllByRecursion (λ p. IsSome (number_of p cache.now.live)) (filter_peers (arc_value filters)) }
    ensures filters { IfOk result (λ parts. arc_value parts.filters ≡ arc_value filters) }
    ensures sets { IfOk result (λ parts. AreSetsFor cache.now.live (arc_value filters) parts.sets) }
{
    let sets = sets_of(alloc, cache, &filters)?;
    Ok(Parts { filters, sets })
}

/// The filters that are kept, and the sets of the peers that they list: as they are kept where none has changed, else by the
/// numbers that are kept, and looked for by their peers where one of their selectors has gone.
fn parts_of(alloc: Global, cache: &SelectorCache, kept: &Kept) -> Result<Parts, Memory>
    requires listed { IsListedIn cache.now kept.now }
    requires live { AllByRecursion (λ p.
        IsSome (number_of p cache.now.live)) (filter_peers (arc_value kept.now.filters)) }
    ensures filters { IfOk result (λ parts. arc_value parts.filters ≡ arc_value kept.now.filters) }
    ensures sets { IfOk result (λ parts. AreSetsFor cache.now.live (arc_value kept.now.filters) parts.sets) }
{
    let filters = Arc::try_clone(kept.filters())?;
    let found = kept.known().sets_of(alloc, cache)?;
    match found {
        Some(sets) => Ok(Parts { filters, sets }),
        None => parts_with(alloc, cache, filters),
    }
}

impl Store {
    /// What the policies say of these labels, resolved now, and the sets of the peers that it lists.
    fn made_parts(&self, alloc: Global, labels: &LabelSet, localhost: bool) -> Result<Parts, Memory>
        requires refs { RefsOf (peers_of self.now.state.policies) self.now.cache.live }
        ensures parts { IfOk result (ArePartsFor self.now labels.now localhost) }
    {
        let own = resolve(
            alloc,
            self.policies.as_slice(),
            labels,
            self.mode,
            localhost,
        )?;
        let filters = Arc::new(alloc, own)?;
        parts_with(alloc, self.numbers.selectors(), filters)
    }

    /// The filters of an endpoint with these labels, and the sets of the peers that they list: as they are kept for the slot or
    /// for one that is alike, or made now.
    pub(crate) fn parts(
        &self,
        alloc: Global,
        slot: u32,
        labels: &LabelSet,
        localhost: bool,
    ) -> Result<Parts, Memory>
        requires refs { RefsOf (peers_of self.now.state.policies) self.now.cache.live }
        ensures parts { IfOk result (ArePartsFor self.now labels.now localhost) }
    {
        match self.kept.serving(slot, labels, localhost) {
            Some(kept) => parts_of(alloc, self.numbers.selectors(), kept),
            None => self.made_parts(alloc, labels, localhost),
        }
    }

    /// What each address is, made anew.
    pub(crate) fn made_addresses(&self, alloc: Global) -> Result<Arc<Addresses>, Memory>
        ensures tells { IfOk result (λ addresses.
            TellsAddresses self.now.state.endpoints self.now.state.identities (arc_value addresses)) }
    {
        let prefixes = self.numbers.prefix_table()?;
        let addresses = Addresses::new(alloc, self.endpoints.as_slice(), prefixes)?;
        Ok(Arc::new(alloc, addresses)?)
    }

    /// What each address is, as it is kept.
    fn kept_addresses(&self) -> Result<Option<Arc<Addresses>>, Memory>
        ensures tells { IfOk result (λ kept. IfSome kept (λ addresses.
            TellsAddresses self.now.state.endpoints self.now.state.identities (arc_value addresses))) }
    {
        match &self.addresses {
            Some(addresses) => {
                let shared = Arc::try_clone(addresses)?;
                Ok(Some(shared))
            }
            None => Ok(None),
        }
    }

    /// What each address is: as it is kept, or made now.
    fn addresses(&self, alloc: Global) -> Result<Arc<Addresses>, Memory>
        ensures tells { IfOk result (λ addresses.
            TellsAddresses self.now.state.endpoints self.now.state.identities (arc_value addresses)) }
    {
        let found = self.kept_addresses()?;
        match found {
            Some(addresses) => Ok(addresses),
            None => self.made_addresses(alloc),
        }
    }

    /// The live endpoint of the slot.
    fn endpoint_copied(&self, alloc: Global, slot: u32) -> Result<Endpoint, TakeError>
        ensures endpoint { IfOk result (λ endpoint. endpoint_in slot self.now.state.endpoints ≡ Some endpoint) }
        ensures gone { IsErrOf result TakeError.Gone ↔ (endpoint_in slot self.now.state.endpoints ≡ None) }
    {
        match self.endpoints.at_slot(slot) {
            Some(endpoint) => Ok(endpoint.copy(alloc)?),
            None => Err(TakeError::Gone),
        }
    }

    /// What is taken for a live endpoint.
    fn taken_for(&self, alloc: Global, endpoint: Endpoint, localhost: bool) -> Result<Taken, Memory>
        requires refs { RefsOf (peers_of self.now.state.policies) self.now.cache.live }
        ensures taken { IfOk result (λ taken.
            (options : AllOptions) (s : State) (slot : ℕ) → options.localhost ≡ localhost
            → StandsFor s self.now → endpoint_in slot s.endpoints ≡ Some endpoint → IsTakenOf options s slot taken) }
        ensures selectors { IfOk result (λ taken.
            AllByRecursion (λ row. number_of row.peer self.now.cache.live ≡ Some row.selector) taken.sets) }
    {
        let parts = self.parts(alloc, endpoint.slot, &endpoint.labels, localhost)?;
        let addresses = self.addresses(alloc)?;
        Ok(Taken {
            revision: self.revision,
            endpoint,
            filters: parts.filters,
            sets: parts.sets,
            moves: None,
            addresses,
        })
    }

    /// What the policy map of the endpoint of that slot is made of, with or without leave for the local host (Cilium,
    /// `--allow-localhost`). It tells no moves of sets, which follow from the journal. What is kept of it (`refresh`) is
    /// shared, and the rest is made anew. `Gone` comes exactly where no live endpoint has the slot, and `Memory` is want of
    /// memory.
    pub fn take(&self, alloc: Global, slot: u32, localhost: bool) -> Result<Taken, TakeError>
        requires refs { RefsOf (peers_of self.now.state.policies) self.now.cache.live }
        ensures taken { IfOk result (λ taken. (options : AllOptions) (s : State)
            → options.localhost ≡ localhost → StandsFor s self.now → IsTakenOf options s slot taken) }
        ensures selectors { IfOk result (λ taken.
            AllByRecursion (λ row. number_of row.peer self.now.cache.live ≡ Some row.selector) taken.sets) }
        ensures gone { IsErrOf result TakeError.Gone ↔ (endpoint_in slot self.now.state.endpoints ≡ None) }
    {
        let endpoint = self.endpoint_copied(alloc, slot)?;
        Ok(self.taken_for(alloc, endpoint, localhost)?)
    }
}
