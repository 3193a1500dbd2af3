//! What takes of the state share is kept.
ghost use Rattle.std.specs.Prelude.{◌≡◌};
ghost use Rattle.pol_peers.specs.References.{RefsOf};
ghost use Rattle.pol_store.specs.Takes.{ArePartsFor};
ghost use Rattle.pol_store.specs.Store.{peers_of};

use crate::store::Store;
use crate::take::Parts;
use pol_data::Memory;
use pol_labels::LabelSet;
use pol_taken::{KnownPeers, TakeError};
use std::alloc::Global;

impl Store {
    /// Whether the filters of the slot's endpoint are kept, and the rows of their peers serve as they are.
    fn keeps_filters(&self, slot: u32, localhost: bool) -> bool {
        let Some(endpoint) = self.endpoints.at_slot(slot) else {
            return false;
        };
        match self.kept.found(slot, &endpoint.labels, localhost) {
            Some(kept) => kept.known().serves_as_is(self.numbers.selectors()),
            None => false,
        }
    }

    /// The labels of the slot's endpoint, which are shared.
    fn labels_at(&self, alloc: Global, slot: u32) -> Result<LabelSet, TakeError> {
        match self.endpoints.at_slot(slot) {
            Some(endpoint) => Ok(endpoint.labels.copy(alloc)?),
            None => Err(TakeError::Gone),
        }
    }

    /// Keeps the filters of these labels for the slot, and the rows of the peers that they list.
    fn keep_parts(
        &mut self,
        alloc: Global,
        slot: u32,
        labels: &LabelSet,
        localhost: bool,
        parts: &Parts,
    ) -> Result<(), Memory>
        requires parts { ArePartsFor self.old labels.now localhost parts.now }
        ensures same { self.new ≡ self.old }
    {
        let known = KnownPeers::of(self.numbers.selectors(), &parts.sets)?;
        self.kept
            .keep(alloc, slot, labels, localhost, &parts.filters, known)
    }

    /// The filters of the slot's endpoint are kept, with the rows of the peers that they list.
    fn refresh_filters(
        &mut self,
        alloc: Global,
        slot: u32,
        localhost: bool,
    ) -> Result<(), TakeError>
        requires refs { RefsOf (peers_of self.old.state.policies) self.old.cache.live }
        ensures same { self.new ≡ self.old }
    {
        if self.keeps_filters(slot, localhost) {
            return Ok(());
        }
        let labels = self.labels_at(alloc, slot)?;
        let parts = self.parts(alloc, slot, &labels, localhost)?;
        Ok(self.keep_parts(alloc, slot, &labels, localhost, &parts)?)
    }

    /// What each address is is kept.
    fn refresh_addresses(&mut self, alloc: Global) -> Result<(), Memory>
        ensures same { self.new ≡ self.old }
    {
        if self.addresses.is_none() {
            let addresses = self.made_addresses(alloc)?;
            self.addresses = Some(addresses);
        }
        Ok(())
    }

    /// Keeps what a take of the slot's endpoint shares, with or without leave for the local host: its filters with the rows of
    /// the peers that they list, and what each address is. What is kept and serves as it is stays. The store is as before, as
    /// it is seen. Where memory is wanting, or no live endpoint has the slot, less is kept; that is no error, and the next take
    /// makes it anew.
    pub fn refresh(&mut self, alloc: Global, slot: u32, localhost: bool)
        requires refs { RefsOf (peers_of self.old.state.policies) self.old.cache.live }
        ensures same { self.new ≡ self.old }
    {
        let _filters = self.refresh_filters(alloc, slot, localhost);
        let _addresses = self.refresh_addresses(alloc);
    }
}
