//! The parts of the present state. None of these calls takes memory.
ghost use Rattle.std.specs.Prelude.{◌≡◌, None};
ghost use Rattle.std.specs.List.{AllByRecursion};
ghost use Rattle.std.specs.Option.{option_copied};
ghost use Rattle.pol_model.specs.Endpoints.{endpoint_of};
ghost use Rattle.pol_model.specs.Remote.{number_at};
ghost use Rattle.pol_model.specs.Sizes.{IsShortPolicy};
ghost use Rattle.pol_tables.specs.Tables.{endpoint_in};
ghost use Rattle.pol_repo.specs.Repository.{state_in};

use crate::repo::Repo;
use pol_addr::Addr;
use pol_ident::Identities;
use pol_model::{Endpoint, Mode, Stamped};

impl Repo {
    /// The policies in force, in the order in which their keys came.
    pub fn policies(&self) -> &[Stamped]
        requires idle { self.now.prepared ≡ None }
        ensures list { result.now ≡ (state_in self.now).policies }
        ensures short { AllByRecursion (λ stamped. IsShortPolicy stamped.policy) (state_in self.now).policies }
    {
        self.store.policies().as_slice()
    }

    /// The live endpoints, ascending by slot.
    pub fn endpoints(&self) -> &[Endpoint]
        requires idle { self.now.prepared ≡ None }
        ensures list { result.now ≡ (state_in self.now).endpoints }
    {
        self.store.endpoints().as_slice()
    }

    /// The identities that are held.
    pub fn identities(&self) -> &Identities
        requires idle { self.now.prepared ≡ None }
        ensures rows { result.now ≡ (state_in self.now).identities }
    {
        self.store.numbers().identities()
    }

    /// The mode of enforcement (Cilium, Policy Enforcement Modes).
    pub fn mode(&self) -> Mode
        requires idle { self.now.prepared ≡ None }
        ensures mode { result ≡ (state_in self.now).mode }
    {
        self.store.mode()
    }

    /// Whether the local host may always reach an endpoint (Cilium, `--allow-localhost`).
    pub fn localhost(&self) -> bool
        requires idle { self.now.prepared ≡ None }
        ensures localhost { result ≡ self.now.options.localhost }
    {
        self.options.localhost
    }

    /// The live endpoint of that name.
    pub fn endpoint(&self, name: &str) -> Option<&Endpoint>
        requires idle { self.now.prepared ≡ None }
        ensures found { option_copied result ≡ endpoint_of name.now (state_in self.now).endpoints }
    {
        self.store.endpoints().find(name)
    }

    /// The live endpoint of that slot.
    pub fn endpoint_at(&self, slot: u32) -> Option<&Endpoint>
        requires idle { self.now.prepared ≡ None }
        ensures found { option_copied result ≡ endpoint_in slot (state_in self.now).endpoints }
    {
        self.store.endpoints().at_slot(slot)
    }

    /// The identity of an address: that of the endpoint that has it, else of the longest held prefix that contains it, else
    /// of the world of its family (Cilium, Terminology, "Identity").
    pub fn remote(&self, addr: Addr) -> u32
        requires idle { self.now.prepared ≡ None }
        ensures number { result ≡ number_at addr (state_in self.now).endpoints (state_in self.now).identities }
    {
        self.store.number_at(addr)
    }
}
