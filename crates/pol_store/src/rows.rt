//! The rows that a request brings, before they are placed.
ghost use Rattle.std.specs.Prelude.{◌≡◌, ◌<◌, ◌+◌, ◌-◌, ◌^◌, IfOk};
ghost use Rattle.pol_addr.specs.Address.{IsAddr};
ghost use Rattle.pol_model.specs.Endpoints.{free_slot};
ghost use Rattle.pol_model.specs.Policies.{policy_at, prefixes_of};

use crate::store::Store;
use pol_addr::Addr;
use pol_data::{Memory, Text};
use pol_labels::LabelSet;
use pol_model::{Endpoint, Stamped};
use pol_rule::{Policy, PolicyKey, Prefixes};

impl Store {
    /// The endpoint that the next request adds, with its slot, before it has a number. The one error is want of memory.
    pub fn endpoint_without_number(
        &self,
        name: &Text,
        labels: &LabelSet,
        address: Addr,
    ) -> Result<Endpoint, Memory>
        requires room { self.now.state.revision < 2 ^ 64 - 1 }
        ensures endpoint { IfOk result (λ endpoint. endpoint ≡ record {
          name = name.now;
          slot = free_slot self.now.state.endpoints;
          added = self.now.state.revision + 1;
          labels = labels.now;
          identity = 0;
          address = address;
        }) }
        ensures within { IsAddr address }
    {
        // The call tells that the address has the bits of its family.
        let _family = address.family();
        Ok(Endpoint {
            name: name.copy(self.alloc)?,
            slot: self.endpoints.free_slot(),
            added: self.revision + 1,
            labels: labels.copy(self.alloc)?,
            identity: 0,
            address,
        })
    }

    /// The policy with the stamp of the next request. The one error is want of memory.
    pub fn stamped(&self, policy: &Policy) -> Result<Stamped, Memory>
        requires room { self.now.state.revision < 2 ^ 64 - 1 }
        ensures stamped { IfOk result (λ stamped.
            stamped ≡ record { policy = policy.now; stamp = self.now.state.revision + 1 }) }
    {
        Ok(Stamped {
            policy: policy.copy(self.alloc)?,
            stamp: self.revision + 1,
        })
    }

    /// The prefixes of the policy of that key, none where there is no such policy. The one error is want of memory.
    pub fn prefixes_at(&self, key: &PolicyKey) -> Result<Prefixes, Memory>
        ensures prefixes { IfOk result (λ prefixes.
            prefixes ≡ prefixes_of (policy_at key.now self.now.state.policies)) }
    {
        match self.policies.find(key) {
            Some(stamped) => stamped.policy.prefixes(self.alloc),
            None => Ok(Prefixes::empty(self.alloc)),
        }
    }
}
