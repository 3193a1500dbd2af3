//! The addresses of endpoints, and the prefixes around all others.
ghost use Rattle.std.specs.Prelude.{◌≡◌, List, IfOk};
ghost use Rattle.std.specs.Arc.{arc_value};
ghost use Rattle.pol_addr.specs.declared.address.Addr.{Addr as OneAddr};
ghost use Rattle.pol_model.specs.declared.row.IdentityRow.{IdentityRow as OneRow};
ghost use Rattle.pol_model.specs.Remote.{number_at};
ghost use Rattle.pol_prefixes.specs.Tables.{IsTableOf};
ghost use Rattle.pol_prefixes.specs.AddressTable.{TellIdentities, number_in};

use indexmap::IndexMap;
use pol_addr::Addr;
use pol_data::Memory;
use pol_model::{Endpoint, world_identity_of};
use pol_prefix_table::PrefixTable;
use std::alloc::Global;
use std::marker::Model;
use std::sync::Arc;

/// What each address is at one revision (Cilium, Terminology, "Identity"). It stays so whatever is committed afterwards.
#[derive(Drop)]
pub struct Addresses {
    // The identity of the endpoint that has the address.
    endpoints: IndexMap<Addr, u32>,
    prefixes: Arc<PrefixTable>,
}

impl Model for Addresses {
    ghost use Rattle.pol_prefixes.specs.AddressTable.{AddressTable, address_code};

    ghost Value = { AddressTable };

    ghost coded = { address_code };

    ghost use Rattle.std.specs.Arc.{arc_value};

    ghost view = { λ a. record { endpoints = a.endpoints.entries; prefixes = arc_value a.prefixes } };
}

/// The identities of the endpoints by their addresses.
fn identities_of(alloc: Global, endpoints: &[Endpoint]) -> Result<IndexMap<Addr, u32>, Memory>
    ensures { IfOk result (λ index. TellIdentities index.entries endpoints.now) }
{
    let mut index = IndexMap::new(alloc);
    for i in (0..endpoints.len()).rev() {
        let endpoint = &endpoints[i];
        index.insert(endpoint.address, endpoint.identity)?;
    }
    Ok(index)
}

impl Addresses {
    /// The addresses of these live endpoints, with the table of the prefixes that have a number. The one error is want of
    /// memory.
    pub fn new(
        alloc: Global,
        endpoints: &[Endpoint],
        prefixes: Arc<PrefixTable>,
    ) -> Result<Addresses, Memory>
        ensures numbers { IfOk result (λ addresses. (rows : List OneRow) → IsTableOf rows (arc_value prefixes)
            → (address : OneAddr) → number_in address addresses ≡ number_at address endpoints.now rows) }
    {
        let endpoints = identities_of(alloc, endpoints)?;
        Ok(Addresses {
            endpoints,
            prefixes,
        })
    }

    /// The table of the prefixes that have a number, shared with whoever else has it.
    pub fn prefixes(&self) -> &Arc<PrefixTable>
        ensures prefixes { arc_value result.now ≡ self.now.prefixes }
    {
        &self.prefixes
    }

    /// The identity of an address: that of the endpoint that has it, else of the longest held prefix that contains it, else
    /// of the world of its family (Cilium, Terminology, "Identity"). It takes no memory.
    pub fn remote(&self, addr: Addr) -> u32
        ensures number { result ≡ number_in addr self.now }
    {
        match self.endpoints.get(&addr) {
            Some(number) => *number,
            None => self.prefixes.find(addr).unwrap_or(world_identity_of(addr)),
        }
    }
}
