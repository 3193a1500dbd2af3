//! The table before the first request.
ghost use Rattle.std.specs.Prelude.{IfOk};
ghost use Rattle.pol_model.specs.Identities.{reserved_identities};
ghost use Rattle.pol_prefixes.specs.Tables.{IsTableOf};

use pol_addr::{Family, Prefix};
use pol_data::Memory;
use pol_model::world_identity;
use pol_prefix_table::PrefixTable;
use std::alloc::Global;

/// The table of the reserved identities: the prefix of each world has that world's number, 0.0.0.0/0 the number 9 and ::/0 the
/// number 10 (Cilium, Terminology, "Special Identities"). The one error is want of memory.
pub fn table_of_start(alloc: Global) -> Result<PrefixTable, Memory>
    ensures { IfOk result (IsTableOf reserved_identities) }
{
    let mut table = PrefixTable::new(alloc);
    table.insert(Prefix::world(Family::Ipv4), world_identity(Family::Ipv4))?;
    table.insert(Prefix::world(Family::Ipv6), world_identity(Family::Ipv6))?;
    Ok(table)
}
