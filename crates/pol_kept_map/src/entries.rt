//! The entries of a map.
ghost use Rattle.std.specs.Prelude.{◌≡◌, IfOk};
ghost use Rattle.pol_distill.specs.Distilled.{distilled};
ghost use Rattle.pol_distill.specs.Sorted.{HaveSets};
ghost use Rattle.pol_map_changes.specs.Changes.{whole};

use pol_data::Memory;
use pol_distill::{MapTable, distill};
use pol_filters::Filters;
use pol_map_changes::ChangeList;
use pol_mapkey::{Kind, MapKey};
use pol_sets::Sets;
use std::alloc::Global;

/// The entries of a table.
fn entries_of(alloc: Global, table: &MapTable) -> Result<Vec<(MapKey, Kind)>, Memory>
    ensures { IfOk result (λ entries. entries.items ≡ table.now) }
{
    let mut entries = Vec::new(alloc);
    for place in 0..table.count() {
        entries.push(table.at(place))?;
    }
    Ok(entries)
}

/// `Set` of each entry of the map that is made of these filters and sets, in key order.
pub(crate) fn whole_of(alloc: Global, filters: &Filters, sets: &Sets) -> Result<ChangeList, Memory>
    requires sets { HaveSets sets.now filters.now }
    ensures { IfOk result (λ list. list ≡ whole (distilled filters.now sets.now)) }
{
    let table = distill(alloc, filters, sets)?;
    let entries = entries_of(alloc, &table)?;
    ChangeList::whole(alloc, &entries)
}
