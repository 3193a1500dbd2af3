//! The policy maps of all label sets of a state.
ghost use Rattle.std.specs.Prelude.{◌≡◌, IfOk, IfSome, not};
ghost use Rattle.std.specs.Arc.{arc_value};
ghost use Rattle.std.specs.List.{AllByRecursion};
ghost use Rattle.pol_audit.specs.Tables.{IsTable};
ghost use Rattle.pol_distill.specs.Distilled.{distilled};
ghost use Rattle.pol_connection_maps.specs.Again.{IsMadeOf, ServeAll};
ghost use Rattle.pol_connection_maps.specs.Maps.{may_be_subject, number_maps, row_entries};
ghost use Rattle.pol_connection_maps.specs.Rows.{AreSound};
ghost use Rattle.pol_connection_maps.specs.Sets.{AreSetsOf, peers_of};

use crate::again::serves_again;
use crate::number::{NumberMap, by_number, map_at};
use crate::own_map::OwnMap;
use crate::own_sets::own_sets;
use crate::peer_rows::PeerRows;
use crate::rows::StateRows;
use pol_data::Memory;
use pol_distill::{MapTable, distill};
use pol_filters::{Filters, resolve};
use pol_model::{IdentityRow, LOCAL_FIRST};
use std::alloc::Global;
use std::sync::Arc;

/// The table of the map of these filters. `distill` makes a table of the sets that it is given, and so of these filters' alone.
fn table_of(alloc: Global, filters: &Filters, sets: &PeerRows<'_>) -> Result<MapTable, Memory>
    requires { ServeAll sets.now filters.now }
    ensures entries { IfOk result (λ table. table ≡ distilled filters.now sets.now) }
    ensures table { IfOk result IsTable }
{
    let own = own_sets(alloc, sets, filters)?;
    distill(alloc, filters, &own)
}

/// The map of these filters.
fn new_map(alloc: Global, filters: &Filters, sets: &PeerRows<'_>) -> Result<Arc<OwnMap>, Memory>
    requires { ServeAll sets.now filters.now }
    ensures { IfOk result (λ map. arc_value map ≡ distilled filters.now sets.now) }
{
    let table = table_of(alloc, filters, sets)?;
    let map = Arc::new(alloc, OwnMap::new(alloc, &table)?)?;
    Ok(map)
}

/// The map that was made before the change, where it is that of these filters after it.
fn serving<'a>(
    old: Option<&'a NumberMap>,
    before: &PeerRows<'_>,
    filters: &Filters,
    after: &PeerRows<'_>,
) -> Option<&'a NumberMap>
    requires old { IfSome old (λ own. IsMadeOf before.now own.now) }
    ensures { IfSome result (λ own. own.now.entries ≡ distilled filters.now after.now) }
{
    let own = old?;
    if serves_again(own, before, filters, after) {
        Some(own)
    } else {
        None
    }
}

/// The map of these filters: the one that was made before, where that serves.
fn map_of(
    alloc: Global,
    old: Option<&NumberMap>,
    before: &PeerRows<'_>,
    filters: &Filters,
    after: &PeerRows<'_>,
) -> Result<Arc<OwnMap>, Memory>
    requires old { IfSome old (λ own. IsMadeOf before.now own.now) }
    requires sets { ServeAll after.now filters.now }
    ensures { IfOk result (λ map. arc_value map ≡ distilled filters.now after.now) }
{
    match serving(old, before, filters, after) {
        Some(own) => own.share(),
        None => new_map(alloc, filters, after),
    }
}

/// The map of the identity's number.
fn row_map(
    alloc: Global,
    old: Option<&NumberMap>,
    before: &PeerRows<'_>,
    rows: &StateRows<'_>,
    sets: &PeerRows<'_>,
    row: &IdentityRow,
) -> Result<NumberMap, Memory>
    requires old { IfSome old (λ own. IsMadeOf before.now own.now) }
    requires sound { AreSound rows.now }
    requires sets { AreSetsOf rows.now.identities.now (peers_of rows.now.policies.now) sets.now }
    ensures { IfOk result (λ own. own ≡ row_entries rows.now sets.now row.now) }
{
    let filters = resolve(alloc, rows.policies, &row.labels, rows.mode, rows.localhost)?;
    let map = map_of(alloc, old, before, &filters, sets)?;
    Ok(NumberMap::new(row.number, filters, map))
}

/// Whether endpoints and named identities may have the identity: the others are those of prefixes.
fn may_be_subject(row: &IdentityRow) -> bool
    ensures { result ≡ may_be_subject row.now }
{
    row.number < LOCAL_FIRST
}

/// The maps of all label sets. Of the maps of a state before it those that serve are shared, and not made again.
pub(crate) fn number_maps(
    alloc: Global,
    old: &[NumberMap],
    before: &PeerRows<'_>,
    rows: &StateRows<'_>,
    sets: &PeerRows<'_>,
) -> Result<Vec<NumberMap>, Memory>
    requires old { AllByRecursion (IsMadeOf before.now) old.now }
    requires sound { AreSound rows.now }
    requires sets { AreSetsOf rows.now.identities.now (peers_of rows.now.policies.now) sets.now }
    ensures { IfOk result (λ maps. maps.items ≡ number_maps rows.now sets.now) }
{
    let table = by_number(alloc, old)?;
    let mut maps = Vec::new(alloc);
    for row in rows.identities {
        if may_be_subject(row) {
            let own = map_at(&table, row.number);
            maps.push(row_map(alloc, own, before, rows, sets, row)?)?;
        }
    }
    Ok(maps)
}
