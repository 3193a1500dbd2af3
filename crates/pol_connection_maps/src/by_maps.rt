//! The lists of connections by the maps of all label sets.
ghost use Rattle.std.specs.Prelude.{◌≡◌, IfOk, List, map};
ghost use Rattle.pol_connection_maps.specs.EndRows.{end_rows};
ghost use Rattle.pol_connection_maps.specs.Lists.{changed_list, kept_ends, open_list};
ghost use Rattle.pol_connection_maps.specs.Maps.{AreMapsOf, NumberEntries};
ghost use Rattle.pol_connection_maps.specs.Rows.{AreSound};
ghost use Rattle.pol_connection_maps.specs.Seen.{seen_row};

use crate::changed::changed_list;
use crate::end_map::{EndMap, with_maps};
use crate::end_row::end_rows;
use crate::kept::kept_ends;
use crate::number::{NumberMap, by_number};
use crate::open::open_list;
use crate::rows::StateRows;
use crate::stays::numbers_that_stay;
use pol_addr::Prefix;
use pol_connections::Connection;
use pol_data::Memory;
use std::alloc::Global;
use std::collections::BTreeMap;

/// The ends of a state with these rows, with their maps.
fn ends_of(
    alloc: Global,
    rows: &StateRows<'_>,
    regions: &[Prefix],
    table: &BTreeMap<u32, &NumberMap>,
) -> Result<Vec<EndMap>, Memory>
    requires { AreSound rows.now }
    ensures { IfOk result (λ ends. (maps : List NumberEntries)
        → AreMapsOf maps table.now → ends.items ≡ map (seen_row maps) (end_rows rows.now regions.now)) }
{
    let ends = end_rows(alloc, rows, regions)?;
    with_maps(alloc, &ends, table)
}

/// The open connections of a state with these rows and maps.
pub(crate) fn open_by_maps(
    alloc: Global,
    rows: &StateRows<'_>,
    regions: &[Prefix],
    maps: &[NumberMap],
) -> Result<Vec<Connection>, Memory>
    requires { AreSound rows.now }
    ensures { IfOk result (λ list. list.items ≡ open_list (map (seen_row maps.now) (end_rows rows.now regions.now))) }
{
    let table = by_number(alloc, maps)?;
    let ends = ends_of(alloc, rows, regions, &table)?;
    open_list(alloc, &ends)
}

/// The connections that a change between states with these rows and maps opens or shuts, or of which it changes a half.
pub(crate) fn changed_by_maps(
    alloc: Global,
    halves: bool,
    regions: &[Prefix],
    before: &StateRows<'_>,
    maps_before: &[NumberMap],
    after: &StateRows<'_>,
    maps_after: &[NumberMap],
) -> Result<Vec<Connection>, Memory>
    requires before { AreSound before.now }
    requires after { AreSound after.now }
    ensures { IfOk result (λ list. list.items ≡ changed_list (kept_ends halves (map (seen_row maps_before.now)
        (end_rows before.now regions.now)) (map (seen_row maps_after.now) (end_rows after.now regions.now)))) }
{
    let old = by_number(alloc, maps_before)?;
    let new = by_number(alloc, maps_after)?;
    let still = numbers_that_stay(alloc, &old, &new, maps_after)?;
    let ends_before = ends_of(alloc, before, regions, &old)?;
    let ends_after = ends_of(alloc, after, regions, &new)?;
    let kept = kept_ends(alloc, halves, &ends_before, &ends_after, &still)?;
    changed_list(alloc, &kept)
}
