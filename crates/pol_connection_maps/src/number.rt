//! The map of whoever has a number.
ghost use Rattle.std.specs.Prelude.{◌≡◌, IfOk, IsTrue, List, option_map};
ghost use Rattle.std.specs.Arc.{arc_value};
ghost use Rattle.std.specs.Option.{option_copied};
ghost use Rattle.pol_connection_maps.specs.Maps.{AreMapsOf, NumberEntries, entries_at, map_at};

use crate::own_map::OwnMap;
use pol_data::Memory;
use pol_filters::Filters;
use std::alloc::Global;
use std::collections::BTreeMap;
use std::marker::Model;
use std::sync::Arc;

/// The map of whoever has a number, and what it is made of. A contract sees the number, the filters, and the entries of the map.
#[derive(Drop)]
pub(crate) struct NumberMap {
    number: u32,
    filters: Filters,
    map: Arc<OwnMap>,
}

impl Model for NumberMap {
    ghost use Rattle.std.specs.Arc.{arc_value};
    ghost use Rattle.pol_connection_maps.specs.Maps.{NumberEntries};

    ghost Value = { NumberEntries };

    ghost view = { λ own. record { number = own.number; filters = own.filters; entries = arc_value own.map } };
}

impl NumberMap {
    /// The map of this number, made of these filters.
    pub(crate) fn new(number: u32, filters: Filters, map: Arc<OwnMap>) -> NumberMap
        ensures { result ≡ record { number = number; filters = filters; entries = arc_value map } }
    {
        NumberMap {
            number,
            filters,
            map,
        }
    }

    /// The number.
    pub(crate) fn number(&self) -> u32
        ensures { result ≡ self.now.number }
    {
        self.number
    }

    /// The filters that the map is made of.
    pub(crate) fn filters(&self) -> &Filters
        ensures { result.now ≡ self.now.filters }
    {
        &self.filters
    }

    /// The map, which is shared.
    pub(crate) fn share(&self) -> Result<Arc<OwnMap>, Memory>
        ensures { IfOk result (λ map. arc_value map ≡ self.now.entries) }
    {
        let map = Arc::try_clone(&self.map)?;
        Ok(map)
    }

    /// Whether both maps have the same entries.
    pub(crate) fn is_same(&self, other: &NumberMap) -> bool
        ensures { IsTrue result → self.now.entries ≡ other.now.entries }
    {
        self.map.is_same(&other.map)
    }
}

/// The maps by number, the first of each.
pub(crate) fn by_number<'a>(
    alloc: Global,
    maps: &'a [NumberMap],
) -> Result<BTreeMap<u32, &'a NumberMap>, Memory>
    ensures { IfOk result (AreMapsOf maps.now) }
{
    let mut table = BTreeMap::new(alloc);
    for i in (0..maps.len()).rev() {
        let own = &maps[i];
        table.insert(own.number(), own)?;
    }
    Ok(table)
}

/// The map of this number, if there is one.
pub(crate) fn map_at<'a>(table: &BTreeMap<u32, &'a NumberMap>, number: u32) -> Option<&'a NumberMap>
    ensures { (maps : List NumberEntries) → AreMapsOf maps table.now → option_copied result ≡ map_at number maps }
{
    match table.get(&number) {
        Some(own) => Some(*own),
        None => None,
    }
}

/// The map of this number, which is shared, if there is one.
pub(crate) fn share_of(
    table: &BTreeMap<u32, &NumberMap>,
    number: u32,
) -> Result<Option<Arc<OwnMap>>, Memory>
    ensures { IfOk result (λ found.
        (maps : List NumberEntries) → AreMapsOf maps table.now → option_map arc_value found ≡ entries_at number maps) }
{
    match map_at(table, number) {
        Some(own) => Ok(Some(own.share()?)),
        None => Ok(None),
    }
}
