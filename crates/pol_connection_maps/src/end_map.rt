//! Ends with their policy maps.
ghost use Rattle.std.specs.Prelude.{◌≡◌, ◌<◌, ◌^◌, ℕ, IfOk, List, is_some, map};
ghost use Rattle.pol_shut_ports.specs.Shut.{word_in};
ghost use Rattle.pol_connection_maps.specs.Maps.{AreMapsOf, NumberEntries};
ghost use Rattle.pol_connection_maps.specs.Seen.{seen_half, seen_row};

use crate::end_row::EndRow;
use crate::number::{NumberMap, share_of};
use crate::own_map::OwnMap;
use pol_audit::Difference;
use pol_connections::EndName;
use pol_data::Memory;
use pol_ports::{Direction, Proto};
use std::alloc::Global;
use std::collections::BTreeMap;
use std::marker::Model;
use std::sync::Arc;

/// An end with its policy map, if it has a policy of its own. A contract sees the entries of the map.
#[derive(Drop)]
pub(crate) struct EndMap {
    name: EndName,
    number: u32,
    map: Option<Arc<OwnMap>>,
}

impl Model for EndMap {
    ghost use Rattle.std.specs.Prelude.{option_map};
    ghost use Rattle.std.specs.Arc.{arc_value};
    ghost use Rattle.pol_connection_maps.specs.Seen.{Seen};

    ghost Value = { Seen };

    ghost view = { λ end. record { name = end.name; number = end.number; entries = option_map arc_value end.map } };
}

/// The end of this row, with the map of its number.
fn end_map(alloc: Global, row: &EndRow, table: &BTreeMap<u32, &NumberMap>) -> Result<EndMap, Memory>
    ensures { IfOk result (λ end.
        (maps : List NumberEntries) → AreMapsOf maps table.now → end ≡ seen_row maps row.now) }
{
    let map = if row.own {
        share_of(table, row.number)?
    } else {
        None
    };
    Ok(EndMap {
        name: row.name.copy(alloc)?,
        number: row.number,
        map,
    })
}

/// The ends of these rows, with the maps of their numbers.
pub(crate) fn with_maps(
    alloc: Global,
    rows: &[EndRow],
    table: &BTreeMap<u32, &NumberMap>,
) -> Result<Vec<EndMap>, Memory>
    ensures { IfOk result (λ ends.
        (maps : List NumberEntries) → AreMapsOf maps table.now → ends.items ≡ map (seen_row maps) rows.now) }
{
    let mut ends = Vec::new(alloc);
    for row in rows {
        ends.push(end_map(alloc, row, table)?)?;
    }
    Ok(ends)
}

impl EndMap {
    /// Who it is.
    pub(crate) fn name(&self) -> &EndName
        ensures { result.now ≡ self.now.name }
    {
        &self.name
    }

    /// The number by which other ends see it.
    pub(crate) fn number(&self) -> u32
        ensures { result ≡ self.now.number }
    {
        self.number
    }

    /// Whether it has a policy of its own.
    pub(crate) fn has_policy(&self) -> bool
        ensures { result ≡ is_some self.now.entries }
    {
        self.map.is_some()
    }

    /// What it shuts to or from the number. An end without a policy shuts nothing.
    pub(crate) fn at(&self, dir: Direction, number: u32, proto: Proto) -> &[Difference]
        ensures { (port : ℕ) → port < 2 ^ 16
            → word_in result.now port ≡ seen_half self.now.entries dir number proto port }
    {
        match &self.map {
            None => &[],
            Some(map) => map.at(dir, number, proto),
        }
    }
}
