//! The policy map of a subject.
ghost use Rattle.std.specs.Prelude.{◌≡◌, ◌<◌, ◌^◌, ℕ, IfOk, IsTrue};
ghost use Rattle.pol_mapkey.specs.Entries.{read_map};
ghost use Rattle.pol_audit.specs.Tables.{IsTable};
ghost use Rattle.pol_shut_ports.specs.Shut.{word_in};

use pol_audit::{Difference, Entries};
use pol_data::Memory;
use pol_distill::MapTable;
use pol_mapkey::{Kind, MapKey};
use pol_ports::{Direction, Proto};
use pol_shut_ports::Shut;
use std::alloc::Global;
use std::marker::Model;

/// A policy map with what it shuts. A contract sees its entries.
#[derive(Drop)]
pub(crate) struct OwnMap {
    entries: Vec<(MapKey, Kind)>,
    shut: Shut,
}

impl Model for OwnMap {
    ghost use Rattle.std.specs.Prelude.{◌≡◌, List};
    ghost use Rattle.pol_mapkey.specs.Entries.{Entry};

    ghost Value = { List Entry };

    ghost view = { λ own. own.shut };

    ghost invariant = { λ own. own.entries.items ≡ own.shut };
}

/// The entries of a map, in the order of their keys.
fn listed(alloc: Global, table: &MapTable) -> Result<Vec<(MapKey, Kind)>, Memory>
    ensures { IfOk result (λ entries. entries.items ≡ table.now) }
{
    let mut entries = Vec::new(alloc);
    for place in 0..table.count() {
        entries.push(table.at(place))?;
    }
    Ok(entries)
}

impl OwnMap {
    /// The map of this table.
    pub(crate) fn new(alloc: Global, table: &MapTable) -> Result<OwnMap, Memory>
        requires { IsTable table.now }
        ensures { IfOk result (λ own. own ≡ table.now) }
    {
        let entries = listed(alloc, table)?;
        let all = Entries::from_vec(listed(alloc, table)?);
        let shut = Shut::new(alloc, all)?;
        Ok(OwnMap { entries, shut })
    }

    /// What the map shuts to or from the number.
    pub(crate) fn at(&self, dir: Direction, number: u32, proto: Proto) -> &[Difference]
        ensures { (port : ℕ) → port < 2 ^ 16 → word_in result.now port ≡ read_map self.now dir number proto port }
    {
        self.shut.at(dir, number, proto)
    }

    /// Whether both maps have the same entries.
    pub(crate) fn is_same(&self, other: &OwnMap) -> bool
        ensures { IsTrue result → self.now ≡ other.now }
    {
        self.entries.as_slice() == other.entries.as_slice()
    }
}
