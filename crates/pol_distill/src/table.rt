//! The sorted table of a canonical map.
ghost use Rattle.std.specs.Prelude.{◌≡◌, Option, ◌-◌, ◌<◌, ◌≤◌, ◌^◌, Some, length, option_map};
ghost use Rattle.std.specs.List.{slice_get};
ghost use Rattle.pol_ports.specs.PortPrefix.{prefix_at};
ghost use Rattle.pol_mapkey.specs.Entries.{longest, read_map};
ghost use Rattle.pol_mapkey.specs.MapKey.{every_key, port_key};
ghost use Rattle.pol_distill.specs.Sorted.{IsKindOf, IsTable};

use crate::keys::{every_key, port_key};
use pol_mapkey::{Kind, MapKey, Word};
use pol_model::EVERY_IDENTITY;
use pol_ports::{Direction, PortPrefix, Proto};
use std::marker::Model;

/// The canonical map of an endpoint. A contract sees it as the list of its entries, in the order of their keys.
#[derive(Debug, Drop)]
pub struct MapTable {
    entries: Vec<(MapKey, Kind)>,
}

impl Model for MapTable {
    ghost use Rattle.std.specs.Prelude.{List};
    ghost use Rattle.pol_mapkey.specs.Entries.{Entry};
    ghost use Rattle.pol_distill.specs.Sorted.{IsTable};

    ghost Value = { List Entry };

    ghost view = { λ table. table.entries.items };

    ghost invariant = { λ table. IsTable table.entries.items };
}

/// How many ports a prefix of that length has.
fn port_count(len: u8) -> u32
    requires { len ≤ 16 }
    ensures { result ≡ 2 ^ (16 - len) }
{
    1 << (16 - len)
}

/// The prefix of that length that has the port.
#[tactic(auto, using(crate::proofs::Lookups::prefix_made))]
fn prefix_at(port: u16, len: u8) -> PortPrefix
    requires { len ≤ 16 }
    ensures { result ≡ prefix_at port len }
{
    let size = port_count(len);
    PortPrefix {
        bits: (u32::from(port) / size * size) as u16,
        len,
    }
}

impl MapTable {
    /// The table of entries that are in the order of their keys, each key once.
    pub(crate) fn new(entries: Vec<(MapKey, Kind)>) -> MapTable
        requires { IsTable entries.items }
        ensures { result ≡ entries.items }
    {
        MapTable { entries }
    }

    /// How many entries there are.
    pub fn count(&self) -> u64
        ensures { result ≡ length self.now }
    {
        self.entries.len() as u64
    }

    /// The entry at that place, from 0, in the order of keys.
    pub fn at(&self, place: u64) -> (MapKey, Kind)
        requires { place < length self.now }
        ensures { slice_get self.now place ≡ Some result }
    {
        self.entries[place as usize]
    }

    /// The kind of the key's entry, found by a binary search.
    fn find(&self, key: &MapKey) -> Option<Kind>
        ensures kind { IsKindOf self.now key.now result }
        ensures table { IsTable self.now }
    {
        match self.entries.binary_search_by_key(key, |entry| entry.0) {
            Ok(place) => Some(self.entries[place].1),
            Err(_) => None,
        }
    }

    /// The kind of the longest key of that identity that covers the packet: of the prefixes of the port from the
    /// longest on, and of the key of every protocol.
    fn longest(&self, dir: Direction, id: u32, proto: Proto, port: u16) -> Option<Kind>
        ensures { result ≡ option_map (λ e. e.1) (longest self.now dir id proto port) }
    {
        for shorter in 0..17u8 {
            let key = port_key(dir, id, proto, prefix_at(port, 16 - shorter));
            match self.find(&key) {
                Some(kind) => return Some(kind),
                None => {}
            }
        }
        self.find(&every_key(dir, id))
    }

    /// What the map says of a packet to or from the identity (profile: how the keys of two identities are
    /// weighed).
    pub fn look(&self, dir: Direction, id: u32, proto: Proto, port: u16) -> Word
        ensures word { result ≡ read_map self.now dir id proto port }
    {
        let own = self.longest(dir, id, proto, port);
        let every = self.longest(dir, EVERY_IDENTITY, proto, port);
        Word::of(own, every)
    }
}
