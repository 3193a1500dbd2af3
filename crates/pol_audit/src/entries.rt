//! A table of entries.
ghost use Rattle.std.specs.Prelude.{◌≡◌, length};
ghost use Rattle.pol_audit.specs.Tables.{IsTable};

use pol_mapkey::{Kind, MapKey};
use std::marker::Model;

/// The entries of a policy map, with ascending keys, each key once. A contract sees it as the list of its entries.
#[derive(Debug, Drop)]
pub struct Entries {
    entries: Vec<(MapKey, Kind)>,
}

impl Model for Entries {
    ghost use Rattle.std.specs.Prelude.{List};
    ghost use Rattle.pol_mapkey.specs.Entries.{Entry};
    ghost use Rattle.pol_audit.specs.Tables.{IsTable};

    ghost Value = { List Entry };

    ghost view = { λ table. table.entries.items };

    ghost invariant = { λ table. IsTable table.entries.items };
}

impl Entries {
    /// The table of these entries, whose keys ascend, each before the next. It takes no memory.
    pub fn from_vec(entries: Vec<(MapKey, Kind)>) -> Entries
        requires { IsTable entries.items }
        ensures { result ≡ entries.items }
    {
        Entries { entries }
    }

    /// The entries, given back. It takes no memory.
    pub fn into_vec(self) -> Vec<(MapKey, Kind)>
        ensures entries { result.items ≡ self }
        ensures table { IsTable self }
    {
        self.entries
    }

    /// The entries, in the order of their keys.
    pub fn as_slice(&self) -> &[(MapKey, Kind)]
        ensures entries { result.now ≡ self.now }
        ensures table { IsTable self.now }
    {
        self.entries.as_slice()
    }

    /// How many entries there are.
    pub fn count(&self) -> u64
        ensures { result ≡ length self.now }
    {
        self.entries.len() as u64
    }
}
