//! One change of a policy map.
use pol_mapkey::{Kind, MapKey};

/// What happens to one key of a policy map.
#[derive(Clone, Copy, PartialEq, Eq, Debug)]
pub enum Change {
    /// The key is there with this kind afterwards.
    Set(MapKey, Kind),
    /// The key isn't there any more.
    Clear(MapKey),
}

impl Change {
    ghost use Rattle.std.specs.Prelude.{◌≡◌};
    ghost use Rattle.pol_map_changes.specs.Changes.{key_of};

    /// The key that changes.
    pub fn key(&self) -> MapKey
        ensures { result ≡ key_of self.now }
    {
        match self {
            Change::Set(key, _) => *key,
            Change::Clear(key) => *key,
        }
    }
}
