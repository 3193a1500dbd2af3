//! Keys of a policy map.
ghost use Rattle.std.specs.Prelude.{◌≡◌};
ghost use Rattle.pol_mapkey.specs.MapKey.{every_key, port_key};
ghost use Rattle.pol_distill.specs.RawKeys.{with_id};

use pol_mapkey::{KeyProto, MapKey};
use pol_ports::{Direction, PortPrefix, Proto};

/// The key of an identity for every protocol and port.
#[tactic(auto, using(crate::proofs::RawLists::every_key_is))]
pub fn every_key(dir: Direction, id: u32) -> MapKey
    ensures { result ≡ every_key dir id }
{
    MapKey {
        dir,
        id,
        proto: KeyProto::Every,
        port: PortPrefix { bits: 0, len: 0 },
    }
}

/// The key of an identity for a protocol and a port prefix.
pub fn port_key(dir: Direction, id: u32, proto: Proto, port: PortPrefix) -> MapKey
    ensures { result ≡ port_key dir id proto port }
{
    MapKey {
        dir,
        id,
        proto: KeyProto::from(proto),
        port,
    }
}

/// The same key for another identity.
pub(crate) fn with_id(key: &MapKey, id: u32) -> MapKey
    ensures { result ≡ with_id id key.now }
{
    MapKey {
        dir: key.dir,
        id,
        proto: key.proto,
        port: key.port,
    }
}
