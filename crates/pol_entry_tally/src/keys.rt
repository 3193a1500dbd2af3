//! Keys of a policy map.
ghost use Rattle.std.specs.Prelude.{◌≡◌, ◌-◌, ◌^◌, ◌≤◌};
ghost use Rattle.pol_ports.specs.PortPrefix.{prefix_at};
ghost use Rattle.pol_mapkey.specs.MapKey.{every_key, port_key};
ghost use Rattle.pol_entry_tally.specs.Times.{packets_of};

use pol_mapkey::{KeyProto, MapKey};
use pol_ports::{Direction, PortPrefix, Proto};

/// How many ports a prefix of that length has.
pub(crate) fn port_count(len: u8) -> u32
    requires { len ≤ 16 }
    ensures value { result ≡ 2 ^ (16 - len) }
    ensures small { result ≤ 2 ^ 16 }
{
    1 << (16 - len)
}

/// The prefix of that length that has the port.
#[tactic(auto, using(pol_distill::proofs::Lookups::prefix_made))]
pub(crate) fn prefix_at(port: u16, len: u8) -> PortPrefix
    requires { len ≤ 16 }
    ensures { result ≡ prefix_at port len }
{
    let size = port_count(len);
    PortPrefix {
        bits: (u32::from(port) / size * size) as u16,
        len,
    }
}

/// The key of an identity for every protocol and port.
#[tactic(auto, using(pol_distill::proofs::RawLists::every_key_is))]
pub(crate) fn every_key(dir: Direction, id: u32) -> MapKey
    ensures { result ≡ every_key dir id }
{
    MapKey {
        dir,
        id,
        proto: KeyProto::Every,
        port: PortPrefix { bits: 0, len: 0 },
    }
}

/// The key of an identity for a protocol and a port prefix.
pub(crate) fn port_key(dir: Direction, id: u32, proto: Proto, port: PortPrefix) -> MapKey
    ensures { result ≡ port_key dir id proto port }
{
    MapKey {
        dir,
        id,
        proto: KeyProto::from(proto),
        port,
    }
}

/// The packets that a key is of, if they are of one protocol.
pub(crate) fn packets_of(proto: KeyProto) -> Option<Proto>
    ensures { result ≡ packets_of proto }
{
    match proto {
        KeyProto::Every => None,
        KeyProto::Tcp => Some(Proto::Tcp),
        KeyProto::Udp => Some(Proto::Udp),
        KeyProto::Sctp => Some(Proto::Sctp),
    }
}
