//! Policy map keys: when one key covers another or a packet, and how a map is read.
//!
//! A policy map has entries for keys of direction, identity, protocol and port prefix, as Cilium's
//! policy map has. Of the keys of one identity that cover a packet the longest decides.
#![tactic(auto)]

ghost use Rattle.std.specs.Prelude.{◌≡◌};
ghost use Rattle.pol_mapkey.specs.declared.KeyProto.{KeyProto};
ghost use Rattle.pol_mapkey.specs.declared.KeyProto.TheVariants.{Every};

mod deciding;
pub mod laws;

use pol_ports::{Direction, PortPrefix, Proto};

/// The protocol of a key.
#[derive(Clone, Copy, PartialEq, Eq, PartialOrd, Ord, Hash, Debug)]
pub enum KeyProto {
    /// TCP, UDP and SCTP together, on every port.
    Every,
    /// The Transmission Control Protocol, RFC 9293.
    Tcp,
    /// The User Datagram Protocol, RFC 768.
    Udp,
    /// The Stream Control Transmission Protocol, RFC 9260.
    Sctp,
}

/// A key of a policy map. Keys are ordered by direction, identity, protocol, the port prefix's
/// bits, and its length (profile).
#[derive(Clone, Copy, PartialEq, Eq, PartialOrd, Ord, Hash, Debug)]
pub struct MapKey {
    /// The direction of the packets.
    pub dir: Direction,
    /// The number of the remote identity; 0 stands for every identity.
    pub id: u32,
    /// The protocol of the packets.
    pub proto: KeyProto,
    /// The ports of the packets. With the protocol `Every` it is the empty prefix.
    pub port: PortPrefix,
    pub ghost every_port: { proto ≡ Every → port.len ≡ 0 },
}

/// What an entry of a policy map does with the packets of its key.
#[derive(Clone, Copy, PartialEq, Eq, PartialOrd, Ord, Hash, Debug)]
pub enum Kind {
    /// It allows them.
    Allow,
    /// It denies them, and no entry that allows them outweighs it.
    Deny,
}

/// What a policy map says of a packet (Cilium, "Deny Policies", and profile for the two words of a
/// denial).
#[derive(Clone, Copy, PartialEq, Eq, PartialOrd, Ord, Hash, Debug)]
pub enum Word {
    /// An entry allows the packet, and none that decides denies it.
    Allowed,
    /// An entry denies the packet.
    DeniedByRule,
    /// No entry decides.
    DeniedByDefault,
}

impl KeyProto {
    ghost use Rattle.pol_mapkey.specs.KeyProto.{proto_covers};

    /// Whether a key of this protocol is for all packets of a key of the other protocol.
    fn covers(self, other: KeyProto) -> bool
        ensures { result ≡ proto_covers self other }
    {
        self == KeyProto::Every || self == other
    }
}

impl From<Proto> for KeyProto {
    ghost use Rattle.pol_mapkey.specs.KeyProto.{key_proto};

    ghost from_gives = { λ proto k. k ≡ key_proto proto };

    fn from(proto: Proto) -> KeyProto {
        match proto {
            Proto::Tcp => KeyProto::Tcp,
            Proto::Udp => KeyProto::Udp,
            Proto::Sctp => KeyProto::Sctp,
        }
    }
}

impl MapKey {
    ghost use Rattle.pol_mapkey.specs.MapKey.{covers, strictly_covers, covers_packet};

    /// Whether this key covers the other: direction and identity are equal, this protocol is
    /// `Every` or the other's, and this port prefix has every port of the other's (profile).
    pub fn covers(&self, other: &MapKey) -> bool
        ensures { result ≡ covers self.now other.now }
    {
        self.dir == other.dir
            && self.id == other.id
            && self.proto.covers(other.proto)
            && self.port.contains(&other.port)
    }

    /// Whether this key covers the other and differs from it: the other lies strictly under it.
    pub fn strictly_covers(&self, other: &MapKey) -> bool
        ensures { result ≡ strictly_covers self.now other.now }
    {
        self.covers(other) && *self != *other
    }

    /// Whether this key covers a packet of its identity: it has the packet's direction, its protocol
    /// is `Every` or the packet's, and its port prefix has the packet's port (profile).
    pub fn covers_packet(&self, dir: Direction, proto: Proto, port: u16) -> bool
        ensures { result ≡ covers_packet self.now dir proto port }
    {
        self.dir == dir && self.proto.covers(KeyProto::from(proto)) && self.port.holds(port)
    }
}
