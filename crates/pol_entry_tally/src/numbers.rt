//! Keys as numbers: two numbers are compared in one step, where keys are compared field by field.
ghost use Rattle.std.specs.Prelude.{◌≡◌, ◌≤◌, ◌<◌, ◌^◌, true};
ghost use Rattle.pol_mapkey.specs.KeyProto.{proto_place};
ghost use Rattle.pol_entry_tally.specs.Asking.{under_end};
ghost use Rattle.pol_entry_tally.specs.Numbers.{dir_at, dir_place, fits, key_at, code_of, group_of, key_in, key_of, kind_place, local_of, place_of, port_at, proto_at};

use crate::keys::{every_key, port_count, port_key, prefix_at};
use pol_mapkey::{KeyProto, Kind, MapKey};
use pol_ports::{Direction, PortPrefix, Proto};

/// The lowest bit of the direction in a number, of the identity, of the protocol, and of the first port. The length stands below.
const DIRECTION: u64 = 1 << 55;

const IDENTITY: u64 = 1 << 23;

const PROTOCOL: u64 = 1 << 21;

const PORT: u64 = 1 << 5;

fn dir_place(dir: Direction) -> u64
    ensures value { result ≡ dir_place dir }
    ensures small { result ≤ 1 }
{
    match dir {
        Direction::Ingress => 0,
        Direction::Egress => 1,
    }
}

fn proto_place(proto: KeyProto) -> u64
    ensures value { result ≡ proto_place proto }
    ensures small { result ≤ 3 }
{
    match proto {
        KeyProto::Every => 0,
        KeyProto::Tcp => 1,
        KeyProto::Udp => 2,
        KeyProto::Sctp => 3,
    }
}

fn identity(key: &MapKey) -> u64
    ensures value { result ≡ key.now.id }
    ensures small { key.now.id < 2 ^ 32 }
{
    u64::from(key.id)
}

fn first_port(key: &MapKey) -> u64
    ensures value { result ≡ key.now.port.bits }
    ensures small { key.now.port.bits < 2 ^ 16 }
{
    u64::from(key.port.bits)
}

fn dir_at(place: u64) -> Direction
    ensures { result ≡ dir_at place }
{
    if place == 0 {
        Direction::Ingress
    } else {
        Direction::Egress
    }
}

fn proto_at(place: u64) -> Option<Proto>
    ensures { result ≡ proto_at place }
{
    if place == 1 {
        Some(Proto::Tcp)
    } else if place == 2 {
        Some(Proto::Udp)
    } else if place == 3 {
        Some(Proto::Sctp)
    } else {
        None
    }
}

fn port_at(bits: u16, len: u64) -> PortPrefix
    ensures { result ≡ port_at bits len }
{
    prefix_at(bits, len.min(16) as u8)
}

fn key_at(dir: Direction, id: u32, proto: Option<Proto>, port: PortPrefix) -> MapKey
    ensures { result ≡ key_at dir id proto port }
{
    match proto {
        None => every_key(dir, id),
        Some(proto) => port_key(dir, id, proto, port),
    }
}

/// The key of a number. Of a number that no key has it is some key.
pub(crate) fn key_of(number: u64) -> MapKey
    ensures { result ≡ key_of number }
{
    let id = (number / IDENTITY % (1 << 32)) as u32;
    let bits = (number / PORT % (1 << 16)) as u16;
    key_at(
        dir_at(number / DIRECTION),
        id,
        proto_at(number / PROTOCOL % 4),
        port_at(bits, number % PORT),
    )
}

/// The lowest bit of the kind in a place, and of the group in the number of a key and a kind.
pub(crate) const ALLOWS: u32 = 1 << 23;

const GROUP: u64 = 1 << 24;

fn kind_place(kind: Kind) -> u64
    ensures value { result ≡ kind_place kind }
    ensures small { result ≤ 1 }
{
    match kind {
        Kind::Deny => 0,
        Kind::Allow => 1,
    }
}

/// The direction and the identity of a key as one number.
pub(crate) fn group_of(key: &MapKey) -> u64
    ensures value { result ≡ group_of key.now }
    ensures small { result < 2 ^ 33 }
{
    dir_place(key.dir) * (1 << 32) + identity(key)
}

/// The rest of a key as one number.
pub(crate) fn local_of(key: &MapKey) -> u32
    ensures value { result ≡ local_of key.now }
    ensures fits { fits key.now ≡ true }
    ensures small { result < 2 ^ 23 }
{
    let _id = identity(key);
    let proto = proto_place(key.proto) * PROTOCOL;
    let port = first_port(key) * PORT;
    (proto + port + u64::from(key.port.len)) as u32
}

/// The place of a key and a kind in its group.
pub(crate) fn place_of(key: &MapKey, kind: Kind) -> u32
    ensures value { result ≡ place_of key.now kind }
    ensures fits { fits key.now ≡ true }
{
    kind_place(kind) as u32 * ALLOWS + local_of(key)
}

/// A key and a kind as one number.
pub(crate) fn code_of(key: &MapKey, kind: Kind) -> u64
    ensures value { result ≡ code_of key.now kind }
    ensures fits { fits key.now ≡ true }
    ensures small { result < 2 ^ 57 }
{
    group_of(key) * GROUP + u64::from(place_of(key, kind))
}

/// The key of the group that stands there.
pub(crate) fn key_in(group: u64, local: u32) -> MapKey
    requires group { group < 2 ^ 33 }
    requires local { local < 2 ^ 23 }
    ensures { result ≡ key_in group local }
{
    key_of(group * IDENTITY + u64::from(local))
}

/// Where those end that stand under the key there: for every protocol the whole group, else those of the prefix's ports.
pub(crate) fn end_of(local: u32) -> u32
    requires { local < 2 ^ 23 }
    ensures value { result ≡ under_end local }
    ensures small { result < 2 ^ 24 }
{
    if local < 1 << 21 {
        ALLOWS
    } else {
        let len = local % 32;
        local - len + port_count(len.min(16) as u8) * 32
    }
}
