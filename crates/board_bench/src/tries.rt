//! Looks at policy maps with no board over them.
ghost use Rattle.std.specs.Prelude.{◌≡◌};

use crate::asked::{AskedPacket, ENDPOINTS, PACKETS, PORTS, packet_of, port};
use crate::looks::{ROUNDS, Round};
use crate::watch::Watch;
use pol_data::{Memory, Steps};
use pol_mapkey::{KeyProto, Kind, MapKey, Word};
use pol_ports::{Direction, PortPrefix, Proto};
use pol_trie::PolicyTrie;
use std::alloc::Global;
use std::marker::Brand;
use std::rt::Clock;
use std::sync::ledger::{Blank, Ledger};

/// The key of an identity and a TCP port.
fn key(identity: u32, port: u16) -> MapKey {
    MapKey {
        dir: Direction::Ingress,
        id: identity,
        proto: KeyProto::Tcp,
        port: PortPrefix {
            bits: port,
            len: 16,
        },
    }
}

/// Sets the keys of an identity.
fn set_keys(trie: &mut PolicyTrie, identity: u32) -> Result<(), Memory> {
    for number in 0..PORTS {
        if trie.count() < 1_000_000 {
            trie.set(key(identity, port(number)), Kind::Allow)?;
        }
    }
    Ok(())
}

/// The policy map of an endpoint, with the keys of so many identities.
fn trie(alloc: Global, identities: u32) -> Result<PolicyTrie, Memory> {
    let mut trie = PolicyTrie::new(alloc);
    for number in 0..identities {
        set_keys(&mut trie, number.wrapping_add(256))?;
    }
    Ok(trie)
}

/// That of each endpoint.
fn tries(alloc: Global, identities: u32) -> Result<Vec<PolicyTrie>, Memory> {
    let mut tries = Vec::new(alloc);
    for _ in 0..ENDPOINTS {
        tries.push(trie(alloc, identities)?)?;
    }
    Ok(tries)
}

fn packets(alloc: Global, identities: u32) -> Result<Vec<AskedPacket>, Memory> {
    let mut packets = Vec::new(alloc);
    for number in 0..ENDPOINTS * PACKETS {
        packets.push(packet_of(number, identities))?;
    }
    Ok(packets)
}

/// Whether the packet is allowed.
fn is_allowed<L: Ledger>(tries: &[PolicyTrie], packet: AskedPacket, steps: &mut Steps<L>) -> bool {
    match tries.get(packet.endpoint as usize) {
        None => false,
        Some(trie) => {
            let word = trie.look(
                Direction::Ingress,
                packet.identity,
                Proto::Tcp,
                packet.port,
                steps,
            );
            word == Word::Allowed
        }
    }
}

/// How many of the packets are allowed.
fn allowed_by<L: Ledger>(blank: Blank, tries: &[PolicyTrie], packets: &[AskedPacket]) -> u32
    requires name { blank.name ≡ L.name }
    requires parts { blank.parts ≡ L.parts }
    requires some { blank.parts ≡ 1 }
{
    let mut steps = Steps::<L>::new(blank);
    let mut allowed = 0u32;
    for packet in packets {
        if is_allowed(tries, *packet, &mut steps) {
            allowed = allowed.wrapping_add(1);
        }
    }
    allowed
}

fn allowed(tries: &[PolicyTrie], packets: &[AskedPacket]) -> u32 {
    allowed_by::<Brand>(Blank::new(1), tries, packets)
}

fn time_round<W: Clock>(
    rt: &W,
    watch: Watch,
    tries: &[PolicyTrie],
    packets: &[AskedPacket],
) -> Round {
    let start = watch.nanos(rt);
    let allowed = allowed(tries, packets);
    Round {
        nanos: watch.nanos(rt).wrapping_sub(start),
        allowed,
        events: 0,
    }
}

/// The shortest round of those that were timed.
fn time_looks<W: Clock>(
    rt: &W,
    watch: Watch,
    tries: &[PolicyTrie],
    packets: &[AskedPacket],
) -> Round {
    let mut least = time_round(rt, watch, tries, packets);
    for _ in 1..ROUNDS {
        least = least.shorter(time_round(rt, watch, tries, packets));
    }
    least
}

/// The shortest round of all packets, over maps that have the keys of so many identities.
pub(crate) fn time_tries<W: Clock>(
    rt: &W,
    watch: Watch,
    alloc: Global,
    identities: u32,
) -> Result<Round, Memory> {
    let packets = packets(alloc, identities)?;
    let tries = tries(alloc, identities)?;
    Ok(time_looks(rt, watch, &tries, &packets))
}
