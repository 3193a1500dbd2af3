//! Times policy maps of 4,096 to 65,536 keys, sixteen an identity: sets, look-ups, a copy and clears.
ghost use Rattle.std.specs.Prelude.{◌≡◌};

use crate::watch::Watch;
use anyhow::Result;
use pol_data::Steps;
use pol_mapkey::{KeyProto, Kind, MapKey, Word};
use pol_ports::{Direction, PortPrefix, Proto};
use pol_trie::PolicyTrie;
use std::alloc::AllocError;
use std::marker::Brand;
use std::rt::Clock;
use std::sync::ledger::{Blank, Ledger};

/// How many keys a map has, the greatest as many as one may have.
const SIZES: [u32; 5] = [4_096, 8_192, 16_384, 32_768, 65_536];

/// How many keys an identity has.
const OF_ONE: u32 = 16;

/// How many packets are looked up.
const LOOK_UPS: u32 = 100_000;

/// A port, scattered by an odd factor.
fn port_of(i: u32) -> u16 {
    (i.wrapping_mul(0x9e37_79b1) >> 16) as u16
}

/// The identity of a key's number, where there are so many keys.
fn id_of(i: u32, keys: u32) -> u32 {
    let identities = (keys / OF_ONE).max(1);
    (i % identities).wrapping_add(256)
}

/// The key of a number: one port of an identity.
fn key_of(i: u32, keys: u32) -> MapKey {
    MapKey {
        dir: Direction::Ingress,
        id: id_of(i, keys),
        proto: KeyProto::Tcp,
        port: PortPrefix {
            bits: port_of(i),
            len: 16,
        },
    }
}

/// Sets the keys.
fn fill(trie: &mut PolicyTrie, keys: u32) -> Result<(), AllocError> {
    for i in 0..keys {
        if trie.count() < 1_000_000 {
            trie.set(key_of(i, keys), Kind::Allow)?;
        }
    }
    Ok(())
}

/// Clears the keys, and counts those that were there.
fn clear(trie: &mut PolicyTrie, keys: u32) -> u32 {
    let mut there = 0u32;
    for i in 0..keys {
        if trie.clear(&key_of(i, keys)) {
            there = there.wrapping_add(1);
        }
    }
    there
}

/// How many packets are allowed: half of them on a port of a key.
fn allowed_over<L: Ledger>(blank: Blank, trie: &PolicyTrie, keys: u32) -> u32
    requires name { blank.name ≡ L.name }
    requires parts { blank.parts ≡ L.parts }
    requires some { blank.parts ≡ 1 }
{
    let mut steps = Steps::<L>::new(blank);
    let twice = keys.saturating_mul(2).max(1);
    let mut allowed = 0u32;
    for i in 0..LOOK_UPS {
        let id = id_of(i, keys);
        let word = trie.look(
            Direction::Ingress,
            id,
            Proto::Tcp,
            port_of(i % twice),
            &mut steps,
        );
        if word == Word::Allowed {
            allowed = allowed.wrapping_add(1);
        }
    }
    allowed
}

fn allowed(trie: &PolicyTrie, keys: u32) -> u32 {
    allowed_over::<Brand>(Blank::new(1), trie, keys)
}

fn time_sets<R: Clock + Eprint + AllocGlobal>(
    rt: &R,
    watch: Watch,
    trie: &mut PolicyTrie,
    keys: u32,
) -> Result<()> {
    let start = watch.nanos(rt);
    fill(trie, keys)?;
    let nanos = watch.nanos(rt).wrapping_sub(start) / u128::from(keys.max(1));
    let count = trie.count();
    let nodes = trie.nodes();
    eprintln!(rt; "set: {nanos} ns, {count} keys, {nodes} nodes")?;
    Ok(())
}

fn time_look_ups<R: Clock + Eprint + AllocGlobal>(
    rt: &R,
    watch: Watch,
    trie: &PolicyTrie,
    keys: u32,
) -> Result<()> {
    let start = watch.nanos(rt);
    let found = allowed(trie, keys);
    let nanos = watch.nanos(rt).wrapping_sub(start) / u128::from(LOOK_UPS);
    eprintln!(rt; "look: {nanos} ns, {keys} keys, {found} allowed")?;
    Ok(())
}

/// How many microseconds a copy took, and how many keys it has.
fn time_of_copy<R: Clock + AllocGlobal>(
    rt: &R,
    watch: Watch,
    trie: &PolicyTrie,
) -> Result<(u128, u32), AllocError> {
    let start = watch.nanos(rt);
    let copy = trie.copy(rt.alloc())?;
    let micros = watch.nanos(rt).wrapping_sub(start) / 1000;
    Ok((micros, copy.count()))
}

fn time_copy<R: Clock + Eprint + AllocGlobal>(
    rt: &R,
    watch: Watch,
    trie: &PolicyTrie,
) -> Result<()> {
    let (micros, count) = time_of_copy(rt, watch, trie)?;
    eprintln!(rt; "copy: {micros} us, {count} keys")?;
    Ok(())
}

fn time_clears<R: Clock + Eprint + AllocGlobal>(
    rt: &R,
    watch: Watch,
    trie: &mut PolicyTrie,
    keys: u32,
) -> Result<()> {
    let start = watch.nanos(rt);
    let there = clear(trie, keys);
    let nanos = watch.nanos(rt).wrapping_sub(start) / u128::from(keys.max(1));
    eprintln!(rt; "clear: {nanos} ns, {there} keys")?;
    Ok(())
}

fn time_all<R: Clock + Eprint + AllocGlobal>(
    rt: &R,
    watch: Watch,
    trie: &mut PolicyTrie,
    keys: u32,
) -> Result<()> {
    time_sets(rt, watch, trie, keys)?;
    time_look_ups(rt, watch, trie, keys)?;
    time_copy(rt, watch, trie)?;
    time_clears(rt, watch, trie, keys)
}

/// Times all of these, on a map of each size that is empty at first.
pub(crate) fn time<R: Clock + Eprint + AllocGlobal>(rt: &R, watch: Watch) -> Result<()> {
    for keys in &SIZES {
        let mut trie = PolicyTrie::new(rt.alloc());
        time_all(rt, watch, &mut trie, *keys)?;
    }
    Ok(())
}
