//! A policy map with as many keys as are published, filled and emptied in two orders.
ghost use Rattle.std.specs.Prelude.{◌≡◌, ◌<◌};

use pol_data::{Memory, Steps};
use pol_mapkey::{KeyProto, Kind, MapKey, Word};
use pol_ports::{Direction, PortPrefix, Proto};
use pol_trie::PolicyTrie;
use std::alloc::Global;
use std::marker::Brand;
use std::sync::ledger::{Blank, Ledger};
use std::test::Fail;

const KEYS: u32 = 16_384;

/// The key of a number: one of 128 ports of one of 128 identities, of which every other is denied.
fn key_of(i: u32) -> MapKey
    requires { i < 16384 }
{
    MapKey {
        dir: Direction::Egress,
        id: 256 + i % 128,
        proto: KeyProto::Udp,
        port: PortPrefix {
            bits: (i / 128 * 511) as u16,
            len: 16,
        },
    }
}

fn kind_of(i: u32) -> Kind {
    if i / 128 % 2 == 0 {
        Kind::Allow
    } else {
        Kind::Deny
    }
}

/// The map with all keys, set in an order that the odd factor gives.
fn filled(alloc: Global, factor: u32) -> Result<PolicyTrie, Memory> {
    let mut trie = PolicyTrie::new(alloc);
    for i in 0..KEYS {
        if trie.count() < 1_000_000 {
            let key = i.wrapping_mul(factor) % KEYS;
            trie.set(key_of(key), kind_of(key))?;
        }
    }
    Ok(trie)
}

/// Clears all keys, and counts those that were there.
fn cleared(trie: &mut PolicyTrie, factor: u32) -> u32 {
    let mut there = 0u32;
    for i in 0..KEYS {
        if trie.clear(&key_of(i.wrapping_mul(factor) % KEYS)) {
            there = there.wrapping_add(1);
        }
    }
    there
}

/// Clears all keys but one of each identity, and gives room back after each.
fn cleared_but_one(trie: &mut PolicyTrie) -> Result<(), Memory> {
    for i in 128..KEYS {
        let key = key_of(i);
        let _ = trie.clear(&key);
        trie.give_back(&key)?;
    }
    Ok(())
}

/// How many keys read as they were set.
fn right_over<L: Ledger>(blank: Blank, trie: &PolicyTrie) -> u32
    requires name { blank.name ≡ L.name }
    requires parts { blank.parts ≡ L.parts }
    requires some { blank.parts ≡ 1 }
{
    let mut steps = Steps::<L>::new(blank);
    let mut right = 0u32;
    for i in 0..KEYS {
        let key = key_of(i);
        let word = trie.look(key.dir, key.id, Proto::Udp, key.port.bits, &mut steps);
        let wanted = match kind_of(i) {
            Kind::Allow => Word::Allowed,
            Kind::Deny => Word::DeniedByRule,
        };
        if word == wanted {
            right = right.wrapping_add(1);
        }
    }
    right
}

fn right(trie: &PolicyTrie) -> u32 {
    right_over::<Brand>(Blank::new(1), trie)
}

#[test]
fn a_full_map_reads_the_same_in_any_order(rt: HostRuntime) -> Result<(), Fail> {
    let up = filled(rt.alloc(), 1)?;
    assert!(rt; up.count() == KEYS && right(&up) == KEYS);
    let mixed = filled(rt.alloc(), 5)?;
    assert!(rt; mixed.count() == KEYS && right(&mixed) == KEYS);
    Ok(())
}

#[test]
fn an_emptied_map_has_no_node(rt: HostRuntime) -> Result<(), Fail> {
    let mut trie = filled(rt.alloc(), 1)?;
    let copy = trie.copy(rt.alloc())?;
    assert!(rt; cleared(&mut trie, 5) == KEYS);
    assert!(rt; trie.count() == 0 && trie.nodes() == 0 && right(&trie) == 0);
    assert!(rt; right(&copy) == KEYS);
    Ok(())
}

#[test]
fn a_map_that_gives_room_back_keeps_its_keys(rt: HostRuntime) -> Result<(), Fail> {
    let mut trie = filled(rt.alloc(), 5)?;
    cleared_but_one(&mut trie)?;
    assert!(rt; trie.count() == 128 && trie.nodes() == 128 && right(&trie) == 128);
    Ok(())
}

#[test]
fn a_branch_is_a_node(rt: HostRuntime) -> Result<(), Fail> {
    let mut trie = PolicyTrie::new(rt.alloc());
    if trie.count() < 1_000_000 {
        trie.set(key_of(0), Kind::Allow)?;
    }
    assert!(rt; trie.count() == 1 && trie.nodes() == 1);
    if trie.count() < 1_000_000 {
        trie.set(key_of(128), Kind::Deny)?;
    }
    assert!(rt; trie.count() == 2 && trie.nodes() == 3);
    Ok(())
}
