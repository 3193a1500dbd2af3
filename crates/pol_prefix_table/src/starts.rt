//! Where look-ups start: the longest node over each prefix of a few bits.
ghost use Rattle.std.specs.Prelude.{◌≡◌, ◌≤◌, ◌<◌, ◌^◌, IfSome, IfNone, IfOk, false, true};
ghost use Rattle.std.specs.List.Sorted.{IsNonDecreasingBy, IsPartitionPoint};
ghost use Rattle.slab.specs.Slab.{get};
ghost use Rattle.pol_addr.specs.Address.{bits_of, family_of};
ghost use Rattle.pol_addr.specs.Prefix.{covers, host_prefix};
ghost use Rattle.pol_prefix_table.specs.Trie.{HasRoot, IsNumberOver, NoNumberOver};
ghost use Rattle.pol_prefix_table.specs.Starts.{HasReached, AreStarts, AreStartsOutside, beginning};

use crate::bits::Bits;
use crate::family_trie::FamilyTrie;
use crate::start::{Start, prefix_at};
use crate::walk::{Reached, at_root, to_end};
use pol_addr::{Family, Prefix};
use std::alloc::{AllocError as Memory, Global};

/// The most bits that a prefix with a start has.
pub(crate) const START_BITS: u8 = 13;

/// For how many first bits a large table has starts. The memory of IPv4 has a bound.
fn most_bits(family: Family) -> u8
    ensures some { 0 < result }
    ensures few { result ≤ START_BITS }
{
    match family {
        Family::Ipv4 => 12,
        Family::Ipv6 => START_BITS,
    }
}

/// For how many first bits a table of so many nodes has starts. It has none where the root is as near.
fn bits_for(family: Family, nodes: usize) -> Option<u8>
    ensures some { IfSome result (λ bits. 0 < bits) }
    ensures few { IfSome result (λ bits. bits ≤ START_BITS) }
{
    if nodes < 64 {
        None
    } else if nodes < 1_024 {
        Some(8)
    } else if nodes < 65_536 {
        Some(10)
    } else {
        Some(most_bits(family))
    }
}

/// The start of a prefix.
fn start_over<B: Bits>(trie: &FamilyTrie<B>, over: Prefix) -> Reached
    requires rooted { HasRoot B.family (get trie.now) }
    requires family { family_of over.addr ≡ B.family }
    ensures to { result.to ≡ over }
    ensures reached { HasReached trie.now result }
    ensures key { result.at < 2 ^ 32 }
{
    let start = to_end(trie, at_root(trie, over));
    trie.keys_are_small(start.at);
    start
}

/// A walk goes on to a prefix that its own covers.
fn walk_on<B: Bits>(trie: &FamilyTrie<B>, from: &Reached, to: Prefix) -> Reached
    requires reached { HasReached trie.now from.now }
    requires over { covers from.now.to to ≡ true }
    ensures to { result.to ≡ to }
    ensures reached { HasReached trie.now result }
    ensures key { result.at < 2 ^ 32 }
{
    let start = to_end(
        trie,
        Reached {
            to,
            at: from.at,
            number: from.number,
            visits: from.visits,
        },
    );
    trie.keys_are_small(start.at);
    start
}

/// Makes starts for more bits, where the table has outgrown those that it has.
pub(crate) fn grow<B: Bits>(trie: &FamilyTrie<B>, starts: &mut Vec<Start<B>>) -> Result<(), Memory>
    requires starts { AreStarts B.family trie.now starts.old.items }
    ensures { AreStarts B.family trie.now starts.new.items }
{
    let Some(bits) = bits_for(B::family(), trie.len()) else {
        return Ok(());
    };
    if starts.len() >= 1 << bits || !trie.contains(0) {
        return Ok(());
    }
    fill(trie, starts, bits)
}

/// Makes the starts of all prefixes of this length.
fn fill<B: Bits>(trie: &FamilyTrie<B>, starts: &mut Vec<Start<B>>, bits: u8) -> Result<(), Memory>
    requires rooted { HasRoot B.family (get trie.now) }
    requires some { 0 < bits }
    requires few { bits ≤ START_BITS }
    ensures { AreStarts B.family trie.now starts.new.items }
{
    starts.clear();
    for place in 0..1u32 << bits {
        let start = start_over(trie, prefix_at::<B>(place, bits));
        starts.push(Start::of(place, bits, start))?;
    }
    Ok(())
}

/// Makes the start once more, where the prefix to which a walk has led covers the start's. Whether it does.
#[inline(always)]
fn renew_one<B: Bits>(
    trie: &FamilyTrie<B>,
    over: &Prefix,
    from: &Reached,
    start: &mut Start<B>,
) -> bool
    requires from { HasReached trie.now from.now }
    requires from_over { from.now.to ≡ over.now }
    requires outside { covers over.now start.old.to ≡ false → HasReached trie.now start.old }
    ensures covered { result ≡ covers over.now start.old.to }
    ensures to { start.new.to ≡ start.old.to }
    ensures reached { HasReached trie.now start.new }
{
    let to = start.to();
    if !over.covers(&to) {
        return false;
    }
    *start = start.renewed(walk_on(trie, from, to));
    true
}

/// How many starts are of prefixes that begin before this address.
fn starts_below<B: Bits>(starts: &[Start<B>], bits: B) -> usize
    requires rise { IsNonDecreasingBy (λ r. bits_of r.to.addr) starts.now }
    ensures { IsPartitionPoint (λ r. bits_of r.to.addr < bits_of (B.seen bits)) (λ r.
        bits_of (B.seen bits) ≤ bits_of r.to.addr) starts.now result }
{
    starts.partition_point(|start| start.is_below(bits))
}

/// Makes the starts of all prefixes that this one covers once more. They stand side by side.
pub(crate) fn renew<B: Bits>(trie: &FamilyTrie<B>, starts: &mut Vec<Start<B>>, over: &Prefix)
    requires rooted { HasRoot B.family (get trie.now) }
    requires family { family_of over.now.addr ≡ B.family }
    requires outside { AreStartsOutside B.family trie.now over.now starts.old.items }
    ensures { AreStarts B.family trie.now starts.new.items }
{
    if over.len() > START_BITS {
        return;
    }
    let from = start_over(trie, *over);
    for i in starts_below(starts.as_slice(), B::of(over.network()))..starts.len() {
        if !renew_one(trie, over, &from, &mut starts[i]) {
            return;
        }
    }
}

/// Where the start of an address with these first 32 bits stands among so many.
#[inline(always)]
fn place_of(high: u32, starts: usize) -> usize {
    ((starts as u64).wrapping_mul(u64::from(high)) >> 32) as usize
}

/// Where a walk to an address may begin: at a start whose prefix contains it, or else at the root.
#[inline(always)]
fn from_start<B: Bits>(trie: &FamilyTrie<B>, start: &Start<B>, bits: B) -> Reached
    requires rooted { HasRoot B.family (get trie.now) }
    requires start { HasReached trie.now start.now }
    ensures to { result.to ≡ host_prefix (B.seen bits) }
    ensures reached { HasReached trie.now result }
{
    let to = Prefix::host(bits.addr());
    if !start.contains(bits) {
        return at_root(trie, to);
    }
    let walk = start.reached();
    Reached {
        to,
        at: walk.at,
        number: walk.number,
        visits: walk.visits,
    }
}

/// Where a walk to an address may begin.
#[inline(always)]
fn start_of<B: Bits>(trie: &FamilyTrie<B>, starts: &[Start<B>], bits: B) -> Reached
    requires rooted { HasRoot B.family (get trie.now) }
    requires starts { AreStarts B.family trie.now starts.now }
    ensures to { result.to ≡ host_prefix (B.seen bits) }
    ensures reached { HasReached trie.now result }
{
    match starts.get(place_of(bits.high(), starts.len())) {
        Some(start) => from_start(trie, start, bits),
        None => at_root(trie, Prefix::host(bits.addr())),
    }
}

/// The number of the longest node that covers the address.
#[inline(always)]
pub(crate) fn longest_over<B: Bits>(
    trie: &FamilyTrie<B>,
    starts: &[Start<B>],
    bits: B,
) -> Option<u32>
    requires starts { AreStarts B.family trie.now starts.now }
    ensures found { IfSome result (IsNumberOver trie.now (host_prefix (B.seen bits))) }
    ensures none { IfNone result (NoNumberOver trie.now (host_prefix (B.seen bits))) }
{
    if !trie.contains(0) {
        return None;
    }
    to_end(trie, start_of(trie, starts, bits)).number
}

/// The starts once more. The one error is want of memory.
pub(crate) fn copied<B: Bits>(alloc: Global, starts: &[Start<B>]) -> Result<Vec<Start<B>>, Memory>
    ensures { IfOk result (λ copy. copy.items ≡ starts.now) }
{
    let mut copy = Vec::new(alloc);
    for start in starts {
        copy.push(start.renewed(start.reached()))?;
    }
    Ok(copy)
}
