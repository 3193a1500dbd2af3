//! Walks from the root down to a prefix.
ghost use Rattle.std.specs.Prelude.{◌≡◌, ◌+◌, ◌<◌, ◌≤◌, IfSome, IfNone, Some};
ghost use Rattle.slab.specs.Slab.{get};
ghost use Rattle.pol_addr.specs.Address.{family_of, width_of};
ghost use Rattle.pol_addr.specs.Cidr.{IsPrefix};
ghost use Rattle.pol_prefix_table.specs.Trie.{HasRoot, child_toward, StandsOver, IsDeepest, NoneBetween, IsSpot, len_at};
ghost use Rattle.pol_prefix_table.specs.Starts.{HasReached};

use crate::bits::Bits;
use crate::family_trie::FamilyTrie;
use crate::node::PrefixNode;
use pol_addr::Prefix;

/// The key of the node below that may cover the target: the one on the target's side.
#[inline(always)]
fn toward(node: &PrefixNode, target: &Prefix) -> Option<usize>
    ensures next { result ≡ child_toward node.now target.now }
    ensures valid { IsPrefix target.now }
{
    if node.prefix.len() < target.len() {
        node.child(target.bit(node.prefix.len()))
    } else {
        None
    }
}

/// The next node on the way to the target that covers it and is shorter than the limit.
#[inline(always)]
pub(crate) fn step<B: Bits>(
    trie: &FamilyTrie<B>,
    at: usize,
    target: &Prefix,
    limit: u8,
) -> Option<usize>
    requires stands { StandsOver trie.now target.now limit at }
    ensures stands { IfSome result (StandsOver trie.now target.now limit) }
    ensures deeper { IfSome result (λ next. len_at trie.now at < len_at trie.now next) }
    ensures between { IfSome result (NoneBetween trie.now target.now at) }
    ensures deepest { IfNone result (IsDeepest trie.now target.now limit at) }
{
    let next = toward(&trie.at(at), target)?;
    let prefix = trie.prefix_at(next);
    if prefix.len() < limit && prefix.covers(target) {
        Some(next)
    } else {
        None
    }
}

/// The key of the longest node that covers the target and is shorter.
#[inline(always)]
pub(crate) fn parent_of<B: Bits>(trie: &FamilyTrie<B>, target: &Prefix) -> usize
    requires rooted { HasRoot B.family (get trie.now) }
    requires family { family_of target.now.addr ≡ B.family }
    requires longer { 0 < target.now.len }
    ensures { IsDeepest trie.now target.now target.now.len result }
{
    let limit = target.len();
    let mut at = 0;
    while let Some(next) = step(trie, at, target, limit) {
        at = next;
    }
    at
}

/// Where the prefix belongs: the key of the longest node that covers it and is shorter, and the side.
pub(crate) fn spot_of<B: Bits>(trie: &FamilyTrie<B>, prefix: &Prefix) -> (usize, bool)
    requires rooted { HasRoot B.family (get trie.now) }
    requires family { family_of prefix.now.addr ≡ B.family }
    requires longer { 0 < prefix.now.len }
    ensures spot { IsSpot trie.now prefix.now result.0 result.1 }
    ensures valid { IsPrefix prefix.now }
{
    let _ = prefix.len();
    let parent = parent_of(trie, prefix);
    (parent, prefix.bit(trie.at(parent).prefix.len()))
}

/// How far a walk has come: the prefix that it leads to, the longest node so far that covers it, the number of the longest
/// of these nodes that has one, and how many it came by.
#[derive(Clone, Copy, Debug)]
pub(crate) struct Reached {
    pub(crate) to: Prefix,
    pub(crate) at: usize,
    pub(crate) number: Option<u32>,
    pub(crate) visits: u8,
}

/// At the root.
#[inline(always)]
pub(crate) fn at_root<B: Bits>(trie: &FamilyTrie<B>, to: Prefix) -> Reached
    requires rooted { HasRoot B.family (get trie.now) }
    requires family { family_of to.addr ≡ B.family }
    ensures to { result.to ≡ to }
    ensures reached { HasReached trie.now result }
{
    let _ = to.len();
    Reached {
        to,
        at: 0,
        number: trie.at(0).number,
        visits: 1,
    }
}

/// On to the longest node that covers the prefix. The walk comes by at most one node of each length: 33 of them, or 129 in the
/// trie of IPv6.
#[inline(always)]
pub(crate) fn to_end<B: Bits>(trie: &FamilyTrie<B>, from: Reached) -> Reached
    requires reached { HasReached trie.now from }
    ensures to { result.to ≡ from.to }
    ensures reached { HasReached trie.now result }
    ensures deepest { IsDeepest trie.now from.to (from.to.len + 1) result.at }
    ensures visits { result.visits ≤ width_of from.to.addr + 1 }
{
    let to = from.to;
    let limit = to.len() + 1;
    let mut at = from.at;
    let mut number = from.number;
    let mut visits = from.visits;
    while let Some(next) = step(trie, at, &to, limit) {
        at = next;
        number = trie.number_at(at).or(number);
        visits += 1;
    }
    Reached {
        to,
        at,
        number,
        visits,
    }
}
