//! A number put under a prefix.
ghost use Rattle.std.specs.Prelude.{◌≡◌, ◌<◌, ◌≤◌, ◌^◌, ◌+◌, ◌≢◌, Some, IsTrue, true};
ghost use Rattle.slab.specs.Slab.{get, ContainsKey, HasRoomFor, slab_len};
ghost use Rattle.pol_addr.specs.Address.{family_of};
ghost use Rattle.pol_addr.specs.Prefix.{covers};
ghost use Rattle.pol_prefix_table.specs.declared.node.PrefixNode.{PrefixNode};
ghost use Rattle.pol_prefix_table.specs.Sizes.{IsTight};
ghost use Rattle.pol_prefix_table.specs.Trie.{HasRoot, IsSpot, Numbers, SameNumbers, AllStillThere, child};

use crate::bits::Bits;
use crate::family_trie::FamilyTrie;
use crate::node::PrefixNode;
use crate::walk::spot_of;
use pol_addr::Prefix;

/// Puts the number under the prefix, and makes the root before, if no node is there yet. Gives the prefix of the node below
/// which that changes nodes.
pub(crate) fn put<B: Bits>(trie: &mut FamilyTrie<B>, prefix: Prefix, number: u32) -> Prefix
    requires tight { IsTight trie.old }
    requires family { family_of prefix.addr ≡ B.family }
    requires room { HasRoomFor trie.old 3 }
    requires small { trie.old.capacity < 2 ^ 32 }
    ensures over { covers result prefix ≡ true }
    ensures tight { IsTight trie.new }
    ensures rooted { HasRoot B.family (get trie.new) }
    ensures numbers { Numbers trie.old trie.new prefix (Some number) }
    ensures kept { AllStillThere trie.old trie.new }
{
    trie.make_root();
    put_below(trie, prefix, number)
}

/// The same where the root is there.
fn put_below<B: Bits>(trie: &mut FamilyTrie<B>, prefix: Prefix, number: u32) -> Prefix
    requires tight { IsTight trie.old }
    requires rooted { HasRoot B.family (get trie.old) }
    requires family { family_of prefix.addr ≡ B.family }
    requires room { HasRoomFor trie.old 2 }
    requires small { trie.old.capacity < 2 ^ 32 }
    ensures over { covers result prefix ≡ true }
    ensures tight { IsTight trie.new }
    ensures numbers { Numbers trie.old trie.new prefix (Some number) }
    ensures kept { AllStillThere trie.old trie.new }
{
    if prefix.len() == 0 {
        trie.set_number(0, Some(number));
        return prefix;
    }
    let spot = spot_of(trie, &prefix);
    let over = trie.at(spot.0).prefix;
    put_in(trie, spot, prefix, number);
    over
}

/// The same in the prefix's spot.
fn put_in<B: Bits>(trie: &mut FamilyTrie<B>, spot: (usize, bool), prefix: Prefix, number: u32)
    requires tight { IsTight trie.old }
    requires spot { IsSpot trie.old prefix spot.0 spot.1 }
    requires room { HasRoomFor trie.old 2 }
    requires small { trie.old.capacity < 2 ^ 32 }
    ensures tight { IsTight trie.new }
    ensures numbers { Numbers trie.old trie.new prefix (Some number) }
    ensures kept { AllStillThere trie.old trie.new }
{
    match trie.at(spot.0).child(spot.1) {
        None => {
            trie.attach(spot.0, spot.1, PrefixNode::leaf(prefix, Some(number)));
        }
        Some(below) => put_over(trie, spot, below, prefix, number),
    }
}

/// The same where a node is in the spot already.
fn put_over<B: Bits>(
    trie: &mut FamilyTrie<B>,
    spot: (usize, bool),
    below: usize,
    prefix: Prefix,
    number: u32,
)
    requires tight { IsTight trie.old }
    requires spot { IsSpot trie.old prefix spot.0 spot.1 }
    requires key { below + 1 < 2 ^ 32 }
    requires link { (n : PrefixNode) → get trie.old spot.0 ≡ Some n → child n spot.1 ≡ Some below }
    requires there { ContainsKey trie.old below }
    requires room { HasRoomFor trie.old 2 }
    requires small { trie.old.capacity < 2 ^ 32 }
    ensures tight { IsTight trie.new }
    ensures numbers { Numbers trie.old trie.new prefix (Some number) }
    ensures kept { AllStillThere trie.old trie.new }
{
    let other = trie.at(below).prefix;
    if other == prefix {
        trie.set_number(below, Some(number));
    } else if prefix.covers(&other) {
        let node = PrefixNode::over(prefix, Some(number), &other, below);
        trie.attach(spot.0, spot.1, node);
    } else {
        put_beside(trie, spot, below, prefix, number);
    }
}

/// The same where that node and the prefix part below the spot: a node without a number comes over both.
fn put_beside<B: Bits>(
    trie: &mut FamilyTrie<B>,
    spot: (usize, bool),
    below: usize,
    prefix: Prefix,
    number: u32,
)
    requires tight { IsTight trie.old }
    requires spot { IsSpot trie.old prefix spot.0 spot.1 }
    requires key { below + 1 < 2 ^ 32 }
    requires link { (n : PrefixNode) → get trie.old spot.0 ≡ Some n → child n spot.1 ≡ Some below }
    requires differs { (n : PrefixNode) → get trie.old below ≡ Some n → n.prefix ≢ prefix }
    requires parts { (n : PrefixNode) → get trie.old below ≡ Some n → ¬ IsTrue (covers prefix n.prefix) }
    requires there { ContainsKey trie.old below }
    requires room { HasRoomFor trie.old 2 }
    requires small { trie.old.capacity < 2 ^ 32 }
    ensures tight { IsTight trie.new }
    ensures numbers { Numbers trie.old trie.new prefix (Some number) }
    ensures kept { AllStillThere trie.old trie.new }
{
    let other = trie.at(below).prefix;
    let fork = prefix.common(&other);
    let len = fork.len();
    let node = PrefixNode::over(fork, None, &other, below);
    let key = trie.attach(spot.0, spot.1, node);
    trie.attach(key, prefix.bit(len), PrefixNode::leaf(prefix, Some(number)));
}
