//! A prefix taken out.
ghost use Rattle.std.specs.Prelude.{◌≡◌, ◌≢◌, ◌<◌, IfSome, IfNone, None, Some, ℕ, ◌≤◌, IsTrue, option_map, true, false, if◌then◌else◌};
ghost use Rattle.slab.specs.Slab.{get, ContainsKey};
ghost use Rattle.pol_addr.specs.Address.{family_of};
ghost use Rattle.pol_addr.specs.Prefix.{covers};
ghost use Rattle.pol_prefix_table.specs.declared.node.PrefixNode.{PrefixNode};
ghost use Rattle.pol_prefix_table.specs.Sizes.{weight, IsTightBut, IsTight};
ghost use Rattle.pol_prefix_table.specs.Trie.{HasRoot, IsNodeOf, IsSpot, Numbers, SameNumbers, StillThere, StillThereOutside, number_of};

use crate::bits::Bits;
use crate::family_trie::FamilyTrie;
use crate::walk::spot_of;
use pol_addr::Prefix;

/// The key of the node of this prefix.
fn node_of<B: Bits>(trie: &FamilyTrie<B>, prefix: &Prefix) -> Option<usize>
    requires family { family_of prefix.now.addr ≡ B.family }
    ensures found { IfSome result (IsNodeOf trie.now prefix.now) }
    ensures absent { IfNone result ((j : ℕ) (n : PrefixNode) → get trie.now j ≡ Some n → n.prefix ≢ prefix.now) }
{
    if !trie.contains(0) {
        return None;
    }
    if prefix.len() == 0 {
        return Some(0);
    }
    let (parent, high) = spot_of(trie, prefix);
    let child = trie.at(parent).child(high)?;
    if trie.at(child).prefix == *prefix {
        Some(child)
    } else {
        None
    }
}

/// Takes this node out of its spot where nothing needs it, or leaves it. No number changes, and each other node stays. Whether
/// nothing is in the spot then, so that the node above has one less below it.
fn prune<B: Bits>(trie: &mut FamilyTrie<B>, at: usize, spot: (usize, bool)) -> bool
    requires tight { IsTightBut (get trie.old) at }
    requires there { ContainsKey trie.old at }
    requires spot { (n : PrefixNode) → get trie.old at ≡ Some n → IsSpot trie.old n.prefix spot.0 spot.1 }
    ensures numbers { SameNumbers trie.old trie.new }
    ensures others { StillThere trie.old trie.new at }
    ensures rooted { HasRoot B.family (get trie.new) }
    ensures tight { IsTightBut (get trie.new) (if result then spot.0 else 0) }
    ensures left { IsTrue result → (n : PrefixNode) → get trie.new spot.0 ≡ Some n → spot.0 ≢ 0 → 1 ≤ weight n }
    ensures stays { (n : PrefixNode) → get trie.old at ≡ Some n → 1 ≤ weight n → result ≡ false }
{
    let node = trie.at(at);
    if node.is_needed() {
        return false;
    }
    let only = node.only();
    trie.splice(spot.0, spot.1, at, only);
    only.is_none()
}

/// The same of a node that has one below it or a number, so that no node above loses one, or of the root, which stays.
fn prune_above<B: Bits>(trie: &mut FamilyTrie<B>, at: usize)
    requires tight { IsTightBut (get trie.old) at }
    requires there { ContainsKey trie.old at }
    requires left { (n : PrefixNode) → get trie.old at ≡ Some n → at ≢ 0 → 1 ≤ weight n }
    ensures numbers { SameNumbers trie.old trie.new }
    ensures others { StillThere trie.old trie.new at }
    ensures rooted { HasRoot B.family (get trie.new) }
    ensures tight { IsTight trie.new }
{
    let prefix = trie.at(at).prefix;
    if at == 0 {
        return;
    }
    let spot = spot_of(trie, &prefix);
    prune(trie, at, spot);
}

/// Takes the number of the prefix out. Gives it, and the prefix of the node below which that changes nodes.
pub(crate) fn take<B: Bits>(trie: &mut FamilyTrie<B>, prefix: &Prefix) -> Option<(u32, Prefix)>
    requires tight { IsTight trie.old }
    requires family { family_of prefix.now.addr ≡ B.family }
    ensures value { option_map (λ r. r.0) result ≡ number_of trie.old prefix.now }
    ensures over { IfSome result (λ r. covers r.1 prefix.now ≡ true) }
    ensures rooted { IfSome result (λ r. HasRoot B.family (get trie.new)) }
    ensures numbers { Numbers trie.old trie.new prefix.now None }
    ensures kept { IfSome result (λ r. StillThereOutside trie.old trie.new r.1) }
    ensures none { IfNone result (trie.new ≡ trie.old) }
    ensures tight { IsTight trie.new }
{
    let at = node_of(trie, prefix)?;
    let number = trie.at(at).number?;
    trie.set_number(at, None);
    let over = prune_from(trie, at);
    Some((number, over))
}

/// Prunes a node, and then the one above it. Gives the prefix of that one.
fn prune_from<B: Bits>(trie: &mut FamilyTrie<B>, at: usize) -> Prefix
    requires tight { IsTightBut (get trie.old) at }
    requires there { ContainsKey trie.old at }
    ensures over { (n : PrefixNode) → get trie.old at ≡ Some n → covers result n.prefix ≡ true }
    ensures rooted { HasRoot B.family (get trie.new) }
    ensures numbers { SameNumbers trie.old trie.new }
    ensures kept { StillThereOutside trie.old trie.new result }
    ensures tight { IsTight trie.new }
{
    let prefix = trie.at(at).prefix;
    if prefix.len() == 0 {
        return prefix;
    }
    let spot = spot_of(trie, &prefix);
    let over = trie.at(spot.0).prefix;
    if !prune(trie, at, spot) {
        return over;
    }
    prune_above(trie, spot.0);
    over
}
