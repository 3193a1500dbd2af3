//! The trie of one family: its reads, and its changes by one link at a time.
ghost use Rattle.std.specs.Prelude.{◌≡◌, ◌≢◌, ℕ, ◌+◌, ◌<◌, ◌≤◌, ◌↔◌, ◌^◌, ◌/◌, [], length, max, IsTrue, IfOk, IfSome, OnOk, Some, None, option_map};
ghost use Rattle.slab.specs.Slab.{get, ContainsKey, HasRoomFor, Updates, slab_len};
ghost use Rattle.pol_addr.specs.Address.{family_of};
ghost use Rattle.pol_prefix_table.specs.declared.node.PrefixNode.{PrefixNode};
ghost use Rattle.pol_prefix_table.specs.Sizes.{weight, IsTightBut, IsTight, loosened};
ghost use Rattle.pol_prefix_table.specs.Trie.{IsTrie, HasRoot, FitsBelow, HasOnly, Numbers, SameNumbers, StillThere, AllStillThere, number_of, with_child};

use crate::bits::Bits;
use crate::node::PrefixNode;
use crate::nodes::Nodes;
use pol_addr::Prefix;
use std::alloc::{AllocError as Memory, Global};
use std::marker::Model;

/// The nodes of one family, which are a trie. A caller that needs to know it makes a call that says so.
#[derive(Drop)]
pub(crate) struct FamilyTrie<B: Bits> {
    nodes: Nodes<B>,
}

impl<B: Bits> Model for FamilyTrie<B> {
    ghost use Rattle.slab.specs.Slab.{Slab};
    ghost use Rattle.pol_prefix_table.specs.declared.node.PrefixNode.{PrefixNode};
    ghost use Rattle.pol_prefix_table.specs.Trie.{IsTrie};

    ghost Value = { Slab PrefixNode };

    ghost view = { λ t. t.nodes };

    ghost invariant = { λ t. IsTrie B.family t.nodes };
}

/// Puts this key on one side of a node.
fn link<B: Bits>(nodes: &mut Nodes<B>, at: usize, high: bool, key: Option<usize>)
    requires there { ContainsKey nodes.old at }
    requires small { IfSome key (λ k. k + 1 < 2 ^ 32) }
    ensures updates { (n : PrefixNode) → get nodes.old at ≡ Some n
        → Updates nodes.old nodes.new at (Some (with_child n high key)) }
    ensures len { slab_len nodes.new ≡ slab_len nodes.old }
    ensures capacity { nodes.new.capacity ≡ nodes.old.capacity }
    ensures vacant_key { nodes.new.vacant_key ≡ nodes.old.vacant_key }
{
    let node = nodes.at(at).with_child(high, key);
    nodes.set(at, node);
}

impl<B: Bits> FamilyTrie<B> {
    /// No nodes. It takes no memory yet.
    pub(crate) fn new(alloc: Global) -> FamilyTrie<B>
        ensures { result.slots ≡ [] }
    {
        FamilyTrie {
            nodes: Nodes::new(alloc),
        }
    }

    /// The call tells that the nodes are a trie.
    #[inline(always)]
    pub(crate) fn fits_together(&self)
        ensures trie { IsTrie B.family self.now }
    {
        let _ = &self.nodes;
    }

    /// How many nodes there are.
    pub(crate) fn len(&self) -> usize
        ensures value { result ≡ slab_len self.now }
        ensures small { result < 2 ^ 32 }
        ensures trie { IsTrie B.family self.now }
    {
        self.nodes.len()
    }

    /// How many nodes there is room for.
    pub(crate) fn capacity(&self) -> usize
        ensures { result ≡ self.now.capacity }
    {
        self.nodes.capacity()
    }

    /// Whether a node stands under this key.
    #[inline(always)]
    pub(crate) fn contains(&self, key: usize) -> bool
        ensures there { IsTrue result ↔ ContainsKey self.now key }
        ensures trie { IsTrie B.family self.now }
    {
        self.nodes.contains(key)
    }

    /// The node under this key.
    #[inline(always)]
    pub(crate) fn at(&self, key: usize) -> PrefixNode
        requires { ContainsKey self.now key }
        ensures node { get self.now key ≡ Some result }
        ensures family { family_of result.prefix.addr ≡ B.family }
        ensures trie { IsTrie B.family self.now }
    {
        self.nodes.at(key)
    }

    /// The key of a node has 32 bits.
    #[inline(always)]
    pub(crate) fn keys_are_small(&self, key: usize)
        requires { ContainsKey self.now key }
        ensures { key < 2 ^ 32 }
    {
        self.nodes.keys_are_small(key);
    }

    /// The prefix of the node under this key.
    #[inline(always)]
    pub(crate) fn prefix_at(&self, key: usize) -> Prefix
        requires { ContainsKey self.now key }
        ensures { option_map (λ n. n.prefix) (get self.now key) ≡ Some result }
    {
        self.nodes.prefix_at(key)
    }

    /// The number of the node under this key.
    #[inline(always)]
    pub(crate) fn number_at(&self, key: usize) -> Option<u32>
        requires { ContainsKey self.now key }
        ensures number { option_map (λ n. n.number) (get self.now key) ≡ Some result }
        ensures trie { IsTrie B.family self.now }
    {
        self.nodes.number_at(key)
    }

    /// Makes room for so many more nodes, as `Nodes::reserve` does. The one error is want of memory.
    pub(crate) fn reserve(&mut self, additional: usize) -> Result<(), Memory>
        ensures room { OnOk result (HasRoomFor self.new additional) }
        ensures rest_kept { self.new ≡ record self.old { capacity = self.new.capacity } }
        ensures few { self.new.capacity
            ≤ max self.old.capacity (length self.old.slots + max additional (length self.old.slots / 16)) }
        ensures trie { IsTrie B.family self.old }
    {
        self.nodes.reserve(additional)
    }

    /// Makes the root, if no node is there yet.
    pub(crate) fn make_root(&mut self)
        requires tight { IsTight self.old }
        requires room { HasRoomFor self.old 1 }
        requires small { self.old.capacity < 2 ^ 32 }
        ensures tight { IsTight self.new }
        ensures rooted { HasRoot B.family (get self.new) }
        ensures numbers { SameNumbers self.old self.new }
        ensures kept { AllStillThere self.old self.new }
        ensures len { slab_len self.new ≤ slab_len self.old + 1 }
        ensures capacity { self.new.capacity ≡ self.old.capacity }
    {
        if !self.nodes.contains(0) {
            self.nodes
                .insert_reserved(PrefixNode::leaf(Prefix::world(B::family()), None));
        }
    }

    /// Gives a node this number, or none.
    pub(crate) fn set_number(&mut self, at: usize, number: Option<u32>)
        requires there { ContainsKey self.old at }
        ensures there { ContainsKey self.new at }
        ensures numbers { (n : PrefixNode) → get self.old at ≡ Some n → Numbers self.old self.new n.prefix number }
        ensures kept { AllStillThere self.old self.new }
        ensures tight { IsTight self.old → IsTightBut (get self.new) (loosened number at) }
        ensures len { slab_len self.new ≡ slab_len self.old }
        ensures capacity { self.new.capacity ≡ self.old.capacity }
    {
        let mut node = self.nodes.at(at);
        node.number = number;
        self.nodes.set(at, node);
    }

    /// Puts a node below another on one side, over what stood there. Gives its key.
    pub(crate) fn attach(&mut self, parent: usize, high: bool, node: PrefixNode) -> usize
        requires fits { FitsBelow self.old parent high node }
        requires room { HasRoomFor self.old 1 }
        requires small { self.old.capacity < 2 ^ 32 }
        ensures there { get self.new result ≡ Some node }
        ensures numbers { Numbers self.old self.new node.prefix node.number }
        ensures parent { (n : PrefixNode) → get self.old parent ≡ Some n
            → get self.new parent ≡ Some (with_child n high (Some result)) }
        ensures was_absent { number_of self.old node.prefix ≡ None }
        ensures tight { (k : ℕ) → IsTightBut (get self.old) k
            → (result ≢ k → 2 ≤ weight node) → IsTightBut (get self.new) k }
        ensures kept { AllStillThere self.old self.new }
        ensures len { slab_len self.new ≡ slab_len self.old + 1 }
        ensures capacity { self.new.capacity ≡ self.old.capacity }
    {
        let key = self.nodes.insert_reserved(node);
        link(&mut self.nodes, parent, high, Some(key));
        key
    }

    /// Takes out a node without a number that has at most one child, and puts the child in its place.
    pub(crate) fn splice(&mut self, parent: usize, high: bool, at: usize, only: Option<usize>)
        requires only { HasOnly self.old parent high at only }
        requires small { IfSome only (λ k. k + 1 < 2 ^ 32) }
        requires number { (n : PrefixNode) → get self.old at ≡ Some n → n.number ≡ None }
        requires tight { IsTightBut (get self.old) at }
        ensures numbers { SameNumbers self.old self.new }
        ensures others { StillThere self.old self.new at }
        ensures rooted { HasRoot B.family (get self.new) }
        ensures tight { IsTightBut (get self.new) (loosened only parent) }
        ensures left { (n : PrefixNode) → parent ≢ 0 → get self.new parent ≡ Some n → 1 ≤ weight n }
    {
        link(&mut self.nodes, parent, high, only);
        self.nodes.remove(at);
    }

    /// The same trie once more. The one error is want of memory.
    pub(crate) fn copy(&self, alloc: Global) -> Result<FamilyTrie<B>, Memory>
        ensures copy { IfOk result (λ copy. copy ≡ record self.now { capacity = copy.capacity }) }
        ensures trie { IsTrie B.family self.now }
    {
        Ok(FamilyTrie {
            nodes: self.nodes.copy(alloc)?,
        })
    }
}
