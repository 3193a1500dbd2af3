//! Nodes by key.
ghost use Rattle.std.specs.Prelude.{◌≡◌, ◌+◌, ◌<◌, ◌≤◌, ◌↔◌, ◌^◌, ◌/◌, [], length, max, Some, None, IsTrue, IfOk, OnOk, option_map};
ghost use Rattle.pol_addr.specs.Address.{family_of};
ghost use Rattle.slab.specs.Slab.{get, ContainsKey, HasRoomFor, Updates, slab_len};

use crate::bits::Bits;
use crate::node::PrefixNode;
use crate::slot::NodeSlot;
use pol_addr::Prefix;
use std::alloc::{AllocError as Memory, Global};
use std::marker::Model;

/// Nodes of one family, each under a key, and freed keys are given out again. Contracts see it as the kit's slab, whose slots
/// for nodes would take more bytes.
#[derive(Drop)]
pub(crate) struct Nodes<B: Bits> {
    slots: Vec<NodeSlot<B>>,
    // How many slots have a node.
    len: usize,
    // The first of the free slots, or their end where there is none.
    next: usize,
}

impl<B: Bits> Model for Nodes<B> {
    ghost use Rattle.slab.specs.Slab.{Slab};
    ghost use Rattle.pol_prefix_table.specs.declared.node.PrefixNode.{PrefixNode};

    ghost Value = { Slab PrefixNode };

    ghost use Rattle.std.specs.Prelude.{vec_capacity};
    ghost use Rattle.pol_prefix_table.specs.Slots.{seen_as, AreSlots};

    ghost view = { λ n. seen_as B.seen n.slots.items n.next (vec_capacity n.slots) };

    ghost invariant = { λ n. AreSlots B.seen n.slots.items n.len n.next };
}

impl<B: Bits> Nodes<B> {
    /// No nodes. It takes no memory yet.
    pub(crate) fn new(alloc: Global) -> Nodes<B>
        ensures empty { result.slots ≡ [] }
        ensures first_key { result.vacant_key ≡ 0 }
    {
        Nodes {
            slots: Vec::new(alloc),
            len: 0,
            next: 0,
        }
    }

    /// How many nodes there are.
    pub(crate) fn len(&self) -> usize
        ensures value { result ≡ slab_len self.now }
        ensures small { result < 2 ^ 32 }
    {
        self.len
    }

    /// How many nodes there is room for.
    pub(crate) fn capacity(&self) -> usize
        ensures { result ≡ self.now.capacity }
    {
        self.slots.capacity()
    }

    /// Whether a node stands under this key.
    #[inline(always)]
    pub(crate) fn contains(&self, key: usize) -> bool
        ensures { IsTrue result ↔ ContainsKey self.now key }
    {
        match self.slots.get(key) {
            None => false,
            Some(slot) => slot.is_taken(),
        }
    }

    /// The node under this key.
    #[inline(always)]
    pub(crate) fn at(&self, key: usize) -> PrefixNode
        requires { ContainsKey self.now key }
        ensures node { get self.now key ≡ Some result }
        ensures family { family_of result.prefix.addr ≡ B.family }
    {
        self.slots[key].node()
    }

    /// The key of a node has 32 bits.
    #[inline(always)]
    pub(crate) fn keys_are_small(&self, key: usize)
        requires { ContainsKey self.now key }
        ensures { key < 2 ^ 32 }
    {
        let _ = self.slots.len();
    }

    /// The prefix of the node under this key.
    #[inline(always)]
    pub(crate) fn prefix_at(&self, key: usize) -> Prefix
        requires { ContainsKey self.now key }
        ensures { option_map (λ n. n.prefix) (get self.now key) ≡ Some result }
    {
        self.slots[key].prefix()
    }

    /// The number of the node under this key.
    pub(crate) fn number_at(&self, key: usize) -> Option<u32>
        requires { ContainsKey self.now key }
        ensures { option_map (λ n. n.number) (get self.now key) ≡ Some result }
    {
        self.slots[key].number()
    }

    /// Makes room for so many more nodes. Where it grows, it does so by a sixteenth: few slots are spare then, and to insert stays
    /// cheap. The one error is want of memory.
    pub(crate) fn reserve(&mut self, additional: usize) -> Result<(), Memory>
        ensures room { OnOk result (HasRoomFor self.new additional) }
        ensures rest_kept { self.new ≡ record self.old { capacity = self.new.capacity } }
        ensures few { self.new.capacity
            ≤ max self.old.capacity (length self.old.slots + max additional (length self.old.slots / 16)) }
    {
        if self.slots.capacity() - self.len >= additional {
            return Ok(());
        }
        let needed = additional - (self.slots.len() - self.len);
        self.slots.reserve_exact(needed.max(self.slots.len() / 16))
    }

    /// Puts a node under the next key, and gives it.
    pub(crate) fn insert_reserved(&mut self, node: PrefixNode) -> usize
        requires family { family_of node.prefix.addr ≡ B.family }
        requires room { HasRoomFor self.old 1 }
        requires small { self.old.capacity < 2 ^ 32 }
        ensures key { result ≡ self.old.vacant_key }
        ensures was_vacant { get self.old result ≡ None }
        ensures updates { Updates self.old self.new result (Some node) }
        ensures len { slab_len self.new ≡ slab_len self.old + 1 }
        ensures key_in_range { result < self.new.capacity }
        ensures capacity { self.new.capacity ≡ self.old.capacity }
    {
        let key = self.next;
        self.len += 1;
        if key == self.slots.len() {
            self.slots.push_reserved(NodeSlot::of(node));
            self.next = key + 1;
        } else {
            self.next = self.slots[key].next();
            self.slots[key] = NodeSlot::of(node);
        }
        key
    }

    /// Puts another node in the place of the one under this key.
    #[inline(always)]
    pub(crate) fn set(&mut self, key: usize, node: PrefixNode)
        requires there { ContainsKey self.old key }
        requires family { family_of node.prefix.addr ≡ B.family }
        ensures updates { Updates self.old self.new key (Some node) }
        ensures len { slab_len self.new ≡ slab_len self.old }
        ensures vacant_key { self.new.vacant_key ≡ self.old.vacant_key }
        ensures capacity { self.new.capacity ≡ self.old.capacity }
    {
        self.slots[key] = NodeSlot::of(node);
    }

    /// Takes out the node under this key, which is free then.
    pub(crate) fn remove(&mut self, key: usize)
        requires { ContainsKey self.old key }
        ensures updates { Updates self.old self.new key None }
    {
        self.slots[key] = NodeSlot::free(self.next);
        self.len -= 1;
        self.next = key;
    }

    /// The same nodes under the same keys once more. The one error is want of memory.
    pub(crate) fn copy(&self, alloc: Global) -> Result<Nodes<B>, Memory>
        ensures { IfOk result (λ copy. copy ≡ record self.now { capacity = copy.capacity }) }
    {
        let mut slots = Vec::with_capacity(alloc, self.slots.len())?;
        slots.extend_from_slice(self.slots.as_slice())?;
        Ok(Nodes {
            slots,
            len: self.len,
            next: self.next,
        })
    }
}
