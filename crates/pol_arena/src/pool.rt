//! Values by index, with a free list.
ghost use Rattle.std.specs.Prelude.{◌≡◌, ◌+◌, ◌-◌, ◌^◌, ◌<◌, ◌≤◌, Some, None, IsOk, IfOk, OnOk, OnErr, max, length, vec_capacity};
ghost use Rattle.std.specs.Borrow.{sem};
ghost use Rattle.pol_arena.specs.Pool.{empty_pool, node_at, IsInUse, nodes_in_use, next_node, after_put, after_take, Updates, IsSound};

use crate::slot::PoolSlot;
use pol_data::Memory;
use std::alloc::Global;
use std::marker::Model;

/// Values of one type, each under an index that the pool picks: a node. A node keeps its value until it is taken,
/// and only then can a put give it out again. The free nodes are used last in, first out. All of this is profile.
///
/// A free node's slot names the node that was taken before it, so a pool keeps one slot a node and nothing else.
#[derive(Drop)]
pub struct Pool<T> {
    slots: Vec<PoolSlot<T>>,
    // How many nodes are free, and the one that was taken last, where there is one.
    free: u32,
    first: u32,
    spare: u32,
}

impl<T> Model for Pool<T> {
    ghost use Rattle.std.specs.Prelude.{vec_capacity};
    ghost use Rattle.pol_arena.specs.Pool.{Pool as Nodes, pool_code};

    ghost Value = { Nodes T };

    ghost coded = { pool_code T.code };

    ghost use Rattle.pol_arena.specs.Slots.{pool_of};
    ghost use Rattle.pol_arena.specs.Room.{IsKept};

    ghost view = { λ p. pool_of p.slots.items p.first p.free p.spare };

    ghost invariant = { λ p. IsKept (pool_of p.slots.items p.first p.free p.spare) (vec_capacity p.slots) };
}

impl<T> Pool<T> {
    ghost use Rattle.pol_arena.specs.Lends.{lends_value};

    /// A pool without nodes. It takes no memory yet.
    pub fn new(alloc: Global) -> Pool<T>
        ensures pool { result ≡ empty_pool }
        ensures sound { IsSound result }
    {
        Pool {
            slots: Vec::new(alloc),
            free: 0,
            first: 0,
            spare: 0,
        }
    }

    /// Makes room, so that at least so many puts need no memory. The nodes in use and these are fewer than 2^32. The
    /// one error is want of memory, and then the pool is as before. Where there is that room it takes no memory.
    pub fn reserve(&mut self, nodes: u32) -> Result<(), Memory>
        requires fits { nodes_in_use self.old + nodes < 2 ^ 32 }
        ensures ok { OnOk result (self.new ≡ record self.old { spare = max self.old.spare nodes }) }
        ensures err { OnErr result (self.new ≡ self.old) }
        ensures succeeds { nodes ≤ self.old.spare → IsOk result }
        ensures sound { IsSound self.new }
    {
        if nodes <= self.spare {
            return Ok(());
        }
        self.slots.reserve((nodes - self.free) as usize)?;
        self.spare = nodes;
        Ok(())
    }

    /// Puts the value under the free node that was taken last, or where no taken node is free under the least index
    /// that was never used, from 0. It takes no memory, and there must be room for one put.
    pub fn put(&mut self, value: T) -> u32
        requires spare { 1 ≤ self.old.spare }
        ensures node { result ≡ next_node self.old }
        ensures pool { self.new ≡ after_put self.old value }
        ensures was_free { node_at self.old result ≡ None }
        ensures updates { Updates self.old self.new result (Some value) }
        ensures count { nodes_in_use self.new ≡ nodes_in_use self.old + 1 }
        ensures sound { IsSound self.new }
    {
        self.spare -= 1;
        if self.free == 0 {
            let node = self.slots.len() as u32;
            self.slots.push_reserved(PoolSlot::Used(value));
            return node;
        }
        let node = self.first;
        self.first = self.slots[node as usize].fill(value);
        self.free -= 1;
        node
    }

    /// Takes the value of a node in use. The node is free then, and the next put gives it. It takes no memory.
    pub fn take(&mut self, node: u32) -> T
        requires in_use { IsInUse self.old node }
        ensures value { node_at self.old node ≡ Some result }
        ensures pool { self.new ≡ after_take self.old node }
        ensures updates { Updates self.old self.new node None }
        ensures count { nodes_in_use self.new + 1 ≡ nodes_in_use self.old }
        ensures sound { IsSound self.new }
    {
        let value = self.slots[node as usize].empty(self.first);
        self.first = node;
        self.free += 1;
        self.spare += 1;
        value
    }

    /// The value of a node in use.
    pub fn get(&self, node: u32) -> &T
        requires in_use { IsInUse self.now node }
        ensures value { node_at self.now node ≡ Some result.now }
        ensures sound { IsSound self.now }
    {
        self.slots[node as usize].value()
    }

    /// The value of a node in use, to be changed in place.
    pub fn get_mut(&mut self, node: u32) -> &mut T
        requires in_use { IsInUse self.old node }
        ensures* writes_back { sem 𝓛 (lends_value T.row self.entry node result) }
        ensures value { node_at self.old node ≡ Some result.now }
        ensures sound { IsSound self.old }
    {
        self.slots[node as usize].value_mut()
    }

    /// How many nodes are in use.
    pub fn nodes_in_use(&self) -> u32
        ensures count { result ≡ nodes_in_use self.now }
        ensures sound { IsSound self.now }
    {
        self.slots.len() as u32 - self.free
    }
}

/// The items once more, in a vector of this capacity.
fn copied<X: Copy>(alloc: Global, items: &[X], room: usize) -> Result<Vec<X>, Memory>
    requires { length items.now ≤ room }
    ensures items { IfOk result (λ copies. copies.items ≡ items.now) }
    ensures capacity { IfOk result (λ copies. vec_capacity copies ≡ room) }
{
    let mut copies = Vec::with_capacity(alloc, room)?;
    for item in items {
        copies.push_reserved(*item);
    }
    Ok(copies)
}

impl<T: Copy> Pool<T> {
    /// The same pool once more, with room for as many puts and no more. The one error is want of memory.
    pub fn copy(&self, alloc: Global) -> Result<Pool<T>, Memory>
        ensures equal { IfOk result (λ copy. copy ≡ self.now) }
    {
        let room = self.slots.len() + (self.spare - self.free) as usize;
        Ok(Pool {
            slots: copied(alloc, self.slots.as_slice(), room)?,
            free: self.free,
            first: self.first,
            spare: self.spare,
        })
    }
}
