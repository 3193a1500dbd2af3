//! Nodes on chains, and in one list by age.
ghost use Rattle.std.specs.Prelude.{◌≡◌, ◌+◌, ◌-◌, ◌^◌, ◌<◌, ◌≤◌, ◌↔◌, Some, None, IsSome, IsNone, IsOk, OnOk, OnErr, OnSome, IfSome, IfNone, option_map, max, length, vec_len, ◌++◌, replicate};
ghost use Rattle.pol_arena.specs.Twin.{Entry, empty_twin, newest_on, older_than, entry_of, value_of, oldest, IsInUse, after_push, after_drop, IsSound};
ghost use Rattle.pol_arena.specs.Queue.{gap_before, without_node};

use crate::node::ChainNode;
use pol_data::Memory;
use std::alloc::Global;
use std::collections::VecDeque;
use std::marker::Model;

/// Nodes of one type, each on one chain and in one list by age. A push makes the newest node of both, and only the
/// oldest of all goes, so a node's index, of 32 bits, stays good until that node is dropped. Chains are numbered from
/// 0. All of this is profile.
///
/// Since only the oldest goes, the nodes are a queue whose indices count up, from 2^32 - 1 on to 0: an index tells the
/// place, the older node of the chain is so many places behind, and no link to newer nodes and no free list is needed.
#[derive(Drop)]
pub struct Twin<T> {
    // The newest first.
    nodes: VecDeque<ChainNode<T>>,
    // The newest node of each chain.
    newest: Vec<Option<u32>>,
    // The index of the node that was pushed last.
    last: u32,
    spare: u32,
}

impl<T> Model for Twin<T> {
    ghost use Rattle.std.specs.Prelude.{length};
    ghost use Rattle.std.specs.VecDeque.{deque_capacity};
    ghost use Rattle.pol_arena.specs.Twin.{Twin as Chains, twin_code};

    ghost Value = { Chains T };

    ghost coded = { twin_code T.code };

    ghost use Rattle.pol_arena.specs.Queue.{ages_of, IsKept};

    ghost view = { λ t.
        record { ages = ages_of t.last t.nodes.items; chains = length t.newest.items; spare = t.spare } };

    ghost invariant = { λ t. IsKept t.nodes.items t.newest.items t.last t.spare (deque_capacity t.nodes) };
}

/// How many nodes are newer than the newest of a chain, or where it is empty how many there are.
fn gap_before(newest: Option<u32>, last: u32, len: u32) -> u32
    ensures { result ≡ gap_before newest last len }
{
    match newest {
        Some(node) => last.wrapping_sub(node),
        None => len,
    }
}

/// Takes a node that was dropped from the newest nodes of the chains.
fn forget(newest: &mut Vec<Option<u32>>, chain: usize, node: u32)
    requires { chain < vec_len newest.old }
    ensures { newest.new.items ≡ without_node newest.old.items chain node }
{
    if newest[chain] == Some(node) {
        newest[chain] = None;
    }
}

/// Makes the chains below `chains`, without nodes.
fn make_chains(newest: &mut Vec<Option<u32>>, chains: usize) -> Result<(), Memory>
    ensures ok { OnOk result (newest.new.items ≡ newest.old.items ++ replicate (chains - vec_len newest.old) None) }
    ensures err { OnErr result (newest.new.items ≡ newest.old.items) }
    ensures succeeds { chains ≤ vec_len newest.old → IsOk result }
{
    if newest.len() < chains {
        newest.resize(chains, None)?;
    }
    Ok(())
}

impl<T> Twin<T> {
    /// A twin without nodes and chains. It takes no memory yet.
    pub fn new(alloc: Global) -> Twin<T>
        ensures twin { result ≡ empty_twin }
        ensures sound { IsSound result }
    {
        Twin {
            nodes: VecDeque::new(alloc),
            newest: Vec::new(alloc),
            last: u32::MAX,
            spare: 0,
        }
    }

    /// Makes room for so many pushes, at least, and makes the chains below `chains`. The nodes in use and the new ones
    /// are fewer than 2^32. The one error is want of memory, and then the twin is as before. Where there is as much
    /// already it takes no memory.
    pub fn reserve(&mut self, nodes: u32, chains: u64) -> Result<(), Memory>
        requires fits { length self.old.ages + nodes < 2 ^ 32 }
        ensures ok { OnOk result (self.new
            ≡ record self.old { chains = max self.old.chains chains; spare = max self.old.spare nodes }) }
        ensures err { OnErr result (self.new ≡ self.old) }
        ensures succeeds { nodes ≤ self.old.spare → chains ≤ self.old.chains → IsOk result }
        ensures sound { IsSound self.new }
    {
        self.nodes.reserve(nodes as usize)?;
        make_chains(&mut self.newest, chains as usize)?;
        self.spare = self.spare.max(nodes);
        Ok(())
    }

    /// Pushes a node onto a chain that exists, and gives its index, which no node in use has. There must be room for
    /// one push, and it takes no memory.
    pub fn push(&mut self, chain: u64, value: T) -> u32
        requires chain { chain < self.old.chains }
        requires spare { 1 ≤ self.old.spare }
        ensures twin { self.new ≡ after_push self.old chain value result }
        ensures was_free { entry_of result self.old.ages ≡ None }
        ensures in_use { IsInUse self.new result }
        ensures sound { IsSound self.new }
    {
        let head = self.newest[chain as usize];
        let gap = gap_before(head, self.last, self.nodes.len() as u32);
        let node = self.last.wrapping_add(1);
        self.nodes
            .push_front_reserved(ChainNode { value, chain, gap });
        self.newest[chain as usize] = Some(node);
        self.last = node;
        self.spare -= 1;
        node
    }

    /// The newest node of a chain: None exactly where the chain is empty or doesn't exist yet.
    pub fn newest(&self, chain: u64) -> Option<u32>
        ensures node { result ≡ newest_on chain self.now.ages }
        ensures in_use { IfSome result (IsInUse self.now) }
        ensures sound { IsSound self.now }
    {
        match self.newest.get(chain as usize) {
            Some(node) => *node,
            None => None,
        }
    }

    /// The node that was pushed before this one on its chain: None exactly where this is the oldest there. The node is
    /// in use.
    pub fn older(&self, node: u32) -> Option<u32>
        requires in_use { IsInUse self.now node }
        ensures node { result ≡ older_than node self.now.ages }
        ensures in_use { IfSome result (IsInUse self.now) }
        ensures sound { IsSound self.now }
    {
        let place = self.last.wrapping_sub(node) as usize;
        let next = place + self.nodes[place].gap as usize + 1;
        if next < self.nodes.len() {
            Some(self.last.wrapping_sub(next as u32))
        } else {
            None
        }
    }

    /// The value of a node in use.
    pub fn get(&self, node: u32) -> &T
        requires in_use { IsInUse self.now node }
        ensures value { value_of node self.now.ages ≡ Some result.now }
        ensures sound { IsSound self.now }
    {
        let place = self.last.wrapping_sub(node) as usize;
        &self.nodes[place].value
    }

    /// Drops the oldest node and gives its value: None exactly where there is no node. The room serves a later push.
    pub fn drop_oldest(&mut self) -> Option<T>
        ensures value { result ≡ option_map (λ e. e.value) (oldest self.old.ages) }
        ensures gone { OnSome result (self.new ≡ after_drop self.old) }
        ensures none { IfNone result (self.new ≡ self.old) }
        ensures empty { IsNone result ↔ (length self.old.ages ≡ 0) }
        ensures sound { IsSound self.new }
    {
        let ChainNode {
            value,
            chain,
            gap: _,
        } = self.nodes.pop_back()?;
        let node = self.last.wrapping_sub(self.nodes.len() as u32);
        forget(&mut self.newest, chain as usize, node);
        self.spare += 1;
        Some(value)
    }
}
