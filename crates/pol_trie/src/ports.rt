//! The keys of one direction, identity and protocol: a trie seen as a finite map.
ghost use Rattle.std.specs.Prelude.{◌≡◌, ◌+◌, ◌*◌, ◌^◌, ◌≤◌, None, IfOk, OnOk, OnErr, IsTrue, IsFalse};
ghost use Rattle.std.specs.FinMap as map;
ghost use Rattle.pol_trie.specs.PortMap.{Decides};
ghost use Rattle.pol_trie.specs.Tree.{Takes};
ghost use Rattle.pol_trie.specs.Standing.{HasRoom, IsTrie, ports_of};

use crate::fit::copied;
use crate::halves::first_port;
use crate::node::PortNode;
use crate::put::put;
use crate::take::take;
use crate::walk::{kind_at, longest};
use pol_arena::Pool;
use pol_data::{Memory, Steps};
use pol_mapkey::Kind;
use pol_ports::PortPrefix;
use std::alloc::Global;
use std::marker::Model;
use std::sync::ledger::Ledger;

/// A pool in which fewer nodes were ever in use at once keeps its room.
const LEAST_ROOM: u32 = 16;

/// A finite map from port prefixes to kinds, in which a port is looked up by the longest prefix that has it.
#[derive(Drop)]
pub(crate) struct PortTrie {
    nodes: Pool<PortNode>,
    root: Option<u32>,
    // How many nodes were in use at once since the pool was made: it has room for about twice as many at most.
    most: u32,
}

impl Model for PortTrie {
    ghost use Rattle.pol_trie.specs.PortMap.{PortMap, port_map_code};

    ghost Value = { PortMap };

    ghost coded = { port_map_code };

    ghost use Rattle.pol_trie.specs.Standing.{ports_of, IsTrie};

    ghost view = { λ t. ports_of t.nodes t.root };

    ghost invariant = { λ t. IsTrie t.nodes t.root };
}

/// Makes room for two nodes. Where there is no memory for them, that is an error only if the prefix has no kind yet.
fn make_room(nodes: &mut Pool<PortNode>, root: Option<u32>, port: &PortPrefix) -> Result<(), Memory>
    requires { IsTrie nodes.old root }
    ensures trie { IsTrie nodes.new root }
    ensures takes { Takes 0 (2 ^ 16) 0 port.now }
    ensures same { ports_of nodes.new root ≡ ports_of nodes.old root }
    ensures ok { OnOk result (HasRoom nodes.new root port.now) }
    ensures err { OnErr result (map.get (ports_of nodes.old root) port.now ≡ None) }
{
    let _ = first_port(port);
    match nodes.reserve(2) {
        Ok(()) => Ok(()),
        Err(error) => {
            if kind_at(nodes, root, port).is_none() {
                return Err(error);
            }
            Ok(())
        }
    }
}

impl PortTrie {
    /// No keys. It takes no memory yet.
    pub(crate) fn new(alloc: Global) -> PortTrie
        ensures { result ≡ map.empty }
    {
        PortTrie {
            nodes: Pool::new(alloc),
            root: None,
            most: 0,
        }
    }

    /// The kind of a prefix.
    pub(crate) fn get(&self, port: &PortPrefix) -> Option<Kind>
        ensures { result ≡ map.get self.now port.now }
    {
        kind_at(&self.nodes, self.root, port)
    }

    /// Gives a prefix this kind. Gives the one that it had. The one error is want of memory, where the prefix has no kind
    /// yet, and then the map is as before.
    pub(crate) fn set(&mut self, port: PortPrefix, kind: Kind) -> Result<Option<Kind>, Memory>
        ensures ok { OnOk result (self.new ≡ map.insert self.old port kind) }
        ensures had { IfOk result (λ had. had ≡ map.get self.old port) }
        ensures err { OnErr result (self.new ≡ self.old) }
        ensures absent { OnErr result (map.get self.old port ≡ None) }
    {
        make_room(&mut self.nodes, self.root, &port)?;
        let (root, had) = put(&mut self.nodes, self.root, port, kind);
        self.root = Some(root);
        self.most = self.most.max(self.nodes.nodes_in_use());
        Ok(had)
    }

    /// Takes a prefix out. It takes no memory.
    pub(crate) fn clear(&mut self, port: &PortPrefix)
        ensures { self.new ≡ map.remove self.old port.now }
    {
        self.root = take(&mut self.nodes, self.root, port);
    }

    /// Whether at most a fourth of the nodes that were once in use are in use now.
    pub(crate) fn is_roomy(&self) -> bool {
        self.most >= LEAST_ROOM && self.nodes.nodes_in_use() <= self.most / 4
    }

    /// Moves the nodes to room for them alone, where at most a fourth of it is in use. The one error is want of memory.
    pub(crate) fn give_back(&mut self, alloc: Global) -> Result<(), Memory>
        ensures { self.new ≡ self.old }
    {
        if self.is_roomy() {
            *self = self.fitting(alloc)?;
        }
        Ok(())
    }

    /// The same map in a pool with room for its nodes alone. The one error is want of memory.
    fn fitting(&self, alloc: Global) -> Result<PortTrie, Memory>
        ensures { IfOk result (λ fitting. fitting ≡ self.now) }
    {
        let most = self.nodes.nodes_in_use();
        let mut nodes = Pool::new(alloc);
        nodes.reserve(most)?;
        let root = copied(&self.nodes, self.root, &mut nodes);
        Ok(PortTrie { nodes, root, most })
    }

    /// The kind of the longest prefix that has the port. Each node that is visited is one step.
    pub(crate) fn longest<L: Ledger>(&self, port: u16, steps: &mut Steps<L>) -> Option<Kind>
        ensures kind { Decides (map.get self.now) port result }
        ensures forward { steps.old ≤ steps.new }
        ensures cost { steps.new ≤ steps.old + 17 }
    {
        longest(&self.nodes, self.root, port, steps)
    }

    /// The same map once more. The one error is want of memory.
    pub(crate) fn copy(&self, alloc: Global) -> Result<PortTrie, Memory>
        ensures { IfOk result (λ copy. copy ≡ self.now) }
    {
        Ok(PortTrie {
            nodes: self.nodes.copy(alloc)?,
            root: self.root,
            most: self.most,
        })
    }

    /// Whether there is no key.
    pub(crate) fn is_empty(&self) -> bool
        ensures empty { IsTrue result → self.now ≡ map.empty }
        ensures some { IsFalse result → 1 ≤ map.len self.now }
    {
        self.root.is_none()
    }

    /// How many nodes are in use.
    pub(crate) fn nodes(&self) -> u32
        ensures least { map.len self.now ≤ result }
        ensures most { result ≤ 2 * map.len self.now }
    {
        self.nodes.nodes_in_use()
    }
}
