//! The policy map.
ghost use Rattle.std.specs.Prelude.{◌≡◌, ◌+◌, ◌*◌, ◌<◌, ◌≤◌, None, IfOk, OnOk, OnErr};
ghost use Rattle.std.specs.FinMap as map;
ghost use Rattle.pol_mapkey.specs.Entries.{read_map};

use crate::hints::RootHints;
use crate::key_set::KeySet;
use crate::root::{
    Root, Zeros, clear_row, give_back_row, is_roomy, last_root, longest, longest_of_zero, nodes,
    put_row, root_of,
};
use indexmap::IndexMap;
use pol_data::{Memory, Steps};
use pol_mapkey::{Kind, MapKey, Word};
use pol_ports::{Direction, Proto};
use std::alloc::Global;
use std::marker::Model;
use std::sync::ledger::Ledger;

/// A policy map: a finite map from keys to kinds, in which a packet is looked up by the longest key of the remote
/// identity and the longest key of identity 0 that cover it (profile).
#[derive(Drop)]
pub struct PolicyTrie {
    roots: IndexMap<Root, KeySet>,
    hints: RootHints,
    zeros: Zeros,
    count: u32,
    alloc: Global,
}

impl Model for PolicyTrie {
    ghost use Rattle.pol_trie.specs.PolicyMap.{PolicyMap, policy_map_code};

    ghost Value = { PolicyMap };

    ghost coded = { policy_map_code };

    ghost use Rattle.std.specs.Prelude.{◌≡◌};
    ghost use Rattle.std.specs.FinMap as map;
    ghost use Rattle.indexmap.specs.IndexMap.{IsUnique};
    ghost use Rattle.pol_trie.specs.Roots.{policy_of, TellsZero};

    ghost view = { λ t. policy_of t.roots.entries };

    ghost invariant = { λ t. IsUnique ⟦<Root as PartialEq>⟧.eq t.roots × (t.count ≡ map.len (policy_of t.roots.entries))
        × TellsZero ⟦<Root as PartialEq>⟧.eq t.zeros t.roots.entries };
}

impl PolicyTrie {
    /// A map without keys. It takes no memory yet.
    pub fn new(alloc: Global) -> PolicyTrie
        ensures { result ≡ map.empty }
    {
        let roots = IndexMap::new(alloc);
        let zeros = Zeros::of(&roots);
        PolicyTrie {
            roots,
            hints: RootHints::new(alloc),
            zeros,
            count: 0,
            alloc,
        }
    }

    /// The same map once more. The one error is want of memory.
    pub fn copy(&self, alloc: Global) -> Result<PolicyTrie, Memory>
        ensures { IfOk result (λ copy. copy ≡ self.now) }
    {
        Ok(PolicyTrie {
            roots: self.roots.clone()?,
            hints: self.hints.copy()?,
            zeros: self.zeros,
            count: self.count,
            alloc,
        })
    }

    /// Gives the key this kind, in place of the one that it had. The one error is want of memory, where the key isn't
    /// there yet, and then the map is as before.
    pub fn set(&mut self, key: MapKey, kind: Kind) -> Result<(), Memory>
        requires few { map.len self.old < 1000000 }
        ensures ok { OnOk result (self.new ≡ map.insert self.old key kind) }
        ensures err { OnErr result (self.new ≡ self.old) }
        ensures absent { OnErr result (map.get self.old key ≡ None) }
    {
        let before = self.roots.len();
        let fresh = put_row(&mut self.roots, &mut self.zeros, self.alloc, &key, kind)?;
        self.hints
            .grown(self.alloc, &self.roots, before, root_of(&key));
        if fresh {
            self.count += 1;
        }
        Ok(())
    }

    /// Takes the key out. Whether it was there. It takes no memory.
    pub fn clear(&mut self, key: &MapKey) -> bool
        ensures there { result ≡ map.contains_key self.old key.now }
        ensures rest { self.new ≡ map.remove self.old key.now }
    {
        let before = self.roots.len();
        let last = last_root(&self.roots);
        let there = clear_row(&mut self.roots, &mut self.zeros, key);
        self.hints.shrunk(&self.roots, before, last);
        if there {
            self.count -= 1;
        }
        there
    }

    /// Gives room back in the trie of the key's direction, identity and protocol. Where at least 16 nodes were in use at once
    /// since it was made or last moved, and at most a fourth of them are now, they move to room for them alone; else nothing
    /// is done. The table of identities keeps its room. The one error is want of memory, and the map is as before in any case.
    pub fn give_back(&mut self, key: &MapKey) -> Result<(), Memory>
        ensures { self.new ≡ self.old }
    {
        if !is_roomy(&self.roots, &self.hints, key) {
            return Ok(());
        }
        give_back_row(&mut self.roots, key)
    }

    /// How many keys there are.
    pub fn count(&self) -> u32
        ensures { result ≡ map.len self.now }
    {
        self.count
    }

    /// How many nodes are in use: the one for every protocol of a direction and an identity, and those of its tries. Each key
    /// has one, and there are at most twice as many, so what `clear` leaves empty is free again.
    pub fn nodes(&self) -> u64
        ensures least { map.len self.now ≤ result }
        ensures most { result ≤ 2 * map.len self.now }
    {
        let _ = self.count();
        nodes(&self.roots)
    }

    /// What the map says of a packet to or from the identity: a deny by the longest key of the identity or of identity 0
    /// that covers it denies, else an allow by one of them allows. Each node that is visited
    /// is one step.
    pub fn look<L: Ledger>(
        &self,
        dir: Direction,
        id: u32,
        proto: Proto,
        port: u16,
        steps: &mut Steps<L>,
    ) -> Word
        ensures word { result ≡ read_map (map.entries self.now) dir id proto port }
        ensures forward { steps.old ≤ steps.new }
        ensures cost { steps.new ≤ steps.old + 36 }
    {
        let own = longest(
            &self.roots,
            &self.hints,
            Root { dir, id },
            proto,
            port,
            steps,
        );
        let every = longest_of_zero(
            &self.roots,
            &self.hints,
            self.zeros,
            dir,
            proto,
            port,
            steps,
        );
        Word::of(own, every)
    }
}
