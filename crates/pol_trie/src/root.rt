//! The keys by direction and identity.
ghost use Rattle.std.specs.Prelude.{◌≡◌, ◌+◌, ◌*◌, ◌^◌, ◌<◌, ◌≤◌, is_none, is_some, option_map, IfOk, OnOk, OnErr};
ghost use Rattle.std.specs.FinMap as map;
ghost use Rattle.std.specs.Map.{lookup};
ghost use Rattle.pol_mapkey.specs.Entries.{longest};
ghost use Rattle.indexmap.specs.IndexMap.{IsUnique};
ghost use Rattle.pol_trie.specs.declared.root.Root.{Root as TheRoot};
ghost use Rattle.pol_trie.specs.Roots.{policy_of, root_of, row_keys, tells_zero, TellsZero};

use crate::hints::RootHints;
use crate::key_set::KeySet;
use indexmap::IndexMap;
use pol_data::{Memory, Steps};
use pol_mapkey::{Kind, MapKey};
use pol_ports::{Direction, Proto};
use std::alloc::Global;
use std::sync::ledger::Ledger;

/// A direction and an identity.
#[derive(Clone, Copy, PartialEq, Eq, Hash, Debug)]
pub(crate) struct Root {
    pub(crate) dir: Direction,
    pub(crate) id: u32,
}

/// The direction and the identity of a key.
pub(crate) fn root_of(key: &MapKey) -> Root
    ensures { result ≡ root_of key.now }
{
    Root {
        dir: key.dir,
        id: key.id,
    }
}

/// The direction and the identity that stand last in the table.
pub(crate) fn last_root(roots: &IndexMap<Root, KeySet>) -> Option<Root> {
    let (root, _) = roots.last()?;
    Some(*root)
}

/// In which directions identity 0 has keys.
#[derive(Clone, Copy)]
pub(crate) struct Zeros {
    ingress: bool,
    egress: bool,
}

impl Zeros {
    /// Whether it has keys in that direction.
    fn has(self, dir: Direction) -> bool
        ensures { result ≡ tells_zero self dir }
    {
        match dir {
            Direction::Ingress => self.ingress,
            Direction::Egress => self.egress,
        }
    }

    /// In which directions the table has keys of identity 0.
    pub(crate) fn of(roots: &IndexMap<Root, KeySet>) -> Zeros
        ensures { TellsZero ⟦<Root as PartialEq>⟧.eq result roots.now.entries }
    {
        let ingress = Root {
            dir: Direction::Ingress,
            id: 0,
        };
        let egress = Root {
            dir: Direction::Egress,
            id: 0,
        };
        Zeros {
            ingress: roots.contains_key(&ingress),
            egress: roots.contains_key(&egress),
        }
    }
}

/// Gives a key this kind. Whether it had none. The one error is want of memory, where the key had none, and then all is
/// as before.
fn put_key(
    roots: &mut IndexMap<Root, KeySet>,
    alloc: Global,
    key: &MapKey,
    kind: Kind,
) -> Result<bool, Memory>
    requires { IsUnique ⟦<Root as PartialEq>⟧.eq roots.old }
    ensures unique { IsUnique ⟦<Root as PartialEq>⟧.eq roots.new }
    ensures ok { OnOk result (policy_of roots.new.entries ≡ map.insert (policy_of roots.old.entries) key.now kind) }
    ensures fresh { IfOk result (λ fresh. fresh ≡ is_none (map.get (policy_of roots.old.entries) key.now)) }
    ensures err { OnErr result (policy_of roots.new.entries ≡ policy_of roots.old.entries) }
    ensures absent { OnErr result (map.get (policy_of roots.old.entries) key.now ≡ None) }
{
    let root = Root {
        dir: key.dir,
        id: key.id,
    };
    match roots.get_mut(&root) {
        Some(keys) => {
            let had = keys.set(key, kind)?;
            Ok(had.is_none())
        }
        None => {
            let mut keys = KeySet::new(alloc);
            keys.set(key, kind)?;
            roots.insert(root, keys)?;
            Ok(true)
        }
    }
}

/// Gives a key this kind, and keeps true what is told of identity 0.
pub(crate) fn put_row(
    roots: &mut IndexMap<Root, KeySet>,
    zeros: &mut Zeros,
    alloc: Global,
    key: &MapKey,
    kind: Kind,
) -> Result<bool, Memory>
    requires { IsUnique ⟦<Root as PartialEq>⟧.eq roots.old }
    ensures unique { IsUnique ⟦<Root as PartialEq>⟧.eq roots.new }
    ensures zeros { TellsZero ⟦<Root as PartialEq>⟧.eq zeros.new roots.new.entries }
    ensures ok { OnOk result (policy_of roots.new.entries ≡ map.insert (policy_of roots.old.entries) key.now kind) }
    ensures fresh { IfOk result (λ fresh. fresh ≡ is_none (map.get (policy_of roots.old.entries) key.now)) }
    ensures err { OnErr result (policy_of roots.new.entries ≡ policy_of roots.old.entries) }
    ensures absent { OnErr result (map.get (policy_of roots.old.entries) key.now ≡ None) }
{
    let put = put_key(roots, alloc, key, kind);
    *zeros = Zeros::of(roots);
    put
}

/// Takes a key out. Whether it was there. It takes no memory.
fn clear_key(roots: &mut IndexMap<Root, KeySet>, key: &MapKey) -> bool
    requires { IsUnique ⟦<Root as PartialEq>⟧.eq roots.old }
    ensures unique { IsUnique ⟦<Root as PartialEq>⟧.eq roots.new }
    ensures there { result ≡ is_some (map.get (policy_of roots.old.entries) key.now) }
    ensures rest { policy_of roots.new.entries ≡ map.remove (policy_of roots.old.entries) key.now }
{
    let root = Root {
        dir: key.dir,
        id: key.id,
    };
    let Some(keys) = roots.get_mut(&root) else {
        return false;
    };
    let there = keys.get(key).is_some();
    keys.clear(key);
    if keys.is_empty() {
        roots.swap_remove(&root);
    }
    there
}

/// Takes a key out, and keeps true what is told of identity 0.
pub(crate) fn clear_row(roots: &mut IndexMap<Root, KeySet>, zeros: &mut Zeros, key: &MapKey) -> bool
    requires { IsUnique ⟦<Root as PartialEq>⟧.eq roots.old }
    ensures unique { IsUnique ⟦<Root as PartialEq>⟧.eq roots.new }
    ensures zeros { TellsZero ⟦<Root as PartialEq>⟧.eq zeros.new roots.new.entries }
    ensures there { result ≡ is_some (map.get (policy_of roots.old.entries) key.now) }
    ensures rest { policy_of roots.new.entries ≡ map.remove (policy_of roots.old.entries) key.now }
{
    let there = clear_key(roots, key);
    *zeros = Zeros::of(roots);
    there
}

/// Whether the trie of the key has room for far more nodes than are in use.
pub(crate) fn is_roomy(roots: &IndexMap<Root, KeySet>, hints: &RootHints, key: &MapKey) -> bool {
    match hints.find(roots, root_of(key)) {
        Some(keys) => keys.is_roomy(key.proto),
        None => false,
    }
}

/// Moves the nodes of the key's trie to room for them alone, where it has far more. The one error is want of memory.
pub(crate) fn give_back_row(roots: &mut IndexMap<Root, KeySet>, key: &MapKey) -> Result<(), Memory>
    requires { IsUnique ⟦<Root as PartialEq>⟧.eq roots.old }
    ensures unique { IsUnique ⟦<Root as PartialEq>⟧.eq roots.new }
    ensures same { (root : TheRoot) → lookup (⟦<Root as PartialEq>⟧.eq root) roots.new.entries
        ≡ lookup (⟦<Root as PartialEq>⟧.eq root) roots.old.entries }
{
    match roots.get_mut(&root_of(key)) {
        Some(keys) => keys.give_back(key.proto),
        None => Ok(()),
    }
}

/// The kind of the longest key of the direction and the identity that covers a packet. Each node that is visited is one
/// step.
pub(crate) fn longest<L: Ledger>(
    roots: &IndexMap<Root, KeySet>,
    hints: &RootHints,
    root: Root,
    proto: Proto,
    port: u16,
    steps: &mut Steps<L>,
) -> Option<Kind>
    requires { IsUnique ⟦<Root as PartialEq>⟧.eq roots.now }
    ensures kind { result ≡ option_map (λ e.
        e.1) (longest (map.entries (policy_of roots.now.entries)) root.dir root.id proto port) }
    ensures forward { steps.old ≤ steps.new }
    ensures cost { steps.new ≤ steps.old + 18 }
{
    match hints.find(roots, root) {
        Some(keys) => keys.longest(proto, port, steps),
        None => None,
    }
}

/// The same of identity 0, whose keys are sought only where it has some.
pub(crate) fn longest_of_zero<L: Ledger>(
    roots: &IndexMap<Root, KeySet>,
    hints: &RootHints,
    zeros: Zeros,
    dir: Direction,
    proto: Proto,
    port: u16,
    steps: &mut Steps<L>,
) -> Option<Kind>
    requires unique { IsUnique ⟦<Root as PartialEq>⟧.eq roots.now }
    requires zeros { TellsZero ⟦<Root as PartialEq>⟧.eq zeros roots.now.entries }
    ensures kind { result ≡ option_map (λ e.
        e.1) (longest (map.entries (policy_of roots.now.entries)) dir 0 proto port) }
    ensures forward { steps.old ≤ steps.new }
    ensures cost { steps.new ≤ steps.old + 18 }
{
    if zeros.has(dir) {
        longest(roots, hints, Root { dir, id: 0 }, proto, port, steps)
    } else {
        None
    }
}

/// How many nodes the keys take.
pub(crate) fn nodes(roots: &IndexMap<Root, KeySet>) -> u64
    requires few { row_keys roots.now.entries < 2 ^ 32 }
    ensures least { row_keys roots.now.entries ≤ result }
    ensures most { result ≤ 2 * row_keys roots.now.entries }
{
    let mut nodes = 0;
    for i in (0..roots.len()).rev() {
        if let Some((_, keys)) = roots.get_index(i) {
            nodes += keys.nodes();
        }
    }
    nodes
}
