//! The trie of a published map, which costs what changes.
ghost use Rattle.std.specs.Prelude.{◌≡◌, ◌+◌, ◌≤◌, IfOk, IfSome, OnErr, OnOk};
ghost use Rattle.std.specs.FinMap as finite;
ghost use Rattle.pol_map_changes.specs.Changes.{changed, set_count};
ghost use Rattle.pol_mapkey.specs.Entries.{read_map};
ghost use Rattle.pol_machine.specs.Double.{LeadsTo};

use pol_data::{Memory, Steps};
use pol_map_changes::ChangeList;
use pol_mapkey::Word;
use pol_ports::{Direction, Proto};
use pol_trie::PolicyTrie;
use std::alloc::Global;
use std::marker::Model;
use std::mem::replace;
use std::sync::ledger::Ledger;

/// A trie, with the changes that lead from its map to a later one.
#[derive(Drop)]
pub(crate) struct Behind {
    trie: PolicyTrie,
    changes: ChangeList,
}

/// A published map: the trie that a look-up walks, and a second one that is a publication behind. The next publication is made
/// in the second one, and then they change places. So no map is copied where memory suffices, and what is walked is never half
/// changed. A contract sees the map that a look-up walks.
#[derive(Drop)]
pub struct DoubleTrie {
    shown: PolicyTrie,
    behind: Option<Behind>,
}

impl Model for DoubleTrie {
    ghost use Rattle.pol_trie.specs.PolicyMap.{PolicyMap, policy_map_code};

    ghost Value = { PolicyMap };

    ghost coded = { policy_map_code };

    ghost use Rattle.std.specs.Prelude.{IfSome};
    ghost use Rattle.pol_machine.specs.Double.{LeadsTo};

    ghost view = { λ d. d.shown };

    ghost invariant = { λ d. IfSome d.behind (LeadsTo d.shown) };
}

/// A trie with this map, to be changed: the one behind, once its changes are made, or a copy where there is none. The one error
/// is want of memory.
fn next(alloc: Global, shown: &PolicyTrie, behind: Option<Behind>) -> Result<PolicyTrie, Memory>
    requires leads { IfSome behind (LeadsTo shown.now) }
    ensures { IfOk result (λ trie. trie ≡ shown.now) }
{
    match behind {
        None => shown.copy(alloc),
        Some(behind) => {
            let mut trie = behind.trie;
            behind.changes.apply_to(&mut trie)?;
            Ok(trie)
        }
    }
}

impl DoubleTrie {
    /// A map without keys. It takes no memory yet.
    pub(crate) fn new(alloc: Global) -> DoubleTrie
        ensures { result ≡ finite.empty }
    {
        DoubleTrie {
            shown: PolicyTrie::new(alloc),
            behind: None,
        }
    }

    /// Makes the changes, and takes them from the list. The one error is want of memory, and then the map and the list are as
    /// before.
    pub(crate) fn change(&mut self, alloc: Global, changes: &mut ChangeList) -> Result<(), Memory>
        requires few { finite.len self.old + set_count changes.old ≤ 1000000 }
        ensures ok { OnOk result (self.new ≡ changed changes.old self.old) }
        ensures err { OnErr result ((self.new ≡ self.old) × (changes.new ≡ changes.old)) }
    {
        let mut trie = next(alloc, &self.shown, self.behind.take())?;
        changes.apply_to(&mut trie)?;
        let changes = replace(changes, ChangeList::from_vec(Vec::new(alloc)));
        let trie = replace(&mut self.shown, trie);
        self.behind = Some(Behind { trie, changes });
        Ok(())
    }

    /// What the map says of a packet to or from the identity, as a look-up in its trie.
    pub(crate) fn look<L: Ledger>(
        &self,
        dir: Direction,
        id: u32,
        proto: Proto,
        port: u16,
        steps: &mut Steps<L>,
    ) -> Word
        ensures word { result ≡ read_map (finite.entries self.now) dir id proto port }
        ensures forward { steps.old ≤ steps.new }
        ensures cost { steps.new ≤ steps.old + 36 }
    {
        self.shown.look(dir, id, proto, port, steps)
    }
}
