//! Lists of changes.
ghost use Rattle.std.specs.Prelude.{◌≡◌, ◌↔◌, ◌++◌, ◌≤◌, IfOk, IsTrue, filter, is_some, length, drop};
ghost use Rattle.std.specs.Option.{option_or};
ghost use Rattle.std.specs.List.Sorted.{IsStrictlySortedBy};
ghost use Rattle.pol_mapkey.specs.MapKey.{key_cmp};
ghost use Rattle.pol_mapkey.specs.declared.MapKey.{MapKey};
ghost use Rattle.pol_trie.specs.PolicyMap.{PolicyMap};
ghost use Rattle.pol_map_changes.specs.Changes.{AreFew, HasOnlyKeysOf, IsAscending, change_order, changed, said, whole};
ghost use Rattle.pol_map_changes.specs.LeftOut.{matters};
ghost use Rattle.pol_map_changes.specs.Merged.{merged};

use crate::change::Change;
use pol_data::Memory;
use pol_mapkey::laws::order_of_keys;
use pol_mapkey::{Kind, MapKey};
use std::alloc::Global;
use std::cmp::Ordering;
use std::marker::Model;

/// Changes of a policy map, in key order, each key at most once. A contract sees the list of them.
#[derive(Debug, Drop)]
pub struct ChangeList {
    changes: Vec<Change>,
}

impl Model for ChangeList {
    ghost use Rattle.std.specs.Prelude.{List};
    ghost use Rattle.pol_map_changes.specs.declared.change.Change.{Change};
    ghost use Rattle.pol_map_changes.specs.Changes.{IsAscending};

    ghost Value = { List Change };

    ghost view = { λ list. list.changes.items };

    ghost invariant = { λ list. IsAscending list.changes.items };
}

/// The order of the keys of two changes.
fn order(a: &Change, b: &Change) -> Ordering
    ensures { result ≡ change_order a.now b.now }
{
    order_of_keys(&a.key(), &b.key())
}

/// The changes of two lists in key order, and of a key that both have the later list's change.
fn merged(alloc: Global, earlier: &[Change], later: &[Change]) -> Result<Vec<Change>, Memory>
    ensures { IfOk result (λ both. both.items ≡ merged earlier.now later.now) }
{
    let mut both = Vec::new(alloc);
    let mut i = 0;
    let mut j = 0;
    while i < earlier.len() && j < later.len() {
        let one = earlier[i];
        let other = later[j];
        match order(&one, &other) {
            Ordering::Less => {
                both.push(one)?;
                i += 1;
            }
            Ordering::Equal => {
                both.push(other)?;
                i += 1;
                j += 1;
            }
            Ordering::Greater => {
                both.push(other)?;
                j += 1;
            }
        }
    }
    both.extend_from_slice(earlier.split_at(i).1)?;
    both.extend_from_slice(later.split_at(j).1)?;
    Ok(both)
}

/// Whether the change sets a key, or clears one that `base` names.
fn matters(base: &ChangeList, change: &Change) -> bool
    ensures { result ≡ matters base.now change.now }
{
    match change {
        Change::Set(_, _) => true,
        Change::Clear(key) => base.names(key),
    }
}

/// Leaves out the changes that don't matter.
fn leave_out(changes: &mut Vec<Change>, base: &ChangeList)
    ensures { changes.new.items ≡ filter (matters base.now) changes.old.items }
{
    changes.retain(|change| matters(base, change));
}

impl ChangeList {
    /// The list of changes that are in key order, each key once. It takes no memory.
    pub fn from_vec(changes: Vec<Change>) -> ChangeList
        requires ascending { IsAscending changes.items }
        ensures { result ≡ changes.items }
    {
        ChangeList { changes }
    }

    /// `Set` of each of these entries, which are in key order, each key once. The one error is want of memory.
    #[tactic(auto, using(crate::proofs::Differences::whole_ascends))]
    pub fn whole(alloc: Global, entries: &[(MapKey, Kind)]) -> Result<ChangeList, Memory>
        requires table { IsStrictlySortedBy (λ a b. key_cmp a.0 b.0) entries.now }
        ensures { IfOk result (λ list. list ≡ whole entries.now) }
    {
        let mut changes = Vec::with_capacity(alloc, entries.len())?;
        for entry in entries {
            changes.push(Change::Set(entry.0, entry.1))?;
        }
        Ok(ChangeList { changes })
    }

    /// The changes, in key order.
    pub fn as_slice(&self) -> &[Change]
        ensures changes { result.now ≡ self.now }
        ensures ascending { IsAscending self.now }
    {
        self.changes.as_slice()
    }

    /// The call tells that the changes are in key order, one of each key.
    pub fn fits_together(&self)
        ensures ascending { IsAscending self.now }
    {
        let _ = &self.changes;
    }

    /// How many changes there are.
    pub fn len(&self) -> usize
        ensures { result ≡ length self.now }
    {
        self.changes.len()
    }

    /// Whether there is no change.
    pub fn is_empty(&self) -> bool
        ensures { IsTrue result ↔ (length self.now ≡ 0) }
    {
        self.changes.is_empty()
    }

    /// An equal list, in memory of its own. The one error is want of memory.
    pub fn copy(&self, alloc: Global) -> Result<ChangeList, Memory>
        ensures equal { IfOk result (λ copy. copy ≡ self.now) }
    {
        let mut changes = Vec::with_capacity(alloc, self.len())?;
        changes.extend_from_slice(self.changes.as_slice())?;
        Ok(ChangeList { changes })
    }

    /// Whether a change is of the key.
    fn names(&self, key: &MapKey) -> bool
        ensures { result ≡ is_some (said self.now key.now) }
    {
        match self
            .changes
            .binary_search_by_key(key, |change| change.key())
        {
            Ok(_) => true,
            Err(_) => false,
        }
    }

    /// Leaves out each `Clear` of a key that `base` doesn't name: of a table that has no other keys than those, the list
    /// makes what it made before. It takes no memory.
    pub fn leave_out_clears(&mut self, base: &ChangeList)
        ensures leads { (table : PolicyMap)
            → HasOnlyKeysOf base.now table → changed self.new table ≡ changed self.old table }
        ensures few { AreFew base.now self.new }
        ensures ascending { IsAscending self.new }
    {
        base.fits_together();
        leave_out(&mut self.changes, base);
    }

    #[tactic(auto, using(crate::proofs::Merging::merged_ascends, crate::proofs::Merging::merged_said, crate::proofs::Merging::merged_leads))]
    /// The list of both, this one first: the keys of either, each once in key order, with the change of `later` where both
    /// have the key. It makes of each table what this list makes of it and then `later`. The one error is want of
    /// memory.
    pub fn then(&self, alloc: Global, later: &ChangeList) -> Result<ChangeList, Memory>
        ensures ascending { IfOk result (λ both. IsAscending both) }
        ensures keys { IfOk result (λ both.
            (key : MapKey) → said both key ≡ option_or (said later.now key) (said self.now key)) }
        ensures leads { IfOk result (λ both.
            (table : PolicyMap) → changed both table ≡ changed later.now (changed self.now table)) }
    {
        let changes = merged(alloc, self.as_slice(), later.as_slice())?;
        Ok(ChangeList { changes })
    }
}
