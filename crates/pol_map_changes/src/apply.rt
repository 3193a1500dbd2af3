//! Changes made in a policy map.
ghost use Rattle.std.specs.Prelude.{◌≡◌, ◌+◌, ◌≤◌, ◌∷◌, [], OnErr, OnOk};
ghost use Rattle.std.specs.FinMap as finite;
ghost use Rattle.pol_map_changes.specs.Changes.{IsChangedPartly, changed, changed_once, set_count};

use crate::change::Change;
use crate::list::ChangeList;
use pol_data::Memory;
use pol_trie::PolicyTrie;

/// Makes one change in the map. The one error is want of memory, and then the map is as before.
fn change_one(trie: &mut PolicyTrie, change: &Change) -> Result<(), Memory>
    requires few { finite.len trie.old + set_count (change.now ∷ []) ≤ 1000000 }
    ensures ok { OnOk result (trie.new ≡ changed_once change.now trie.old) }
    ensures err { OnErr result (trie.new ≡ trie.old) }
{
    match change {
        Change::Set(key, kind) => trie.set(*key, *kind),
        Change::Clear(key) => {
            if trie.clear(key) {
                // Where there is no memory to move to, the room stays the trie's.
                let _ = trie.give_back(key);
            }
            Ok(())
        }
    }
}

impl ChangeList {
    #[tactic(auto, using(crate::proofs::Making::changed_more, crate::proofs::Making::sets_left, crate::proofs::Making::len_once))]
    /// Makes the changes in a map, one after the other. The one error is want of memory, and then some of the changes
    /// are made, from the first on: all of them once more make what they would have made. Behind each `Clear` of a key that
    /// was there the map gives room back; want of memory there is no error.
    pub fn apply_to(&self, trie: &mut PolicyTrie) -> Result<(), Memory>
        requires few { finite.len trie.old + set_count self.now ≤ 1000000 }
        ensures ok { OnOk result (trie.new ≡ changed self.now trie.old) }
        ensures err { OnErr result (IsChangedPartly self.now trie.old trie.new) }
    {
        for change in self.as_slice() {
            change_one(trie, change)?;
        }
        Ok(())
    }
}
