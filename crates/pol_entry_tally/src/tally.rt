//! How often each key is allowed and denied.
ghost use Rattle.std.specs.Prelude.{◌≡◌, [], ℕ, OnErr, OnOk};
ghost use Rattle.pol_entry_tally.specs.Counted.{HasPut, IsTallyOf, SameCounts, of_group};
ghost use Rattle.pol_entry_tally.specs.Counts.{counts_of};

use crate::counts::Counts;
use pol_data::Memory;
use std::alloc::Global;
use std::collections::BTreeMap;

/// How often entries give each key each kind. It takes memory by the number of keys.
#[derive(Drop)]
pub struct Tally {
    pub(crate) groups: BTreeMap<u64, Counts>,
}

impl Tally {
    /// A tally of no entries. It takes no memory.
    pub fn new(alloc: Global) -> Tally
        ensures { IsTallyOf [] result }
    {
        Tally {
            groups: BTreeMap::new(alloc),
        }
    }

    /// The same, by its groups.
    pub(crate) fn none(alloc: Global) -> Tally
        ensures { (group : ℕ) → of_group result group ≡ [] }
    {
        Tally {
            groups: BTreeMap::new(alloc),
        }
    }

    /// Puts the counts of a group in the place of those that it has. Where it has none it may want memory, and then all is
    /// as before.
    pub(crate) fn put(&mut self, group: u64, counts: Counts) -> Result<(), Memory>
        ensures ok { OnOk result (HasPut self.old self.new group (counts_of counts)) }
        ensures err { OnErr result (SameCounts self.old self.new) }
    {
        if counts.as_slice().is_empty() {
            self.groups.remove(&group);
            Ok(())
        } else {
            let _ = self.groups.insert(group, counts)?;
            Ok(())
        }
    }
}
