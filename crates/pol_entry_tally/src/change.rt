//! Entries that come and go at once.
ghost use Rattle.std.specs.Prelude.{◌≡◌, ◌+◌, ◌*◌, ◌^◌, ◌<◌, ◌≤◌, ℕ, [], IfOk, OnErr, OnOk, List, length};
ghost use Rattle.std.specs.List.{AllByRecursion};
ghost use Rattle.pol_mapkey.specs.Entries.{Entry};
ghost use Rattle.pol_mapkey.specs.declared.Kind.{Kind as OneKind};
ghost use Rattle.pol_mapkey.specs.declared.MapKey.{MapKey as OneKey};
ghost use Rattle.pol_model.specs.PolicyMap.{canonical};
ghost use Rattle.pol_distill.specs.Sorted.{IsSmall};
ghost use Rattle.pol_map_changes.specs.Changes.{IsDifference, table_of};
ghost use Rattle.pol_entry_tally.specs.Affected.{GoesOn};
ghost use Rattle.pol_entry_tally.specs.Counted.{AreInOrder, IsTallyOf, IsTurnedTo, SameCounts, of_group, times_after, times_of};
ghost use Rattle.pol_entry_tally.specs.Counts.{AreCounts, AreOf, AreTurns, IsTurnedBy, Rises, counts_of};
ghost use Rattle.pol_entry_tally.specs.Gathering.{GroupGoesOn};
ghost use Rattle.pol_entry_tally.specs.Times.{times};

use crate::counts::Counts;
use crate::group::turn_counts;
use crate::listing::Listing;
use crate::many::turn_many;
use crate::merge::turned_counts;
use crate::sizes::Changed;
use crate::tally::Tally;
use crate::turns::{below, turns_of};
use pol_data::Memory;
use pol_map_changes::ChangeList;
use pol_mapkey::{Kind, MapKey};
use std::alloc::Global;

/// How many turns there may be of a group.
pub(crate) const TURNS: u64 = 1 << 25;

/// Lists what differs in a group, and gives its counts after these turns, which are its own.
pub(crate) fn turn_group(
    alloc: Global,
    tally: &Tally,
    listing: &mut Listing,
    group: u64,
    turns: &[u64],
) -> Result<Counts, Memory>
    requires group { group < 2 ^ 33 }
    requires order { AreInOrder tally.now }
    requires rises { Rises turns.now }
    requires turns { AreTurns turns.now }
    requires own { AreOf group turns.now }
    ensures counts { IfOk result (λ counts. AreCounts (counts_of counts)) }
    ensures times { IfOk result (λ counts. IsTurnedBy group turns.now (of_group tally.now group) (counts_of counts)) }
    ensures listed { IfOk result (λ counts.
        GroupGoesOn group (of_group tally.now group) (counts_of counts) listing.old listing.new) }
{
    match tally.groups.get(&group) {
        None => turn_counts(alloc, listing, group, &[], turns),
        Some(old) => turn_counts(alloc, listing, group, old.as_slice(), turns),
    }
}

/// The same, and the group has these counts then. After an error the counts are as before.
fn turn_one(
    alloc: Global,
    tally: &mut Tally,
    listing: &mut Listing,
    group: u64,
    turns: &[u64],
) -> Result<(), Memory>
    requires group { group < 2 ^ 33 }
    requires order { AreInOrder tally.old }
    requires rises { Rises turns.now }
    requires turns { AreTurns turns.now }
    requires own { AreOf group turns.now }
    ensures order { AreInOrder tally.new }
    ensures ok { OnOk result (IsTurnedTo tally.old turns.now tally.new) }
    ensures err { OnErr result (SameCounts tally.old tally.new) }
    ensures listed { OnOk result (GoesOn (times_of tally.old) (times_after tally.old turns.now) (group * 2 ^ 23)
        ((group + 1) * 2 ^ 23) listing.old.changes.items listing.new.changes.items listing.old.size listing.new.size) }
{
    let counts = turn_group(alloc, tally, listing, group, turns)?;
    tally.put(group, counts)
}

/// Lists what differs, and counts what comes and goes. After an error the counts are as before.
fn turn_all(
    alloc: Global,
    tally: &mut Tally,
    listing: &mut Listing,
    turns: &[u64],
) -> Result<(), Memory>
    requires order { AreInOrder tally.old }
    requires rises { Rises turns.now }
    requires turns { AreTurns turns.now }
    ensures order { AreInOrder tally.new }
    ensures ok { OnOk result (IsTurnedTo tally.old turns.now tally.new) }
    ensures err { OnErr result (SameCounts tally.old tally.new) }
    ensures listed { OnOk result (GoesOn (times_of tally.old) (times_after tally.old turns.now)
        (0 * 2 ^ 23) (2 ^ 33 * 2 ^ 23)
        listing.old.changes.items listing.new.changes.items listing.old.size listing.new.size) }
{
    match turns.first() {
        None => Ok(()),
        Some(turn) => {
            let group = *turn / TURNS;
            let (_, others) = below(turns, (group + 1) * TURNS);
            if others.is_empty() {
                turn_one(alloc, tally, listing, group, turns)
            } else {
                turn_many(alloc, tally, listing, turns)
            }
        }
    }
}

/// Puts the counts of each group into a tally of no entries. After an error some of it is counted.
fn fill(alloc: Global, tally: &mut Tally, turns: &[u64]) -> Result<(), Memory>
    requires none { (group : ℕ) → of_group tally.old group ≡ [] }
    requires rises { Rises turns.now }
    requires turns { AreTurns turns.now }
    ensures order { OnOk result (AreInOrder tally.new) }
    ensures ok { OnOk result (IsTurnedTo tally.old turns.now tally.new) }
{
    let mut left = turns;
    while let Some(turn) = left.first() {
        let group = *turn / TURNS;
        let (own, others) = below(left, (group + 1) * TURNS);
        let counts = turned_counts(alloc, group, &[], own)?;
        tally.put(group, counts)?;
        left = others;
    }
    Ok(())
}

impl Tally {
    /// The tally of these entries. The one error is want of memory.
    pub fn of(alloc: Global, entries: &[(MapKey, Kind)]) -> Result<Tally, Memory>
        ensures { IfOk result (λ tally. IsTallyOf entries.now tally) }
    {
        let mut tally = Tally::none(alloc);
        let turns = turns_of(alloc, entries, &[])?;
        fill(alloc, &mut tally, &turns)?;
        Ok(tally)
    }

    /// Entries come, and others go. It gives exactly the keys at which the canonical map of the entries changes: `Set` with
    /// the kind that a key has then, `Clear` where it has none any more. From the map's size it tells its size then. The
    /// one error is want of memory, and then all is as before. Only groups of which a key comes or goes are looked at.
    pub fn change(
        &mut self,
        alloc: Global,
        size: u64,
        come: &[(MapKey, Kind)],
        gone: &[(MapKey, Kind)],
    ) -> Result<Changed, Memory>
        requires order { AreInOrder self.old }
        requires there { (q : OneKey) (k : OneKind) → times gone.now q k ≤ times_of self.old q k + times come.now q k }
        ensures order { AreInOrder self.new }
        ensures counts { OnOk result ((q : OneKey) (k : OneKind)
            → times_of self.new q k + times gone.now q k ≡ times_of self.old q k + times come.now q k) }
        ensures list { IfOk result (λ changed.
            (was is : List Entry) → AllByRecursion IsSmall was → AllByRecursion IsSmall is → IsTallyOf was self.old
            → IsTallyOf is self.new → IsDifference changed.list (table_of (canonical was)) (table_of (canonical is))) }
        ensures size { IfOk result (λ changed.
            (was is : List Entry) → AllByRecursion IsSmall was → AllByRecursion IsSmall is → IsTallyOf was self.old
            → IsTallyOf is self.new → size ≡ length (canonical was) → changed.size ≡ length (canonical is)) }
        ensures err { OnErr result ((q : OneKey) (k : OneKind) → times_of self.new q k ≡ times_of self.old q k) }
    {
        let turns = turns_of(alloc, come, gone)?;
        let mut listing = Listing::new(alloc, turns.len(), size)?;
        turn_all(alloc, self, &mut listing, &turns)?;
        Ok(Changed {
            list: ChangeList::from_vec(listing.changes),
            size: listing.size,
        })
    }
}
