//! Turns of several groups.
ghost use Rattle.std.specs.Prelude.{◌≡◌, ◌++◌, ◌∷◌, [], ◌+◌, ◌*◌, ◌^◌, ◌<◌, ℕ, ◌↔◌, false, true, IfOk, IsTrue, OnErr, OnOk};
ghost use Rattle.pol_entry_tally.specs.Affected.{GoesOn};
ghost use Rattle.pol_entry_tally.specs.Counted.{AreInOrder, HasPut, IsTurnedTo, SameCounts, is_open, of_group, times_after, times_of};
ghost use Rattle.pol_entry_tally.specs.Counts.{AreCounts, AreOf, AreTurns, IsTurnedBy, Rises, counts_of};
ghost use Rattle.pol_entry_tally.specs.declared.many.Made.{Made as OneMade};
ghost use Rattle.pol_entry_tally.specs.Gathering.{AreMade, AreOpen, GroupGoesOn, made_of};

use crate::change::{TURNS, turn_group};
use crate::counts::Counts;
use crate::listing::Listing;
use crate::tally::Tally;
use crate::turns::below;
use pol_data::Memory;
use std::alloc::Global;

/// A group's counts after the change.
#[derive(Drop)]
pub(crate) struct Made {
    pub(crate) group: u64,
    pub(crate) counts: Counts,
}

/// Lets the group be in the tree, maybe with no counts. After an error it isn't there, as before.
fn open(alloc: Global, tally: &mut Tally, group: u64) -> Result<(), Memory>
    ensures same { SameCounts tally.old tally.new }
    ensures open { OnOk result (is_open tally.new group ≡ true) }
    ensures stay { (g : ℕ) → is_open tally.old g ≡ true → is_open tally.new g ≡ true }
{
    if !tally.groups.contains_key(&group) {
        let _ = tally.groups.insert(group, Counts::none(alloc))?;
    }
    Ok(())
}

/// Puts the counts of a group that is in the tree there. It takes no memory.
fn put_open(tally: &mut Tally, group: u64, counts: Counts)
    requires { is_open tally.old group ≡ true }
    ensures put { HasPut tally.old tally.new group (counts_of counts) }
    ensures stay { (g : ℕ) → (g ≡ group → ⊥) → is_open tally.old g ≡ true → is_open tally.new g ≡ true }
{
    if counts.as_slice().is_empty() {
        tally.groups.remove(&group);
    } else if let Some(old) = tally.groups.get_mut(&group) {
        *old = counts;
    }
}

/// Puts them all there.
fn settle(tally: &mut Tally, made: Vec<Made>)
    requires open { AreOpen tally.old made.items }
    ensures { (g : ℕ) → of_group tally.new g ≡ made_of made.items g (of_group tally.old g) }
{
    let mut made = made;
    while let Some(one) = made.pop() {
        put_open(tally, one.group, one.counts);
    }
}

/// Makes the counts of one group more.
fn gather_one(
    alloc: Global,
    tally: &mut Tally,
    listing: &mut Listing,
    group: u64,
    own: &[u64],
    made: &mut Vec<Made>,
) -> Result<(), Memory>
    requires group { group < 2 ^ 33 }
    requires order { AreInOrder tally.old }
    requires rises { Rises own.now }
    requires turns { AreTurns own.now }
    requires own { AreOf group own.now }
    ensures same { SameCounts tally.old tally.new }
    ensures stay { (g : ℕ) → is_open tally.old g ≡ true → is_open tally.new g ≡ true }
    ensures open { OnOk result (is_open tally.new group ≡ true) }
    ensures made { OnOk result ((one : OneMade) × (made.new.items ≡ made.old.items ++ one ∷ []) × (one.group ≡ group)
        × AreCounts (counts_of one.counts) × IsTurnedBy group own.now (of_group tally.old group) (counts_of one.counts)
        × GroupGoesOn group (of_group tally.old group) (counts_of one.counts) listing.old listing.new) }
{
    let counts = turn_group(alloc, tally, listing, group, own)?;
    open(alloc, tally, group)?;
    made.push(Made { group, counts })?;
    Ok(())
}

/// Whether the group has no counts.
fn is_empty(tally: &Tally, group: u64) -> bool
    ensures { IsTrue result ↔ (of_group tally.now group ≡ []) }
{
    match tally.groups.get(&group) {
        None => true,
        Some(counts) => counts.as_slice().is_empty(),
    }
}

/// Takes a group out of the tree that is there with no counts.
fn close(tally: &mut Tally, group: u64)
    ensures same { SameCounts tally.old tally.new }
    ensures closed { of_group tally.old group ≡ [] → is_open tally.new group ≡ false }
{
    if is_empty(tally, group) {
        tally.groups.remove(&group);
    }
}

/// Takes those out of the tree that are there with no counts, of the groups of which something turns.
fn close_all(tally: &mut Tally, turns: &[u64])
    ensures { SameCounts tally.old tally.new }
{
    for turn in turns {
        close(tally, *turn / TURNS);
    }
}

/// Makes the counts of each group of which something turns.
fn gather_each(
    alloc: Global,
    tally: &mut Tally,
    listing: &mut Listing,
    turns: &[u64],
) -> Result<Vec<Made>, Memory>
    requires order { AreInOrder tally.old }
    requires rises { Rises turns.now }
    requires turns { AreTurns turns.now }
    ensures same { SameCounts tally.old tally.new }
    ensures open { IfOk result (λ made. AreOpen tally.new made.items) }
    ensures made { IfOk result (λ made. AreMade tally.old turns.now (2 ^ 33) made.items) }
    ensures listed { OnOk result (GoesOn (times_of tally.old) (times_after tally.old turns.now)
        (0 * 2 ^ 23) (2 ^ 33 * 2 ^ 23)
        listing.old.changes.items listing.new.changes.items listing.old.size listing.new.size) }
{
    let mut made = Vec::new(alloc);
    let mut left = turns;
    while let Some(turn) = left.first() {
        let group = *turn / TURNS;
        let (own, others) = below(left, (group + 1) * TURNS);
        gather_one(alloc, tally, listing, group, own, &mut made)?;
        left = others;
    }
    Ok(made)
}

/// The same. After an error no group of theirs is in the tree with no counts.
fn gather(
    alloc: Global,
    tally: &mut Tally,
    listing: &mut Listing,
    turns: &[u64],
) -> Result<Vec<Made>, Memory>
    requires order { AreInOrder tally.old }
    requires rises { Rises turns.now }
    requires turns { AreTurns turns.now }
    ensures same { SameCounts tally.old tally.new }
    ensures open { IfOk result (λ made. AreOpen tally.new made.items) }
    ensures made { IfOk result (λ made. AreMade tally.old turns.now (2 ^ 33) made.items) }
    ensures listed { OnOk result (GoesOn (times_of tally.old) (times_after tally.old turns.now)
        (0 * 2 ^ 23) (2 ^ 33 * 2 ^ 23)
        listing.old.changes.items listing.new.changes.items listing.old.size listing.new.size) }
{
    match gather_each(alloc, tally, listing, turns) {
        Ok(made) => Ok(made),
        Err(memory) => {
            close_all(tally, turns);
            Err(memory)
        }
    }
}

/// Lists what differs in several groups, and then lets each have its counts. After an error the counts are as before.
pub(crate) fn turn_many(
    alloc: Global,
    tally: &mut Tally,
    listing: &mut Listing,
    turns: &[u64],
) -> Result<(), Memory>
    requires order { AreInOrder tally.old }
    requires rises { Rises turns.now }
    requires turns { AreTurns turns.now }
    ensures order { AreInOrder tally.new }
    ensures ok { OnOk result (IsTurnedTo tally.old turns.now tally.new) }
    ensures err { OnErr result (SameCounts tally.old tally.new) }
    ensures listed { OnOk result (GoesOn (times_of tally.old) (times_after tally.old turns.now)
        (0 * 2 ^ 23) (2 ^ 33 * 2 ^ 23)
        listing.old.changes.items listing.new.changes.items listing.old.size listing.new.size) }
{
    let made = gather(alloc, tally, listing, turns)?;
    settle(tally, made);
    Ok(())
}
