//! What turns make of a group: its counts then, and what differs at its keys.
ghost use Rattle.std.specs.Prelude.{◌≡◌, ◌/◌, ◌%◌, ◌^◌, ◌<◌, ◌≤◌, ◌∷◌, [], nat_le, IfOk, OnOk};
ghost use Rattle.pol_entry_tally.specs.Counts.{AreCounts, AreOf, AreTurns, IsTurnedBy, Rises, counts_of};
ghost use Rattle.pol_entry_tally.specs.Gathering.{GroupGoesOn};

use crate::asked::those_asked;
use crate::counts::{Count, Counts};
use crate::listing::{Listing, list_keys};
use crate::merge::turned_counts;
use crate::numbers::ALLOWS;
use pol_data::Memory;
use std::alloc::Global;
use std::slice;

/// Whether the turn is an allow's.
fn is_allow(turn: u64) -> bool
    ensures { result ≡ nat_le (2 ^ 23) (turn / 2 % 2 ^ 24) }
{
    u64::from(ALLOWS) <= turn / 2 % (1 << 24)
}

/// Lists what differs where one allow turns, and nothing else.
fn list_one(
    listing: &mut Listing,
    group: u64,
    old: &[Count],
    new: &[Count],
    turns: &[u64],
    turn: u64,
) -> Result<(), Memory>
    requires one { turns.now ≡ turn ∷ [] }
    requires group { group < 2 ^ 33 }
    requires old { AreCounts old.now }
    requires new { AreCounts new.now }
    requires turns { AreTurns turns.now }
    requires times { IsTurnedBy group turns.now old.now new.now }
    requires allow { 2 ^ 23 ≤ turn / 2 % 2 ^ 24 }
    ensures { OnOk result (GroupGoesOn group old.now new.now listing.old listing.new) }
{
    let local = (turn / 2 % u64::from(ALLOWS)) as u32;
    list_keys(listing, group, old, new, slice::from_ref(&local))?;
    Ok(())
}

/// The same where more may turn: at the keys that do, and at those with a count under a deny that does.
fn list_asked(
    alloc: Global,
    listing: &mut Listing,
    group: u64,
    old: &[Count],
    new: &[Count],
    turns: &[u64],
) -> Result<(), Memory>
    requires group { group < 2 ^ 33 }
    requires old { AreCounts old.now }
    requires new { AreCounts new.now }
    requires rises { Rises turns.now }
    requires turns { AreTurns turns.now }
    requires own { AreOf group turns.now }
    requires times { IsTurnedBy group turns.now old.now new.now }
    ensures { OnOk result (GroupGoesOn group old.now new.now listing.old listing.new) }
{
    let asked = those_asked(alloc, old, turns)?;
    list_keys(listing, group, old, new, &asked)?;
    Ok(())
}

/// Lists what differs in a group that had the one counts and has the other.
fn list_group(
    alloc: Global,
    listing: &mut Listing,
    group: u64,
    old: &[Count],
    new: &[Count],
    turns: &[u64],
) -> Result<(), Memory>
    requires group { group < 2 ^ 33 }
    requires old { AreCounts old.now }
    requires new { AreCounts new.now }
    requires rises { Rises turns.now }
    requires turns { AreTurns turns.now }
    requires own { AreOf group turns.now }
    requires times { IsTurnedBy group turns.now old.now new.now }
    ensures { OnOk result (GroupGoesOn group old.now new.now listing.old listing.new) }
{
    if let [turn] = turns {
        if is_allow(*turn) {
            return list_one(listing, group, old, new, turns, *turn);
        }
    }
    list_asked(alloc, listing, group, old, new, turns)
}

/// Lists what differs in a group, and gives its counts then.
pub(crate) fn turn_counts(
    alloc: Global,
    listing: &mut Listing,
    group: u64,
    old: &[Count],
    turns: &[u64],
) -> Result<Counts, Memory>
    requires group { group < 2 ^ 33 }
    requires old { AreCounts old.now }
    requires rises { Rises turns.now }
    requires turns { AreTurns turns.now }
    requires own { AreOf group turns.now }
    ensures counts { IfOk result (λ counts. AreCounts (counts_of counts)) }
    ensures times { IfOk result (λ counts. IsTurnedBy group turns.now old.now (counts_of counts)) }
    ensures listed { IfOk result (λ counts. GroupGoesOn group old.now (counts_of counts) listing.old listing.new) }
{
    let counts = turned_counts(alloc, group, old, turns)?;
    list_group(alloc, listing, group, old, counts.as_slice(), turns)?;
    Ok(counts)
}
