//! The numbers whose maps a change leaves as they were.
ghost use Rattle.std.specs.Prelude.{◌≡◌, IfOk, IsTrue, List};
ghost use Rattle.pol_connection_maps.specs.Maps.{AreMapsOf, NumberEntries};
ghost use Rattle.pol_connection_maps.specs.Stays.{AreOfOneKind, AreSeenAlike, HasItsMap, StateMaps, Stay, StayAt};

use crate::end_map::EndMap;
use crate::number::{NumberMap, map_at};
use pol_data::Memory;
use std::alloc::Global;
use std::collections::BTreeMap;

/// Whether the number has the same map in both tables.
fn stays(before: &BTreeMap<u32, &NumberMap>, after: &BTreeMap<u32, &NumberMap>, number: u32) -> bool
    ensures { IsTrue result → (old new : List NumberEntries)
        → AreMapsOf old before.now → AreMapsOf new after.now → StayAt old new number }
{
    match (map_at(before, number), map_at(after, number)) {
        (Some(one), Some(other)) => one.is_same(other),
        _ => false,
    }
}

/// Whether each of the numbers of these maps has the same map in both tables. Each two maps are compared once.
pub(crate) fn numbers_that_stay(
    alloc: Global,
    before: &BTreeMap<u32, &NumberMap>,
    after: &BTreeMap<u32, &NumberMap>,
    maps: &[NumberMap],
) -> Result<BTreeMap<u32, bool>, Memory>
    ensures { IfOk result (λ still.
        (old new : List NumberEntries) → AreMapsOf old before.now → AreMapsOf new after.now → Stay old new still) }
{
    let mut still = BTreeMap::new(alloc);
    for own in maps {
        let number = own.number();
        still.insert(number, stays(before, after, number))?;
    }
    Ok(still)
}

/// Whether the maps of this number are known to be the same.
fn is_known(still: &BTreeMap<u32, bool>, number: u32) -> bool
    ensures { IsTrue result → (old new : List NumberEntries) → Stay old new still.now → StayAt old new number }
{
    match still.get(&number) {
        Some(same) => *same,
        None => false,
    }
}

/// Whether both ends are seen by one number, and neither has a policy of its own or both have.
pub(crate) fn are_of_one_kind(one: &EndMap, other: &EndMap) -> bool
    ensures { IsTrue result → AreOfOneKind one.now other.now }
{
    one.number() == other.number() && one.has_policy() == other.has_policy()
}

/// Whether an end is as it was: it is seen by the number by which it was, and has the map that it had, or none.
pub(crate) fn is_as_it_was(still: &BTreeMap<u32, bool>, before: &EndMap, after: &EndMap) -> bool
    ensures { IsTrue result → (maps : StateMaps) → HasItsMap maps.before before.now
        → HasItsMap maps.after after.now → Stay maps.before maps.after still.now → AreSeenAlike before.now after.now }
{
    are_of_one_kind(before, after) && (!after.has_policy() || is_known(still, after.number()))
}
