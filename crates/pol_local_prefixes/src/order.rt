//! The order of the prefixes, and the numbers of those that lie in one.
ghost use Rattle.std.specs.Prelude.{◌≡◌, ℕ, ◌+◌, ◌^◌, ◌<◌, ◌≤◌, ◌++◌, OnOk, drop, length, map, take};
ghost use Rattle.std.specs.BTreeMap.{IsOrdered, get};
ghost use Rattle.std.specs.List.Sorted.{IsPermutation, IsSorted};
ghost use Rattle.std.specs.Ordering.{nat_cmp};
ghost use Rattle.pol_addr.specs.declared.network.Prefix.{Prefix};
ghost use Rattle.pol_addr.specs.Order.{prefix_cmp};
ghost use Rattle.pol_local_prefixes.specs.Tied.{entries_within, number_from};

use pol_addr::Prefix;
use pol_data::Memory;
use std::collections::BTreeMap;

/// Puts the numbers, from `first` on, of the places of the prefixes that lie in `within` behind these, in the order of the
/// prefixes.
pub(crate) fn push_within(
    order: &BTreeMap<Prefix, u32>,
    first: u32,
    within: &Prefix,
    numbers: &mut Vec<u32>,
) -> Result<(), Memory>
    requires fits { (prefix : Prefix) (place : ℕ)
        → get prefix_cmp order.now prefix ≡ Some place → first + place < 2 ^ 32 }
    ensures ascends { IsOrdered prefix_cmp order.now }
    ensures pushed { OnOk result (numbers.new.items
        ≡ numbers.old.items ++ map (number_from first) (entries_within within.now order.now.entries)) }
{
    for (prefix, place) in order.range(*within..) {
        if !within.covers(prefix) {
            break;
        }
        numbers.push(first + *place)?;
    }
    Ok(())
}

/// Sorts the numbers from the index `start` on. It takes no memory.
pub(crate) fn sort_from(numbers: &mut Vec<u32>, start: usize)
    requires { start ≤ length numbers.old.items }
    ensures front { take start numbers.new.items ≡ take start numbers.old.items }
    ensures permutation { IsPermutation (drop start numbers.old.items) (drop start numbers.new.items) }
    ensures sorted { IsSorted nat_cmp (drop start numbers.new.items) }
{
    numbers[start..].sort_unstable();
}
