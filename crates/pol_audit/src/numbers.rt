//! The numbers that are looked at.
ghost use Rattle.std.specs.Prelude.{◌≡◌, ◌⊎◌, ◌↔◌, ℕ, ◌++◌, ◌∷◌, [], IfOk, OnOk, map};
ghost use Rattle.std.specs.List.{Contains};
ghost use Rattle.std.specs.List.Sorted.{IsStrictlySortedBy};
ghost use Rattle.std.specs.Ordering.{nat_cmp};
ghost use Rattle.pol_mapkey.specs.Entries.{Entry};

use crate::in_order::ids_in_order;
use pol_data::Memory;
use pol_mapkey::{Kind, MapKey};
use std::alloc::Global;

/// Appends the numbers of the entries.
fn push_numbers(numbers: &mut Vec<u32>, entries: &[(MapKey, Kind)]) -> Result<(), Memory>
    ensures { OnOk result (numbers.new.items ≡ numbers.old.items ++ map (λ e. e.0.id) entries.now) }
{
    for entry in entries {
        numbers.push(entry.0.id)?;
    }
    Ok(())
}

/// 0 and the numbers of the entries, in order, each once.
pub(crate) fn numbers_of(
    alloc: Global,
    left: &[(MapKey, Kind)],
    right: &[(MapKey, Kind)],
) -> Result<Vec<u32>, Memory>
    ensures ascend { IfOk result (λ numbers. IsStrictlySortedBy nat_cmp numbers.items) }
    ensures members { IfOk result (λ numbers. (n : ℕ) → Contains numbers.items n
        ↔ Contains (((0 ∷ []) ++ map (λ e. e.0.id) left.now) ++ map (λ e. e.0.id) right.now) n) }
{
    let mut numbers = Vec::new(alloc);
    numbers.push(0)?;
    push_numbers(&mut numbers, left)?;
    push_numbers(&mut numbers, right)?;
    Ok(ids_in_order(numbers))
}
