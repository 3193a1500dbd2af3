//! Tables and sets.
ghost use Rattle.std.specs.Prelude.{◌≡◌, ◌↔◌, ◌+◌, ◌<◌, ◌^◌, ℕ, OnErr, OnOk};
ghost use Rattle.std.specs.BTreeMap.{IsUnchanged};
ghost use Rattle.std.specs.List.{Contains};
ghost use Rattle.std.specs.List.Sorted.{IsStrictlySortedBy};
ghost use Rattle.std.specs.Ordering.{nat_cmp};
ghost use Rattle.proof_forms.specs.Maps.{count_at, put_at};

use pol_data::Memory;
use std::collections::BTreeMap;

/// The numbers in order, each once: a set made of a list.
pub fn in_order(numbers: Vec<u32>) -> Vec<u32>
    ensures ascend { IsStrictlySortedBy nat_cmp result.items }
    ensures members { (n : ℕ) → Contains result.items n ↔ Contains numbers.items n }
{
    let mut numbers = numbers;
    numbers.sort_unstable();
    numbers.dedup();
    numbers
}

/// A table as what its keys give: one key is written, and each key gives what the clause says.
pub fn set_count(counts: &mut BTreeMap<u32, u32>, number: u32, count: u32) -> Result<(), Memory>
    ensures ok { OnOk result ((n : ℕ) → count_at counts.new n ≡ put_at (count_at counts.old) number count n) }
    ensures err { OnErr result (IsUnchanged counts.old counts.new) }
{
    counts.insert(number, count)?;
    Ok(())
}

fn raise(count: &mut u32)
    requires { count.old + 1 < 2 ^ 32 }
    ensures { count.new ≡ count.old + 1 }
{
    *count += 1;
}

/// A value of a table that is changed where it stands: what is done to it is a function over `&mut`, and each way of the
/// branch has one lemma.
pub fn raise_count(counts: &mut BTreeMap<u32, u32>, number: u32)
    requires there { 0 < count_at counts.old number }
    requires room { count_at counts.old number + 1 < 2 ^ 32 }
    ensures { (n : ℕ) → count_at counts.new n ≡ put_at (count_at counts.old) number (count_at counts.old number + 1) n }
{
    match counts.get_mut(&number) {
        Some(count) => raise(count),
        None => unreachable!(),
    }
}
