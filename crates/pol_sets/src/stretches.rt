//! Ascending numbers, changed by copying the stretches between those that come and go.
ghost use Rattle.std.specs.Prelude.{◌≡◌, ◌++◌, nat_lt, not, IfOk, OnOk, filter};
ghost use Rattle.std.specs.List.Sorted.{IsStrictlySortedBy};
ghost use Rattle.std.specs.Ordering.{nat_cmp};
ghost use Rattle.pol_sets.specs.Ids.{union, without};

use pol_data::Memory;
use std::alloc::Global;

/// The numbers below a bound, and the others.
pub(crate) fn split_below(numbers: &[u32], bound: u64) -> (&[u32], &[u32])
    requires { IsStrictlySortedBy nat_cmp numbers.now }
    ensures below { result.0.now ≡ filter (λ own. nat_lt own bound) numbers.now }
    ensures others { result.1.now ≡ filter (λ own. not (nat_lt own bound)) numbers.now }
{
    let point = numbers.partition_point(|own| u64::from(*own) < bound);
    numbers.split_at(point)
}

/// Puts the numbers that are below this one behind the others, and gives those that are above it.
fn push_below<'a>(out: &mut Vec<u32>, numbers: &'a [u32], number: u32) -> Result<&'a [u32], Memory>
    requires { IsStrictlySortedBy nat_cmp numbers.now }
    ensures below { OnOk result (out.new.items ≡ out.old.items ++ filter (λ own. nat_lt own number) numbers.now) }
    ensures above { IfOk result (λ above. above.now ≡ filter (λ own. nat_lt number own) numbers.now) }
{
    let bound = u64::from(number);
    let (below, others) = split_below(numbers, bound);
    out.extend_from_slice(below)?;
    let (_, above) = split_below(others, bound + 1);
    Ok(above)
}

/// The numbers without those that are lost.
fn without_all(alloc: Global, numbers: &[u32], lost: &[u32]) -> Result<Vec<u32>, Memory>
    requires numbers_ascend { IsStrictlySortedBy nat_cmp numbers.now }
    requires lost_ascend { IsStrictlySortedBy nat_cmp lost.now }
    ensures { IfOk result (λ kept. kept.items ≡ without numbers.now lost.now) }
{
    let mut kept = Vec::with_capacity(alloc, numbers.len())?;
    let mut rest = numbers;
    for number in lost {
        rest = push_below(&mut kept, rest, *number)?;
    }
    kept.extend_from_slice(rest)?;
    Ok(kept)
}

/// The numbers with those that are gained.
fn with_all(alloc: Global, numbers: &[u32], gained: &[u32]) -> Result<Vec<u32>, Memory>
    requires numbers_ascend { IsStrictlySortedBy nat_cmp numbers.now }
    requires gained_ascend { IsStrictlySortedBy nat_cmp gained.now }
    ensures { IfOk result (λ both. both.items ≡ union numbers.now gained.now) }
{
    let mut both = Vec::with_capacity(alloc, numbers.len().saturating_add(gained.len()))?;
    let mut rest = numbers;
    for number in gained {
        rest = push_below(&mut both, rest, *number)?;
        both.push(*number)?;
    }
    both.extend_from_slice(rest)?;
    Ok(both)
}

/// The numbers without those that are lost, and with those that are gained. It takes a step and a binary search for each
/// of these, and the stretches between them are copied as they are. The one error is want of memory.
pub(crate) fn moved_numbers(
    alloc: Global,
    numbers: &[u32],
    gained: &[u32],
    lost: &[u32],
) -> Result<Vec<u32>, Memory>
    requires numbers_ascend { IsStrictlySortedBy nat_cmp numbers.now }
    requires gained_ascend { IsStrictlySortedBy nat_cmp gained.now }
    requires lost_ascend { IsStrictlySortedBy nat_cmp lost.now }
    ensures { IfOk result (λ moved. moved.items ≡ union (without numbers.now lost.now) gained.now) }
{
    if lost.is_empty() {
        return with_all(alloc, numbers, gained);
    }
    let kept = without_all(alloc, numbers, lost)?;
    if gained.is_empty() {
        return Ok(kept);
    }
    with_all(alloc, kept.as_slice(), gained)
}
