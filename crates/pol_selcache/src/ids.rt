//! Sets of numbers, made of numbers and of other sets.
ghost use Rattle.std.specs.Prelude.{◌≡◌, ℕ, ◌≤◌, ◌&&◌, ◌||◌, not, if◌then◌else◌, IfOk, [], ◌∷◌, filter, length, vec_len};
ghost use Rattle.std.specs.List.Sorted.{IsStrictlySortedBy};
ghost use Rattle.std.specs.Ordering.{nat_cmp};
ghost use Rattle.pol_sets.specs.IdSet.{IsIdSet};
ghost use Rattle.pol_set_changes.specs.Ids.{has};

use pol_data::Memory;
use pol_sets::IdSet;
use std::alloc::Global;

/// The set of these numbers, in whatever order and however often each stands there.
fn set_of_vec(numbers: Vec<u32>) -> Result<IdSet, Memory>
    ensures members { IfOk result (λ set. (number : ℕ) → has number set ≡ has number numbers.items) }
    ensures short { IfOk result (λ set. length set ≤ vec_len numbers) }
    ensures set { IfOk result (λ set. IsIdSet set) }
{
    let mut numbers = numbers;
    numbers.sort()?;
    numbers.dedup();
    Ok(IdSet::from_ascending(numbers))
}

/// The same of a slice.
pub(crate) fn set_of_slice(alloc: Global, numbers: &[u32]) -> Result<IdSet, Memory>
    ensures members { IfOk result (λ set. (number : ℕ) → has number set ≡ has number numbers.now) }
    ensures short { IfOk result (λ set. length set ≤ length numbers.now) }
    ensures set { IfOk result (λ set. IsIdSet set) }
{
    let set = set_of_vec(Vec::from_slice(alloc, numbers)?)?;
    Ok(set)
}

/// The set with this one number, or with none. It takes no memory.
pub(crate) fn one_if(alloc: Global, number: u32, wanted: bool) -> IdSet
    ensures { result ≡ (if wanted then number ∷ [] else []) }
{
    if wanted {
        IdSet::one(number)
    } else {
        IdSet::new(alloc)
    }
}

/// Those of the numbers that the set has too.
fn found_in(alloc: Global, numbers: &IdSet, set: &IdSet) -> Result<Vec<u32>, Memory>
    ensures { IfOk result (λ found. found.items ≡ filter (λ number. has number set.now) numbers.now) }
{
    numbers
        .iter()
        .filter(|number| set.contains(*number))
        .collect(alloc)
}

/// The numbers of both sets. It takes no memory where the first has one number at most.
pub(crate) fn in_both(alloc: Global, numbers: &IdSet, others: &IdSet) -> Result<IdSet, Memory>
    ensures { IfOk result (λ set. set ≡ filter (λ number. has number others.now) numbers.now) }
{
    if let Some(number) = numbers.only() {
        return Ok(one_if(alloc, number, others.contains(number)));
    }
    let both = found_in(alloc, numbers, others)?;
    Ok(IdSet::from_ascending(both))
}
