//! Walks, and what bounds them.
ghost use Rattle.std.specs.Prelude.{◌≡◌, ◌<◌, ◌≤◌, ◌++◌, false, length, true, OnOk};
ghost use Rattle.std.specs.List.Sorted.{IsNonDecreasing, IsPartitionPoint};
ghost use Rattle.proof_forms.specs.Walks.{Ascends, LeadDown, below, is_below};

use pol_data::Memory;

/// A walk's bound. Each link leads to a lesser place or stays, so the place is the measure, and steps and place together are
/// no more than the start.
pub fn steps_to_end(links: &[u32], start: u32) -> u32
    requires down { LeadDown links.now }
    requires within { start < length links.now }
    ensures { result ≤ start }
{
    let mut at = start;
    let mut steps = 0;
    while links[at as usize] < at {
        at = links[at as usize];
        steps += 1;
    }
    steps
}

/// A walk of an ascending list that stops. Behind the first that isn't below the limit none is, which is one lemma.
pub fn push_below(out: &mut Vec<u32>, numbers: &[u32], limit: u32) -> Result<(), Memory>
    requires { Ascends numbers.now }
    ensures { OnOk result (out.new.items ≡ out.old.items ++ below limit numbers.now) }
{
    for number in numbers {
        if *number >= limit {
            break;
        }
        out.push(*number)?;
    }
    Ok(())
}

/// A binary search: the answer cites the closure's own contract.
pub fn point_of(numbers: &[u32], bound: u32) -> usize
    requires { IsNonDecreasing numbers.now }
    ensures { IsPartitionPoint (λ number.
        is_below bound number ≡ true) (λ number. is_below bound number ≡ false) numbers.now result }
{
    numbers.partition_point(|number| *number < bound)
}
