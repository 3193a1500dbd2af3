//! Loops over a list.
ghost use Rattle.std.specs.Prelude.{◌≡◌, ◌↔◌, ◌++◌, map, IfSome, IsNone, IsTrue, OnOk};
ghost use Rattle.std.specs.List.{list_any};
ghost use Rattle.proof_forms.specs.Lists.{doubled, greatest, is_over, over};

use pol_data::Memory;

/// Pushes at the end. The invariant is the clause, of the numbers that were gone through.
pub fn push_doubled(out: &mut Vec<u64>, numbers: &[u32]) -> Result<(), Memory>
    ensures { OnOk result (out.new.items ≡ out.old.items ++ map doubled numbers.now) }
{
    for number in numbers {
        out.push(2 * u64::from(*number))?;
    }
    Ok(())
}

/// Some of the numbers. The invariant is said of those that are left: what was pushed, and what the definition keeps of
/// the rest, is what it keeps of all.
pub fn push_over(out: &mut Vec<u32>, numbers: &[u32], limit: u32) -> Result<(), Memory>
    ensures { OnOk result (out.new.items ≡ out.old.items ++ over limit numbers.now) }
{
    for number in numbers {
        if *number > limit {
            out.push(*number)?;
        }
    }
    Ok(())
}

/// A flag beside a loop that may return: the flag, or what is left, has one over the limit where all have. None where a number
/// is over `most`.
pub fn has_over(numbers: &[u32], limit: u32, most: u32) -> Option<bool>
    ensures none { IsNone result ↔ IsTrue (list_any (is_over most) numbers.now) }
    ensures some { IfSome result (λ found. found ≡ list_any (is_over limit) numbers.now) }
{
    let mut found = false;
    for number in numbers {
        if *number > most {
            return None;
        }
        found = found || *number > limit;
    }
    Some(found)
}

/// From the back, a definition that takes a list apart at its front is followed step by step, at `drop i`.
pub fn greatest(numbers: &[u32]) -> u32
    ensures { result ≡ greatest numbers.now }
{
    let mut so_far = 0;
    for i in (0..numbers.len()).rev() {
        so_far = numbers[i].max(so_far);
    }
    so_far
}

/// A list by value: what was given and what the iterator has left are the list.
pub fn moved(numbers: Vec<u32>, out: &mut Vec<u32>) -> Result<(), Memory>
    ensures { OnOk result (out.new.items ≡ out.old.items ++ numbers.items) }
{
    for number in numbers {
        out.push(number)?;
    }
    Ok(())
}
