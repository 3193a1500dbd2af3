//! Calls that may fail.
ghost use Rattle.std.specs.Prelude.{◌≡◌, ◌++◌, ◌∷◌, [], IfOk, None, OnErr, OnOk, option_map};
ghost use Rattle.proof_forms.specs.Faults.{Finds, IsFoundIn, first_fault};
ghost use Rattle.proof_forms.specs.declared.faults.CopyError.TheVariants.{Memory as WantOfMemory};

use pol_data::Memory;
use std::alloc::{AllocFailed, Global};
use thiserror::Error;

/// Why numbers aren't copied.
#[derive(Debug, Drop, Error)]
pub enum CopyError {
    /// This number, the first one, is over the limit.
    #[error("a number is over the limit")]
    TooLarge(u32),
    /// Want of memory.
    #[error("out of memory")]
    Memory,
}

impl From<Memory> for CopyError {
    ghost from_gives = { λ _ error. error ≡ WantOfMemory };

    fn from(_memory: Memory) -> CopyError {
        CopyError::Memory
    }
}

impl<T: Drop> From<AllocFailed<T>> for CopyError {
    ghost from_gives = { λ _ error. error ≡ WantOfMemory };

    fn from(_memory: AllocFailed<T>) -> CopyError {
        CopyError::Memory
    }
}

fn fits(number: u32, limit: u32) -> Result<(), CopyError>
    ensures { Finds (first_fault limit (number ∷ [])) result }
{
    if number > limit {
        return Err(CopyError::TooLarge(number));
    }
    Ok(())
}

/// The first fault, in two clauses: the fault that is found, want of memory aside, and the value where there is none. The
/// loop's invariant is that what is found in all is what is found in the rest.
pub fn copied(alloc: Global, numbers: &[u32], limit: u32) -> Result<Vec<u32>, CopyError>
    ensures fault { Finds (first_fault limit numbers.now) result }
    ensures value { IfOk result (λ copy. copy.items ≡ numbers.now) }
{
    let mut copy = Vec::with_capacity(alloc, numbers.len())?;
    for number in numbers {
        fits(*number, limit)?;
        copy.push(*number)?;
    }
    Ok(copy)
}

/// An error path that is matched: one cause becomes a value, the other stays an error, and each arm says which.
pub fn copied_or_none(
    alloc: Global,
    numbers: &[u32],
    limit: u32,
) -> Result<Option<Vec<u32>>, Memory>
    ensures { IfOk result (λ found.
        IsFoundIn (first_fault limit numbers.now) numbers.now (option_map (λ copy. copy.items) found)) }
{
    match copied(alloc, numbers, limit) {
        Ok(copy) => Ok(Some(copy)),
        Err(CopyError::TooLarge(_)) => Ok(None),
        Err(CopyError::Memory) => Err(Memory),
    }
}

/// All or nothing: what was done is undone before the error is handed on.
pub fn push_both(out: &mut Vec<u32>, one: u32, other: u32) -> Result<(), Memory>
    ensures done { OnOk result (out.new.items ≡ out.old.items ++ one ∷ other ∷ []) }
    ensures undone { OnErr result (out.new.items ≡ out.old.items) }
{
    out.push(one)?;
    match out.push(other) {
        Ok(()) => Ok(()),
        Err(_) => {
            out.pop();
            Err(Memory)
        }
    }
}
