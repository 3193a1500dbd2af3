//! What is kept beside a list, and tied to it by an invariant.
ghost use Rattle.std.specs.Prelude.{◌≡◌, ◌+◌, ◌<◌, ◌^◌, ◌++◌, ◌∷◌, [], OnErr, OnOk, sum};

use pol_data::Memory;
use std::alloc::Global;
use std::marker::Model;

/// Numbers, and their sum beside them. A contract sees the list alone, so no clause above speaks of the sum that is kept.
#[derive(Drop)]
pub struct SummedNumbers {
    numbers: Vec<u32>,
    total: u64,
}

impl Model for SummedNumbers {
    ghost use Rattle.std.specs.Prelude.{◌≡◌, ℕ, List, sum};

    ghost Value = { List ℕ };

    ghost view = { λ s. s.numbers.items };

    ghost invariant = { λ s. s.total ≡ sum s.numbers.items };
}

impl SummedNumbers {
    /// No numbers yet.
    pub fn new(alloc: Global) -> SummedNumbers
        ensures { result ≡ [] }
    {
        SummedNumbers {
            numbers: Vec::new(alloc),
            total: 0,
        }
    }

    /// One number more. The call that may fail comes first, so at an error nothing has changed.
    pub fn push(&mut self, number: u32) -> Result<(), Memory>
        requires { sum self.old + number < 2 ^ 64 }
        ensures pushed { OnOk result (self.new ≡ self.old ++ number ∷ []) }
        ensures same { OnErr result (self.new ≡ self.old) }
    {
        self.numbers.push(number)?;
        self.total += u64::from(number);
        Ok(())
    }

    /// What the invariant says, for a caller whose proof needs it: the body does no more than read the field.
    pub fn fits(&self)
        ensures { sum self.now < 2 ^ 64 }
    {
        let _ = &self.numbers;
        let _total = self.total;
    }

    /// Their sum, without going through them.
    pub fn sum(&self) -> u64
        ensures { result ≡ sum self.now }
    {
        self.total
    }
}

/// A caller that has no condition of its own for the first of two numbers: `fits` says what room there is.
pub fn push_zero(numbers: &mut SummedNumbers) -> Result<(), Memory>
    ensures { OnOk result (numbers.new ≡ numbers.old ++ 0 ∷ []) }
{
    numbers.fits();
    numbers.push(0)
}
