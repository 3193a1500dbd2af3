//! Why nothing is taken.
ghost use Rattle.std.specs.Prelude.{◌≡◌};
ghost use Rattle.pol_taken.specs.declared.error.TakeError.TheVariants.{Memory as WantOfMemory};

use pol_data::Memory;
use thiserror::Error;

/// Why nothing is taken for a slot.
#[derive(Clone, Copy, Debug, PartialEq, Eq, Error)]
pub enum TakeError {
    /// No live endpoint has the slot.
    #[error("the slot has no endpoint")]
    Gone,
    /// Want of memory.
    #[error("out of memory")]
    Memory,
}

impl From<Memory> for TakeError {
    ghost from_gives = { λ _ error. error ≡ WantOfMemory };

    fn from(_memory: Memory) -> TakeError {
        TakeError::Memory
    }
}
