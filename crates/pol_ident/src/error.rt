//! Why no number was given.
ghost use Rattle.std.specs.Prelude.{◌≡◌};
ghost use Rattle.pol_ident.specs.declared.error.IdentError.TheVariants.{Memory as WantOfMemory};

use pol_data::Memory;
use thiserror::Error;

/// Why no number was given.
#[derive(Clone, Copy, Debug, PartialEq, Eq, Error)]
pub enum IdentError {
    /// All numbers of this kind are held.
    #[error("no identity number is free")]
    Exhausted,
    /// Want of memory.
    #[error("out of memory")]
    Memory,
}

impl From<Memory> for IdentError {
    ghost from_gives = { λ _ error. error ≡ WantOfMemory };

    fn from(_memory: Memory) -> IdentError {
        IdentError::Memory
    }
}
