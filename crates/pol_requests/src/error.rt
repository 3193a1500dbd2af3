//! Why a request isn't prepared.
ghost use Rattle.std.specs.Prelude.{◌≡◌};
ghost use Rattle.pol_requests.specs.declared.error.PrepareError.TheVariants.{Memory as WantOfMemory};

use pol_data::Memory;
use pol_model::Fault;
use thiserror::Error;

/// Why a request isn't prepared. After either the store stands for the state as before.
#[derive(Clone, Copy, Debug, PartialEq, Eq, Error)]
pub enum PrepareError {
    /// The request has this fault in the present state.
    #[error("the request has a fault")]
    Fault(Fault),
    /// Want of memory, or a count of 64 bits at its end.
    #[error("out of memory")]
    Memory,
}

impl From<Memory> for PrepareError {
    ghost from_gives = { λ _ error. error ≡ WantOfMemory };

    fn from(_memory: Memory) -> PrepareError {
        PrepareError::Memory
    }
}
