//! What a read or a write answers where it gives no bytes or takes none.
ghost use Rattle.std.specs.Prelude.{◌≡◌};
ghost use Rattle.pol_streams.specs.declared.fault.ReadAllError.TheVariants as errors;

use std::alloc::AllocError;
use thiserror::Error;

/// Memory was refused.
pub type Memory = AllocError;

/// One read or one write failed. The source or the sink counts it among its faults.
#[derive(Clone, Copy, Debug, PartialEq, Eq, Error)]
#[error("a read or a write failed")]
pub struct Failed;

/// Why a source wasn't read whole.
#[derive(Clone, Copy, Debug, PartialEq, Eq, Error)]
pub enum ReadAllError {
    /// A read failed.
    #[error("a read failed")]
    Fault,
    /// More bytes were left than the limit allows.
    #[error("the input is too long")]
    TooLong,
    /// Memory was refused.
    #[error("out of memory")]
    Memory,
}

impl From<Failed> for ReadAllError {
    ghost from_gives = { λ _ e. e ≡ errors.Fault };

    fn from(_: Failed) -> ReadAllError {
        ReadAllError::Fault
    }
}

impl From<AllocError> for ReadAllError {
    ghost from_gives = { λ _ e. e ≡ errors.Memory };

    fn from(_: AllocError) -> ReadAllError {
        ReadAllError::Memory
    }
}
