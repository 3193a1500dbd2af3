//! Why a text isn't read as a table.
ghost use Rattle.std.specs.Prelude.{◌≡◌};
ghost use Rattle.pol_audit.specs.declared.error.TableError.TheVariants.{Memory as WantOfMemory};

use pol_data::Memory;
use std::alloc::AllocFailed;
use thiserror::Error;

/// Why a text isn't read as a table.
#[derive(Debug, Drop, Error)]
pub enum TableError {
    /// This line, counted from 1, is the first that can't stand in a table's text behind those before it.
    #[error("line {0} is no line of a table")]
    Line(u32),
    /// Want of memory.
    #[error("out of memory")]
    Memory,
}

impl From<Memory> for TableError {
    ghost from_gives = { λ _ error. error ≡ WantOfMemory };

    fn from(_memory: Memory) -> TableError {
        TableError::Memory
    }
}

impl<T: Drop> From<AllocFailed<T>> for TableError {
    ghost from_gives = { λ _ error. error ≡ WantOfMemory };

    fn from(_memory: AllocFailed<T>) -> TableError {
        TableError::Memory
    }
}
