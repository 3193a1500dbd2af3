//! What a policy document is refused for.

ghost use Rattle.std.specs.Prelude.{◌≡◌};
ghost use Rattle.pol_json.specs.declared.fault.DocError.TheVariants.{Memory as WantOfMemory};

use pol_data::{Memory, Text};
use std::alloc::AllocFailed;
use thiserror::Error;

/// The first fault of a policy document ('profile').
#[derive(Debug, Drop)]
pub enum DocFault {
    /// 10: the value is no policy: no object, another `apiVersion`, or another `kind`.
    NotPolicy,
    /// 11: `metadata` is no object with a non-empty text `name`.
    NoName,
    /// 12: there is neither a `spec` nor a non-empty `specs`.
    NoSpec,
    /// 13: a member of an unknown name, at this path.
    UnknownMember(Text),
    /// 14: a member of this name, which Cilium knows and this profile leaves out.
    Unsupported(Text),
    /// 25: a value of another shape than it should have, at this path.
    WrongShape(Text),
}

/// Why a document was not read.
#[derive(Debug, Drop, Error)]
pub enum DocError {
    /// The document has a fault.
    #[error("the policy document has a fault")]
    Fault(DocFault),
    /// Want of memory.
    #[error("out of memory")]
    Memory,
}

impl From<Memory> for DocError {
    ghost from_gives = { λ _ error. error ≡ WantOfMemory };

    fn from(_memory: Memory) -> DocError {
        DocError::Memory
    }
}

impl<T: Drop> From<AllocFailed<T>> for DocError {
    ghost from_gives = { λ _ error. error ≡ WantOfMemory };

    fn from(_memory: AllocFailed<T>) -> DocError {
        DocError::Memory
    }
}
