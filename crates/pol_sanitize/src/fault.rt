//! What a policy is refused for, and where.
ghost use Rattle.std.specs.Prelude.{◌≡◌};
ghost use Rattle.pol_sanitize.specs.Faults.{fault_at};
ghost use Rattle.pol_sanitize.specs.declared.fault.SanitizeError.TheVariants.{Memory as WantOfMemory, Fault as Refused};

use pol_data::Memory;
use pol_rule::{RuleCause, RuleFault, Section};
use std::alloc::AllocFailed;
use thiserror::Error;

/// Why a policy was not sanitised.
#[derive(Debug, Drop, Error)]
pub enum SanitizeError {
    /// The policy's first fault.
    #[error("the policy has a fault")]
    Fault(RuleFault),
    /// Want of memory.
    #[error("out of memory")]
    Memory,
}

impl From<Memory> for SanitizeError {
    ghost from_gives = { λ _ error. error ≡ WantOfMemory };

    fn from(_memory: Memory) -> SanitizeError {
        SanitizeError::Memory
    }
}

impl<T: Drop> From<AllocFailed<T>> for SanitizeError {
    ghost from_gives = { λ _ error. error ≡ WantOfMemory };

    fn from(_memory: AllocFailed<T>) -> SanitizeError {
        SanitizeError::Memory
    }
}

/// Where a fault stands: at a rule's subject, or at an entry of one of its sections.
#[derive(Clone, Copy)]
pub(crate) struct Location {
    /// The rule's place in the policy, from 0.
    pub rule: u32,
    /// The section and the entry's place in it, from 0; `None` for the subject.
    pub at: Option<(Section, u32)>,
}

impl Location {
    /// The fault of this cause, here.
    pub(crate) fn fault(self, cause: RuleCause) -> SanitizeError
        ensures { result ≡ Refused (fault_at self cause) }
    {
        SanitizeError::Fault(RuleFault {
            number: cause.number(),
            rule: self.rule,
            at: self.at,
        })
    }
}
