//! What a line of the script is refused for.

ghost use Rattle.std.specs.Prelude.{◌≡◌};
ghost use Rattle.pol_script.specs.Gives.{of_document, of_label, of_labels, of_network, of_rules};
ghost use Rattle.pol_script.specs.declared.line_fault.LineError.TheVariants.{Memory as WantOfMemory};

use pol_data::{Memory, Text};
use pol_json::{DocError, DocFault};
use pol_labels::{LabelError, SetError};
use pol_netpol::{NetError, NetFault};
use pol_rule::RuleFault;
use pol_sanitize::SanitizeError;
use std::alloc::AllocFailed;
use thiserror::Error;

/// The first fault of a line ('profile'). It depends on the line alone.
#[derive(Debug, Drop)]
pub enum LineFault {
    /// 1: the line is no JSON value, or its value is no object.
    Json,
    /// 2: `op` is absent, or none of the operations.
    NoOp,
    /// 3: this member is absent though it is needed, or has the wrong form.
    BadField(Text),
    /// 4: the operation has no member of this name.
    UnknownField(Text),
    /// 10 to 14 and 25: the policy document has a fault.
    Doc(DocFault),
    /// 15 to 24, and 26 to 28: a rule of the policy has a fault, or a part of a NetworkPolicy has.
    Rule(RuleFault),
    /// 39: a label text is bad.
    BadLabel,
    /// 40: two labels share source and key.
    DuplicateLabelKey,
    /// 42: the address text is of neither family.
    BadAddress,
}

/// Why a line was not read.
#[derive(Debug, Drop, Error)]
pub enum LineError {
    /// The line has a fault.
    #[error("the line has a fault")]
    Fault(LineFault),
    /// Want of memory.
    #[error("out of memory")]
    Memory,
}

impl From<Memory> for LineError {
    ghost from_gives = { λ _ error. error ≡ WantOfMemory };

    fn from(_memory: Memory) -> LineError {
        LineError::Memory
    }
}

impl<T: Drop> From<AllocFailed<T>> for LineError {
    ghost from_gives = { λ _ error. error ≡ WantOfMemory };

    fn from(_memory: AllocFailed<T>) -> LineError {
        LineError::Memory
    }
}

impl From<DocError> for LineError {
    ghost from_gives = { λ inner error. error ≡ of_document inner };

    fn from(error: DocError) -> LineError {
        match error {
            DocError::Fault(fault) => LineError::Fault(LineFault::Doc(fault)),
            DocError::Memory => LineError::Memory,
        }
    }
}

impl From<SanitizeError> for LineError {
    ghost from_gives = { λ inner error. error ≡ of_rules inner };

    fn from(error: SanitizeError) -> LineError {
        match error {
            SanitizeError::Fault(fault) => LineError::Fault(LineFault::Rule(fault)),
            SanitizeError::Memory => LineError::Memory,
        }
    }
}

impl From<NetError> for LineError {
    ghost from_gives = { λ inner error. error ≡ of_network inner };

    fn from(error: NetError) -> LineError {
        match error {
            NetError::Fault(NetFault::Doc(fault)) => LineError::Fault(LineFault::Doc(fault)),
            NetError::Fault(NetFault::Rule(fault)) => LineError::Fault(LineFault::Rule(fault)),
            NetError::Memory => LineError::Memory,
        }
    }
}

impl From<LabelError> for LineError {
    ghost from_gives = { λ inner error. error ≡ of_label inner };

    fn from(error: LabelError) -> LineError {
        match error {
            LabelError::Bad => LineError::Fault(LineFault::BadLabel),
            LabelError::Memory => LineError::Memory,
        }
    }
}

impl From<SetError> for LineError {
    ghost from_gives = { λ inner error. error ≡ of_labels inner };

    fn from(error: SetError) -> LineError {
        match error {
            SetError::DuplicateKey => LineError::Fault(LineFault::DuplicateLabelKey),
            SetError::Memory => LineError::Memory,
        }
    }
}
