//! What a NetworkPolicy is refused for.
ghost use Rattle.std.specs.Prelude.{◌≡◌};
ghost use Rattle.pol_netpol.specs.Errors.{of_doc_error, of_rule_error};
ghost use Rattle.pol_netpol.specs.declared.fault.NetError.TheVariants.{Memory as WantOfMemory};

use pol_data::Memory;
use pol_json::{DocError, DocFault};
use pol_rule::RuleFault;
use pol_sanitize::SanitizeError;
use thiserror::Error;

/// The first fault of a NetworkPolicy ('profile').
#[derive(Debug, Drop)]
pub enum NetFault {
    /// 10 to 14 and 25: the document has a fault.
    Doc(DocFault),
    /// 15, 17 to 19, 21, 22 and 26 to 28: the object has a fault.
    Rule(RuleFault),
}

/// Why a NetworkPolicy was not read.
#[derive(Debug, Drop, Error)]
pub enum NetError {
    /// The document, or the object, has a fault.
    #[error("the NetworkPolicy has a fault")]
    Fault(NetFault),
    /// Want of memory.
    #[error("out of memory")]
    Memory,
}

impl From<Memory> for NetError {
    ghost from_gives = { λ _ error. error ≡ WantOfMemory };

    fn from(_memory: Memory) -> NetError {
        NetError::Memory
    }
}

impl From<DocError> for NetError {
    ghost from_gives = { λ inner error. error ≡ of_doc_error inner };

    fn from(error: DocError) -> NetError {
        match error {
            DocError::Fault(fault) => NetError::Fault(NetFault::Doc(fault)),
            DocError::Memory => NetError::Memory,
        }
    }
}

impl From<SanitizeError> for NetError {
    ghost from_gives = { λ inner error. error ≡ of_rule_error inner };

    fn from(error: SanitizeError) -> NetError {
        match error {
            SanitizeError::Fault(fault) => NetError::Fault(NetFault::Rule(fault)),
            SanitizeError::Memory => NetError::Memory,
        }
    }
}
