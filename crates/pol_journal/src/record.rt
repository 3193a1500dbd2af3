//! One record of a journal.
ghost use Rattle.std.specs.Prelude.{◌≡◌, IfOk, IsErrOf, None, OnOk, Some, true};
ghost use Rattle.pol_journal.specs.Journal.{asked_in};
ghost use Rattle.pol_journal.specs.Records.{asked_behind};
ghost use Rattle.pol_record_log.specs.Records.{is_whole, next_in};

use pol_data::Memory;
use pol_model::Request;
use pol_record_log::read_record;
use pol_script::{Command, LineError, read_line};
use std::alloc::Global;
use thiserror::Error;

/// Why a record wasn't read.
#[derive(Clone, Copy, Debug, PartialEq, Eq, Error)]
pub enum RecordError {
    /// The record or the next gate doesn't lie in the bytes, or the line isn't read as a commit.
    #[error("the record is damaged")]
    Damaged,
    /// Memory was refused.
    #[error("out of memory")]
    Memory,
}

/// The request of a line that is read as a commit, and none where it is read as anything else or has a fault. The one error is
/// want of memory.
pub fn read_commit(alloc: Global, line: &[u8]) -> Result<Option<Request>, Memory>
    ensures request { IfOk result (λ found. found ≡ asked_in line.now) }
{
    match read_line(alloc, line) {
        Ok(
            Command::Commit {
                session: _,
                request,
            },
        ) => Ok(Some(request)),
        Ok(_) => Ok(None),
        Err(LineError::Fault(_)) => Ok(None),
        Err(LineError::Memory) => Err(Memory),
    }
}

/// The request of the record behind an open gate, and the bytes from the next gate on. `Damaged` comes exactly where the record or
/// the next gate doesn't lie in the bytes, or the line isn't read as a commit, if memory was there.
pub fn read_request(alloc: Global, behind: &[u8]) -> Result<(Request, &[u8]), RecordError>
    ensures whole { OnOk result (is_whole behind.now ≡ true) }
    ensures request { IfOk result (λ parts. asked_behind behind.now ≡ Some parts.0) }
    ensures next { IfOk result (λ parts. parts.1.now ≡ next_in behind.now) }
    ensures damaged { IsErrOf result RecordError.Damaged → asked_behind behind.now ≡ None }
{
    let Some((line, next)) = read_record(behind) else {
        return Err(RecordError::Damaged);
    };
    match read_commit(alloc, line) {
        Ok(Some(request)) => Ok((request, next)),
        Ok(None) => Err(RecordError::Damaged),
        Err(_) => Err(RecordError::Memory),
    }
}
