//! A script is read whole.
ghost use Rattle.std.specs.Prelude.{◌≡◌, ◌⊎◌, IfErr, IfOk, IfSome, IsErrOf, IsTrue, OnOk};
ghost use Rattle.std.specs.Io.KnownBytes.{IsAtEnd};
ghost use Rattle.pol_streams.specs.Faults.{Rose};
ghost use Rattle.pol_streams.specs.Bytes.{ConsumesSome};
ghost use Rattle.pol_status.specs.Limits.{fits_limits, is_too_long};

use crate::status::Status;
use pol_script::count_lines;
use pol_streams::{ReadAllError, Source, read_all};
use std::alloc::Global;

// The most bytes and the most lines of a script.
const INPUT_MAX: usize = 67_108_864;

const LINES_MAX: usize = 1_000_000;

/// All that the source gives, if it has at most 67,108,864 bytes and 1,000,000 lines ('profile').
///
/// `Read` comes only where the count of the source's faults rose, and `TooLong` exactly where the script is longer, if neither a fault
/// nor a want of memory came first. The third error is `Memory`.
pub fn read_script_bytes<S: Source>(alloc: Global, source: &mut S) -> Result<Vec<u8>, Status>
    // On success.
    ensures script { IfOk result (λ bytes. IfSome (S.left source.old) (λ script. bytes.items ≡ script)) }
    ensures within { IfOk result (λ bytes. IsTrue (fits_limits bytes.items)) }
    ensures at_end { OnOk result (IsAtEnd (S.left source.new)) }

    // On failure.
    ensures causes { IfErr result (λ status.
        (status ≡ Status.Read) ⊎ ((status ≡ Status.TooLong) ⊎ (status ≡ Status.Memory))) }
    ensures read { IsErrOf result Status.Read → Rose (S.faults source.old) (S.faults source.new) }
    ensures too_long { IsErrOf result Status.TooLong
        → IfSome (S.left source.old) (λ script. IsTrue (is_too_long script)) }

    // Always.
    ensures taken { ConsumesSome (S.left source.old) (S.left source.new) }
{
    let script = match read_all(alloc, source, INPUT_MAX) {
        Ok(script) => script,
        Err(ReadAllError::Fault) => return Err(Status::Read),
        Err(ReadAllError::TooLong) => return Err(Status::TooLong),
        Err(ReadAllError::Memory) => return Err(Status::Memory),
    };
    if count_lines(script.as_slice()) > LINES_MAX {
        return Err(Status::TooLong);
    }
    Ok(script)
}
