//! The input is read from a source.
ghost use Rattle.std.specs.Prelude.{◌≡◌, IfOk, IfErr, IfSome, IsErrOf, OnOk, IsTrue};
ghost use Rattle.std.specs.Io.KnownBytes.{IsAtEnd};
ghost use Rattle.pol_streams.specs.Faults.{Rose};
ghost use Rattle.pol_streams.specs.Bytes.{ConsumesSome};
ghost use Rattle.pol_status.specs.Limits.{is_too_long, fits_limits};
ghost use Rattle.connections.specs.Ends.{is_silent};

use crate::status::RunEnd;
use pol_script::count_lines;
use pol_streams::{ReadAllError, Source, read_all};
use std::alloc::Global;

// The most bytes and the most lines of the input.
const INPUT_MAX: usize = 67_108_864;

const LINES_MAX: usize = 1_000_000;

/// All that the source gives, within the limits.
pub(crate) fn input_of<S: Source>(alloc: Global, source: &mut S) -> Result<Vec<u8>, RunEnd>
    ensures no_usage { IsErrOf result RunEnd.Usage → ⊥ }
    ensures read { IsErrOf result RunEnd.Read → Rose (S.faults source.old) (S.faults source.new) }
    ensures too_long { IsErrOf result RunEnd.TooLong
        → IfSome (S.left source.old) (λ input. IsTrue (is_too_long input)) }
    ensures input { IfOk result
        (λ bytes. IfSome (S.left source.old) (λ input. bytes.items ≡ input)) }
    ensures within { IfOk result (λ bytes. IsTrue (fits_limits bytes.items)) }
    ensures taken { ConsumesSome (S.left source.old) (S.left source.new) }
    ensures at_end { OnOk result (IsAtEnd (S.left source.new)) }
    ensures silent { IfErr result (λ status. IsTrue (is_silent status)) }
{
    let input = match read_all(alloc, source, INPUT_MAX) {
        Ok(input) => input,
        Err(ReadAllError::Fault) => return Err(RunEnd::Read),
        Err(ReadAllError::TooLong) => return Err(RunEnd::TooLong),
        Err(ReadAllError::Memory) => return Err(RunEnd::Memory),
    };
    if count_lines(input.as_slice()) > LINES_MAX {
        return Err(RunEnd::TooLong);
    }
    Ok(input)
}
