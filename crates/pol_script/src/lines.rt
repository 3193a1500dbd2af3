//! The lines of a script: it is cut at each newline byte (profile).
ghost use Rattle.std.specs.Prelude.{◌≡◌, ◌<◌, [], ◌∷◌, length, map, IfSome, IfNone, IfOk};
ghost use Rattle.pol_script.specs.Lines.{lines_of};
ghost use Rattle.pol_script.specs.Reading.{reading_of};

use crate::{Command, LineError, LineFault, read_line};
use memchr::memchr;
use pol_data::Memory;
use std::alloc::Global;

/// What a line reads as: its command, or its first fault.
pub type Reading = Result<Command, LineFault>;

/// The first line, without its newline, and the bytes behind it; none where there is no line.
fn split_line(bytes: &[u8]) -> Option<(&[u8], &[u8])>
    ensures none { IfNone result (lines_of bytes.now ≡ []) }
    ensures line { IfSome result (λ parts. lines_of bytes.now ≡ parts.0.now ∷ lines_of parts.1.now) }
    ensures shorter { IfSome result (λ parts. length parts.1.now < length bytes.now) }
{
    match memchr(b'\n', bytes) {
        Some(end) => Some((&bytes[..end], &bytes[end + 1..])),
        None => {
            if bytes.is_empty() {
                None
            } else {
                Some((bytes, &bytes[bytes.len()..]))
            }
        }
    }
}

/// How many lines a script has. A last piece without a newline is a line if it isn't empty.
/// It takes no memory, and goes once over the bytes.
pub fn count_lines(bytes: &[u8]) -> usize
    ensures count { result ≡ length (lines_of bytes.now) }
{
    let mut count = 0;
    let mut rest = bytes;
    while let Some((_, behind)) = split_line(rest) {
        count += 1;
        rest = behind;
    }
    count
}

fn reading_of(alloc: Global, line: &[u8]) -> Result<Reading, Memory>
    ensures { IfOk result (λ reading. reading ≡ reading_of line.now) }
{
    match read_line(alloc, line) {
        Ok(command) => Ok(Ok(command)),
        Err(LineError::Fault(fault)) => Ok(Err(fault)),
        Err(LineError::Memory) => Err(Memory),
    }
}

/// What each line of a script reads as, in order.
/// The one error is want of memory.
pub fn read_script(alloc: Global, bytes: &[u8]) -> Result<Vec<Reading>, Memory>
    ensures readings { IfOk result (λ readings. readings.items ≡ map reading_of (lines_of bytes.now)) }
{
    let mut readings = Vec::with_capacity(alloc, count_lines(bytes))?;
    let mut rest = bytes;
    while let Some((line, behind)) = split_line(rest) {
        readings.push(reading_of(alloc, line)?)?;
        rest = behind;
    }
    Ok(readings)
}
