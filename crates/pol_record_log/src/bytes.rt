//! A record as bytes.
ghost use Rattle.std.specs.Prelude.{◌≡◌, ◌<◌, ◌^◌, ◌++◌, [], ◌∷◌, length, true, false, IfNone, IfOk, IfSome};
ghost use Rattle.pol_record_log.specs.Records.{is_whole, line_in, next_in, record_of};

use pol_disk::Memory;
use std::alloc::Global;

/// The line behind an open gate, and the bytes from the next gate on. None exactly where the record or the next gate doesn't lie
/// in the bytes. It takes no memory.
pub fn read_record(behind: &[u8]) -> Option<(&[u8], &[u8])>
    ensures none { IfNone result (is_whole behind.now ≡ false) }
    ensures whole { IfSome result (λ parts. is_whole behind.now ≡ true) }
    ensures line { IfSome result (λ parts. parts.0.now ≡ line_in behind.now) }
    ensures next { IfSome result (λ parts. parts.1.now ≡ next_in behind.now) }
{
    let [a, b, c, d, rest @ ..] = behind else {
        return None;
    };
    let size = u32::from_be_bytes([*a, *b, *c, *d]) as usize;
    if size >= rest.len() {
        return None;
    }
    Some((&rest[..size], &rest[size..]))
}

/// A line as its record has it, and a closed gate behind it. The one error is want of memory.
pub fn write_record(alloc: Global, line: &[u8]) -> Result<Vec<u8>, Memory>
    requires { length line.now < 2 ^ 32 }
    ensures { IfOk result (λ bytes. bytes.items ≡ record_of line.now ++ 0 ∷ []) }
{
    let mut bytes = Vec::with_capacity(alloc, line.len() + 5)?;
    bytes.extend_from_slice(&(line.len() as u32).to_be_bytes())?;
    bytes.extend_from_slice(line)?;
    bytes.push(0)?;
    Ok(bytes)
}
