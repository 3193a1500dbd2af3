//! A source is read to its end.
ghost use Rattle.std.specs.Prelude.{◌≡◌, ◌<◌, ◌≤◌, ◌+◌, ◌++◌, length, vec_len, IfOk, IfSome, OnOk, IsErrOf};
ghost use Rattle.std.specs.Io.KnownBytes.{IsAtEnd};
ghost use Rattle.pol_streams.specs.Faults.{Rose};
ghost use Rattle.pol_streams.specs.Bytes.{ConsumesSome};

use crate::{ReadAllError, Source};
use std::alloc::Global;

// The most bytes that one read is asked for.
const PIECE: usize = 65_536;

/// Reads a source to its end, if no more than `limit` bytes are left.
///
/// `Fault` comes only where the count of the source's faults rose. `TooLong` comes exactly where more than
/// `limit` bytes were left, if neither a fault nor a want of memory came first: it comes only there, and `Ok`
/// has no more than `limit` bytes. What it takes from the source is a prefix of the bytes that were left, after
/// each refusal too. What it allocates grows with the bytes that it reads, not with `limit` (profile).
pub fn read_all<S: Source>(
    alloc: Global,
    source: &mut S,
    limit: usize,
) -> Result<Vec<u8>, ReadAllError>
    ensures whole { IfOk result (λ bytes.
        IfSome (S.left source.old) (λ left. bytes.items ≡ left)) }
    ensures at_end { OnOk result (IsAtEnd (S.left source.new)) }
    ensures within { IfOk result (λ bytes. vec_len bytes ≤ limit) }

    ensures fault { IsErrOf result ReadAllError.Fault →
        Rose (S.faults source.old) (S.faults source.new) }
    ensures too_long { IsErrOf result ReadAllError.TooLong →
        IfSome (S.left source.old) (λ left. limit < length left) }
    ensures prefix { ConsumesSome (S.left source.old) (S.left source.new) }

    ensures never_falls { S.faults source.old ≤ S.faults source.new }
{
    let mut buffer = vec![in alloc; 0; PIECE]?;
    let piece = buffer.as_mut_slice();
    let mut bytes = Vec::new(alloc);
    loop {
        let count = source.read(piece)?;
        let ended = count == 0;
        if ended {
            return Ok(bytes);
        }
        append(&mut bytes, &piece[..count], limit)?;
    }
}

// Appends a piece to what was read before, if both stay within the limit.
fn append(bytes: &mut Vec<u8>, piece: &[u8], limit: usize) -> Result<(), ReadAllError>
    requires { vec_len bytes.old ≤ limit }
    ensures ok { OnOk result (bytes.new.items ≡ bytes.old.items ++ piece.now) }
    ensures fits { OnOk result (vec_len bytes.old + length piece.now ≤ limit) }
    ensures too_long { IsErrOf result ReadAllError.TooLong →
        limit < length (bytes.old.items ++ piece.now) }
    ensures no_fault { IsErrOf result ReadAllError.Fault → ⊥ }
{
    if piece.len() > limit - bytes.len() {
        return Err(ReadAllError::TooLong);
    }
    bytes.extend_from_slice(piece)?;
    Ok(())
}
