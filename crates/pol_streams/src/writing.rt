//! A whole text is written to a sink.
ghost use Rattle.std.specs.Prelude.{◌≤◌, OnOk, OnErr, IsErr};
ghost use Rattle.std.specs.Io.KnownBytes.{Appends};
ghost use Rattle.pol_streams.specs.Faults.{Rose};
ghost use Rattle.pol_streams.specs.Bytes.{AppendsPart};

use crate::{Failed, Sink};

/// Writes all of `bytes`. It answers `Failed` only where the count of the sink's faults rose, and then some of
/// `bytes`, from the front and not all of them, were appended. It takes no memory (profile).
pub fn write_all<K: Sink>(sink: &mut K, bytes: &[u8]) -> Result<(), Failed>
    ensures written { OnOk result (Appends (K.written sink.old) (K.written sink.new) bytes.now) }
    ensures part { OnErr result (AppendsPart (K.written sink.old) (K.written sink.new) bytes.now) }
    ensures failed { IsErr result → Rose (K.faults sink.old) (K.faults sink.new) }
    ensures never_falls { K.faults sink.old ≤ K.faults sink.new }
{
    let mut rest = bytes;
    while !rest.is_empty() {
        let count = sink.write(rest)?;
        rest = &rest[count..];
    }
    Ok(())
}
