//! A text is written to a sink.
ghost use Rattle.std.specs.Prelude.{◌≡◌, IsTrue, if◌then◌else◌};
ghost use Rattle.std.specs.Io.KnownBytes.{Appends};
ghost use Rattle.pol_streams.specs.Faults.{Rose};
ghost use Rattle.pol_streams.specs.Bytes.{AppendsPart};
ghost use Rattle.policyd.specs.Ends.{has_read_all, is_answered, status_number};

use crate::source::end_of;
use crate::status::Status;
use pol_streams::{Failed, Sink, write_all};

/// Writes the whole text; the end is marked or clean.
pub(crate) fn write_text<K: Sink>(text: &[u8], marked: bool, sink: &mut K) -> Status
    ensures end { IsTrue (has_read_all result) }
    ensures write { result ≡ Status.Write → Rose (K.faults sink.old) (K.faults sink.new) }
    ensures all { IsTrue (is_answered result) → Appends (K.written sink.old) (K.written sink.new) text.now }
    ensures status { IsTrue (is_answered result) → status_number result ≡ (if marked then 1 else 0) }
    ensures part { result ≡ Status.Write → AppendsPart (K.written sink.old) (K.written sink.new) text.now }
{
    match write_all(sink, text) {
        Err(Failed) => Status::Write,
        Ok(()) => end_of(marked),
    }
}
