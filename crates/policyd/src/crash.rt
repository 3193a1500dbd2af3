//! A crash is drilled, and what is found behind it is written to a sink.
ghost use Rattle.std.specs.Prelude.{◌≡◌, ◌≤◌, ◌⊎◌, IfSome, IsSomeAnd, IsTrue};
ghost use Rattle.std.specs.Io.KnownBytes.{IsAtEnd, Keeps};
ghost use Rattle.pol_streams.specs.Faults.{Rose, DidNotRise};
ghost use Rattle.pol_streams.specs.Bytes.{ConsumesSome};
ghost use Rattle.pol_status.specs.Limits.{is_too_long, fits_limits};
ghost use Rattle.policyd.specs.Headline.{WritesDrill, WritesPartOfDrill};
ghost use Rattle.policyd.specs.Ends.{is_answered, has_read_all, is_silent, status_number};

use crate::source::script_of;
use crate::status::Status;
use crate::text::write_text;
use pol_crash_drill::drill;
use pol_data::Memory;
use pol_model::Options;
use pol_streams::{Sink, Source};
use std::alloc::Global;

/// Reads the whole script, plays its lines over a disk in memory that fails from that call on, and writes the answers that come
/// before it, and how many requests are found on the disk after a crash.
pub fn play_crash<S: Source, K: Sink>(
    alloc: Global,
    options: Options,
    call: u32,
    source: &mut S,
    sink: &mut K,
) -> Status
    requires limit { IsSomeAnd options.map_max (λ limit. limit ≤ 65536) }
    requires first { 1 ≤ call }

    // What was written.
    ensures drill { IsTrue (is_answered result) → IfSome (S.left source.old)
        (λ script. WritesDrill options call (K.written sink.old) (K.written sink.new) script (status_number result)) }
    ensures part { result ≡ Status.Write → IfSome (S.left source.old)
        (λ script. WritesPartOfDrill options call (K.written sink.old) (K.written sink.new) script) }
    ensures silent { IsTrue (is_silent result) → Keeps (K.written sink.old) (K.written sink.new) }

    // Causes.
    ensures no_usage { result ≡ Status.Usage → ⊥ }
    ensures read { result ≡ Status.Read → Rose (S.faults source.old) (S.faults source.new) }
    ensures write { result ≡ Status.Write → Rose (K.faults sink.old) (K.faults sink.new) }
    ensures too_long { result ≡ Status.TooLong → IfSome (S.left source.old) (λ script. IsTrue (is_too_long script)) }
    ensures within { IsTrue (has_read_all result) → IfSome (S.left source.old) (λ script. IsTrue (fits_limits script)) }
    ensures complete { DidNotRise (S.faults source.old) (S.faults source.new)
        → DidNotRise (K.faults sink.old) (K.faults sink.new)
        → IsSomeAnd (S.left source.old) (λ script. IsTrue (fits_limits script))
        → IsTrue (is_answered result) ⊎ (result ≡ Status.Memory) }

    // What was read.
    ensures taken { ConsumesSome (S.left source.old) (S.left source.new) }
    ensures at_end { IsTrue (has_read_all result) → IsAtEnd (S.left source.new) }
{
    match script_of(alloc, source) {
        Ok(script) => write_drill(alloc, options, call, script.as_slice(), sink),
        Err(status) => status,
    }
}

// The drill of a script.
fn write_drill<K: Sink>(
    alloc: Global,
    options: Options,
    call: u32,
    script: &[u8],
    sink: &mut K,
) -> Status
    requires limit { IsSomeAnd options.map_max (λ limit. limit ≤ 65536) }
    requires first { 1 ≤ call }
    requires within { IsTrue (fits_limits script.now) }
    ensures end { IsTrue (has_read_all result) ⊎ (result ≡ Status.Memory) }
    ensures write { result ≡ Status.Write → Rose (K.faults sink.old) (K.faults sink.new) }
    ensures silent { result ≡ Status.Memory → Keeps (K.written sink.old) (K.written sink.new) }
    ensures drill { IsTrue (is_answered result)
        → WritesDrill options call (K.written sink.old) (K.written sink.new) script.now (status_number result) }
    ensures part { result ≡ Status.Write
        → WritesPartOfDrill options call (K.written sink.old) (K.written sink.new) script.now }
{
    match drill(alloc, options, call, script) {
        Err(Memory) => Status::Memory,
        Ok(drilled) => write_text(drilled.text.as_slice(), drilled.marked, sink),
    }
}
