//! The map that a script leaves an endpoint with is written to a sink.
ghost use Rattle.std.specs.Prelude.{◌≡◌, ◌⊎◌, None, IfSome, IsSomeAnd, IsTrue};
ghost use Rattle.std.specs.Io.KnownBytes.{IsAtEnd, Keeps};
ghost use Rattle.pol_streams.specs.Faults.{Rose, DidNotRise};
ghost use Rattle.pol_streams.specs.Bytes.{AppendsPart, ConsumesSome};
ghost use Rattle.pol_map_dump.specs.AtEnd.{map_text};
ghost use Rattle.pol_status.specs.Limits.{is_too_long, fits_limits};
ghost use Rattle.policyd.specs.Headline.{WritesMap};
ghost use Rattle.policyd.specs.Ends.{is_answered, has_read_all, is_silent, status_number};

use crate::source::script_of;
use crate::status::Status;
use crate::text::write_text;
use pol_data::Memory;
use pol_map_dump::map_at_end;
use pol_model::Options;
use pol_streams::{Sink, Source};
use std::alloc::Global;

/// Reads the whole script, commits its requests in their order, and writes the map of the endpoint of that name.
pub fn play_map<S: Source, K: Sink>(
    alloc: Global,
    options: Options,
    name: &str,
    source: &mut S,
    sink: &mut K,
) -> Status
    requires { options.map_max ≡ None }

    // What was written.
    ensures map { IsTrue (is_answered result) → IfSome (S.left source.old)
        (λ script. WritesMap options name.now (K.written sink.old) (K.written sink.new) script (status_number result)) }
    ensures part { result ≡ Status.Write → IfSome (S.left source.old)
        (λ script. AppendsPart (K.written sink.old) (K.written sink.new) (map_text options name.now script)) }
    ensures silent { IsTrue (is_silent result) → Keeps (K.written sink.old) (K.written sink.new) }

    // Causes.
    ensures no_usage { result ≡ Status.Usage → ⊥ }
    ensures read { result ≡ Status.Read → Rose (S.faults source.old) (S.faults source.new) }
    ensures write { result ≡ Status.Write → Rose (K.faults sink.old) (K.faults sink.new) }
    ensures too_long { result ≡ Status.TooLong
        → IfSome (S.left source.old) (λ script. IsTrue (is_too_long script)) }
    ensures within { IsTrue (has_read_all result)
        → IfSome (S.left source.old) (λ script. IsTrue (fits_limits script)) }
    ensures complete { DidNotRise (S.faults source.old) (S.faults source.new)
        → DidNotRise (K.faults sink.old) (K.faults sink.new)
        → IsSomeAnd (S.left source.old) (λ script. IsTrue (fits_limits script))
        → IsTrue (is_answered result) ⊎ (result ≡ Status.Memory) }

    // What was read.
    ensures taken { ConsumesSome (S.left source.old) (S.left source.new) }
    ensures at_end { IsTrue (has_read_all result) → IsAtEnd (S.left source.new) }
{
    match script_of(alloc, source) {
        Ok(script) => write_map(alloc, options, name, script.as_slice(), sink),
        Err(status) => status,
    }
}

// The map at the end of a script.
fn write_map<K: Sink>(
    alloc: Global,
    options: Options,
    name: &str,
    script: &[u8],
    sink: &mut K,
) -> Status
    requires { options.map_max ≡ None }
    ensures end { IsTrue (has_read_all result) ⊎ (result ≡ Status.Memory) }
    ensures write { result ≡ Status.Write → Rose (K.faults sink.old) (K.faults sink.new) }
    ensures silent { result ≡ Status.Memory → Keeps (K.written sink.old) (K.written sink.new) }
    ensures map { IsTrue (is_answered result)
        → WritesMap options name.now (K.written sink.old) (K.written sink.new) script.now (status_number result) }
    ensures part { result ≡ Status.Write
        → AppendsPart (K.written sink.old) (K.written sink.new) (map_text options name.now script.now) }
{
    match map_at_end(alloc, options, name, script) {
        Err(Memory) => Status::Memory,
        Ok(map) => write_text(map.text.as_slice(), !map.live, sink),
    }
}
