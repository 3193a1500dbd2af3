//! How two tables differ is written to a sink.
ghost use Rattle.std.specs.Prelude.{◌≡◌, ◌⊎◌, IfOk, IfSome, IsSomeAnd, IsTrue};
ghost use Rattle.std.specs.Io.KnownBytes.{IsAtEnd, Keeps};
ghost use Rattle.pol_streams.specs.Faults.{Rose, DidNotRise};
ghost use Rattle.pol_streams.specs.Bytes.{ConsumesSome};
ghost use Rattle.pol_status.specs.Limits.{is_too_long, fits_limits};
ghost use Rattle.policyd.specs.Headline.{TellsFinding, WritesFinding, WritesPartOfFinding};
ghost use Rattle.policyd.specs.Ends.{is_answered, has_read_all, is_silent, status_number};

use crate::source::script_of;
use crate::status::Status;
use crate::text::write_text;
use pol_compare::{compare, finding_text};
use pol_data::Memory;
use pol_streams::{Sink, Source};
use std::alloc::Global;

/// Reads the whole text of two tables, and writes what is found of them.
pub fn play_audit<S: Source, K: Sink>(alloc: Global, source: &mut S, sink: &mut K) -> Status
    // What was written.
    ensures audit { IsTrue (is_answered result) → IfSome (S.left source.old)
        (λ text. WritesFinding (K.written sink.old) (K.written sink.new) text (status_number result)) }
    ensures part { result ≡ Status.Write → IfSome (S.left source.old)
        (λ text. WritesPartOfFinding (K.written sink.old) (K.written sink.new) text) }
    ensures silent { IsTrue (is_silent result) → Keeps (K.written sink.old) (K.written sink.new) }

    // Causes.
    ensures no_usage { result ≡ Status.Usage → ⊥ }
    ensures read { result ≡ Status.Read → Rose (S.faults source.old) (S.faults source.new) }
    ensures write { result ≡ Status.Write → Rose (K.faults sink.old) (K.faults sink.new) }
    ensures too_long { result ≡ Status.TooLong
        → IfSome (S.left source.old) (λ script. IsTrue (is_too_long script)) }
    ensures within { IsTrue (has_read_all result)
        → IfSome (S.left source.old) (λ script. IsTrue (fits_limits script)) }
    ensures complete { DidNotRise (S.faults source.old) (S.faults source.new)
        → DidNotRise (K.faults sink.old) (K.faults sink.new)
        → IsSomeAnd (S.left source.old) (λ script. IsTrue (fits_limits script))
        → IsTrue (is_answered result) ⊎ (result ≡ Status.Memory) }

    // What was read.
    ensures taken { ConsumesSome (S.left source.old) (S.left source.new) }
    ensures at_end { IsTrue (has_read_all result) → IsAtEnd (S.left source.new) }
{
    match script_of(alloc, source) {
        Ok(text) => write_finding(alloc, text.as_slice(), sink),
        Err(status) => status,
    }
}

// What is found of a text.
fn write_finding<K: Sink>(alloc: Global, text: &[u8], sink: &mut K) -> Status
    requires { IsTrue (fits_limits text.now) }
    ensures end { IsTrue (has_read_all result) ⊎ (result ≡ Status.Memory) }
    ensures write { result ≡ Status.Write → Rose (K.faults sink.old) (K.faults sink.new) }
    ensures silent { result ≡ Status.Memory → Keeps (K.written sink.old) (K.written sink.new) }
    ensures audit { IsTrue (is_answered result)
        → WritesFinding (K.written sink.old) (K.written sink.new) text.now (status_number result) }
    ensures part { result ≡ Status.Write
        → WritesPartOfFinding (K.written sink.old) (K.written sink.new) text.now }
{
    match finding_of(alloc, text) {
        Err(Memory) => Status::Memory,
        Ok(told) => write_text(told.line.as_slice(), told.marked, sink),
    }
}

// What is found, as it is written.
#[derive(Drop)]
struct Told {
    line: Vec<u8>,
    marked: bool,
}

fn finding_of(alloc: Global, text: &[u8]) -> Result<Told, Memory>
    requires { IsTrue (fits_limits text.now) }
    ensures { IfOk result (λ told. TellsFinding text.now told.line.items told.marked) }
{
    let finding = compare(alloc, text)?;
    let line = finding_text(alloc, &finding)?;
    Ok(Told {
        line,
        marked: !finding.is_same(),
    })
}
