//! All that the program does, over any source and sink.
ghost use Rattle.std.specs.Prelude.{◌≡◌, ◌⊎◌, map, string_bytes, None, IfSome, IsSomeAnd, IsTrue, is_some};
ghost use Rattle.std.specs.Io.KnownBytes.{Appends, IsAtEnd, Keeps};
ghost use Rattle.pol_streams.specs.Faults.{Rose, DidNotRise};
ghost use Rattle.pol_streams.specs.Bytes.{AppendsPart, ConsumesSome};
ghost use Rattle.pol_command_line.specs.Options.{options_given};
ghost use Rattle.connections.specs.Ends.{is_answered, has_read_all, is_silent, status_number};
ghost use Rattle.connections.specs.Headline.{WritesConnections};
ghost use Rattle.pol_status.specs.Limits.{is_too_long, fits_limits};
ghost use Rattle.connections.specs.Told.{told_text};

use crate::source::input_of;
use crate::status::RunEnd;
use crate::tell::tell;
use pol_command_line::{ConnectionWords, WordsError, read_options};
use pol_data::Memory;
use pol_streams::{Failed, Sink, Source, write_all};
use std::alloc::Global;

/// Reads a script from the source, or two with the line `--` between them, and writes which connections are open at its end,
/// or which open and shut from the end of the first to that of the second, or of which a half changes, where halves are asked
/// for. Before these stand the lines that were refused, and of two scripts the names of ends that one alone has.
///
/// Words that don't fit are status `Usage`, and nothing is read then. The whole source is read before a line of it is
/// (`Read`, `TooLong`), and nothing is written before all is known (`Write`). Want of memory may come at any point before the
/// first write ('profile').
pub fn play_connections<S: Source, K: Sink>(
    alloc: Global,
    words: &[String],
    source: &mut S,
    sink: &mut K,
) -> RunEnd
    // The words.
    ensures usage { result ≡ RunEnd.Usage → options_given (map string_bytes words.now) ≡ None }
    ensures misfit { options_given (map string_bytes words.now) ≡ None
        → (result ≡ RunEnd.Usage) ⊎ (result ≡ RunEnd.Memory) }
    ensures unread { result ≡ RunEnd.Usage → source.new ≡ source.old }

    // What is read.
    ensures read { result ≡ RunEnd.Read → Rose (S.faults source.old) (S.faults source.new) }
    ensures too_long { result ≡ RunEnd.TooLong → IfSome (S.left source.old) (λ input. IsTrue (is_too_long input)) }
    ensures within { IsTrue (has_read_all result) → IfSome (S.left source.old) (λ input. IsTrue (fits_limits input)) }
    ensures taken { ConsumesSome (S.left source.old) (S.left source.new) }
    ensures at_end { IsTrue (has_read_all result) → IsAtEnd (S.left source.new) }

    // What is written.
    ensures connections { IsTrue (is_answered result) → IfSome (options_given (map string_bytes words.now)) (λ asked.
        IfSome (S.left source.old) (λ input.
        WritesConnections asked (K.written sink.old) (K.written sink.new) input (status_number result))) }
    ensures write { result ≡ RunEnd.Write → Rose (K.faults sink.old) (K.faults sink.new) }
    ensures part { result ≡ RunEnd.Write → IfSome (options_given (map string_bytes words.now)) (λ asked.
        IfSome (S.left source.old) (λ input.
        AppendsPart (K.written sink.old) (K.written sink.new) (told_text asked input))) }
    ensures silent { IsTrue (is_silent result) → Keeps (K.written sink.old) (K.written sink.new) }

    // Without a fault all is written, want of memory aside.
    ensures complete { IsTrue (is_some (options_given (map string_bytes words.now)))
        → DidNotRise (S.faults source.old) (S.faults source.new)
        → DidNotRise (K.faults sink.old) (K.faults sink.new)
        → IsSomeAnd (S.left source.old) (λ input. IsTrue (fits_limits input))
        → IsTrue (is_answered result) ⊎ (result ≡ RunEnd.Memory) }
{
    match read_options(alloc, words) {
        Err(WordsError::Misfit) => RunEnd::Usage,
        Err(WordsError::Memory) => RunEnd::Memory,
        Ok(asked) => play_source(alloc, asked, source, sink),
    }
}

/// The same, where this is asked.
fn play_source<S: Source, K: Sink>(
    alloc: Global,
    asked: ConnectionWords,
    source: &mut S,
    sink: &mut K,
) -> RunEnd
    requires { asked.options.map_max ≡ None }
    ensures no_usage { result ≡ RunEnd.Usage → ⊥ }
    ensures read { result ≡ RunEnd.Read → Rose (S.faults source.old) (S.faults source.new) }
    ensures too_long { result ≡ RunEnd.TooLong → IfSome (S.left source.old) (λ input. IsTrue (is_too_long input)) }
    ensures within { IsTrue (has_read_all result) → IfSome (S.left source.old) (λ input. IsTrue (fits_limits input)) }
    ensures taken { ConsumesSome (S.left source.old) (S.left source.new) }
    ensures at_end { IsTrue (has_read_all result) → IsAtEnd (S.left source.new) }
    ensures connections { IsTrue (is_answered result) → IfSome (S.left source.old) (λ input.
        WritesConnections asked (K.written sink.old) (K.written sink.new) input (status_number result)) }
    ensures write { result ≡ RunEnd.Write → Rose (K.faults sink.old) (K.faults sink.new) }
    ensures part { result ≡ RunEnd.Write → IfSome (S.left source.old) (λ input.
        AppendsPart (K.written sink.old) (K.written sink.new) (told_text asked input)) }
    ensures silent { IsTrue (is_silent result) → Keeps (K.written sink.old) (K.written sink.new) }
    ensures complete { DidNotRise (S.faults source.old) (S.faults source.new)
        → DidNotRise (K.faults sink.old) (K.faults sink.new)
        → IsSomeAnd (S.left source.old) (λ input. IsTrue (fits_limits input))
        → IsTrue (is_answered result) ⊎ (result ≡ RunEnd.Memory) }
{
    match input_of(alloc, source) {
        Ok(input) => write_told(alloc, asked, input.as_slice(), sink),
        Err(status) => status,
    }
}

/// What is told of the input is written.
fn write_told<K: Sink>(alloc: Global, asked: ConnectionWords, input: &[u8], sink: &mut K) -> RunEnd
    requires { asked.options.map_max ≡ None }
    ensures end { IsTrue (has_read_all result) ⊎ (result ≡ RunEnd.Memory) }
    ensures write { result ≡ RunEnd.Write → Rose (K.faults sink.old) (K.faults sink.new) }
    ensures silent { result ≡ RunEnd.Memory → Keeps (K.written sink.old) (K.written sink.new) }
    ensures connections { IsTrue (is_answered result)
        → WritesConnections asked (K.written sink.old) (K.written sink.new) input.now (status_number result) }
    ensures part { result ≡ RunEnd.Write
        → AppendsPart (K.written sink.old) (K.written sink.new) (told_text asked input.now) }
{
    match tell(alloc, asked, input) {
        Err(Memory) => RunEnd::Memory,
        Ok(told) => write_text(told.text.as_slice(), told.status, sink),
    }
}

/// The whole text is written, and the end is this status; or a write fails.
#[tactic(auto, using(crate::proofs::Writing::has_read))]
fn write_text<K: Sink>(text: &[u8], status: RunEnd, sink: &mut K) -> RunEnd
    requires { IsTrue (is_answered status) }
    ensures end { IsTrue (has_read_all result) }
    ensures same { IsTrue (is_answered result) → result ≡ status }
    ensures all { IsTrue (is_answered result) → Appends (K.written sink.old) (K.written sink.new) text.now }
    ensures write { result ≡ RunEnd.Write → Rose (K.faults sink.old) (K.faults sink.new) }
    ensures part { result ≡ RunEnd.Write → AppendsPart (K.written sink.old) (K.written sink.new) text.now }
{
    match write_all(sink, text) {
        Err(Failed) => RunEnd::Write,
        Ok(()) => status,
    }
}
