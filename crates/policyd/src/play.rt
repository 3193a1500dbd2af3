//! All that the program does, over any source and sink.
ghost use Rattle.std.specs.Prelude.{◌≡◌, map, string_bytes, IfSome, IsTrue};
ghost use Rattle.policyd.specs.Headline.{LeavesHistory, WritesRun};
ghost use Rattle.policyd.specs.Ends.{is_answered, status_number};
ghost use Rattle.policyd.specs.PlayEnds.{PlayEnds, PlayLeaves, PlayReads, PlayWrites};
ghost use Rattle.policyd.specs.Task.{reads_with, without_limit};

use crate::audit::play_audit;
use crate::crash::play_crash;
use crate::generate::play_generated;
use crate::map::play_map;
use crate::played::Played;
use crate::source::play_source;
use crate::status::Status;
use pol_command_line::{Task, Words, WordsError, read_words};
use pol_hints::{Gate, OpenGate};
use pol_model::Options;
use pol_streams::{Sink, Source};
use std::alloc::Global;
use std::sync::Wait;
use std::thread::Threads;

/// Reads a script from the source, answers its lines, and then writes all answers to the sink. With `--generate`
/// it plays a generated script instead, and writes its summary; the source isn't read then. With `--map NAME` the requests
/// of the script are committed in their order, and the map of the endpoint of that name at the end is written as a table.
/// With `--audit` two tables are read in place of a script, and compared by what they say. With `--crash-at N` the lines are
/// answered over a disk in memory that fails from call N on, and what is found on it after a crash is told.
///
/// Words that don't fit are status `Usage`, and nothing is read then. The whole source is read before a line is
/// answered (`Read`, `TooLong`), and nothing is written before each line is (`Write`). Want of memory may come at
/// any point before the first write ('profile').
///
/// `last` is what all passes of the run had seen after the last line: a legal history that holds what was written. It is
/// there where each line was answered.
pub fn play<R: Threads + Wait + Sync, S: Source, K: Sink>(
    rt: &R,
    alloc: Global,
    words: &[String],
    source: &mut S,
    sink: &mut K,
) -> Played
    // The headline: at 0 and 1, where the words ask for a script to be played, what was written is the text of a run of the
    // policy machine, and the history that is given back holds that text.
    ensures run { IsTrue (is_answered result.status) → IfSome (reads_with (map string_bytes words.now)) (λ options.
        IfSome (S.left source.old) (λ script.
        WritesRun options (K.written sink.old) (K.written sink.new) script (status_number result.status))) }
    ensures last { IsTrue (is_answered result.status) → IfSome (reads_with (map string_bytes words.now)) (λ options.
        IfSome (S.left source.old) (λ script.
        LeavesHistory options (K.written sink.old) (K.written sink.new) script result.last)) }

    // What else it wrote and left: a part of such a text at 4, what other words ask for, and nothing at 2, 3, 5 and 6.
    ensures writes { PlayWrites (map string_bytes words.now)
        (S.left source.old) (K.written sink.old) (K.written sink.new) result.status }
    ensures leaves { PlayLeaves (map string_bytes words.now) result.status result.last }

    // What it read.
    ensures reads { PlayReads (map string_bytes words.now)
        source.old source.new (S.left source.old) (S.left source.new) result.status }

    // Why it ended so.
    ensures ends { PlayEnds (map string_bytes words.now) (S.left source.old)
        (S.faults source.old) (S.faults source.new) (K.faults sink.old) (K.faults sink.new) result.status }
{
    play_gated(rt, alloc, words, source, sink, &OpenGate)
}

/// The same, where sessions and workers pass a gate: `start` before the first line of a session in a phase, `enter` and
/// `leave` around each call of a worker.
pub fn play_gated<R: Threads + Wait + Sync, S: Source, K: Sink, G: Gate + Sync>(
    rt: &R,
    alloc: Global,
    words: &[String],
    source: &mut S,
    sink: &mut K,
    gate: &G,
) -> Played
    // The headline: at 0 and 1, where the words ask for a script to be played, what was written is the text of a run of the
    // policy machine, and the history that is given back holds that text.
    ensures run { IsTrue (is_answered result.status) → IfSome (reads_with (map string_bytes words.now)) (λ options.
        IfSome (S.left source.old) (λ script.
        WritesRun options (K.written sink.old) (K.written sink.new) script (status_number result.status))) }
    ensures last { IsTrue (is_answered result.status) → IfSome (reads_with (map string_bytes words.now)) (λ options.
        IfSome (S.left source.old) (λ script.
        LeavesHistory options (K.written sink.old) (K.written sink.new) script result.last)) }

    // What else it wrote and left: a part of such a text at 4, what other words ask for, and nothing at 2, 3, 5 and 6.
    ensures writes { PlayWrites (map string_bytes words.now)
        (S.left source.old) (K.written sink.old) (K.written sink.new) result.status }
    ensures leaves { PlayLeaves (map string_bytes words.now) result.status result.last }

    // What it read.
    ensures reads { PlayReads (map string_bytes words.now)
        source.old source.new (S.left source.old) (S.left source.new) result.status }

    // Why it ended so.
    ensures ends { PlayEnds (map string_bytes words.now) (S.left source.old)
        (S.faults source.old) (S.faults source.new) (K.faults sink.old) (K.faults sink.new) result.status }
{
    match read_words(alloc, words) {
        Err(WordsError::Misfit) => Played::only(Status::Usage),
        Err(WordsError::Memory) => Played::only(Status::Memory),
        Ok(
            Words {
                options,
                workers,
                task,
            },
        ) => match task {
            Task::Play => play_source(rt, alloc, options, workers as u32, gate, source, sink),
            Task::Generate(n) => play_generated(rt, alloc, options, workers as u32, gate, n, sink),
            Task::Map(name) => Played::only(play_map(
                alloc,
                without_limit(options),
                name.as_str(),
                source,
                sink,
            )),
            Task::Audit => Played::only(play_audit(alloc, source, sink)),
            Task::Crash(call) => Played::only(play_crash(alloc, options, call, source, sink)),
        },
    }
}

// A map that is written has no limit.
fn without_limit(options: Options) -> Options
    ensures { result ≡ without_limit options }
{
    Options {
        mode: options.mode,
        localhost: options.localhost,
        map_max: None,
    }
}
