//! Words, a source and a sink.
ghost use Rattle.std.specs.Prelude.{◌≡◌, ◌≤◌, ◌⊎◌, List, IfSome, IsSomeAnd, IsTrue, None, false, if◌then◌else◌, map, string_bytes, true};
ghost use Rattle.std.specs.Io.KnownBytes.{Appends, IsAtEnd, Keeps};
ghost use Rattle.pol_kept.specs.Keeps.{HoldsStill, options_of};
ghost use Rattle.pol_model.specs.declared.request.Request.{Request as AnyRequest};
ghost use Rattle.pol_play_kept.specs.Images.{AllAre, OfScript};
ghost use Rattle.pol_play_kept.specs.Played.{IsDamaged, IsSomeJournal, Plays};
ghost use Rattle.pol_play_kept.specs.Words.{playing, plays_with};
ghost use Rattle.pol_status.specs.Ends.{has_opened, has_read_all, is_answered, is_silent, status_number};
ghost use Rattle.pol_status.specs.Limits.{fits_limits, is_too_long};
ghost use Rattle.pol_streams.specs.Faults.{DidNotRise, Rose};
ghost use Rattle.pol_streams.specs.Bytes.{AppendsPart, ConsumesSome};

use crate::script::{KeptText, ScriptError, play_script};
use pol_command_line::{Task, Words, WordsError, read_words};
use pol_disk::Disk;
use pol_kept::KeptConfig;
use pol_model::Options;
use pol_status::{Status, read_script_bytes};
use pol_streams::{Failed, Sink, Source, write_all};
use std::alloc::Global;

/// The options, where a script is to be played.
fn options_played(options: Options, task: Task) -> Option<Options>
    ensures played { result ≡ playing options task }
    ensures same { IfSome result (λ played. played ≡ options) }
{
    match task {
        Task::Play => Some(options),
        Task::Generate(_) => None,
        Task::Map(_) => None,
        Task::Audit => None,
        Task::Crash(_) => None,
    }
}

/// The options as a machine takes them that is kept.
pub fn config_of(options: Options) -> KeptConfig
    requires { IsSomeAnd options.map_max (λ limit. limit ≤ 65536) }
    ensures same { options_of result ≡ options }
    ensures limit { result.map_max ≤ 65536 }
{
    let Some(map_max) = options.map_max else {
        unreachable!();
    };
    KeptConfig {
        mode: options.mode,
        localhost: options.localhost,
        map_max,
    }
}

/// The texts are written; where the disk failed before them all, the end is its fault.
fn write_text<K: Sink>(kept: KeptText, sink: &mut K) -> Status
    ensures end { IsTrue (is_answered result) ⊎ ((result ≡ Status.Disk) ⊎ (result ≡ Status.Write)) }
    ensures answered { IsTrue (is_answered result)
        → (kept.lost ≡ false) × (status_number result ≡ (if kept.marked then 1 else 0)) }
    ensures lost { result ≡ Status.Disk → kept.lost ≡ true }
    ensures all { (result ≡ Status.Write → ⊥) → Appends (K.written sink.old) (K.written sink.new) kept.text.items }
    ensures part { result ≡ Status.Write → AppendsPart (K.written sink.old) (K.written sink.new) kept.text.items }
    ensures write { result ≡ Status.Write → Rose (K.faults sink.old) (K.faults sink.new) }
{
    match write_all(sink, kept.text.as_slice()) {
        Err(Failed) => Status::Write,
        Ok(()) => {
            if kept.lost {
                Status::Disk
            } else {
                Status::answered(kept.marked)
            }
        }
    }
}

/// A script is played over the disk, and its answers are written.
fn play_bytes<K: Sink, D: Disk>(
    alloc: Global,
    options: Options,
    script: &[u8],
    sink: &mut K,
    disk: &mut D,
) -> Status
    requires limit { IsSomeAnd options.map_max (λ limit. limit ≤ 65536) }
    requires within { IsTrue (fits_limits script.now) }

    // Where each image was a journal of the same requests.
    ensures played { (start : List AnyRequest) → AllAre options start (D.may_leave disk.old)
        → Plays D.moment D.left_since D.may_leave options start script.now disk.old disk.new
        (K.written sink.old) (K.written sink.new) result }

    // Causes.
    ensures causes { (IsTrue (is_answered result) ⊎ (result ≡ Status.Write))
        ⊎ ((result ≡ Status.Disk) ⊎ ((result ≡ Status.Damaged) ⊎ (result ≡ Status.Memory))) }
    ensures write { result ≡ Status.Write → Rose (K.faults sink.old) (K.faults sink.new) }
    ensures failed { result ≡ Status.Disk → Rose (D.faults disk.old) (D.faults disk.new) }
    ensures damaged { result ≡ Status.Damaged → IsDamaged options (D.seen disk.old) }
    ensures journal { IsTrue (has_opened result) → IsSomeJournal options (D.seen disk.old) }
    ensures silent { IsTrue (is_silent result) → Keeps (K.written sink.old) (K.written sink.new) }
    ensures damaged_stays { result ≡ Status.Damaged
        → HoldsStill D.seen D.may_leave D.moment D.left_since disk.old disk.new }
    ensures memory_stays { result ≡ Status.Memory → IsDamaged options (D.seen disk.old)
        → HoldsStill D.seen D.may_leave D.moment D.left_since disk.old disk.new }
    ensures never_falls { D.faults disk.old ≤ D.faults disk.new }
{
    let config = config_of(options);
    match play_script(alloc, disk, config, script) {
        Ok(kept) => write_text(kept, sink),
        Err(ScriptError::Damaged { at: _ }) => Status::Damaged,
        Err(ScriptError::Disk) => Status::Disk,
        Err(ScriptError::Memory) => Status::Memory,
    }
}

/// A script is read from the source and played over the disk, and its answers are written.
fn play_source<S: Source, K: Sink, D: Disk>(
    alloc: Global,
    options: Options,
    source: &mut S,
    sink: &mut K,
    disk: &mut D,
) -> Status
    requires limit { IsSomeAnd options.map_max (λ limit. limit ≤ 65536) }

    // Where each image was a journal of the same requests.
    ensures played { (start : List AnyRequest) → AllAre options start (D.may_leave disk.old)
        → OfScript (S.left source.old) (λ script.
        Plays D.moment D.left_since D.may_leave options start script disk.old disk.new
        (K.written sink.old) (K.written sink.new) result) }

    // Causes.
    ensures no_usage { result ≡ Status.Usage → ⊥ }
    ensures read { result ≡ Status.Read → Rose (S.faults source.old) (S.faults source.new) }
    ensures write { result ≡ Status.Write → Rose (K.faults sink.old) (K.faults sink.new) }
    ensures too_long { result ≡ Status.TooLong → IfSome (S.left source.old) (λ script. IsTrue (is_too_long script)) }
    ensures within { IsTrue (has_read_all result) → IfSome (S.left source.old) (λ script. IsTrue (fits_limits script)) }
    ensures failed { result ≡ Status.Disk → Rose (D.faults disk.old) (D.faults disk.new) }
    ensures damaged { result ≡ Status.Damaged → IsDamaged options (D.seen disk.old) }
    ensures journal { IsTrue (has_opened result) → IsSomeJournal options (D.seen disk.old) }

    // What stays.
    ensures taken { ConsumesSome (S.left source.old) (S.left source.new) }
    ensures at_end { IsTrue (has_read_all result) → IsAtEnd (S.left source.new) }
    ensures silent { IsTrue (is_silent result) → Keeps (K.written sink.old) (K.written sink.new) }
    ensures untouched { (result ≡ Status.Read) ⊎ (result ≡ Status.TooLong) → disk.new ≡ disk.old }
    ensures damaged_stays { result ≡ Status.Damaged
        → HoldsStill D.seen D.may_leave D.moment D.left_since disk.old disk.new }
    ensures memory_stays { result ≡ Status.Memory → IsDamaged options (D.seen disk.old)
        → HoldsStill D.seen D.may_leave D.moment D.left_since disk.old disk.new }
    ensures never_falls { D.faults disk.old ≤ D.faults disk.new }
{
    match read_script_bytes(alloc, source) {
        Ok(script) => play_bytes(alloc, options, script.as_slice(), sink, disk),
        Err(status) => status,
    }
}

/// Reads a script from the source, plays its lines in order in one session over the journal on the disk, and then writes all answers to
/// the sink. The words are those of a script that is played: `--generate`, `--map`, `--audit` and `--crash-at` don't fit here. The workers that the
/// words name are none, as there is one session and each map is made at its `sync` line ('profile').
///
/// Words that don't fit are status `Usage`, and nothing is read then. The whole source is read before the disk is opened (`Read`,
/// `TooLong`), and each accepted request is on the disk before anything is written. `Damaged` comes exactly where the bytes on the disk
/// aren't a journal, want of memory aside, if no call of the disk failed before that was known. `Disk` comes only where a call of the
/// disk failed: then the answers to the lines before are written. A write that fails after that is `Write`. Want of memory may come at
/// any point before the first write; bytes that aren't a journal stay as they are then too.
pub fn play_kept<S: Source, K: Sink, D: Disk>(
    alloc: Global,
    words: &[String],
    source: &mut S,
    sink: &mut K,
    disk: &mut D,
) -> Status
    // Where each image that a crash might leave was a journal of the same requests: what was written and what a crash may leave, by the
    // status, and at every moment. This speaks of the script that was read, also where the source doesn't tell its bytes.
    ensures played { IfSome (plays_with (map string_bytes words.now)) (λ options.
        (start : List AnyRequest) → AllAre options start (D.may_leave disk.old)
        → OfScript (S.left source.old) (λ script.
        Plays D.moment D.left_since D.may_leave options start script disk.old disk.new
        (K.written sink.old) (K.written sink.new) result)) }

    // Causes.
    ensures usage { result ≡ Status.Usage → plays_with (map string_bytes words.now) ≡ None }
    ensures misfit { plays_with (map string_bytes words.now) ≡ None
        → (result ≡ Status.Usage) ⊎ (result ≡ Status.Memory) }
    ensures read { result ≡ Status.Read → Rose (S.faults source.old) (S.faults source.new) }
    ensures write { result ≡ Status.Write → Rose (K.faults sink.old) (K.faults sink.new) }
    ensures too_long { result ≡ Status.TooLong → IfSome (S.left source.old) (λ script. IsTrue (is_too_long script)) }
    ensures within { IsTrue (has_read_all result) → IfSome (S.left source.old) (λ script. IsTrue (fits_limits script)) }
    ensures failed { result ≡ Status.Disk → Rose (D.faults disk.old) (D.faults disk.new) }
    ensures damaged { result ≡ Status.Damaged
        → IfSome (plays_with (map string_bytes words.now)) (λ options. IsDamaged options (D.seen disk.old)) }
    ensures journal { IsTrue (has_opened result)
        → IfSome (plays_with (map string_bytes words.now)) (λ options. IsSomeJournal options (D.seen disk.old)) }
    ensures complete { DidNotRise (S.faults source.old) (S.faults source.new)
        → DidNotRise (K.faults sink.old) (K.faults sink.new)
        → DidNotRise (D.faults disk.old) (D.faults disk.new)
        → IsSomeAnd (plays_with (map string_bytes words.now)) (λ options. IsSomeJournal options (D.seen disk.old))
        → IsSomeAnd (S.left source.old) (λ script. IsTrue (fits_limits script))
        → IsTrue (is_answered result) ⊎ (result ≡ Status.Memory) }

    // What stays.
    ensures unread { result ≡ Status.Usage → source.new ≡ source.old }
    ensures taken { ConsumesSome (S.left source.old) (S.left source.new) }
    ensures at_end { IsTrue (has_read_all result) → IsAtEnd (S.left source.new) }
    ensures silent { IsTrue (is_silent result) → Keeps (K.written sink.old) (K.written sink.new) }
    ensures untouched { (result ≡ Status.Usage)
        ⊎ ((result ≡ Status.Read) ⊎ (result ≡ Status.TooLong)) → disk.new ≡ disk.old }
    ensures misfit_untouched { plays_with (map string_bytes words.now) ≡ None → disk.new ≡ disk.old }
    ensures damaged_stays { result ≡ Status.Damaged
        → HoldsStill D.seen D.may_leave D.moment D.left_since disk.old disk.new }
    ensures memory_stays { result ≡ Status.Memory → IfSome (plays_with (map string_bytes words.now)) (λ options.
        IsDamaged options (D.seen disk.old) → HoldsStill D.seen D.may_leave D.moment D.left_since disk.old disk.new) }
    ensures never_falls { D.faults disk.old ≤ D.faults disk.new }
{
    match read_words(alloc, words) {
        Err(WordsError::Misfit) => Status::Usage,
        Err(WordsError::Memory) => Status::Memory,
        Ok(
            Words {
                options,
                workers: _,
                task,
            },
        ) => match options_played(options, task) {
            Some(played) => play_source(alloc, played, source, sink, disk),
            None => Status::Usage,
        },
    }
}
