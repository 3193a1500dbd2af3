//! The words, and the file that the first of them names.
ghost use Rattle.std.specs.Prelude.{◌≡◌, ◌⊎◌, ◌≤◌, IfErr, IfOk, IfSome, IsErrOf, IsSomeAnd, IsTrue, None, Some, map, string_bytes};
ghost use Rattle.std.specs.Io.KnownBytes.{IsAtEnd};
ghost use Rattle.pol_play_kept.specs.Words.{playing, plays_with};
ghost use Rattle.pol_status.specs.Limits.{fits_limits, is_too_long};
ghost use Rattle.pol_streams.specs.Bytes.{ConsumesSome};
ghost use Rattle.pol_streams.specs.Faults.{Rose};
ghost use Rattle.policyd_kept.specs.Ends.{is_answered_end};
ghost use Rattle.policyd_kept.specs.Words.{serves_with};

use crate::end::FileEnd;
use crate::serve::serve;
use pol_command_line::{Task, Words, WordsError, read_words};
use pol_file_disk::{OpenFileError, open_file};
use pol_model::Options;
use pol_status::Status;
use pol_streams::{Sink, Source};
use std::alloc::Global;
use std::fs::File;
use std::rt::Files;

/// The options, where a script is to be played.
fn options_played(options: Options, task: Task) -> Option<Options>
    ensures played { result ≡ playing options task }
    ensures same { IfSome result (λ played. played ≡ options) }
{
    match task {
        Task::Play => Some(options),
        Task::Generate(_) => None,
        Task::Map(_) => None,
        Task::Audit => None,
        Task::Crash(_) => None,
    }
}

/// What the words behind the file's name ask for. The errors are `Usage` and `Memory`.
fn options_asked(alloc: Global, words: &[String]) -> Result<Options, Status>
    ensures asked { IfOk result (λ options. plays_with (map string_bytes words.now) ≡ Some options) }
    ensures limit { IfOk result (λ options. IsSomeAnd options.map_max (λ limit. limit ≤ 65536)) }
    ensures causes { IfErr result (λ status. (status ≡ Status.Usage) ⊎ (status ≡ Status.Memory)) }
    ensures usage { IsErrOf result Status.Usage → plays_with (map string_bytes words.now) ≡ None }
{
    match read_words(alloc, words) {
        Err(WordsError::Misfit) => Err(Status::Usage),
        Err(WordsError::Memory) => Err(Status::Memory),
        Ok(
            Words {
                options,
                workers: _,
                task,
            },
        ) => match options_played(options, task) {
            Some(played) => Ok(played),
            None => Err(Status::Usage),
        },
    }
}

/// The file is opened as a disk, and the lines of the source are answered over the journal in it.
fn serve_file<R: Files<File = File>, S: Source, K: Sink>(
    rt: &R,
    alloc: Global,
    path: &str,
    options: Options,
    source: &mut S,
    sink: &mut K,
) -> FileEnd
    requires limit { IsSomeAnd options.map_max (λ limit. limit ≤ 65536) }
    ensures no_usage { result ≡ FileEnd.Served Status.Usage → ⊥ }
    ensures unopened { (result ≡ FileEnd.NotOpened)
        ⊎ (result ≡ FileEnd.Held) → (source.new ≡ source.old) × (sink.new ≡ sink.old) }
    ensures read { result ≡ FileEnd.Served Status.Read → Rose (S.faults source.old) (S.faults source.new) }
    ensures write { result ≡ FileEnd.Served Status.Write → Rose (K.faults sink.old) (K.faults sink.new) }
    ensures too_long { result ≡ FileEnd.Served Status.TooLong
        → IfSome (S.left source.old) (λ script. IsTrue (is_too_long script)) }
    ensures within { IsTrue (is_answered_end result)
        → IfSome (S.left source.old) (λ script. IsTrue (fits_limits script)) }
    ensures at_end { IsTrue (is_answered_end result) → IsAtEnd (S.left source.new) }
    ensures taken { ConsumesSome (S.left source.old) (S.left source.new) }
{
    match open_file(rt, alloc, path) {
        Ok(mut disk) => FileEnd::Served(serve(alloc, options, source, sink, &mut disk)),
        Err(OpenFileError::NotOpened) => FileEnd::NotOpened,
        Err(OpenFileError::Held) => FileEnd::Held,
        Err(OpenFileError::Failed) => FileEnd::Served(Status::Disk),
        Err(OpenFileError::Memory) => FileEnd::Served(Status::Memory),
    }
}

/// The first word names a file, and the others are those of a script that is played, without `--generate`, `--map`, `--audit` and
/// `--crash-at`. Where they fit, the file is opened as a disk, made where it is missing, and held until the end; then `serve` answers the
/// lines of the source over the journal in it ('profile'). No clause speaks of the file.
pub fn run<R: Files<File = File>, S: Source, K: Sink>(
    rt: &R,
    alloc: Global,
    words: &[String],
    source: &mut S,
    sink: &mut K,
) -> FileEnd
    // Causes.
    ensures usage { result ≡ FileEnd.Served Status.Usage → serves_with (map string_bytes words.now) ≡ None }
    ensures misfit { serves_with (map string_bytes words.now) ≡ None
        → (result ≡ FileEnd.Served Status.Usage) ⊎ (result ≡ FileEnd.Served Status.Memory) }
    ensures read { result ≡ FileEnd.Served Status.Read → Rose (S.faults source.old) (S.faults source.new) }
    ensures write { result ≡ FileEnd.Served Status.Write → Rose (K.faults sink.old) (K.faults sink.new) }
    ensures too_long { result ≡ FileEnd.Served Status.TooLong
        → IfSome (S.left source.old) (λ script. IsTrue (is_too_long script)) }
    ensures within { IsTrue (is_answered_end result)
        → IfSome (S.left source.old) (λ script. IsTrue (fits_limits script)) }

    // What stays.
    ensures untouched { (result ≡ FileEnd.Served Status.Usage)
        ⊎ ((result ≡ FileEnd.NotOpened) ⊎ (result ≡ FileEnd.Held)) → (source.new ≡ source.old) × (sink.new ≡ sink.old) }
    ensures at_end { IsTrue (is_answered_end result) → IsAtEnd (S.left source.new) }
    ensures taken { ConsumesSome (S.left source.old) (S.left source.new) }
{
    let [path, others @ ..] = words else {
        return FileEnd::Served(Status::Usage);
    };
    match options_asked(alloc, others) {
        Ok(options) => serve_file(rt, alloc, path.as_str(), options, source, sink),
        Err(status) => FileEnd::Served(status),
    }
}
