//! A script is read from a source, and its answers are written to a sink.
ghost use Rattle.std.specs.Prelude.{◌≡◌, ◌≤◌, ◌⊎◌, None, IfOk, IfErr, IfSome, IsErrOf, IsSomeAnd, OnOk, IsTrue, false, if◌then◌else◌};
ghost use Rattle.std.specs.Io.KnownBytes.{IsAtEnd, Keeps};
ghost use Rattle.std.specs.List.{list_any};
ghost use Rattle.pol_streams.specs.Faults.{Rose, DidNotRise};
ghost use Rattle.pol_streams.specs.Bytes.{ConsumesSome};
ghost use Rattle.pol_run.specs.Run.{IsRunOf, is_marked};
ghost use Rattle.pol_status.specs.Limits.{is_too_long, fits_limits};
ghost use Rattle.policyd.specs.Headline.{HoldsText, LeavesHistory, WritesRun, WritesPartOfRun};
ghost use Rattle.policyd.specs.Ends.{is_answered, has_read_all, is_silent, status_number};

use crate::played::Played;
use crate::status::Status;
use pol_answer::Answer;
use pol_data::Memory;
use pol_hints::Gate;
use pol_model::Options;
use pol_parallel_lines::print_answers;
use pol_play_lines::{SeenHistory, play_lines};
use pol_script::count_lines;
use pol_streams::{Failed, ReadAllError, Sink, Source, read_all, write_all};
use std::alloc::Global;
use std::sync::Wait;
use std::thread::Threads;

// The most bytes and the most lines of a script.
const INPUT_MAX: usize = 67_108_864;

const LINES_MAX: usize = 1_000_000;

/// Reads the whole script, plays its lines beside so many workers, and then writes all answers.
pub fn play_source<R: Threads + Wait + Sync, S: Source, K: Sink, G: Gate + Sync>(
    rt: &R,
    alloc: Global,
    options: Options,
    workers: u32,
    gate: &G,
    source: &mut S,
    sink: &mut K,
) -> Played
    requires { IsSomeAnd options.map_max (λ limit. limit ≤ 65536) }

    // What was written and left.
    ensures run { IsTrue (is_answered result.status) → IfSome (S.left source.old)
        (λ script. WritesRun options (K.written sink.old) (K.written sink.new) script (status_number result.status)) }
    ensures part { result.status ≡ Status.Write → IfSome (S.left source.old)
        (λ script. WritesPartOfRun options (K.written sink.old) (K.written sink.new) script) }
    ensures silent { IsTrue (is_silent result.status) → Keeps (K.written sink.old) (K.written sink.new) }
    ensures last { IsTrue (is_answered result.status) → IfSome (S.left source.old)
        (λ script. LeavesHistory options (K.written sink.old) (K.written sink.new) script result.last) }
    ensures no_last { is_answered result.status ≡ false → result.last ≡ None }

    // Causes.
    ensures no_usage { result.status ≡ Status.Usage → ⊥ }
    ensures read { result.status ≡ Status.Read → Rose (S.faults source.old) (S.faults source.new) }
    ensures write { result.status ≡ Status.Write → Rose (K.faults sink.old) (K.faults sink.new) }
    ensures too_long { result.status ≡ Status.TooLong
        → IfSome (S.left source.old) (λ script. IsTrue (is_too_long script)) }
    ensures within { IsTrue (has_read_all result.status)
        → IfSome (S.left source.old) (λ script. IsTrue (fits_limits script)) }
    ensures complete { DidNotRise (S.faults source.old) (S.faults source.new)
        → DidNotRise (K.faults sink.old) (K.faults sink.new)
        → IsSomeAnd (S.left source.old) (λ script. IsTrue (fits_limits script))
        → IsTrue (is_answered result.status) ⊎ (result.status ≡ Status.Memory) }

    // What was read.
    ensures taken { ConsumesSome (S.left source.old) (S.left source.new) }
    ensures at_end { IsTrue (has_read_all result.status) → IsAtEnd (S.left source.new) }
{
    match script_of(alloc, source) {
        Ok(script) => answer_script(rt, alloc, options, workers, gate, script.as_slice(), sink),
        Err(status) => Played::only(status),
    }
}

/// All that the source gives, within the limits.
pub(crate) fn script_of<S: Source>(alloc: Global, source: &mut S) -> Result<Vec<u8>, Status>
    // What it gives.
    ensures script { IfOk result
        (λ bytes. IfSome (S.left source.old) (λ script. bytes.items ≡ script)) }
    ensures within { IfOk result (λ bytes. IsTrue (fits_limits bytes.items)) }

    // Causes.
    ensures no_usage { IsErrOf result Status.Usage → ⊥ }
    ensures read { IsErrOf result Status.Read → Rose (S.faults source.old) (S.faults source.new) }
    ensures too_long { IsErrOf result Status.TooLong
        → IfSome (S.left source.old) (λ script. IsTrue (is_too_long script)) }
    ensures silent { IfErr result (λ status. IsTrue (is_silent status)) }

    // What was read.
    ensures taken { ConsumesSome (S.left source.old) (S.left source.new) }
    ensures at_end { OnOk result (IsAtEnd (S.left source.new)) }
{
    let script = match read_all(alloc, source, INPUT_MAX) {
        Ok(script) => script,
        Err(ReadAllError::Fault) => return Err(Status::Read),
        Err(ReadAllError::TooLong) => return Err(Status::TooLong),
        Err(ReadAllError::Memory) => return Err(Status::Memory),
    };
    if count_lines(script.as_slice()) > LINES_MAX {
        return Err(Status::TooLong);
    }
    Ok(script)
}

// Answers a script.
#[tactic(auto, using(crate::proofs::ScriptRun::writes_run, crate::proofs::ScriptRun::writes_part, crate::proofs::ScriptRun::leaves_history))]
fn answer_script<R: Threads + Wait + Sync, K: Sink, G: Gate + Sync>(
    rt: &R,
    alloc: Global,
    options: Options,
    workers: u32,
    gate: &G,
    script: &[u8],
    sink: &mut K,
) -> Played
    requires limit { IsSomeAnd options.map_max (λ limit. limit ≤ 65536) }
    requires within { IsTrue (fits_limits script.now) }
    ensures end { IsTrue (has_read_all result.status) ⊎ (result.status ≡ Status.Memory) }
    ensures write { result.status ≡ Status.Write → Rose (K.faults sink.old) (K.faults sink.new) }
    ensures silent { result.status ≡ Status.Memory → Keeps (K.written sink.old) (K.written sink.new) }
    ensures run { IsTrue (is_answered result.status)
        → WritesRun options (K.written sink.old) (K.written sink.new) script.now (status_number result.status) }
    ensures part { result.status ≡ Status.Write
        → WritesPartOfRun options (K.written sink.old) (K.written sink.new) script.now }
    ensures last { IsTrue (is_answered result.status)
        → LeavesHistory options (K.written sink.old) (K.written sink.new) script.now result.last }
    ensures no_last { is_answered result.status ≡ false → result.last ≡ None }
{
    match answers_to(rt, alloc, options, workers, gate, script) {
        Err(Memory) => Played::only(Status::Memory),
        Ok(printed) => match write_all(sink, printed.text.as_slice()) {
            Err(Failed) => Played::only(Status::Write),
            Ok(()) => Played {
                status: end_of(printed.marked),
                last: Some(printed.last),
            },
        },
    }
}

// The answers to a script, as they are printed, and what was seen of its history in the end.
#[derive(Drop)]
struct Printed {
    text: Vec<u8>,
    marked: bool,
    last: SeenHistory,
}

// Reading, playing and printing.
fn answers_to<R: Threads + Wait + Sync, G: Gate + Sync>(
    rt: &R,
    alloc: Global,
    options: Options,
    workers: u32,
    gate: &G,
    script: &[u8],
) -> Result<Printed, Memory>
    requires { IsSomeAnd options.map_max (λ limit. limit ≤ 65536) }
    ensures run { IfOk result (λ printed.
        IsRunOf options script.now printed.text.items (if printed.marked then 1 else 0)) }
    ensures history { IfOk result (λ printed. HoldsText options script.now printed.text.items printed.last) }
{
    let played = play_lines(rt, alloc, options, workers, gate, script)?;
    let text = print_answers(rt, alloc, played.answers.as_slice())?;
    let marked = any_marked(played.answers.as_slice());
    Ok(Printed {
        text,
        marked,
        last: played.last,
    })
}

// Whether the answer is a refusal, `notyet` or `noendpoint`.
fn is_marked_answer(answer: &Answer) -> bool
    ensures { result ≡ is_marked answer.now }
{
    matches!(
        answer,
        Answer::NoEndpoint(_) | Answer::NotYet(_) | Answer::BadLine(_) | Answer::Refused(_)
    )
}

fn any_marked(answers: &[Answer]) -> bool
    ensures { result ≡ list_any is_marked answers.now }
{
    answers.iter().any(|answer| is_marked_answer(answer))
}

/// How a run ends whose output was written.
pub(crate) fn end_of(marked: bool) -> Status
    ensures answered { IsTrue (is_answered result) }
    ensures status { status_number result ≡ (if marked then 1 else 0) }
{
    if marked {
        Status::Marked
    } else {
        Status::Clean
    }
}
