//! The lines of a script are played over the running node: by sessions that run at once, and workers beside them.
ghost use Rattle.std.specs.Prelude.{◌≡◌, ◌≤◌, length, IfOk, IsSomeAnd};
ghost use Rattle.std.specs.List.{zip};
ghost use Rattle.pol_history.specs.Legal.{IsLegal};
ghost use Rattle.pol_run_laws.specs.HistoryOfRun.{IsHistoryOf};
ghost use Rattle.pol_run.specs.Run.{IsRun, readings_of};
ghost use Rattle.pol_run.specs.Spots.{spots_of};

use pol_answer::Answer;
use pol_data::Memory;
use pol_hints::Gate;
use pol_model::Options;
use pol_parallel_lines::cut_lines;
use pol_phases::put_back;
use pol_run_laws::phases::lines_are_seated;
use pol_sessions::{Config, SeenHistory, play_script};
use std::alloc::Global;
use std::sync::Wait;
use std::thread::Threads;

/// The sessions of a script.
const SESSIONS: u32 = 8;

/// The answers to the lines of a script, and what was seen of the history in the end.
#[derive(Drop)]
pub struct PlayedLines {
    /// One answer for each line.
    pub answers: Vec<Answer>,
    /// What all passes of the run had seen after the last line.
    pub last: SeenHistory,
}

/// Plays the lines of a script, whose maps have a limit, beside so many workers. There is one answer for each line, and the
/// lines with their answers are a run of the policy machine; what was seen in the end is a legal history, which holds what was
/// answered. The one error is want of memory.
pub fn play_lines<W: Threads + Wait + Sync, G: Gate + Sync>(
    rt: &W,
    alloc: Global,
    options: Options,
    workers: u32,
    gate: &G,
    script: &[u8],
) -> Result<PlayedLines, Memory>
    requires limit { IsSomeAnd options.map_max (λ limit. limit ≤ 65536) }
    ensures one_each { IfOk result (λ played. length played.answers.items ≡ length (readings_of script.now)) }
    ensures run { IfOk result (λ played. IsRun options (spots_of (zip (readings_of script.now) played.answers.items))) }
    ensures legal { IfOk result (λ played. IsLegal options played.last) }
    ensures history { IfOk result (λ played.
        IsHistoryOf options played.last (zip (readings_of script.now) played.answers.items)) }
{
    let Some(map_max) = options.map_max else {
        unreachable!();
    };
    let config = Config {
        mode: options.mode,
        localhost: options.localhost,
        map_max,
        passes: SESSIONS,
    };
    let cut = cut_lines(rt, alloc, SESSIONS, script)?;
    lines_are_seated();
    let marks = cut.marks;
    let played = play_script(rt, alloc, config, workers, gate, cut.phases)?;
    let last = played.last;
    let answers = put_back(alloc, marks, played.told)?;
    Ok(PlayedLines { answers, last })
}
