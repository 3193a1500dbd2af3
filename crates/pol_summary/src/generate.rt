//! A generated script is played over the running node, and its answers are counted.
ghost use Rattle.std.specs.Prelude.{◌≡◌, ◌≤◌, IfOk, IsSomeAnd};
ghost use Rattle.pol_generated.specs.HistoryOfRounds.{IsHistoryOfRounds};
ghost use Rattle.pol_generated.specs.Maps.{HasRoom, most_entries};
ghost use Rattle.pol_history.specs.Legal.{IsLegal};
ghost use Rattle.pol_summary.specs.Summary.{summary};

use crate::summary::summary_text;
use pol_data::Memory;
use pol_gen::generated;
use pol_hints::Gate;
use pol_model::Options;
use pol_play_lines::{SeenHistory, play_lines};
use std::alloc::Global;
use std::sync::Wait;
use std::thread::Threads;

/// The summary of a generated script, and what was seen of its history in the end.
#[derive(Drop)]
pub struct Summed {
    /// The line that tells how many of the lines were answered in each way, with its newline byte.
    pub text: Vec<u8>,
    /// What all passes of the run had seen after the last line.
    pub last: SeenHistory,
}

/// Plays the generated script of `n` rounds, 1 to 10,000, beside so many workers, and counts its answers ('profile'). Its
/// maps have a limit that none of them reaches: 1,923 to 65,536 entries. The one error is want of memory.
pub fn summary_of<W: Threads + Wait + Sync, G: Gate + Sync>(
    rt: &W,
    alloc: Global,
    options: Options,
    workers: u32,
    gate: &G,
    n: u32,
) -> Result<Summed, Memory>
    requires limit { IsSomeAnd options.map_max (λ limit. limit ≤ 65536) }
    requires room { HasRoom most_entries options }
    requires rounds { (1 ≤ n) × (n ≤ 10000) }
    ensures summary { IfOk result (λ summed. summed.text.items ≡ summary options n) }
    ensures legal { IfOk result (λ summed. IsLegal options summed.last) }
    ensures history { IfOk result (λ summed. IsHistoryOfRounds options n summed.last) }
{
    let script = generated(alloc, n)?;
    let played = play_lines(rt, alloc, options, workers, gate, script.as_slice())?;
    let text = summary_text(alloc, played.answers.as_slice())?;
    Ok(Summed {
        text,
        last: played.last,
    })
}
