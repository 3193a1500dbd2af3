//! A generated script is played, and its summary is written to a sink.
ghost use Rattle.std.specs.Prelude.{◌≡◌, ◌≤◌, ◌⊎◌, None, IsSomeAnd, IsTrue, false};
ghost use Rattle.std.specs.Io.KnownBytes.{Appends, Keeps};
ghost use Rattle.pol_streams.specs.Faults.{Rose};
ghost use Rattle.pol_streams.specs.Bytes.{AppendsPart};
ghost use Rattle.pol_generated.specs.Maps.{HasRoom, most_entries};
ghost use Rattle.pol_summary.specs.Summary.{summary};
ghost use Rattle.policyd.specs.Ends.{is_answered};
ghost use Rattle.policyd.specs.Headline.{LeavesRounds};

use crate::played::Played;
use crate::status::Status;
use pol_data::Memory;
use pol_hints::Gate;
use pol_model::Options;
use pol_streams::{Failed, Sink, write_all};
use pol_summary::summary_of;
use std::alloc::Global;
use std::sync::Wait;
use std::thread::Threads;

/// Plays the generated script of so many rounds beside so many workers, and writes its summary.
pub fn play_generated<R: Threads + Wait + Sync, K: Sink, G: Gate + Sync>(
    rt: &R,
    alloc: Global,
    options: Options,
    workers: u32,
    gate: &G,
    n: u32,
    sink: &mut K,
) -> Played
    requires limit { IsSomeAnd options.map_max (λ limit. limit ≤ 65536) }
    requires room { HasRoom most_entries options }
    requires rounds { (1 ≤ n) × (n ≤ 10000) }
    ensures end { (result.status ≡ Status.Clean) ⊎ (result.status ≡ Status.Write) ⊎ (result.status ≡ Status.Memory) }
    ensures summary { result.status ≡ Status.Clean
        → Appends (K.written sink.old) (K.written sink.new) (summary options n) }
    ensures part { result.status ≡ Status.Write
        → AppendsPart (K.written sink.old) (K.written sink.new) (summary options n) }
    ensures write { result.status ≡ Status.Write → Rose (K.faults sink.old) (K.faults sink.new) }
    ensures silent { result.status ≡ Status.Memory → Keeps (K.written sink.old) (K.written sink.new) }
    ensures last { IsTrue (is_answered result.status) → LeavesRounds options n result.last }
    ensures no_last { is_answered result.status ≡ false → result.last ≡ None }
{
    match summary_of(rt, alloc, options, workers, gate, n) {
        Err(Memory) => Played::only(Status::Memory),
        Ok(summed) => match write_all(sink, summed.text.as_slice()) {
            Err(Failed) => Played::only(Status::Write),
            Ok(()) => Played {
                status: Status::Clean,
                last: Some(summed.last),
            },
        },
    }
}
