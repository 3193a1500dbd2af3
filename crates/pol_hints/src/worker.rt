//! The loop of a worker.
ghost use Rattle.std.specs.Prelude.{◌≡◌, [], Ok, OnErr, OnOk, false};
ghost use mathlib.Core.List.{IsPrefix};
ghost use Rattle.pol_hints.specs.History.{hints_put, waiting};
ghost use Rattle.pol_hints.specs.Passes.{IsHintPassOf, IsOnly};
ghost use Rattle.pol_hints.specs.Serving.{Serves, StopsServing};

use crate::calls::{Calls, End, Over};
use crate::hints::Hints;
use crate::job::{Gate, Job};
use crate::pass::HintPass;
use std::alloc::{AllocError as Memory, Global};
use std::sync::Wait;

/// A worker that begins where it rang so often sleeps until it rings again: that ring says that it will.
const OPENING: u64 = 1;

/// Takes hints until there are no more, and puts none. Each gets the next call number, from 1, and the job is then run for it
/// between `enter` and `leave` of that number.
///
/// It ends once the end was told and a later take found no hint. At want of memory the hints that it took stay taken, the
/// numbers that it gave stay given, and what the jobs did stands.
pub fn work<J: Job, G: Gate, E: End, R: Wait>(
    rt: &R,
    alloc: Global,
    hints: &Hints,
    pass: &mut HintPass,
    job: &J,
    gate: &G,
    calls: &Calls,
    over: &Over<E>,
) -> Result<(), Memory>
    requires pass { pass.old.queue ≡ hints.now.name }
    ensures pass { IsHintPassOf hints.now pass.new }
    ensures seen { IsPrefix pass.old.seen pass.new.seen }
    ensures share { pass.new.share ≡ pass.old.share }
    ensures puts_none { IsOnly pass.old → hints_put pass.new.seen ≡ hints_put pass.old.seen }
    ensures serves { OnOk result (Serves (J.has_run job.now) pass.old pass.new) }
    ensures stops { OnErr result (StopsServing (J.has_run job.now) pass.old pass.new) }
    ensures over { OnOk result E.is_so }
    ensures empty { OnOk result (waiting pass.new.seen ≡ []) }
{
    if !over.is_set() {
        hints.rest(rt, OPENING);
    }
    for _ in rt.forever() {
        let heard = hints.rung();
        let is_over = over.is_set();
        if !is_over && hints.seems_empty() {
            hints.rest(rt, heard);
            continue;
        }
        match serve(rt, alloc, hints, pass, job, gate, calls) {
            Err(_) => return Err(Memory),
            Ok(true) => {}
            Ok(false) if is_over => return Ok(()),
            Ok(false) => hints.rest(rt, heard),
        }
    }
    unreachable!()
}

/// Takes a hint and runs the job for it. Tells whether there was one.
fn serve<J: Job, G: Gate, R: Wait>(
    rt: &R,
    alloc: Global,
    hints: &Hints,
    pass: &mut HintPass,
    job: &J,
    gate: &G,
    calls: &Calls,
) -> Result<bool, Memory>
    requires pass { pass.old.queue ≡ hints.now.name }
    ensures pass { IsHintPassOf hints.now pass.new }
    ensures serves { OnOk result (Serves (J.has_run job.now) pass.old pass.new) }
    ensures stops { OnErr result (StopsServing (J.has_run job.now) pass.old pass.new) }
    ensures empty { result ≡ Ok false → waiting pass.new.seen ≡ [] }
{
    match hints.take(rt, pass) {
        Some(slot) => match run_once(rt, alloc, job, gate, calls.next(), slot) {
            Ok(()) => Ok(true),
            Err(_) => Err(Memory),
        },
        None => Ok(false),
    }
}

/// One call: the job between the two sides of the gate.
fn run_once<J: Job, G: Gate, R: Wait>(
    rt: &R,
    alloc: Global,
    job: &J,
    gate: &G,
    call: u32,
    slot: u32,
) -> Result<(), Memory>
    ensures { OnOk result (J.has_run job.now slot) }
{
    gate.enter(rt, call);
    let done = job.run(rt, alloc, slot);
    gate.leave(rt, call);
    done
}
