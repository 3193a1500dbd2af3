//! A script is read and cut.
ghost use Rattle.std.specs.Prelude.{IfOk};
ghost use Rattle.pol_phases.specs.Cuts.{IsCutOf};
ghost use Rattle.pol_run.specs.Run.{readings_of};

use crate::halves::{cut_at_line, halvings};
use pol_data::Memory;
use pol_phases::{CutScript, cut};
use pol_script::read_script;
use std::alloc::Global;
use std::thread::{Threads, join};

/// How many bytes are worth a thread.
const BLOCK: usize = 65_536;

/// The lines of a script, read and cut into phases for so many sessions: the commands of each session in each phase, and a
/// mark of each line. Halves of a large script are read and cut at once. The one error is want of memory.
pub fn cut_lines<W: Threads + Sync>(
    rt: &W,
    alloc: Global,
    sessions: u32,
    script: &[u8],
) -> Result<CutScript, Memory>
    ensures cut { IfOk result (λ cut. IsCutOf sessions (readings_of script.now) cut) }
{
    cut_halves(rt, alloc, sessions, script, halvings(script.len(), BLOCK))
}

fn cut_halves<W: Threads + Sync>(
    rt: &W,
    alloc: Global,
    sessions: u32,
    script: &[u8],
    halvings: u32,
) -> Result<CutScript, Memory>
    ensures cut { IfOk result (λ cut. IsCutOf sessions (readings_of script.now) cut) }
{
    if halvings == 0 {
        return cut_block(alloc, sessions, script);
    }
    let (front, back) = cut_at_line(script);
    let left = halvings - 1;
    let (first, second) = join(
        rt,
        || -> Result<CutScript, Memory>
            ensures { IfOk result (λ cut. IsCutOf sessions (readings_of front.entry.now) cut) }
        { cut_halves(rt, alloc, sessions, front, left) },
        || -> Result<CutScript, Memory>
            ensures { IfOk result (λ cut. IsCutOf sessions (readings_of back.entry.now) cut) }
        { cut_halves(rt, alloc, sessions, back, left) },
    );
    first?.followed_by(alloc, second?)
}

fn cut_block(alloc: Global, sessions: u32, script: &[u8]) -> Result<CutScript, Memory>
    ensures cut { IfOk result (λ cut. IsCutOf sessions (readings_of script.now) cut) }
{
    let readings = read_script(alloc, script)?;
    cut(alloc, sessions, readings)
}
