//! A script, a crash, and a restart.
ghost use Rattle.std.specs.Prelude.{◌≤◌, IfOk, IsSomeAnd, IsTrue, if◌then◌else◌};
ghost use Rattle.pol_crash_drill.specs.Drill.{IsDrill};
ghost use Rattle.pol_run.specs.Run.{readings_of};
ghost use Rattle.pol_status.specs.Limits.{fits_limits};

use crate::play::play_until;
use crate::restart::{count_kept, push_restart};
use pol_data::Memory;
use pol_disk::MemDisk;
use pol_model::Options;
use pol_play_kept::config_of;
use std::alloc::Global;

/// What a drill writes.
#[derive(Debug, Drop)]
pub struct Drilled {
    /// The texts of the answers before the call failed, and the line `restart N` behind them.
    pub text: Vec<u8>,
    /// Whether one of the answers is a refusal, `notyet` or `noendpoint`.
    pub marked: bool,
}

/// A script is played over an empty disk in memory whose calls fail from number `call` on, counted from 1. Then the disk crashes, with
/// all that was written where that number is odd and with what a sync had put on it where it is even, and its journal is opened again.
/// The text is that of the lines before the call failed, and of the line `restart N`, where N requests are found ('profile').
///
/// The one error is want of memory, of the disk as well.
pub fn drill(alloc: Global, options: Options, call: u32, script: &[u8]) -> Result<Drilled, Memory>
    requires limit { IsSomeAnd options.map_max (λ limit. limit ≤ 65536) }
    requires first { 1 ≤ call }
    requires within { IsTrue (fits_limits script.now) }
    ensures { IfOk result (λ drilled.
        IsDrill options call (readings_of script.now) drilled.text.items (if drilled.marked then 1 else 0)) }
{
    let config = config_of(options);
    let mut disk = MemDisk::new(alloc, Some(u64::from(call)))?;
    let told = play_until(alloc, &mut disk, config, call, script)?;
    let kept = count_kept(alloc, disk, config, call)?;
    let mut text = told.text;
    push_restart(alloc, &mut text, kept)?;
    Ok(Drilled {
        text,
        marked: told.marked,
    })
}
