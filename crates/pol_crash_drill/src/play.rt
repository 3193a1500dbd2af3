//! A script, until a call of the disk fails.
ghost use Rattle.std.specs.Prelude.{◌≡◌, ◌≤◌, IfOk, IsTrue, OnOk, true};
ghost use Rattle.pol_crash_drill.specs.Crashed.{IsCut, empty_disk};
ghost use Rattle.pol_kept.specs.Keeps.{options_of};
ghost use Rattle.pol_run.specs.Run.{readings_of};
ghost use Rattle.pol_status.specs.Limits.{fits_limits};

use pol_data::Memory;
use pol_disk::MemDisk;
use pol_kept::KeptConfig;
use pol_play_kept::{KeptText, ScriptError, play_script};
use std::alloc::Global;

/// The answers before the call failed.
#[derive(Drop)]
pub(crate) struct Told {
    /// Their texts, one behind another.
    pub text: Vec<u8>,
    /// Whether one of them is a refusal, `notyet` or `noendpoint`.
    pub marked: bool,
}

/// The answers, where the disk's last call is that one. An earlier one failed for want of memory.
fn told_at(disk: &MemDisk, call: u32, told: Told) -> Result<Told, Memory>
    ensures same { IfOk result (λ same. same ≡ told) }
    ensures counted { OnOk result (disk.now.calls ≡ call) }
{
    if disk.calls() == u64::from(call) {
        Ok(told)
    } else {
        Err(Memory)
    }
}

/// The answers of a script; where a call of the disk failed, that is the one of this number.
fn told_of(disk: &MemDisk, call: u32, kept: KeptText) -> Result<Told, Memory>
    ensures text { IfOk result (λ told. told.text.items ≡ kept.text.items) }
    ensures marked { IfOk result (λ told. told.marked ≡ kept.marked) }
    ensures counted { OnOk result (kept.lost ≡ true → disk.now.calls ≡ call) }
{
    let told = Told {
        text: kept.text,
        marked: kept.marked,
    };
    if kept.lost {
        told_at(disk, call, told)
    } else {
        Ok(told)
    }
}

/// A script is played over an empty disk, until its call of that number fails where there are so many. The one error is want of memory,
/// of the disk as well.
pub(crate) fn play_until(
    alloc: Global,
    disk: &mut MemDisk,
    config: KeptConfig,
    call: u32,
    script: &[u8],
) -> Result<Told, Memory>
    requires limit { config.map_max ≤ 65536 }
    requires first { 1 ≤ call }
    requires within { IsTrue (fits_limits script.now) }
    requires empty { disk.old ≡ empty_disk call }
    ensures { IfOk result (λ told.
        IsCut (options_of config) call (readings_of script.now) disk.new.past told.text.items told.marked) }
{
    match play_script(alloc, disk, config, script) {
        Ok(kept) => {
            let told = told_of(disk, call, kept)?;
            Ok(told)
        }
        Err(ScriptError::Disk) => {
            let nothing = Told {
                text: Vec::new(alloc),
                marked: false,
            };
            let told = told_at(disk, call, nothing)?;
            Ok(told)
        }
        Err(ScriptError::Damaged { at: _ }) => unreachable!(),
        Err(ScriptError::Memory) => Err(Memory),
    }
}
