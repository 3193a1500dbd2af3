//! A crash, and what is found after it.
ghost use Rattle.std.specs.Prelude.{◌≡◌, ◌≤◌, ◌++◌, List, length, IfOk, OnOk};
ghost use Rattle.std.specs.String.{string_bytes};
ghost use Rattle.pol_crash_drill.specs.Crashed.{left_by_crash};
ghost use Rattle.pol_crash_drill.specs.Drill.{restart_text};
ghost use Rattle.pol_journal.specs.Journal.{IsJournal};
ghost use Rattle.pol_kept.specs.Keeps.{options_of};
ghost use Rattle.pol_model.specs.declared.request.Request.{Request as AnyRequest};
ghost use Rattle.pol_play_kept.specs.Played.{IsSomeJournal};

use pol_data::Memory;
use pol_disk::MemDisk;
use pol_kept::{KeptConfig, OpenError, open_over};
use std::alloc::Global;

/// The disk crashes, its journal is opened again, and its requests are counted. The one error is want of memory, of the disk as well.
pub(crate) fn count_kept(
    alloc: Global,
    disk: MemDisk,
    config: KeptConfig,
    call: u32,
) -> Result<usize, Memory>
    requires limit { config.map_max ≤ 65536 }
    requires journal { IsSomeJournal (options_of config) (left_by_crash call disk.past) }
    ensures { (requests : List AnyRequest) → IsJournal (options_of config) requests (left_by_crash call disk.past)
        → IfOk result (λ count. count ≡ length requests) }
{
    let mut left = disk.crash(call % 2 == 1);
    match open_over(alloc, &mut left, config) {
        Ok(machine) => Ok(machine.repo().journal().len()),
        Err(OpenError::Damaged { at: _ }) => unreachable!(),
        Err(OpenError::Disk | OpenError::Memory) => Err(Memory),
    }
}

/// The line that tells how many requests are found. The one error is want of memory.
fn restart_line(alloc: Global, count: usize) -> Result<String, Memory>
    ensures { IfOk result (λ line. string_bytes line ≡ restart_text count) }
{
    let mut line = String::new(alloc);
    write!(line, "restart {count}")?;
    line.push('\n')?;
    Ok(line)
}

/// Appends how many requests are found.
pub(crate) fn push_restart(alloc: Global, text: &mut Vec<u8>, count: usize) -> Result<(), Memory>
    ensures { OnOk result (text.new.items ≡ text.old.items ++ restart_text count) }
{
    let line = restart_line(alloc, count)?;
    text.extend_from_slice(line.as_bytes())
}
