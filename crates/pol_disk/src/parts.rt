//! What the calls of the disk in memory do to what it keeps. Each function takes the parts that it changes.
ghost use Rattle.std.specs.Prelude.{◌≡◌, ◌+◌, ◌<◌, ◌≤◌, ◌++◌, [], ◌∷◌, drop, length, take, vec_capacity, vec_len, if◌then◌else◌, IfOk, OnErr, OnOk};
ghost use Rattle.pol_disk.specs.Images.{overwritten};
ghost use Rattle.pol_disk.specs.declared.call.DiskCall.TheVariants.{Write as Wrote};

use crate::DiskCall;
use pol_data::Items;
use pol_streams::Memory;
use std::alloc::Global;

/// Room for one call more in the record, and for a crash behind it.
pub(crate) fn make_room(past: &mut Vec<DiskCall>) -> Result<(), Memory>
    ensures same { past.new.items ≡ past.old.items }
    ensures kept { vec_capacity past.old ≤ vec_capacity past.new }
    ensures ok { OnOk result (vec_len past.new + 2 ≤ vec_capacity past.new) }
{
    past.reserve(2)
}

/// Room for bytes up to `end`, for each of the two.
pub(crate) fn make_bytes_room(
    bytes: &mut Vec<u8>,
    synced: &mut Vec<u8>,
    end: usize,
) -> Result<(), Memory>
    ensures bytes { bytes.new.items ≡ bytes.old.items }
    ensures synced { synced.new.items ≡ synced.old.items }
    ensures bytes_kept { vec_capacity bytes.old ≤ vec_capacity bytes.new }
    ensures synced_kept { vec_capacity synced.old ≤ vec_capacity synced.new }
    ensures bytes_ok { OnOk result (end ≤ vec_capacity bytes.new) }
    ensures synced_ok { OnOk result (end ≤ vec_capacity synced.new) }
{
    bytes.reserve(end.saturating_sub(bytes.len()))?;
    synced.reserve(end.saturating_sub(synced.len()))
}

/// Writes over the bytes from `at` on. There is room for them.
pub(crate) fn overwrite(bytes: &mut Vec<u8>, at: usize, new: &[u8])
    requires place { at ≤ length bytes.old.items }
    requires room { at + length new.now ≤ vec_capacity bytes.old }
    ensures written { bytes.new.items ≡ overwritten bytes.old.items at new.now }
    ensures kept { vec_capacity bytes.old ≤ vec_capacity bytes.new }
{
    if new.len() < bytes.len() - at {
        bytes[at..at + new.len()].copy_from_slice(new);
    } else {
        bytes.truncate(at);
        bytes.extend_from_slice(new).unwrap();
    }
}

/// Makes `to` equal to `from`, where they are alike up to a place. There is room for it.
pub(crate) fn copy_tail(to: &mut Vec<u8>, from: &Vec<u8>, alike: usize)
    requires to_long { alike ≤ length to.old.items }
    requires from_long { alike ≤ length from.now.items }
    requires alike { take alike to.old.items ≡ take alike from.now.items }
    requires room { length from.now.items ≤ vec_capacity to.old }
    ensures equal { to.new.items ≡ from.now.items }
    ensures fits { length from.now.items ≤ vec_capacity to.new }
    ensures fits_back { length to.new.items ≤ vec_capacity from.now }
{
    to.truncate(alike);
    to.extend_from_slice(&from[alike..]).unwrap();
}

/// Makes both equal to the first or to the second. There is room for it.
pub(crate) fn make_equal(keep: bool, bytes: &mut Vec<u8>, synced: &mut Vec<u8>, alike: usize)
    requires in_bytes { alike ≤ length bytes.old.items }
    requires in_synced { alike ≤ length synced.old.items }
    requires alike { take alike bytes.old.items ≡ take alike synced.old.items }
    requires bytes_room { length synced.old.items ≤ vec_capacity bytes.old }
    requires synced_room { length bytes.old.items ≤ vec_capacity synced.old }
    ensures bytes { bytes.new.items ≡ (if keep then bytes.old.items else synced.old.items) }
    ensures synced { synced.new.items ≡ bytes.new.items }
    ensures bytes_fit { length bytes.new.items ≤ vec_capacity synced.new }
    ensures synced_fit { length synced.new.items ≤ vec_capacity bytes.new }
{
    if keep {
        copy_tail(synced, bytes, alike);
    } else {
        copy_tail(bytes, synced, alike);
    }
}

/// The call that wrote these bytes, for the record.
pub(crate) fn write_call(alloc: Global, at: u64, bytes: &[u8]) -> Result<DiskCall, Memory>
    ensures { IfOk result (λ call. call ≡ Wrote at bytes.now) }
{
    Ok(DiskCall::Write {
        at,
        bytes: Items::from_vec(bytes.to_vec(alloc)?),
    })
}
