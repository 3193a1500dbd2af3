//! The entries of one direction and number, which stand together in a table.
ghost use Rattle.std.specs.Prelude.{◌≡◌, ◌≤◌, ◌-◌, ◌==◌, drop, take, nat_lt, IfOk, count_by, filter, length};
ghost use Rattle.std.specs.List.Sorted.{IsNonDecreasingBy};
ghost use Rattle.pol_ports.specs.Direction.{same_direction};
ghost use Rattle.pol_mapkey.specs.Entries.{Entry};

use pol_data::Memory;
use pol_mapkey::{Kind, MapKey};
use pol_ports::Direction;
use std::alloc::Global;

/// The entries of one direction, in their order. The one error is want of memory.
pub(crate) fn of_direction(
    alloc: Global,
    entries: &[(MapKey, Kind)],
    dir: Direction,
) -> Result<Vec<(MapKey, Kind)>, Memory>
    ensures { IfOk result (λ part. part.items ≡ filter (λ e. same_direction e.0.dir dir) entries.now) }
{
    let mut part = Vec::new(alloc);
    for entry in entries {
        if entry.0.dir == dir {
            part.push(*entry)?;
        }
    }
    Ok(part)
}

/// How many entries, whose numbers don't descend, have a number below a bound.
fn count_below(entries: &[(MapKey, Kind)], bound: u64) -> usize
    requires { IsNonDecreasingBy (λ e. e.0.id) entries.now }
    ensures count { result ≡ count_by (λ e. nat_lt e.0.id bound) entries.now }
    ensures within { result ≤ length entries.now }
{
    entries.partition_point(|entry| u64::from(entry.0.id) < bound)
}

/// Where the entries of a number begin and end.
fn bounds(entries: &[(MapKey, Kind)], id: u32) -> (usize, usize)
    requires { IsNonDecreasingBy (λ e. e.0.id) entries.now }
    ensures part { take (result.1 - result.0) (drop result.0 entries.now) ≡ filter (λ e. e.0.id == id) entries.now }
    ensures ordered { result.0 ≤ result.1 }
    ensures within { result.1 ≤ length entries.now }
{
    let from = count_below(entries, u64::from(id));
    let to = count_below(entries, u64::from(id) + 1);
    (from, to)
}

/// Of entries whose numbers don't descend, those of one number.
pub(crate) fn segment(entries: &[(MapKey, Kind)], id: u32) -> &[(MapKey, Kind)]
    requires { IsNonDecreasingBy (λ e. e.0.id) entries.now }
    ensures { result.now ≡ filter (λ e. e.0.id == id) entries.now }
{
    let (from, to) = bounds(entries, id);
    &entries[from..to]
}
