//! Whether a number stands in a map by itself.
ghost use Rattle.std.specs.Prelude.{◌≡◌, ◌<◌, ◌≤◌, ◌-◌, ◌^◌, ◌==◌, count_by, drop, filter, length, nat_lt, take};
ghost use Rattle.std.specs.List.{All};
ghost use Rattle.std.specs.List.Sorted.{IsNonDecreasingBy};
ghost use Rattle.pol_mapkey.specs.Entries.{Entry};
ghost use Rattle.pol_audit.specs.Packets.{direction_place};
ghost use Rattle.pol_audit.specs.Tables.{stands};
ghost use Rattle.pol_shut_ports.specs.Shut.{entry_place, number_in, number_place};

use pol_audit::Entries;
use pol_mapkey::{Kind, MapKey};
use pol_ports::Direction;

/// A number has 32 bits.
fn is_number(number: u32)
    ensures { number < 2 ^ 32 }
{
    let _ = number;
}

/// The numbers of entries have 32 bits.
pub(crate) fn are_numbers(entries: &[(MapKey, Kind)])
    ensures { All (λ e. e.0.id < 2 ^ 32) entries.now }
{
    for entry in entries {
        is_number(entry.0.id);
    }
}

/// A number for each direction, in their order.
pub(crate) fn direction_place(dir: Direction) -> u64
    ensures value { result ≡ direction_place dir }
    ensures small { result < 2 }
{
    match dir {
        Direction::Ingress => 0,
        Direction::Egress => 1,
    }
}

/// A number for each direction and number, in their order.
pub(crate) fn number_place(dir: Direction, number: u32) -> u64
    ensures value { result ≡ number_place (direction_place dir) number }
    ensures small { result < 2 ^ 33 }
{
    direction_place(dir) * (1 << 32) + u64::from(number)
}

fn entry_place(entry: &(MapKey, Kind)) -> u64
    ensures { result ≡ entry_place entry.now }
{
    number_place(entry.0.dir, entry.0.id)
}

/// How many entries, whose places don't descend, have a place below a bound.
fn count_below(entries: &[(MapKey, Kind)], bound: u64) -> usize
    requires { IsNonDecreasingBy entry_place entries.now }
    ensures count { result ≡ count_by (λ e. nat_lt (entry_place e) bound) entries.now }
    ensures within { result ≤ length entries.now }
{
    entries.partition_point(|entry| entry_place(entry) < bound)
}

/// Where the entries of a place begin and end.
fn bounds(entries: &[(MapKey, Kind)], place: u64) -> (usize, usize)
    requires up { IsNonDecreasingBy entry_place entries.now }
    requires small { place < 2 ^ 33 }
    ensures part { take (result.1 - result.0) (drop result.0 entries.now) ≡ filter (λ e.
        entry_place e == place) entries.now }
    ensures ordered { result.0 ≤ result.1 }
    ensures within { result.1 ≤ length entries.now }
{
    let from = count_below(entries, place);
    let to = count_below(entries, place + 1);
    (from, to)
}

/// The entries of one place.
fn entries_at(entries: &[(MapKey, Kind)], place: u64) -> &[(MapKey, Kind)]
    requires up { IsNonDecreasingBy entry_place entries.now }
    requires small { place < 2 ^ 33 }
    ensures { result.now ≡ filter (λ e. entry_place e == place) entries.now }
{
    let (from, to) = bounds(entries, place);
    &entries[from..to]
}

/// Whether some entry of the direction is of the number.
fn stands(entries: &Entries, dir: Direction, id: u32) -> bool
    requires { All (λ e. e.0.id < 2 ^ 32) entries.now }
    ensures { result ≡ stands dir id entries.now }
{
    !entries_at(entries.as_slice(), number_place(dir, id)).is_empty()
}

/// A number that stands in the map by itself, or 0 for every other.
pub(crate) fn number_in(entries: &Entries, dir: Direction, id: u32) -> u32
    requires { All (λ e. e.0.id < 2 ^ 32) entries.now }
    ensures { result ≡ number_in entries.now dir id }
{
    if stands(entries, dir, id) { id } else { 0 }
}
