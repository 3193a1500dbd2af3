//! What a policy map shuts.
ghost use Rattle.std.specs.Prelude.{◌≡◌, ◌<◌, ◌≤◌, ◌-◌, ◌^◌, ◌==◌, ℕ, IfOk, count_by, drop, filter, length, nat_lt, take};
ghost use Rattle.std.specs.List.{All};
ghost use Rattle.std.specs.List.Sorted.{IsNonDecreasingBy};
ghost use Rattle.pol_mapkey.specs.Entries.{read_map};
ghost use Rattle.pol_mapkey.specs.MapKey.{every_key};
ghost use Rattle.pol_audit.specs.Difference.{IsDifference, least_number};
ghost use Rattle.pol_audit.specs.Packets.{direction_place, packet_place};
ghost use Rattle.pol_shut_ports.specs.Shut.{all_allowed, group_place, place_of, shut_at, word_in};

use crate::standing::{are_numbers, number_in, number_place};
use pol_audit::{Difference, Differences, Entries, Numbers, differences};
use pol_data::{Memory, Steps};
use pol_mapkey::{KeyProto, Kind, MapKey};
use pol_ports::{Direction, PortPrefix, Proto};
use std::alloc::Global;
use std::marker::{Brand, Model};
use std::sync::ledger::{Blank, Ledger};

/// What a policy map shuts, found by direction, number and protocol. A contract sees the entries of the map.
#[derive(Drop)]
pub struct Shut {
    entries: Entries,
    list: Differences,
}

impl Model for Shut {
    ghost use Rattle.std.specs.Prelude.{◌<◌, ◌^◌, List};
    ghost use Rattle.std.specs.List.{All};
    ghost use Rattle.pol_mapkey.specs.Entries.{Entry};
    ghost use Rattle.pol_audit.specs.Difference.{IsDifference};
    ghost use Rattle.pol_shut_ports.specs.Shut.{all_allowed};

    ghost Value = { List Entry };

    ghost view = { λ shut. shut.entries };

    ghost invariant = { λ shut.
        All (λ e. e.0.id < 2 ^ 32) shut.entries × IsDifference all_allowed shut.entries shut.list };
}

/// The key of a direction for every number, protocol and port.
#[tactic(auto, using(crate::proofs::Open::every_key_is))]
fn every_key(dir: Direction) -> MapKey
    ensures { result ≡ every_key dir 0 }
{
    MapKey {
        dir,
        id: 0,
        proto: KeyProto::Every,
        port: PortPrefix { bits: 0, len: 0 },
    }
}

/// The map that allows all.
fn all_allowed(alloc: Global) -> Result<Entries, Memory>
    ensures { IfOk result (λ entries. entries ≡ all_allowed) }
{
    let mut entries = Vec::new(alloc);
    entries.push((every_key(Direction::Ingress), Kind::Allow))?;
    entries.push((every_key(Direction::Egress), Kind::Allow))?;
    Ok(Entries::from_vec(entries))
}

// Nothing here asks how many steps the differences take.
fn differences_over<L: Ledger>(
    blank: Blank,
    alloc: Global,
    left: &Entries,
    right: &Entries,
) -> Result<Differences, Memory>
    requires name { blank.name ≡ L.name }
    requires parts { blank.parts ≡ L.parts }
    requires some { blank.parts ≡ 1 }
    ensures { IfOk result (IsDifference left.now right.now) }
{
    let mut steps = Steps::<L>::new(blank);
    differences(alloc, left, right, &mut steps)
}

/// A number for each protocol, in their order.
fn proto_place(proto: Proto) -> u64
    ensures value { result ≡ packet_place proto }
    ensures small { result < 4 }
{
    match proto {
        Proto::Tcp => 1,
        Proto::Udp => 2,
        Proto::Sctp => 3,
    }
}

/// A number for each direction, number and protocol, in their order.
fn group_place(dir: Direction, number: u32, proto: Proto) -> u64
    ensures value { result ≡ group_place (direction_place dir) number (packet_place proto) }
    ensures small { result < 2 ^ 36 }
{
    number_place(dir, number) * 4 + proto_place(proto)
}

/// The least number of a range.
fn least_number(numbers: Numbers) -> u32
    ensures { result ≡ least_number numbers }
{
    match numbers {
        Numbers::EveryOther => 0,
        Numbers::One(number) => number,
    }
}

fn place_of(range: &Difference) -> u64
    ensures { result ≡ place_of range.now }
{
    group_place(range.dir, least_number(range.numbers), range.proto)
}

/// How many ranges, whose places don't descend, have a place below a bound.
fn count_below(ranges: &[Difference], bound: u64) -> usize
    requires { IsNonDecreasingBy place_of ranges.now }
    ensures count { result ≡ count_by (λ d. nat_lt (place_of d) bound) ranges.now }
    ensures within { result ≤ length ranges.now }
{
    ranges.partition_point(|range| place_of(range) < bound)
}

/// Where the ranges of a place begin and end.
fn bounds(ranges: &[Difference], place: u64) -> (usize, usize)
    requires up { IsNonDecreasingBy place_of ranges.now }
    requires small { place < 2 ^ 36 }
    ensures part { take (result.1 - result.0) (drop result.0 ranges.now) ≡ filter (λ d.
        place_of d == place) ranges.now }
    ensures ordered { result.0 ≤ result.1 }
    ensures within { result.1 ≤ length ranges.now }
{
    let from = count_below(ranges, place);
    let to = count_below(ranges, place + 1);
    (from, to)
}

/// The ranges of one place.
fn ranges_at(ranges: &[Difference], place: u64) -> &[Difference]
    requires up { IsNonDecreasingBy place_of ranges.now }
    requires small { place < 2 ^ 36 }
    ensures { result.now ≡ filter (λ d. place_of d == place) ranges.now }
{
    let (from, to) = bounds(ranges, place);
    &ranges[from..to]
}

/// The ranges of a direction, number and protocol.
fn shut_at<'a>(
    entries: &Entries,
    ranges: &'a [Difference],
    dir: Direction,
    id: u32,
    proto: Proto,
) -> &'a [Difference]
    requires small { All (λ e. e.0.id < 2 ^ 32) entries.now }
    requires difference { IsDifference all_allowed entries.now ranges.now }
    ensures { result.now ≡ shut_at entries.now ranges.now dir id proto }
{
    let number = number_in(entries, dir, id);
    ranges_at(ranges, group_place(dir, number, proto))
}

impl Shut {
    /// What the map of these entries shuts. The one error is want of memory.
    pub fn new(alloc: Global, entries: Entries) -> Result<Shut, Memory>
        ensures entries { IfOk result (λ shut. shut ≡ entries) }
    {
        let open = all_allowed(alloc)?;
        let list = differences_over::<Brand>(Blank::new(1), alloc, &open, &entries)?;
        are_numbers(entries.as_slice());
        Ok(Shut { entries, list })
    }

    /// The ranges of ports that the map shuts to or from the number, for packets of the protocol: what they say of each port is what
    /// a look-up in the map says of it.
    pub fn at(&self, dir: Direction, id: u32, proto: Proto) -> &[Difference]
        ensures { (port : ℕ) → port < 2 ^ 16 → word_in result.now port ≡ read_map self.now dir id proto port }
    {
        shut_at(&self.entries, self.list.as_slice(), dir, id, proto)
    }
}
