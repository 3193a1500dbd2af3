//! The whole difference of two tables.
ghost use Rattle.std.specs.Prelude.{◌≡◌, ◌≤◌, ◌+◌, ◌*◌, ◌∷◌, [], ℕ, List, IfOk, OnOk, length};
ghost use Rattle.pol_audit.specs.declared.difference.Difference.{Difference as Range};
ghost use Rattle.std.specs.List.{flat_map, sum_by};
ghost use Rattle.std.specs.List.Sorted.{IsNonDecreasingBy, IsStrictlySortedBy};
ghost use Rattle.std.specs.Ordering.{nat_cmp};
ghost use Rattle.pol_mapkey.specs.Entries.{Entry};
ghost use Rattle.pol_audit.specs.Difference.{IsDifference};
ghost use Rattle.pol_audit.specs.Extent.{extent, extent_in, share_of, share_of_parts};
ghost use Rattle.pol_audit.specs.Tables.{IsTable};
ghost use Rattle.pol_ports.specs.declared.Direction.TheVariants.{Ingress, Egress};
ghost use Rattle.pol_audit.specs.Exact.{Grown, GrownIn, IsPart, IsSplit, groups_at};
ghost use Rattle.pol_audit.specs.Kinds.{PortsAscend, numbered, own_of};

use crate::cuts::{Parts, cuts_of};
use crate::difference::{Difference, Differences};
use crate::entries::Entries;
use crate::group::Group;
use crate::in_order::{are_entries, are_ports};
use crate::numbers::numbers_of;
use crate::ranges::push_ranges;
use crate::segment::{of_direction, segment};
use pol_data::{Items, Memory, Steps};
use pol_mapkey::{Kind, MapKey};
use pol_ports::{Direction, Proto};
use std::alloc::Global;
use std::sync::ledger::Ledger;

/// Appends the ranges of one direction, number and protocol.
fn push_group<L: Ledger>(
    alloc: Global,
    out: &mut Vec<Difference>,
    group: Group,
    parts: &Parts,
    steps: &mut Steps<L>,
) -> Result<(), Memory>
    requires left { PortsAscend parts.now.left.now }
    requires right { PortsAscend parts.now.right.now }
    requires left_every { PortsAscend parts.now.left_every.now }
    requires right_every { PortsAscend parts.now.right_every.now }
    ensures grown { OnOk result ((left right : List Entry)
        → IsSplit group.dir group.id parts.now.left.now parts.now.left_every.now left
        → IsSplit group.dir group.id parts.now.right.now parts.now.right_every.now right
        → Grown left right (group ∷ []) out.old.items out.new.items) }
    ensures few { OnOk result (length out.new.items ≤ length out.old.items + 2
        * share_of_parts parts.now.left.now parts.now.right.now parts.now.left_every.now parts.now.right_every.now) }
    ensures forward { steps.old ≤ steps.new }
    ensures cost { steps.new ≤ steps.old + 10
        * share_of_parts parts.now.left.now parts.now.right.now parts.now.left_every.now parts.now.right_every.now }
{
    let ports = cuts_of(alloc, parts, group.proto)?;
    are_ports(&ports);
    push_ranges(alloc, out, group, parts, &ports, steps)
}

/// Appends the ranges of one direction and number.
pub(crate) fn push_number<L: Ledger>(
    alloc: Global,
    out: &mut Vec<Difference>,
    dir: Direction,
    id: u32,
    parts: &Parts,
    steps: &mut Steps<L>,
) -> Result<(), Memory>
    requires left { PortsAscend parts.now.left.now }
    requires right { PortsAscend parts.now.right.now }
    requires left_every { PortsAscend parts.now.left_every.now }
    requires right_every { PortsAscend parts.now.right_every.now }
    ensures grown { OnOk result ((left right : List Entry)
        → IsSplit dir id parts.now.left.now parts.now.left_every.now left
        → IsSplit dir id parts.now.right.now parts.now.right_every.now right
        → Grown left right (groups_at dir id) out.old.items out.new.items) }
    ensures few { OnOk result (length out.new.items ≤ length out.old.items + 6
        * share_of_parts parts.now.left.now parts.now.right.now parts.now.left_every.now parts.now.right_every.now) }
    ensures forward { steps.old ≤ steps.new }
    ensures cost { steps.new ≤ steps.old + 30
        * share_of_parts parts.now.left.now parts.now.right.now parts.now.left_every.now parts.now.right_every.now }
{
    let tcp = Group {
        dir,
        id,
        proto: Proto::Tcp,
    };
    push_group(alloc, out, tcp, parts, steps)?;
    let udp = Group {
        dir,
        id,
        proto: Proto::Udp,
    };
    push_group(alloc, out, udp, parts, steps)?;
    let sctp = Group {
        dir,
        id,
        proto: Proto::Sctp,
    };
    push_group(alloc, out, sctp, parts, steps)
}

/// The entries of a number and of 0, each once.
pub(crate) fn parts_of<'a>(
    left: &'a [(MapKey, Kind)],
    right: &'a [(MapKey, Kind)],
    id: u32,
) -> Parts<'a>
    requires left { IsNonDecreasingBy (λ e. e.0.id) left.now }
    requires right { IsNonDecreasingBy (λ e. e.0.id) right.now }
    ensures left { result.left.now ≡ own_of id left.now }
    ensures right { result.right.now ≡ own_of id right.now }
    ensures left_every { result.left_every.now ≡ numbered 0 left.now }
    ensures right_every { result.right_every.now ≡ numbered 0 right.now }
    ensures share { share_of_parts result.left.now result.right.now result.left_every.now result.right_every.now
        ≡ share_of left.now right.now id }
{
    let left_every = segment(left, 0);
    let right_every = segment(right, 0);
    if id == 0 {
        Parts {
            left: &left[..0],
            right: &right[..0],
            left_every,
            right_every,
        }
    } else {
        Parts {
            left: segment(left, id),
            right: segment(right, id),
            left_every,
            right_every,
        }
    }
}

/// Appends the ranges of these numbers of a direction.
fn push_numbers<L: Ledger>(
    alloc: Global,
    out: &mut Vec<Difference>,
    left: &[(MapKey, Kind)],
    right: &[(MapKey, Kind)],
    dir: Direction,
    numbers: &[u32],
    steps: &mut Steps<L>,
) -> Result<(), Memory>
    requires left { IsNonDecreasingBy (λ e. e.0.id) left.now }
    requires right { IsNonDecreasingBy (λ e. e.0.id) right.now }
    requires left_ports { (n : ℕ) → PortsAscend (numbered n left.now) }
    requires right_ports { (n : ℕ) → PortsAscend (numbered n right.now) }
    requires numbers { IsStrictlySortedBy nat_cmp numbers.now }
    ensures grown { OnOk result ((lefts rights : List Entry) → IsPart dir left.now lefts → IsPart dir right.now rights
        → Grown lefts rights (flat_map (groups_at dir) numbers.now) out.old.items out.new.items) }
    ensures few { OnOk result (length out.new.items
        ≤ length out.old.items + 6 * sum_by (share_of left.now right.now) numbers.now) }
    ensures forward { steps.old ≤ steps.new }
    ensures cost { steps.new ≤ steps.old + 30 * sum_by (share_of left.now right.now) numbers.now }
{
    for id in numbers {
        let parts = parts_of(left, right, *id);
        push_number(alloc, out, dir, *id, &parts, steps)?;
    }
    Ok(())
}

/// Appends the ranges of a direction.
fn push_direction<L: Ledger>(
    alloc: Global,
    out: &mut Vec<Difference>,
    left: &[(MapKey, Kind)],
    right: &[(MapKey, Kind)],
    dir: Direction,
    steps: &mut Steps<L>,
) -> Result<(), Memory>
    requires left { IsTable left.now }
    requires right { IsTable right.now }
    ensures grown { OnOk result (GrownIn left.now right.now dir out.old.items out.new.items) }
    ensures few { OnOk result (length out.new.items ≤ length out.old.items + 6 * extent_in dir left.now right.now) }
    ensures forward { steps.old ≤ steps.new }
    ensures cost { steps.new ≤ steps.old + 30 * extent_in dir left.now right.now }
{
    are_entries(left);
    are_entries(right);
    let left_part = of_direction(alloc, left, dir)?;
    let right_part = of_direction(alloc, right, dir)?;
    let numbers = numbers_of(alloc, &left_part, &right_part)?;
    push_numbers(alloc, out, &left_part, &right_part, dir, &numbers, steps)
}

/// Appends the ranges of ingress, and then those of egress.
fn push_directions<L: Ledger>(
    alloc: Global,
    out: &mut Vec<Difference>,
    left: &[(MapKey, Kind)],
    right: &[(MapKey, Kind)],
    steps: &mut Steps<L>,
) -> Result<(), Memory>
    requires left { IsTable left.now }
    requires right { IsTable right.now }
    ensures grown { OnOk result ((middle : List Range) × GrownIn left.now right.now Ingress out.old.items middle
        × GrownIn left.now right.now Egress middle out.new.items) }
    ensures few { OnOk result (length out.new.items ≤ length out.old.items + 6 * extent left.now right.now) }
    ensures forward { steps.old ≤ steps.new }
    ensures cost { steps.new ≤ steps.old + 30 * extent left.now right.now }
{
    push_direction(alloc, out, left, right, Direction::Ingress, steps)?;
    push_direction(alloc, out, left, right, Direction::Egress, steps)
}

/// All packets on which two tables differ, as ranges in order: by direction, numbers, protocol and ports. Ranges that touch
/// tell different words. A step is that an entry is taken up or left, or that what a table's entries say at a port is read.
/// The one error is want of memory (profile).
pub fn differences<L: Ledger>(
    alloc: Global,
    left: &Entries,
    right: &Entries,
    steps: &mut Steps<L>,
) -> Result<Differences, Memory>
    ensures difference { IfOk result (λ list. IsDifference left.now right.now list) }
    ensures few { IfOk result (λ list. length list ≤ 6 * extent left.now right.now) }
    ensures forward { steps.old ≤ steps.new }
    ensures cost { steps.new ≤ steps.old + 30 * extent left.now right.now }
{
    let mut out = Vec::new(alloc);
    push_directions(alloc, &mut out, left.as_slice(), right.as_slice(), steps)?;
    Ok(Items::from_vec(out))
}
