//! The first range of the difference of two tables: those behind it aren't made.
ghost use Rattle.std.specs.Prelude.{◌≡◌, ◌≤◌, ◌+◌, ◌*◌, ℕ, List, IfOk};
ghost use Rattle.std.specs.List.{flat_map, slice_get, sum_by};
ghost use Rattle.std.specs.List.Sorted.{IsNonDecreasingBy, IsStrictlySortedBy};
ghost use Rattle.std.specs.Ordering.{nat_cmp};
ghost use Rattle.pol_audit.specs.declared.difference.Difference.{Difference as Range};
ghost use Rattle.pol_audit.specs.Difference.{IsDifference};
ghost use Rattle.pol_audit.specs.Exact.{IsPart, IsSplit, groups_at};
ghost use Rattle.pol_audit.specs.Extent.{extent, extent_in, share_of, share_of_parts};
ghost use Rattle.pol_audit.specs.First.{AreSmall, IsFirstIn, IsFirstOf};
ghost use Rattle.pol_audit.specs.Kinds.{PortsAscend, numbered};
ghost use Rattle.pol_audit.specs.Tables.{IsTable};
ghost use Rattle.pol_mapkey.specs.Entries.{Entry};

use crate::cuts::Parts;
use crate::difference::Difference;
use crate::directions::{parts_of, push_number};
use crate::in_order::are_entries;
use crate::numbers::numbers_of;
use crate::segment::of_direction;
use pol_data::{Memory, Steps};
use pol_mapkey::{Kind, MapKey};
use pol_ports::Direction;
use std::alloc::Global;
use std::sync::ledger::Ledger;

/// The first range of one direction and number, whose ranges alone are made.
fn first_of_number<L: Ledger>(
    alloc: Global,
    dir: Direction,
    id: u32,
    parts: &Parts,
    steps: &mut Steps<L>,
) -> Result<Option<Difference>, Memory>
    requires left { PortsAscend parts.now.left.now }
    requires right { PortsAscend parts.now.right.now }
    requires left_every { PortsAscend parts.now.left_every.now }
    requires right_every { PortsAscend parts.now.right_every.now }
    ensures first { IfOk result (λ first.
        (left right : List Entry) → IsSplit dir id parts.now.left.now parts.now.left_every.now left
        → IsSplit dir id parts.now.right.now parts.now.right_every.now right
        → IsFirstOf left right (groups_at dir id) first) }
    ensures forward { steps.old ≤ steps.new }
    ensures cost { steps.new ≤ steps.old + 30
        * share_of_parts parts.now.left.now parts.now.right.now parts.now.left_every.now parts.now.right_every.now }
{
    let mut out = Vec::new(alloc);
    push_number(alloc, &mut out, dir, id, parts, steps)?;
    match out.first() {
        None => Ok(None),
        Some(range) => Ok(Some(*range)),
    }
}

/// The first range of these numbers of a direction.
fn first_of_numbers<L: Ledger>(
    alloc: Global,
    left: &[(MapKey, Kind)],
    right: &[(MapKey, Kind)],
    dir: Direction,
    numbers: &[u32],
    steps: &mut Steps<L>,
) -> Result<Option<Difference>, Memory>
    requires left { IsNonDecreasingBy (λ e. e.0.id) left.now }
    requires right { IsNonDecreasingBy (λ e. e.0.id) right.now }
    requires left_ports { (n : ℕ) → PortsAscend (numbered n left.now) }
    requires right_ports { (n : ℕ) → PortsAscend (numbered n right.now) }
    requires numbers { IsStrictlySortedBy nat_cmp numbers.now }
    ensures first { IfOk result (λ first.
        (lefts rights : List Entry) → IsPart dir left.now lefts → IsPart dir right.now rights
        → AreSmall lefts → AreSmall rights → IsFirstOf lefts rights (flat_map (groups_at dir) numbers.now) first) }
    ensures forward { steps.old ≤ steps.new }
    ensures cost { steps.new ≤ steps.old + 30 * sum_by (share_of left.now right.now) numbers.now }
{
    for id in numbers {
        let parts = parts_of(left, right, *id);
        let first = first_of_number(alloc, dir, *id, &parts, steps)?;
        if first.is_some() {
            return Ok(first);
        }
    }
    Ok(None)
}

/// The first range of a direction.
fn first_of_direction<L: Ledger>(
    alloc: Global,
    left: &[(MapKey, Kind)],
    right: &[(MapKey, Kind)],
    dir: Direction,
    steps: &mut Steps<L>,
) -> Result<Option<Difference>, Memory>
    requires left { IsTable left.now }
    requires right { IsTable right.now }
    ensures first { IfOk result (λ first. IsFirstIn left.now right.now dir first) }
    ensures small_left { AreSmall left.now }
    ensures small_right { AreSmall right.now }
    ensures forward { steps.old ≤ steps.new }
    ensures cost { steps.new ≤ steps.old + 30 * extent_in dir left.now right.now }
{
    are_entries(left);
    are_entries(right);
    let left_part = of_direction(alloc, left, dir)?;
    let right_part = of_direction(alloc, right, dir)?;
    let numbers = numbers_of(alloc, &left_part, &right_part)?;
    first_of_numbers(alloc, &left_part, &right_part, dir, &numbers, steps)
}

/// The first range of the difference of two tables, none where they say the same.
pub(crate) fn first_range<L: Ledger>(
    alloc: Global,
    left: &[(MapKey, Kind)],
    right: &[(MapKey, Kind)],
    steps: &mut Steps<L>,
) -> Result<Option<Difference>, Memory>
    requires left { IsTable left.now }
    requires right { IsTable right.now }
    ensures first { IfOk result (λ first.
        (list : List Range) × IsDifference left.now right.now list × (slice_get list 0 ≡ first)) }
    ensures forward { steps.old ≤ steps.new }
    ensures cost { steps.new ≤ steps.old + 30 * extent left.now right.now }
{
    let ingress = first_of_direction(alloc, left, right, Direction::Ingress, steps)?;
    if ingress.is_some() {
        return Ok(ingress);
    }
    first_of_direction(alloc, left, right, Direction::Egress, steps)
}
