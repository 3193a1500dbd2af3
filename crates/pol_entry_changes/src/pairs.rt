//! Old and new filters side by side.
ghost use Rattle.std.specs.Prelude.{◌≡◌, ◌+◌, ◌≤◌, ◌++◌, IfOk, IsTrue, OnOk, drop, length};
ghost use Rattle.std.specs.List.{AllByRecursion, Contains, flat_map};
ghost use Rattle.pol_filters.specs.declared.filter.Filter.{Filter as OneFilter};
ghost use Rattle.pol_sets.specs.Sets.{set_given};
ghost use Rattle.pol_entry_changes.specs.Balance.{Between, GoesOn};
ghost use Rattle.pol_entry_changes.specs.Given.{given_by};
ghost use Rattle.pol_entry_changes.specs.PeerRow.{Ascend};
ghost use Rattle.pol_entry_changes.specs.Told.{PeersTold, StandsAt, Stays};

use crate::entries::{push_filter, push_filters};
use crate::moved_rows::MovedRows;
use crate::rows::PeerRows;
use crate::standing::stands_at;
use crate::staying::{Moved, all_stay, stays};
use pol_data::Memory;
use pol_filters::Filter;
use pol_mapkey::{Kind, MapKey};
use pol_ports::Direction;
use std::alloc::Global;

/// The greatest stamp. A filter with a greater one is none of these; no proof needs that.
fn newest(filters: &[Filter]) -> u64 {
    let mut newest = 0;
    for one in filters {
        if newest < one.stamp {
            newest = one.stamp;
        }
    }
    newest
}

/// Appends the entries of the filters from this one on that have a greater stamp, and tells where they end.
fn push_newer(
    alloc: Global,
    come: &mut Vec<(MapKey, Kind)>,
    dir: Direction,
    filters: &[Filter],
    from: usize,
    newest: u64,
    rows: &PeerRows<'_>,
) -> Result<usize, Memory>
    requires within { from ≤ length filters.now }
    ensures within { IfOk result (λ to. to ≤ length filters.now) }
    ensures left { IfOk result (λ to.
        come.new.items ++ flat_map (given_by (set_given rows.now) dir) (drop to filters.now)
        ≡ come.old.items ++ flat_map (given_by (set_given rows.now) dir) (drop from filters.now)) }
{
    let mut to = from;
    while to < filters.len() && newest < filters[to].stamp {
        push_filter(alloc, come, dir, &filters[to], rows)?;
        to += 1;
    }
    Ok(to)
}

/// Appends what comes and goes of an old filter beside the new ones from this one on, and tells where those begin that are
/// left.
fn pair(
    alloc: Global,
    out: &mut Moved,
    dir: Direction,
    one: &Filter,
    others: &[Filter],
    from: usize,
    was: &PeerRows<'_>,
    is: &MovedRows<'_>,
) -> Result<usize, Memory>
    requires within { from ≤ length others.now }
    requires stays { (other : OneFilter) → Contains others.now other
        → StandsAt one.now other → (one.now ≡ other) × PeersTold was.now is.now.rows is.now.moves other.peers }
    requires before { AllByRecursion Ascend was.now }
    requires after { AllByRecursion Ascend is.now.rows }
    ensures within { IfOk result (λ to. to ≤ length others.now) }
    ensures left { IfOk result (λ to.
        Between (given_by (set_given was.now) dir one.now) (flat_map (given_by (set_given is.now.rows) dir)
        (drop from others.now)) (flat_map (given_by (set_given is.now.rows) dir)
        (drop to others.now)) out.old out.new) }
{
    if from < others.len() && stands_at(one, &others[from]) {
        stays(alloc, out, dir, one, was, is)?;
        Ok(from + 1)
    } else {
        push_filter(alloc, &mut out.gone, dir, one, was)?;
        Ok(from)
    }
}

/// Appends what comes and goes of the filters of a direction, of which some may come or go.
fn walk(
    alloc: Global,
    out: &mut Moved,
    dir: Direction,
    old: &[Filter],
    new: &[Filter],
    was: &PeerRows<'_>,
    is: &MovedRows<'_>,
) -> Result<(), Memory>
    requires stays { Stays was.now is.now.rows is.now.moves old.now new.now }
    requires before { AllByRecursion Ascend was.now }
    requires after { AllByRecursion Ascend is.now.rows }
    ensures { OnOk result (GoesOn (flat_map (given_by (set_given was.now) dir) old.now)
        (flat_map (given_by (set_given is.now.rows) dir) new.now) out.old out.new) }
{
    let newest = newest(old);
    let mut at = 0;
    for one in old {
        at = push_newer(alloc, &mut out.come, dir, new, at, newest, is.rows())?;
        at = pair(alloc, out, dir, one, new, at, was, is)?;
    }
    push_filters(alloc, &mut out.come, dir, new.split_at(at).1, is.rows())
}

/// Appends what comes and goes of the filters of a direction. Where all of them stand, none is compared with another.
pub(crate) fn pass(
    alloc: Global,
    out: &mut Moved,
    dir: Direction,
    old: &[Filter],
    new: &[Filter],
    stand: bool,
    was: &PeerRows<'_>,
    is: &MovedRows<'_>,
) -> Result<(), Memory>
    requires stays { Stays was.now is.now.rows is.now.moves old.now new.now }
    requires stand { IsTrue stand → old.now ≡ new.now }
    requires before { AllByRecursion Ascend was.now }
    requires after { AllByRecursion Ascend is.now.rows }
    ensures { OnOk result (GoesOn (flat_map (given_by (set_given was.now) dir) old.now)
        (flat_map (given_by (set_given is.now.rows) dir) new.now) out.old out.new) }
{
    if stand {
        all_stay(alloc, out, dir, new, was, is)
    } else {
        walk(alloc, out, dir, old, new, was, is)
    }
}
