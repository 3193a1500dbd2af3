//! Changes that lead a work to and fro.
ghost use Rattle.std.specs.Prelude.{◌≡◌, IfOk, OnOk};
ghost use Rattle.std.specs.Arc.{arc_value};
ghost use Rattle.pol_distill.specs.Sorted.{HaveSets};
ghost use Rattle.engine_bench.specs.Turns.{AreNumbered, Extends, GiveSets, IsAt, Turns, eleven, ten};

use crate::delta::inputs::{eleven, moves, rows, ten};
use pol_data::Memory;
use pol_filters::Filters;
use pol_kept_map::{Changes, Work};
use pol_sets::IdSet;
use std::alloc::Global;
use std::sync::Arc;

/// How often the work goes there and back in one round.
pub(crate) const TURNS: u32 = 128;

/// Changes to these filters that give each of so many peers the set, by moves of these numbers.
fn changes(
    alloc: Global,
    filters: &Arc<Filters>,
    set: &Arc<IdSet>,
    gained: &IdSet,
    lost: &IdSet,
    count: u32,
) -> Result<Changes, Memory>
    ensures sets { IfOk result (GiveSets (arc_value set.now) gained.now lost.now count) }
    ensures filters { IfOk result (λ changes. arc_value changes.filters ≡ arc_value filters.now) }
{
    let told = moves(alloc, count, gained, lost)?;
    let sets = rows(alloc, count, set)?;
    Ok(Changes {
        filters: Arc::try_clone(filters)?,
        sets,
        moves: Some(told),
    })
}

/// The changes by which the identity comes.
pub(crate) fn coming(alloc: Global, filters: &Arc<Filters>, count: u32) -> Result<Changes, Memory>
    ensures turns { IfOk result (Turns ten eleven count) }
    ensures filters { IfOk result (λ changes. arc_value changes.filters ≡ arc_value filters.now) }
{
    let set = Arc::new(alloc, eleven(alloc)?)?;
    let gained = IdSet::one(266);
    let lost = IdSet::new(alloc);
    changes(alloc, filters, &set, &gained, &lost, count)
}

/// The changes by which it goes.
pub(crate) fn going(alloc: Global, filters: &Arc<Filters>, count: u32) -> Result<Changes, Memory>
    ensures turns { IfOk result (Turns eleven ten count) }
    ensures filters { IfOk result (λ changes. arc_value changes.filters ≡ arc_value filters.now) }
{
    let set = Arc::new(alloc, ten(alloc)?)?;
    let gained = IdSet::new(alloc);
    let lost = IdSet::one(266);
    changes(alloc, filters, &set, &gained, &lost, count)
}

/// The identity comes.
fn come(work: &mut Work, changes: &Changes, count: u32) -> Result<usize, Memory>
    requires at { IsAt ten (arc_value changes.now.filters) work.old }
    requires numbered { AreNumbered (arc_value changes.now.filters) }
    requires have { HaveSets changes.now.sets (arc_value changes.now.filters) }
    requires turns { Turns ten eleven count changes.now }
    ensures { OnOk result (IsAt eleven (arc_value changes.now.filters) work.new) }
{
    let list = work.apply(changes)?;
    Ok(list.len())
}

/// The identity goes.
fn go(work: &mut Work, changes: &Changes, count: u32) -> Result<usize, Memory>
    requires at { IsAt eleven (arc_value changes.now.filters) work.old }
    requires numbered { AreNumbered (arc_value changes.now.filters) }
    requires have { HaveSets changes.now.sets (arc_value changes.now.filters) }
    requires turns { Turns eleven ten count changes.now }
    ensures { OnOk result (IsAt ten (arc_value changes.now.filters) work.new) }
{
    let list = work.apply(changes)?;
    Ok(list.len())
}

/// Changes of filters alone: each peer keeps its set.
pub(crate) fn still(alloc: Global, filters: &Arc<Filters>, count: u32) -> Result<Changes, Memory>
    ensures turns { IfOk result (Turns ten ten count) }
    ensures filters { IfOk result (λ changes. arc_value changes.filters ≡ arc_value filters.now) }
{
    let set = Arc::new(alloc, ten(alloc)?)?;
    let none = IdSet::new(alloc);
    changes(alloc, filters, &set, &none, &none, count)
}

/// A filter comes.
pub(crate) fn widen(
    work: &mut Work,
    few: &Changes,
    many: &Changes,
    count: u32,
) -> Result<usize, Memory>
    requires at { IsAt ten (arc_value few.now.filters) work.old }
    requires few { AreNumbered (arc_value few.now.filters) }
    requires many { AreNumbered (arc_value many.now.filters) }
    requires extends { Extends (arc_value few.now.filters) (arc_value many.now.filters) }
    requires have { HaveSets many.now.sets (arc_value many.now.filters) }
    requires turns { Turns ten ten count many.now }
    ensures { OnOk result (IsAt ten (arc_value many.now.filters) work.new) }
{
    let list = work.apply(many)?;
    Ok(list.len())
}

/// It goes.
pub(crate) fn narrow(
    work: &mut Work,
    few: &Changes,
    many: &Changes,
    count: u32,
) -> Result<usize, Memory>
    requires at { IsAt ten (arc_value many.now.filters) work.old }
    requires few { AreNumbered (arc_value few.now.filters) }
    requires many { AreNumbered (arc_value many.now.filters) }
    requires extends { Extends (arc_value few.now.filters) (arc_value many.now.filters) }
    requires have { HaveSets few.now.sets (arc_value few.now.filters) }
    requires turns { Turns ten ten count few.now }
    ensures { OnOk result (IsAt ten (arc_value few.now.filters) work.new) }
{
    let list = work.apply(few)?;
    Ok(list.len())
}

/// The identity comes and goes, again and again. It tells how many changes that made last.
pub(crate) fn turns(
    work: &mut Work,
    there: &Changes,
    back: &Changes,
    count: u32,
) -> Result<usize, Memory>
    requires at { IsAt ten (arc_value there.now.filters) work.old }
    requires same { arc_value back.now.filters ≡ arc_value there.now.filters }
    requires numbered { AreNumbered (arc_value there.now.filters) }
    requires there { HaveSets there.now.sets (arc_value there.now.filters) }
    requires back { HaveSets back.now.sets (arc_value back.now.filters) }
    requires comes { Turns ten eleven count there.now }
    requires goes { Turns eleven ten count back.now }
    ensures { OnOk result (IsAt ten (arc_value there.now.filters) work.new) }
{
    let mut last = 0;
    for _ in 0..TURNS {
        come(work, there, count)?;
        last = go(work, back, count)?;
    }
    Ok(last)
}
