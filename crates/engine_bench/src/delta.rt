//! Times a work that follows an identity which comes and goes, beside making it anew, and filters that come and go.
ghost use Rattle.std.specs.Prelude.{◌≡◌, ◌+◌, ◌<◌, ◌-◌, ◌^◌, IfOk, length};
ghost use Rattle.std.specs.Arc.{arc_value};
ghost use Rattle.pol_distill.specs.Sorted.{HaveSets};
ghost use Rattle.engine_bench.specs.Turns.{AllAt, AreNumbered, Extends, IsAt, RowAt, Turns, eleven, ten};

mod inputs;
mod turns;

use crate::delta::inputs::{filters, more_filters, rows, ten};
use crate::delta::turns::{TURNS, coming, going, narrow, still, turns, widen};
use crate::watch::Watch;
use anyhow::Result;
use pol_data::Memory;
use pol_distill::{distill, have_sets};
use pol_filters::Filters;
use pol_kept_map::{Changes, Work};
use pol_sets::Sets;
use std::alloc::Global;
use std::rt::Clock;
use std::sync::Arc;

/// How many rounds are timed; the shortest counts.
const ROUNDS: u32 = 10;

/// Makes the map anew.
fn map_anew(alloc: Global, filters: &Filters, sets: &Sets) -> Result<(), Memory>
    requires { HaveSets sets.now filters.now }
{
    let _table = distill(alloc, filters, sets)?;
    Ok(())
}

/// How long that takes as often as a round has changes, in nanoseconds.
fn maps_anew<R: Clock + AllocGlobal>(
    rt: &R,
    watch: Watch,
    filters: &Filters,
    sets: &Sets,
) -> Result<u128, Memory>
    requires { HaveSets sets.now filters.now }
{
    let start = watch.nanos(rt);
    for _ in 0..2 * TURNS {
        map_anew(rt.alloc(), filters, sets)?;
    }
    Ok(watch.nanos(rt).wrapping_sub(start))
}

/// The rows before the identity comes.
fn first_rows(alloc: Global, count: u32) -> Result<Sets, Memory>
    ensures rows { IfOk result (AllAt (RowAt ten)) }
{
    let set = Arc::new(alloc, ten(alloc)?)?;
    rows(alloc, count, &set)
}

/// The work of these filters before the identity comes. A peer without a row counts as want of memory.
fn first_work(alloc: Global, filters: &Arc<Filters>, count: u32) -> Result<Work, Memory>
    ensures { IfOk result (IsAt ten (arc_value filters.now)) }
{
    let sets = first_rows(alloc, count)?;
    if !have_sets(filters, &sets) {
        return Err(Memory);
    }
    Work::from_scratch(alloc, Arc::try_clone(filters)?, sets)
}

/// How long making the work anew takes, in nanoseconds.
fn work_anew<R: Clock + AllocGlobal>(
    rt: &R,
    watch: Watch,
    filters: &Arc<Filters>,
    count: u32,
) -> Result<u128, Memory> {
    let start = watch.nanos(rt);
    let _work = first_work(rt.alloc(), filters, count)?;
    Ok(watch.nanos(rt).wrapping_sub(start))
}

/// The same as often as a round has changes.
fn works_anew<R: Clock + AllocGlobal>(
    rt: &R,
    watch: Watch,
    filters: &Arc<Filters>,
    count: u32,
) -> Result<u128, Memory> {
    let mut nanos = 0u128;
    for _ in 0..2 * TURNS {
        nanos = nanos.wrapping_add(work_anew(rt, watch, filters, count)?);
    }
    Ok(nanos)
}

/// The shortest of the rounds in which the work goes there and back, in nanoseconds, and how many changes came last.
fn best_of<R: Clock>(
    rt: &R,
    watch: Watch,
    work: &mut Work,
    there: &Changes,
    back: &Changes,
    count: u32,
) -> Result<(usize, u128), Memory>
    requires at { IsAt ten (arc_value there.now.filters) work.old }
    requires same { arc_value back.now.filters ≡ arc_value there.now.filters }
    requires numbered { AreNumbered (arc_value there.now.filters) }
    requires there { HaveSets there.now.sets (arc_value there.now.filters) }
    requires back { HaveSets back.now.sets (arc_value back.now.filters) }
    requires comes { Turns ten eleven count there.now }
    requires goes { Turns eleven ten count back.now }
{
    let mut best = u128::MAX;
    let mut changes = 0;
    for _ in 0..ROUNDS {
        let start = watch.nanos(rt);
        changes = turns(work, there, back, count)?;
        best = best.min(watch.nanos(rt).wrapping_sub(start));
    }
    Ok((changes, best))
}

/// The same from the work before the identity comes.
fn followed<R: Clock + AllocGlobal>(
    rt: &R,
    watch: Watch,
    there: &Changes,
    back: &Changes,
    count: u32,
) -> Result<(usize, u128), Memory>
    requires same { arc_value back.now.filters ≡ arc_value there.now.filters }
    requires numbered { AreNumbered (arc_value there.now.filters) }
    requires there { HaveSets there.now.sets (arc_value there.now.filters) }
    requires back { HaveSets back.now.sets (arc_value back.now.filters) }
    requires comes { Turns ten eleven count there.now }
    requires goes { Turns eleven ten count back.now }
{
    let mut work = first_work(rt.alloc(), &there.filters, count)?;
    best_of(rt, watch, &mut work, there, back, count)
}

/// Tells how long that takes, and how long the maps and the works take anew.
fn tell<R: Clock + Eprint + AllocGlobal>(
    rt: &R,
    watch: Watch,
    there: &Changes,
    back: &Changes,
    count: u32,
) -> Result<()>
    requires same { arc_value back.now.filters ≡ arc_value there.now.filters }
    requires numbered { AreNumbered (arc_value there.now.filters) }
    requires comes { Turns ten eleven count there.now }
    requires goes { Turns eleven ten count back.now }
{
    if !have_sets(&there.filters, &there.sets) || !have_sets(&back.filters, &back.sets) {
        eprintln!(rt; "a peer without a row")?;
        return Ok(());
    }
    let maps = maps_anew(rt, watch, &there.filters, &there.sets)? / 1000;
    let works = works_anew(rt, watch, &there.filters, count)? / 1000;
    let (changes, best) = followed(rt, watch, there, back, count)?;
    let follow = best / 1000;
    eprintln!(rt;
        "an identity that {count} filters take comes or goes 256 times, {changes} changes each: {follow} us; from scratch the maps take {maps} us, with rows and tallies {works} us"
    )?;
    Ok(())
}

/// The same with the changes by which the identity goes.
fn measure_back<R: Clock + Eprint + AllocGlobal>(
    rt: &R,
    watch: Watch,
    there: &Changes,
    count: u32,
) -> Result<()>
    requires numbered { AreNumbered (arc_value there.now.filters) }
    requires comes { Turns ten eleven count there.now }
{
    let back = going(rt.alloc(), &there.filters, count)?;
    tell(rt, watch, there, &back, count)
}

/// The same of these filters.
fn measure_there<R: Clock + Eprint + AllocGlobal>(
    rt: &R,
    watch: Watch,
    given: &Arc<Filters>,
    count: u32,
) -> Result<()>
    requires { AreNumbered (arc_value given.now) }
{
    let there = coming(rt.alloc(), given, count)?;
    measure_back(rt, watch, &there, count)
}

fn measure<R: Clock + Eprint + AllocGlobal>(rt: &R, watch: Watch, count: u32) -> Result<()> {
    let given = Arc::new(rt.alloc(), filters(rt.alloc(), count)?)?;
    measure_there(rt, watch, &given, count)
}

/// How many changes a filter made that came, and the shortest times in which it came and went, in nanoseconds.
fn best_of_filter<R: Clock>(
    rt: &R,
    watch: Watch,
    work: &mut Work,
    few: &Changes,
    many: &Changes,
    count: u32,
) -> Result<(usize, u128, u128), Memory>
    requires at { IsAt ten (arc_value few.now.filters) work.old }
    requires few { AreNumbered (arc_value few.now.filters) }
    requires many { AreNumbered (arc_value many.now.filters) }
    requires extends { Extends (arc_value few.now.filters) (arc_value many.now.filters) }
    requires have_few { HaveSets few.now.sets (arc_value few.now.filters) }
    requires have_many { HaveSets many.now.sets (arc_value many.now.filters) }
    requires back { Turns ten ten count few.now }
    requires there { Turns ten ten count many.now }
{
    let mut coming = u128::MAX;
    let mut going = u128::MAX;
    let mut changes = 0;
    for _ in 0..ROUNDS {
        let start = watch.nanos(rt);
        changes = widen(work, few, many, count)?;
        let came = watch.nanos(rt);
        coming = coming.min(came.wrapping_sub(start));
        narrow(work, few, many, count)?;
        going = going.min(watch.nanos(rt).wrapping_sub(came));
    }
    Ok((changes, coming, going))
}

/// The same from the work of the filters without it.
fn followed_filter<R: Clock + AllocGlobal>(
    rt: &R,
    watch: Watch,
    few: &Changes,
    many: &Changes,
    count: u32,
) -> Result<(usize, u128, u128), Memory>
    requires few { AreNumbered (arc_value few.now.filters) }
    requires many { AreNumbered (arc_value many.now.filters) }
    requires extends { Extends (arc_value few.now.filters) (arc_value many.now.filters) }
    requires have_few { HaveSets few.now.sets (arc_value few.now.filters) }
    requires have_many { HaveSets many.now.sets (arc_value many.now.filters) }
    requires back { Turns ten ten count few.now }
    requires there { Turns ten ten count many.now }
{
    let mut work = first_work(rt.alloc(), &few.filters, count)?;
    best_of_filter(rt, watch, &mut work, few, many, count)
}

/// Tells how long a filter takes that comes and goes, which allows so many ports or denies every one.
fn tell_filter<R: Clock + Eprint + AllocGlobal>(
    rt: &R,
    watch: Watch,
    few: &Changes,
    many: &Changes,
    count: u32,
    ports: u32,
) -> Result<()>
    requires room { count < 2 ^ 32 - 1 }
    requires few { AreNumbered (arc_value few.now.filters) }
    requires many { AreNumbered (arc_value many.now.filters) }
    requires extends { Extends (arc_value few.now.filters) (arc_value many.now.filters) }
    requires back { Turns ten ten (count + 1) few.now }
    requires there { Turns ten ten (count + 1) many.now }
{
    if !have_sets(&few.filters, &few.sets) || !have_sets(&many.filters, &many.sets) {
        eprintln!(rt; "a peer without a row")?;
        return Ok(());
    }
    let (changes, coming, going) = followed_filter(rt, watch, few, many, count + 1)?;
    let (coming, going) = (coming / 1000, going / 1000);
    eprintln!(rt;
        "a filter of {ports} ports (0: one that denies every port) comes beside {count} filters of ten keys: {changes} changes in {coming} us, and goes in {going} us"
    )?;
    Ok(())
}

/// The same with the changes by which it comes.
fn measure_many<R: Clock + Eprint + AllocGlobal>(
    rt: &R,
    watch: Watch,
    few: &Changes,
    all: &Arc<Filters>,
    count: u32,
    ports: u32,
) -> Result<()>
    requires room { count < 2 ^ 32 - 1 }
    requires few { AreNumbered (arc_value few.now.filters) }
    requires all { AreNumbered (arc_value all.now) }
    requires extends { Extends (arc_value few.now.filters) (arc_value all.now) }
    requires back { Turns ten ten (count + 1) few.now }
{
    let many = still(rt.alloc(), all, count + 1)?;
    tell_filter(rt, watch, few, &many, count, ports)
}

/// The same of these filters, without it and with it.
fn measure_both<R: Clock + Eprint + AllocGlobal>(
    rt: &R,
    watch: Watch,
    own: &Arc<Filters>,
    all: &Arc<Filters>,
    count: u32,
    ports: u32,
) -> Result<()>
    requires room { count < 2 ^ 32 - 1 }
    requires own { AreNumbered (arc_value own.now) }
    requires all { AreNumbered (arc_value all.now) }
    requires extends { Extends (arc_value own.now) (arc_value all.now) }
{
    let few = still(rt.alloc(), own, count + 1)?;
    measure_many(rt, watch, &few, all, count, ports)
}

/// The same of these filters and one more.
fn measure_beside<R: Clock + Eprint + AllocGlobal>(
    rt: &R,
    watch: Watch,
    own: &Arc<Filters>,
    count: u32,
    ports: u32,
) -> Result<()>
    requires room { count < 2 ^ 32 - 1 }
    requires own { AreNumbered (arc_value own.now) }
    requires count { length (arc_value own.now).ingress ≡ count }
{
    let all = Arc::new(rt.alloc(), more_filters(rt.alloc(), own, count, ports)?)?;
    measure_both(rt, watch, own, &all, count, ports)
}

/// Times how a filter comes and goes beside others: one that allows so many ports, or, where they are none, denies every
/// port. Each port gives ten keys, and each other filter has one.
fn measure_filter<R: Clock + Eprint + AllocGlobal>(
    rt: &R,
    watch: Watch,
    count: u32,
    ports: u32,
) -> Result<()>
    requires { count < 2 ^ 32 - 1 }
{
    let own = Arc::new(rt.alloc(), filters(rt.alloc(), count)?)?;
    measure_beside(rt, watch, &own, count, ports)
}

/// Times an identity that comes and goes.
fn measure_identities<R: Clock + Eprint + AllocGlobal>(rt: &R, watch: Watch) -> Result<()> {
    for count in [1u32, 10, 50, 100, 200, 400, 800] {
        measure(rt, watch, count)?;
    }
    Ok(())
}

/// Times a deny over keys of other filters.
fn measure_denies<R: Clock + Eprint + AllocGlobal>(rt: &R, watch: Watch) -> Result<()> {
    measure_filter(rt, watch, 100, 0)?;
    measure_filter(rt, watch, 200, 0)?;
    measure_filter(rt, watch, 400, 0)?;
    measure_filter(rt, watch, 800, 0)?;
    measure_filter(rt, watch, 1_600, 0)
}

/// Times a filter beside others, and filters of more keys beside as many.
fn measure_filters<R: Clock + Eprint + AllocGlobal>(rt: &R, watch: Watch) -> Result<()> {
    measure_filter(rt, watch, 10, 10)?;
    measure_filter(rt, watch, 100, 10)?;
    measure_filter(rt, watch, 1_000, 10)?;
    measure_filter(rt, watch, 1_000, 20)?;
    measure_filter(rt, watch, 1_000, 40)?;
    measure_filter(rt, watch, 1_000, 80)?;
    measure_filter(rt, watch, 1_000, 160)
}

/// Times all of these.
pub(crate) fn time<R: Clock + Eprint + AllocGlobal>(rt: &R, watch: Watch) -> Result<()> {
    measure_identities(rt, watch)?;
    measure_denies(rt, watch)?;
    measure_filters(rt, watch)
}
