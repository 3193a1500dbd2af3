//! Times the distiller at maps of 1,000, 4,000 and 16,000 entries, and reading them.
ghost use Rattle.std.specs.Prelude.{◌≤◌, ◌^◌};
ghost use Rattle.pol_distill.specs.Sorted.{HaveSets};

use crate::filter::{enforced, filter, peer, port};
use crate::watch::Watch;
use anyhow::Result;
use pol_data::Memory;
use pol_distill::{MapTable, distill, have_sets};
use pol_filters::{Filter, FilterList, Filters};
use pol_mapkey::Word;
use pol_ports::{Direction, Proto};
use pol_rule::PortSpecs;
use pol_sets::{IdSet, SetRow, Sets, SharedPeer};
use std::alloc::{AllocError, Global};
use std::rt::Clock;
use std::sync::Arc;

/// How often a map is made; the shortest time counts.
const ROUNDS: u32 = 20;

/// How many look-ups are timed.
const LOOK_UPS: u32 = 100_000;

/// A filter of a TCP port of its own; one in eight denies.
fn own_filter(alloc: Global, number: u32) -> Result<Filter, Memory> {
    let ports = PortSpecs::one(alloc, port(number))?;
    filter(alloc, number, number % 8 == 0, ports)
}

fn filters(alloc: Global, count: u32) -> Result<Filters, Memory> {
    let mut list = Vec::new(alloc);
    for number in 0..count {
        list.push(own_filter(alloc, number)?)?;
    }
    Ok(enforced(alloc, FilterList::from_vec(list)))
}

/// The first numbers of the cluster.
fn identities(alloc: Global, count: u32) -> Result<IdSet, AllocError>
    requires { count ≤ 2 ^ 16 }
{
    let mut list = Vec::new(alloc);
    for i in 0..count {
        list.push(256 + i)?;
    }
    Ok(IdSet::from_ascending(list))
}

/// Each filter's peer selects the same identities.
fn sets(alloc: Global, filters: u32, count: u32) -> Result<Sets, AllocError>
    requires { count ≤ 2 ^ 16 }
{
    let mut rows = Vec::new(alloc);
    for number in 0..filters {
        rows.push(SetRow {
            peer: SharedPeer::new(alloc, peer(alloc, number))?,
            selector: u64::from(number),
            set: Arc::new(alloc, identities(alloc, count)?)?,
        })?;
    }
    Ok(Sets::from_vec(alloc, rows)?)
}

/// How many packets of the first look-ups are allowed.
fn allowed(table: &MapTable, identities: u32) -> u32
    requires { 1 ≤ identities }
{
    let mut count = 0u32;
    for i in 0..LOOK_UPS {
        let id = 256 + i % identities % 65_536;
        let port = (i.wrapping_mul(0x9e37) % 2_048) as u16;
        if table.look(Direction::Ingress, id, Proto::Tcp, port) == Word::Allowed {
            count = count.wrapping_add(1);
        }
    }
    count
}

/// How many microseconds it took to make the map, and how many entries it has.
fn made_in<R: Clock + AllocGlobal>(
    rt: &R,
    watch: Watch,
    filters: &Filters,
    sets: &Sets,
) -> Result<(u128, u64), Memory>
    requires { HaveSets sets.now filters.now }
{
    let start = watch.nanos(rt);
    let table = distill(rt.alloc(), filters, sets)?;
    let micros = watch.nanos(rt).wrapping_sub(start) / 1000;
    Ok((micros, table.count()))
}

/// The shortest of all rounds, and how many entries the map has.
fn making<R: Clock + AllocGlobal>(
    rt: &R,
    watch: Watch,
    filters: &Filters,
    sets: &Sets,
) -> Result<(u128, u64), Memory>
    requires { HaveSets sets.now filters.now }
{
    let (mut best, entries) = made_in(rt, watch, filters, sets)?;
    for _ in 1..ROUNDS {
        let (micros, _) = made_in(rt, watch, filters, sets)?;
        best = best.min(micros);
    }
    Ok((best, entries))
}

/// How many nanoseconds a look-up took, and how many packets were allowed.
fn looking<R: Clock + AllocGlobal>(
    rt: &R,
    watch: Watch,
    filters: &Filters,
    sets: &Sets,
    identities: u32,
) -> Result<(u128, u32), Memory>
    requires some { 1 ≤ identities }
    requires sets { HaveSets sets.now filters.now }
{
    let table = distill(rt.alloc(), filters, sets)?;
    let start = watch.nanos(rt);
    let found = allowed(&table, identities);
    let nanos = watch.nanos(rt).wrapping_sub(start) / u128::from(LOOK_UPS);
    Ok((nanos, found))
}

/// Both of one map, and how many entries it has.
fn tell<R: Clock + Eprint + AllocGlobal>(
    rt: &R,
    watch: Watch,
    filters: &Filters,
    sets: &Sets,
    filter_count: u32,
    count: u32,
) -> Result<()>
    requires { 1 ≤ count }
{
    if !have_sets(filters, sets) {
        eprintln!(rt; "a peer without a row")?;
        return Ok(());
    }
    let (best, entries) = making(rt, watch, filters, sets)?;
    let (look, found) = looking(rt, watch, filters, sets, count)?;
    eprintln!(rt;
        "{filter_count} filters of {count} identities: {entries} entries, made in {best} us, look {look} ns ({found} allowed)"
    )?;
    Ok(())
}

/// The same with the identities that the filters' peers select.
fn measure_rows<R: Clock + Eprint + AllocGlobal>(
    rt: &R,
    watch: Watch,
    filters: &Filters,
    filter_count: u32,
    count: u32,
) -> Result<()>
    requires some { 1 ≤ count }
    requires few { count ≤ 2 ^ 16 }
{
    let rows = sets(rt.alloc(), filter_count, count)?;
    tell(rt, watch, filters, &rows, filter_count, count)
}

fn measure<R: Clock + Eprint + AllocGlobal>(
    rt: &R,
    watch: Watch,
    filter_count: u32,
    count: u32,
) -> Result<()>
    requires some { 1 ≤ count }
    requires few { count ≤ 2 ^ 16 }
{
    let given = filters(rt.alloc(), filter_count)?;
    measure_rows(rt, watch, &given, filter_count, count)
}

/// Times maps of one filter and of many, and two at the limit of entries.
pub(crate) fn time<R: Clock + Eprint + AllocGlobal>(rt: &R, watch: Watch) -> Result<()> {
    measure(rt, watch, 1, 1_000)?;
    measure(rt, watch, 1, 4_000)?;
    measure(rt, watch, 1, 16_000)?;
    measure(rt, watch, 100, 10)?;
    measure(rt, watch, 400, 10)?;
    measure(rt, watch, 1_600, 10)?;
    measure(rt, watch, 1, 16_384)?;
    measure(rt, watch, 1, 16_385)
}
