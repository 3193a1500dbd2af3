//! Times look-ups in tables of prefixes of either family, and how long it takes to fill and to empty them.

use crate::watch::Watch;
use anyhow::Result;
use pol_addr::{Addr, Family, Prefix};
use pol_prefix_table::PrefixTable;
use std::alloc::{AllocError, Global};
use std::rt::Clock;

/// How many addresses are looked up in a table.
const LOOK_UPS: u32 = 1_000_000;

/// Distinct addresses, scattered by an odd factor.
fn scattered(family: Family, i: u32) -> Addr {
    match family {
        Family::Ipv4 => Addr::V4(i.wrapping_mul(0x9e37_79b1)),
        Family::Ipv6 => {
            Addr::V6(u128::from(i).wrapping_mul(0x9e37_79b9_7f4a_7c15_f39c_c060_5ced_c835))
        }
    }
}

/// A prefix of 16 to 32 bits, or of 16 to 64 for IPv6.
fn prefix(family: Family, i: u32) -> Prefix {
    match scattered(family, i) {
        Addr::V4(bits) => Prefix::new(Addr::V4(bits), 16 + (i % 17) as u8),
        Addr::V6(bits) => Prefix::new(Addr::V6(bits), 16 + (i % 49) as u8),
    }
}

fn prefixes(alloc: Global, family: Family, count: u32) -> Result<Vec<(Prefix, u32)>, AllocError> {
    let mut list = Vec::new(alloc);
    for i in 0..count {
        list.push((prefix(family, i), i))?;
    }
    Ok(list)
}

fn table_of(alloc: Global, list: &[(Prefix, u32)]) -> Result<PrefixTable, AllocError> {
    let mut table = PrefixTable::new(alloc);
    for entry in list {
        table.insert(entry.0, entry.1)?;
    }
    Ok(table)
}

/// How many of the first addresses find a number in the table.
fn found_in_table(table: &PrefixTable, family: Family, count: u32) -> u32 {
    let mut found = 0u32;
    for i in 0..count {
        if table.find(scattered(family, i)).is_some() {
            found = found.wrapping_add(1);
        }
    }
    found
}

/// Takes the prefixes out. How many were there.
fn emptied(table: &mut PrefixTable, list: &[(Prefix, u32)]) -> u32 {
    let mut removed = 0u32;
    for entry in list {
        if table.remove(entry.0).is_some() {
            removed = removed.wrapping_add(1);
        }
    }
    removed
}

/// Times look-ups in a table.
fn time_look_ups<R: Clock + Eprint + AllocGlobal>(
    rt: &R,
    watch: Watch,
    table: &PrefixTable,
    family: Family,
    count: usize,
) -> Result<()> {
    let start = watch.nanos(rt);
    let found = found_in_table(table, family, LOOK_UPS);
    let tenths = watch.nanos(rt).wrapping_sub(start) / u128::from(LOOK_UPS / 10);
    eprintln!(rt;
        "{count} prefixes, {family:?}: find {}.{} ns ({found} found)",
        tenths / 10,
        tenths % 10
    )?;
    Ok(())
}

/// Times look-ups in a table that was filled in so many microseconds, and how long it takes to empty it.
fn time_table<R: Clock + Eprint + AllocGlobal>(
    rt: &R,
    watch: Watch,
    table: &mut PrefixTable,
    list: &[(Prefix, u32)],
    family: Family,
    filled: u128,
) -> Result<()> {
    let count = list.len();
    let nodes = table.nodes();
    time_look_ups(rt, watch, table, family, count)?;
    let start = watch.nanos(rt);
    let removed = emptied(table, list);
    let micros = watch.nanos(rt).wrapping_sub(start) / 1000;
    eprintln!(rt;
        "{count} prefixes, {family:?}: filled in {filled} us ({nodes} nodes), emptied in {micros} us ({removed} removed)"
    )?;
    Ok(())
}

/// Times a table of these prefixes.
fn time_list<R: Clock + Eprint + AllocGlobal>(
    rt: &R,
    watch: Watch,
    list: &[(Prefix, u32)],
    family: Family,
) -> Result<()> {
    let start = watch.nanos(rt);
    let mut table = table_of(rt.alloc(), list)?;
    let filled = watch.nanos(rt).wrapping_sub(start) / 1000;
    time_table(rt, watch, &mut table, list, family, filled)
}

fn measure<R: Clock + Eprint + AllocGlobal>(
    rt: &R,
    watch: Watch,
    family: Family,
    count: u32,
) -> Result<()> {
    let list = prefixes(rt.alloc(), family, count)?;
    time_list(rt, watch, list.as_slice(), family)
}

/// Times tables of 1,000 and of 65,535 prefixes of each family.
pub(crate) fn time<R: Clock + Eprint + AllocGlobal>(rt: &R, watch: Watch) -> Result<()> {
    for family in [Family::Ipv4, Family::Ipv6] {
        measure(rt, watch, family, 1_000)?;
        measure(rt, watch, family, 65_535)?;
    }
    Ok(())
}
