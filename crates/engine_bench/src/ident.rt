//! Times identities: label sets and prefixes that take numbers, numbers that are given back, and the numbers under a
//! heading.
ghost use Rattle.std.specs.Prelude.{◌≤◌};

use crate::holder::{Holder, label_set};
use crate::watch::Watch;
use anyhow::Result;
use pol_addr::{Addr, Family, Prefix};
use pol_headings::HeadingRef;
use pol_ident::Identities;
use pol_labels::LabelSet;
use pol_model::has_reserved;
use std::alloc::Global;
use std::rt::Clock;

/// How many take a number in one turn, and give it back in the same.
const WINDOW: u32 = 500;

/// How many turns are timed.
const TURNS: u32 = 200;

/// What takes numbers.
#[derive(Clone, Copy)]
enum HolderKind {
    Labels,
    Prefix,
}

/// Four labels, or a prefix of 24 bits.
fn holder_for(alloc: Global, kind: HolderKind, number: u32) -> Result<Holder> {
    match kind {
        HolderKind::Labels => Ok(Holder::Labels(label_set(alloc, number)?)),
        HolderKind::Prefix => {
            let bits = number.wrapping_mul(1 << 8);
            Ok(Holder::Prefix(Prefix::new(Addr::V4(bits), 24)))
        }
    }
}

/// So many of them, from a number on.
fn holders(alloc: Global, kind: HolderKind, first: u32, count: u32) -> Result<Vec<Holder>> {
    let mut all = Vec::new(alloc);
    for i in 0..count {
        all.push(holder_for(alloc, kind, first.wrapping_add(i))?)?;
    }
    Ok(all)
}

/// Takes a number for the set, and puts it behind the others.
fn take_labels(
    identities: &mut Identities,
    labels: &LabelSet,
    numbers: &mut Vec<u32>,
) -> Result<()> {
    if !has_reserved(labels) {
        let number = identities.acquire(labels)?;
        numbers.push(number)?;
    }
    Ok(())
}

/// The same for a prefix.
fn take_prefix(identities: &mut Identities, prefix: Prefix, numbers: &mut Vec<u32>) -> Result<()> {
    let number = identities.acquire_prefix(prefix)?;
    numbers.push(number)?;
    Ok(())
}

fn take(identities: &mut Identities, holder: &Holder, numbers: &mut Vec<u32>) -> Result<()> {
    match holder {
        Holder::Labels(labels) => take_labels(identities, labels, numbers),
        Holder::Prefix(prefix) => take_prefix(identities, *prefix, numbers),
    }
}

fn take_all(identities: &mut Identities, holders: &[Holder], numbers: &mut Vec<u32>) -> Result<()> {
    for holder in holders {
        take(identities, holder, numbers)?;
    }
    Ok(())
}

/// Gives the numbers back, and counts those that were held.
fn give_back(identities: &mut Identities, numbers: &[u32]) -> u32 {
    let mut held = 0u32;
    for number in numbers {
        if identities.held(*number) {
            identities.release(*number);
            held = held.wrapping_add(1);
        }
    }
    held
}

/// How many nanoseconds it took to take a number for each.
fn time_takes<R: Clock + AllocGlobal>(
    rt: &R,
    watch: Watch,
    identities: &mut Identities,
    holders: &[Holder],
    numbers: &mut Vec<u32>,
) -> Result<u128> {
    let start = watch.nanos(rt);
    take_all(identities, holders, numbers)?;
    Ok(watch.nanos(rt).wrapping_sub(start))
}

/// Both of one turn: how many nanoseconds it took to take a number for each, and to give the numbers back.
fn time_turn<R: Clock + AllocGlobal>(
    rt: &R,
    watch: Watch,
    identities: &mut Identities,
    holders: &[Holder],
) -> Result<(u128, u128)> {
    let mut numbers = Vec::with_capacity(rt.alloc(), holders.len())?;
    let taking = time_takes(rt, watch, identities, holders, &mut numbers)?;
    let start = watch.nanos(rt);
    give_back(identities, numbers.as_slice());
    Ok((taking, watch.nanos(rt).wrapping_sub(start)))
}

/// The share of one call in the shortest of all turns.
fn time_turns<R: Clock + AllocGlobal>(
    rt: &R,
    watch: Watch,
    identities: &mut Identities,
    holders: &[Holder],
) -> Result<(u128, u128)> {
    let mut taking = u128::MAX;
    let mut returning = u128::MAX;
    for _ in 0..TURNS {
        let (took, returned) = time_turn(rt, watch, identities, holders)?;
        taking = taking.min(took);
        returning = returning.min(returned);
    }
    let calls = u128::from(WINDOW);
    Ok((taking / calls, returning / calls))
}

/// Takes a number for so many more, and gives the nanoseconds that it took.
fn grow<R: Clock + AllocGlobal>(
    rt: &R,
    watch: Watch,
    identities: &mut Identities,
    kind: HolderKind,
    first: u32,
    count: u32,
) -> Result<u128> {
    let holders = holders(rt.alloc(), kind, first, count)?;
    let mut numbers = Vec::new(rt.alloc());
    time_takes(rt, watch, identities, holders.as_slice(), &mut numbers)
}

/// Takes this many numbers, and gives the mean of an acquire on the way.
fn fill<R: Clock + AllocGlobal>(
    rt: &R,
    watch: Watch,
    identities: &mut Identities,
    kind: HolderKind,
    count: u32,
) -> Result<u128>
    requires { 1 ≤ count }
{
    let mut taking = 0u128;
    for turn in 0..count / WINDOW + 1 {
        let first = turn.wrapping_mul(WINDOW);
        let more = count.saturating_sub(first).min(WINDOW);
        taking = taking.wrapping_add(grow(rt, watch, identities, kind, first, more)?);
    }
    Ok(taking / u128::from(count))
}

/// How many nanoseconds it took to find the numbers under a heading, in the shortest of all turns.
fn time_heading<R: Clock + AllocGlobal>(
    rt: &R,
    watch: Watch,
    identities: &Identities,
    heading: &HeadingRef<'_>,
) -> Result<u128> {
    let mut finding = u128::MAX;
    for _ in 0..TURNS {
        let start = watch.nanos(rt);
        let _numbers = identities.numbers_under(rt.alloc(), heading)?;
        finding = finding.min(watch.nanos(rt).wrapping_sub(start));
    }
    Ok(finding)
}

/// Headings under which one stands, and under which each does.
fn headings(kind: HolderKind) -> (HeadingRef<'static>, HeadingRef<'static>) {
    match kind {
        HolderKind::Labels => {
            let app = HeadingRef::Label {
                key: "app",
                value: "web-1",
            };
            let namespace = HeadingRef::Label {
                key: "io.kubernetes.pod.namespace",
                value: "default",
            };
            (app, namespace)
        }
        HolderKind::Prefix => {
            let one = Prefix::new(Addr::V4(1 << 8), 24);
            let all = Prefix::world(Family::Ipv4);
            (HeadingRef::Prefix(one), HeadingRef::Prefix(all))
        }
    }
}

/// Both of turns that go up to so many rows.
fn time_turns_at<R: Clock + AllocGlobal>(
    rt: &R,
    watch: Watch,
    identities: &mut Identities,
    kind: HolderKind,
    rows: u32,
) -> Result<(u128, u128)> {
    let holders = holders(rt.alloc(), kind, rows, WINDOW)?;
    time_turns(rt, watch, identities, holders.as_slice())
}

/// Fills the identities up to so many rows of a kind, and times turns that go up to there.
fn time_at<R: Clock + Eprint + AllocGlobal>(
    rt: &R,
    watch: Watch,
    identities: &mut Identities,
    what: &str,
    kind: HolderKind,
    rows: u32,
) -> Result<()>
    requires { 501 ≤ rows }
{
    let filling = fill(rt, watch, identities, kind, rows - WINDOW)?;
    let (taking, returning) = time_turns_at(rt, watch, identities, kind, rows)?;
    let (first, second) = headings(kind);
    let one = time_heading(rt, watch, identities, &first)?;
    let each = time_heading(rt, watch, identities, &second)?;
    eprintln!(rt;
        "{rows:>6} {what:<10} acquire {taking:>4} ns, release {returning:>4} ns, acquire on the way there {filling:>4} ns; the numbers under a heading of one {one:>4} ns, of each {each} ns"
    )?;
    Ok(())
}

fn measure<R: Clock + Eprint + AllocGlobal>(
    rt: &R,
    watch: Watch,
    what: &str,
    kind: HolderKind,
    rows: u32,
) -> Result<()>
    requires { 501 ≤ rows }
{
    let mut identities = Identities::new(rt.alloc())?;
    time_at(rt, watch, &mut identities, what, kind, rows)
}

/// Times both kinds at 1,000 rows and at 65,280.
pub(crate) fn time<R: Clock + Eprint + AllocGlobal>(rt: &R, watch: Watch) -> Result<()> {
    measure(rt, watch, "label sets", HolderKind::Labels, 1_000)?;
    measure(rt, watch, "label sets", HolderKind::Labels, 65_280)?;
    measure(rt, watch, "prefixes", HolderKind::Prefix, 1_000)?;
    measure(rt, watch, "prefixes", HolderKind::Prefix, 65_280)
}
