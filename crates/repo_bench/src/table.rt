//! The figures as a table: a line for each kind and step, a column for each count.

use crate::asked::{Step, TimedRequest, steps_of};
use crate::figures::{Figures, none};
use crate::peers::PeersOf;
use anyhow::Result;
use pol_data::Memory;
use std::alloc::Global;

/// What is timed.
pub(crate) static KINDS: [TimedRequest; 11] = [
    TimedRequest::Identity,
    TimedRequest::Endpoint,
    TimedRequest::Mode,
    TimedRequest::Policy(PeersOf::Pods),
    TimedRequest::Policy(PeersOf::Prefixes),
    TimedRequest::Policy(PeersOf::OtherPods),
    TimedRequest::Policy(PeersOf::OtherPrefixes),
    TimedRequest::Policy(PeersOf::Wide),
    TimedRequest::Policy(PeersOf::AllBut),
    TimedRequest::Oldest(PeersOf::Pods),
    TimedRequest::Oldest(PeersOf::Prefixes),
];

/// The figures of one repository, in the order of the kinds.
#[derive(Drop)]
pub(crate) struct Column {
    /// How many there are of what is doubled.
    pub(crate) count: u32,
    pub(crate) figures: Vec<Figures>,
}

fn name(kind: TimedRequest) -> &'static str {
    match kind {
        TimedRequest::Identity => "identity",
        TimedRequest::Endpoint => "endpoint",
        TimedRequest::Mode => "mode",
        TimedRequest::Policy(PeersOf::Pods) => "ten known label peers",
        TimedRequest::Policy(PeersOf::Prefixes) => "ten known prefixes",
        TimedRequest::Policy(PeersOf::OtherPods) => "ten new label peers",
        TimedRequest::Policy(PeersOf::OtherPrefixes) => "ten new prefixes",
        TimedRequest::Policy(PeersOf::Wide) => "ten wide prefixes",
        TimedRequest::Policy(PeersOf::AllBut) => "ten peers of all pods but one",
        TimedRequest::Oldest(PeersOf::Pods) => "oldest, of label peers",
        TimedRequest::Oldest(_) => "oldest, of prefixes",
    }
}

fn step_name(step: Step) -> &'static str {
    match step {
        Step::Comes => "comes",
        Step::Replaces => "replaces",
        Step::Goes => "goes",
    }
}

/// Microseconds, and how many times the figure before they are, rounded.
fn push_cell(line: &mut String, now: u128, before: u128) -> Result<(), Memory> {
    let micros = now / 1_000;
    let hundredths = now % 1_000 / 10;
    write!(line, "{micros:>6}.{hundredths:02}")?;
    if before == 0 {
        return line.push_str("     ");
    }
    let tenths = now.wrapping_mul(10).wrapping_add(before / 2) / before;
    let times = tenths / 10;
    let tenth = tenths % 10;
    write!(line, " x{times}.{tenth}")
}

/// What a step of a kind took at each count.
fn push_cells(
    line: &mut String,
    columns: &[Column],
    kind: usize,
    step: Step,
) -> Result<(), Memory> {
    let mut before = 0u128;
    for column in columns {
        let figures = match column.figures.get(kind) {
            Some(figures) => *figures,
            None => none(),
        };
        let now = figures.of(step);
        push_cell(line, now, before)?;
        before = now;
    }
    Ok(())
}

/// The line above the others.
fn head(alloc: Global, what: &str, columns: &[Column]) -> Result<String, Memory> {
    let mut line = format!(in alloc; "{what:<39}")?;
    for column in columns {
        let count = column.count;
        write!(line, "{count:>9}     ")?;
    }
    Ok(line)
}

/// The line of a step of a kind.
fn step_line(
    alloc: Global,
    columns: &[Column],
    index: usize,
    kind: TimedRequest,
    step: Step,
) -> Result<String, Memory> {
    let name = name(kind);
    let step_name = step_name(step);
    let mut line = format!(in alloc; "{name:<30}{step_name:<9}")?;
    push_cells(&mut line, columns, index, step)?;
    Ok(line)
}

/// Tells the lines of a kind.
fn tell_kind<R: Eprint + AllocGlobal>(
    rt: &R,
    columns: &[Column],
    index: usize,
    kind: TimedRequest,
) -> Result<()> {
    for step in steps_of(kind) {
        let line = step_line(rt.alloc(), columns, index, kind, *step)?;
        eprintln!(rt; "{line}")?;
    }
    Ok(())
}

/// Tells all lines.
pub(crate) fn tell<R: Eprint + AllocGlobal>(rt: &R, what: &str, columns: &[Column]) -> Result<()> {
    let head = head(rt.alloc(), what, columns)?;
    eprintln!(rt; "{head}")?;
    for (index, kind) in KINDS.iter().enumerate() {
        tell_kind(rt, columns, index, *kind)?;
    }
    Ok(())
}
