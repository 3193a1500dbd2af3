//! Times audits of two tables of other entries that say the same, from 1,024 entries a side to 16,384, each size twice the
//! one before, and the reading of such tables.
ghost use Rattle.std.specs.Prelude.{◌≡◌};

use crate::watch::Watch;
use anyhow::Result;
use pol_audit::{Audit, Entries, TableError, audit, read_table};
use pol_data::{Memory, Steps};
use std::alloc::Global;
use std::marker::Brand;
use std::rt::Clock;
use std::sync::ledger::{Blank, Ledger};

/// Entries a number, of which the first allows all that the others allow.
const ENTRIES_OF_ONE: u32 = 16;

/// The text of a table of this many entries, whose narrow ones are of one protocol.
fn text_of(alloc: Global, entries: u32, proto: &str) -> Result<String, Memory> {
    let mut text = String::new(alloc);
    for i in 0..entries {
        let id = 256u32.wrapping_add(i / ENTRIES_OF_ONE);
        let place = i % ENTRIES_OF_ONE;
        if place == 0 {
            write!(text, "ingress {id} every 0/0 allow\n")?;
        } else {
            let port = place * 4000;
            write!(text, "ingress {id} {proto} {port}/16 allow\n")?;
        }
    }
    Ok(text)
}

fn read(alloc: Global, text: &str) -> Result<Entries, TableError> {
    let bytes = text.as_bytes();
    if bytes.len() > 1_000_000_000 {
        return Err(TableError::Memory);
    }
    read_table(alloc, bytes)
}

fn audit_over<L: Ledger>(
    blank: Blank,
    alloc: Global,
    left: &Entries,
    right: &Entries,
) -> Result<Audit, Memory>
    requires name { blank.name ≡ L.name }
    requires parts { blank.parts ≡ L.parts }
    requires some { blank.parts ≡ 1 }
{
    let mut steps = Steps::<L>::new(blank);
    audit(alloc, left, right, &mut steps)
}

/// Whether an audit of the two finds them the same.
fn are_same(alloc: Global, left: &Entries, right: &Entries) -> Result<bool, Memory> {
    let found = audit_over::<Brand>(Blank::new(1), alloc, left, right)?;
    Ok(found == Audit::Same)
}

fn time_audit<R: Clock + Eprint + AllocGlobal>(
    rt: &R,
    watch: Watch,
    left: &Entries,
    right: &Entries,
) -> Result<()> {
    let start = watch.nanos(rt);
    let same = are_same(rt.alloc(), left, right)?;
    let micros = watch.nanos(rt).wrapping_sub(start) / 1000;
    let entries = left.count();
    eprintln!(rt; "audit of {entries} entries a side: {micros} us, same: {same}")?;
    Ok(())
}

/// Times the reading of a table.
fn time_reading<R: Clock + Eprint + AllocGlobal>(
    rt: &R,
    watch: Watch,
    text: &str,
) -> Result<Entries> {
    let start = watch.nanos(rt);
    let table = read(rt.alloc(), text)?;
    let micros = watch.nanos(rt).wrapping_sub(start) / 1000;
    let bytes = text.len();
    eprintln!(rt; "reading {bytes} bytes: {micros} us")?;
    Ok(table)
}

/// A table of this many entries, whose narrow ones are of one protocol.
fn table<R: Clock + Eprint + AllocGlobal>(
    rt: &R,
    watch: Watch,
    entries: u32,
    proto: &str,
) -> Result<Entries> {
    let text = text_of(rt.alloc(), entries, proto)?;
    time_reading(rt, watch, text.as_str())
}

/// Times an audit of this table and another one that says the same.
fn time_beside<R: Clock + Eprint + AllocGlobal>(
    rt: &R,
    watch: Watch,
    left: &Entries,
    entries: u32,
) -> Result<()> {
    let right = table(rt, watch, entries, "UDP")?;
    time_audit(rt, watch, left, &right)
}

fn time_size<R: Clock + Eprint + AllocGlobal>(rt: &R, watch: Watch, entries: u32) -> Result<()> {
    let left = table(rt, watch, entries, "TCP")?;
    time_beside(rt, watch, &left, entries)
}

/// Times each size.
pub(crate) fn time<R: Clock + Eprint + AllocGlobal>(rt: &R, watch: Watch) -> Result<()> {
    for entries in [1024u32, 2048, 4096, 8192, 16_384] {
        time_size(rt, watch, entries)?;
    }
    Ok(())
}
