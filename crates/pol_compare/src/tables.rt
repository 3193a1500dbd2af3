//! A text of two tables is read and audited.
ghost use Rattle.std.specs.Prelude.{◌≡◌, ◌≤◌, Some, IfOk, length};
ghost use Rattle.pol_audit.specs.Audit.{IsAudit};
ghost use Rattle.pol_audit.specs.declared.packet.Audit.{Audit as OneAudit};
ghost use Rattle.pol_compare.specs.Finding.{IsFinding, IsFoundAlone, IsFoundBehind, IsFoundIn};
ghost use Rattle.pol_compare.specs.Parts.{IsFew};

use crate::cut::parts_of;
use crate::finding::Finding;
use pol_audit::{Audit, Entries, TableError, audit, read_table};
use pol_data::{Memory, Steps};
use std::alloc::Global;
use std::marker::Brand;
use std::sync::ledger::{Blank, Ledger};

/// What is found of a text of two tables, the line `--` between them: its first bad line, counted from 1 over the whole
/// text; that there is no divider; or what an audit of the two tables finds. The divider is the first line that is `--` and
/// ends with a newline byte, so a second one is a bad line, and so is a last `--` without a newline byte ('profile'). The one
/// error is want of memory.
pub fn compare(alloc: Global, text: &[u8]) -> Result<Finding, Memory>
    requires { IsFew text.now }
    ensures { IfOk result (IsFinding text.now) }
{
    let (front, back) = parts_of(text);
    match back {
        None => one_table(alloc, front),
        Some(back) => two_tables(alloc, front, back),
    }
}

// A text without a divider.
fn one_table(alloc: Global, text: &[u8]) -> Result<Finding, Memory>
    requires { IsFew text.now }
    ensures { IfOk result (IsFoundAlone text.now) }
{
    match read_table(alloc, text) {
        Ok(_table) => Ok(Finding::NoDivider),
        Err(TableError::Line(line)) => Ok(Finding::BadTable(u64::from(line))),
        Err(TableError::Memory) => Err(Memory),
    }
}

// The texts before and behind a divider.
fn two_tables(alloc: Global, left: &[u8], right: &[u8]) -> Result<Finding, Memory>
    requires left { IsFew left.now }
    requires right { IsFew right.now }
    ensures { IfOk result (IsFoundIn left.now (Some right.now)) }
{
    match read_table(alloc, left) {
        Ok(table) => second_table(alloc, &table, right),
        Err(TableError::Line(line)) => Ok(Finding::BadTable(u64::from(line))),
        Err(TableError::Memory) => Err(Memory),
    }
}

// The text behind a table and the divider.
fn second_table(alloc: Global, left: &Entries, right: &[u8]) -> Result<Finding, Memory>
    requires left { length left.now ≤ 1000000 }
    requires right { IsFew right.now }
    ensures { IfOk result (IsFoundBehind left.now right.now) }
{
    match read_table(alloc, right) {
        Ok(table) => audited(alloc, left, &table),
        Err(TableError::Line(line)) => Ok(Finding::BadTable(left.count() + 1 + u64::from(line))),
        Err(TableError::Memory) => Err(Memory),
    }
}

// What an audit finds of two tables.
fn audited(alloc: Global, left: &Entries, right: &Entries) -> Result<Finding, Memory>
    ensures { IfOk result (λ finding.
        (audit : OneAudit) × (finding ≡ Finding.Compared audit) × IsAudit left.now right.now audit) }
{
    let audit = audit_over::<Brand>(Blank::new(1), alloc, left, right)?;
    Ok(Finding::Compared(audit))
}

// Nothing here asks how many steps an audit takes.
fn audit_over<L: Ledger>(
    blank: Blank,
    alloc: Global,
    left: &Entries,
    right: &Entries,
) -> Result<Audit, Memory>
    requires name { blank.name ≡ L.name }
    requires parts { blank.parts ≡ L.parts }
    requires some { blank.parts ≡ 1 }
    ensures { IfOk result (IsAudit left.now right.now) }
{
    let mut steps = Steps::<L>::new(blank);
    audit(alloc, left, right, &mut steps)
}
