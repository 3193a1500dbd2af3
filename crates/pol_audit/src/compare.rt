//! Whether two tables are alike.
ghost use Rattle.std.specs.Prelude.{◌≡◌, ◌≤◌, ◌+◌, ◌*◌, IfOk};
ghost use Rattle.pol_audit.specs.Audit.{IsAudit, audit_from, least_packet};
ghost use Rattle.pol_audit.specs.Extent.{extent};

use crate::difference::{Difference, Numbers};
use crate::entries::Entries;
use crate::first::first_range;
use crate::packet::{Audit, Packet};
use pol_data::{Memory, Steps};
use std::alloc::Global;
use std::sync::ledger::Ledger;

/// The least packet of a range.
fn least_packet(range: &Difference) -> Packet
    ensures { result ≡ least_packet range.now }
{
    let id = match range.numbers {
        Numbers::EveryOther => 0,
        Numbers::One(number) => number,
    };
    Packet {
        dir: range.dir,
        id,
        proto: range.proto,
        port: range.first,
        left: range.left,
        right: range.right,
    }
}

/// What is said where the difference begins with this range, or there is none.
fn audit_from(first: Option<Difference>) -> Audit
    ensures { result ≡ audit_from first }
{
    match first {
        None => Audit::Same,
        Some(range) => Audit::Differs(least_packet(&range)),
    }
}

/// Whether two tables give one word for every direction, number of 32 bits, protocol and port, or else the least packet on
/// which they differ, with its two words: it is the first of the first range of `differences`, of which no range behind those
/// of its number is made. The one error is want of memory (profile).
pub fn audit<L: Ledger>(
    alloc: Global,
    left: &Entries,
    right: &Entries,
    steps: &mut Steps<L>,
) -> Result<Audit, Memory>
    ensures audit { IfOk result (λ audit. IsAudit left.now right.now audit) }
    ensures forward { steps.old ≤ steps.new }
    ensures cost { steps.new ≤ steps.old + 30 * extent left.now right.now }
{
    let first = first_range(alloc, left.as_slice(), right.as_slice(), steps)?;
    Ok(audit_from(first))
}
