//! The ranges of one direction, number and protocol.
ghost use Rattle.std.specs.Prelude.{◌≡◌, ◌≤◌, ◌<◌, ◌+◌, ◌*◌, ◌++◌, ◌∷◌, ℕ, List, OnOk, length, map};
ghost use Rattle.std.specs.List.Sorted.{IsStrictlySortedBy};
ghost use Rattle.std.specs.Ordering.{nat_cmp};
ghost use Rattle.pol_mapkey.specs.declared.Word.{Word as TheWord};
ghost use Rattle.pol_audit.specs.Kinds.{PortsAscend, both_said};
ghost use Rattle.pol_audit.specs.Ranges.{numbers_of, piece, ranges_from, same_words};

use crate::cuts::Parts;
use crate::difference::{Difference, Numbers};
use crate::group::Group;
use crate::kinds::words_of;
use pol_data::{Memory, Steps};
use pol_mapkey::Word;
use std::alloc::Global;
use std::sync::ledger::Ledger;

/// 0 stands for every other number.
fn numbers(id: u32) -> Numbers
    ensures { result ≡ numbers_of id }
{
    if id == 0 {
        Numbers::EveryOther
    } else {
        Numbers::One(id)
    }
}

/// Appends the range of these ports, where the words differ.
fn push_piece(
    out: &mut Vec<Difference>,
    group: Group,
    first: u16,
    last: u16,
    said: (Word, Word),
) -> Result<(), Memory>
    ensures { OnOk result (out.new.items ≡ out.old.items ++ piece group first last said) }
{
    if said.0 != said.1 {
        out.push(Difference {
            dir: group.dir,
            numbers: numbers(group.id),
            proto: group.proto,
            first,
            last,
            left: said.0,
            right: said.1,
        })?;
    }
    Ok(())
}

/// Whether these are the same words.
fn same_words(a: (Word, Word), b: (Word, Word)) -> bool
    ensures { result ≡ same_words a b }
{
    a.0 == b.0 && a.1 == b.1
}

/// Appends the ranges from port 0 on, where the tables say these words at these ports and may say others only there.
fn push_said(
    out: &mut Vec<Difference>,
    group: Group,
    ports: &[u16],
    left: &[Word],
    right: &[Word],
) -> Result<(), Memory>
    requires first { (rest : List ℕ) × (ports.now ≡ 0 ∷ rest) }
    requires left { length left.now ≡ length ports.now }
    requires right { length right.now ≡ length ports.now }
    ensures { OnOk result ((said : ℕ → TheWord × TheWord) → left.now ≡ map (λ port. (said port).0) ports.now → right.now
        ≡ map (λ port. (said port).1) ports.now → out.new.items ≡ out.old.items ++ ranges_from group said 0 ports.now) }
{
    let mut first = 0u16;
    let mut said = (left[0], right[0]);
    for i in 0..ports.len() {
        let port = ports[i];
        let next = (left[i], right[i]);
        if !same_words(said, next) {
            push_piece(out, group, first, port.saturating_sub(1), said)?;
            first = port;
            said = next;
        }
    }
    push_piece(out, group, first, 65535, said)
}

/// Appends the ranges of the ports, from 0 on, where something may change at these ports.
pub(crate) fn push_ranges<L: Ledger>(
    alloc: Global,
    out: &mut Vec<Difference>,
    group: Group,
    parts: &Parts,
    ports: &[u16],
    steps: &mut Steps<L>,
) -> Result<(), Memory>
    requires left { PortsAscend parts.now.left.now }
    requires right { PortsAscend parts.now.right.now }
    requires left_every { PortsAscend parts.now.left_every.now }
    requires right_every { PortsAscend parts.now.right_every.now }
    requires ports { IsStrictlySortedBy nat_cmp ports.now }
    requires first { (rest : List ℕ) × (ports.now ≡ 0 ∷ rest) }
    ensures ranges { OnOk result (out.new.items ≡ out.old.items ++ ranges_from group (both_said group.proto
        parts.now.left.now parts.now.right.now parts.now.left_every.now parts.now.right_every.now) 0 ports.now) }
    ensures forward { steps.old ≤ steps.new }
    ensures cost { steps.new ≤ steps.old + 2 * (length parts.now.left.now + length parts.now.right.now + length
        parts.now.left_every.now + length parts.now.right_every.now) + 4 * length ports.now }
{
    let left = words_of(
        alloc,
        parts.left,
        parts.left_every,
        group.proto,
        ports,
        steps,
    )?;
    let right = words_of(
        alloc,
        parts.right,
        parts.right_every,
        group.proto,
        ports,
        steps,
    )?;
    push_said(out, group, ports, &left, &right)
}
