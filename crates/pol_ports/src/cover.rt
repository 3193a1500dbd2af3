//! The split of a port range into prefixes.
ghost use Rattle.std.specs.Prelude.{◌≡◌, ℕ, ◌+◌, ◌-◌, ◌≤◌, ◌<◌, ◌^◌, ◌↔◌, List, ◌++◌, true, IfOk, OnOk, IsTrue, length};
ghost use Rattle.std.specs.List.{Contains, AllPairs};
ghost use Rattle.pol_ports.specs.Split.{split_of, parts_within, lies_in, is_apart, is_part, CoversExactly};
ghost use Rattle.pol_ports.specs.PortPrefix.{Precedes};
ghost use Rattle.pol_ports.specs.declared.PortPrefix.{PortPrefix};

use crate::{PortPrefix, PortRange};
use std::alloc::{AllocError, Global};

/// The fewest prefixes that have together exactly the ports of the range, in ascending order
/// (profile). There are from 1 to 30 of them.
///
/// `AllocError` comes only where memory runs out.
pub fn split(alloc: Global, range: PortRange) -> Result<Vec<PortPrefix>, AllocError>
    ensures split { IfOk result (λ parts. parts.items ≡ split_of range) }

    // What the split is: the prefixes that lie in the range and whose parent doesn't, each before
    // the next.
    ensures parts { IfOk result (λ parts. (p : PortPrefix) → Contains parts.items p ↔ (is_part range p ≡ true)) }
    ensures ascending { IfOk result (λ parts. AllPairs Precedes parts.items) }

    // What it is for: it covers the range, and no list of prefixes does so with fewer.
    ensures exact { IfOk result (λ parts. CoversExactly range parts.items) }
    ensures few { IfOk result (λ parts. length parts.items ≤ 30) }
    ensures least { IfOk result (λ parts.
        (other : List PortPrefix) → CoversExactly range other → length parts.items ≤ length other) }
{
    let mut parts = Vec::new(alloc);
    push_split(&mut parts, range)?;
    Ok(parts)
}

/// Appends the parts of the range's split, in ascending order.
///
/// One port is one prefix, and nothing is halved for it.
fn push_split(parts: &mut Vec<PortPrefix>, range: PortRange) -> Result<(), AllocError>
    ensures { OnOk result (parts.new.items ≡ parts.old.items ++ split_of range) }
{
    if range.first == range.last {
        return push_one(parts, range);
    }
    let all_ports = PortPrefix { bits: 0, len: 0 };
    push_parts(parts, range, all_ports)
}

/// Appends the one prefix of a range of one port.
fn push_one(parts: &mut Vec<PortPrefix>, range: PortRange) -> Result<(), AllocError>
    requires one { range.first ≡ range.last }
    ensures { OnOk result (parts.new.items ≡ parts.old.items ++ split_of range) }
{
    let part = one_port(range.first);
    parts.push(part)?;
    Ok(())
}

/// The prefix of one port.
fn one_port(port: u16) -> PortPrefix
    ensures bits { result.bits ≡ port }
    ensures len { result.len ≡ 16 }
{
    PortPrefix {
        bits: port,
        len: 16,
    }
}

/// Appends the parts of the range's split that lie in the block, in ascending order.
///
/// The block is empty, or its parent has a port outside the range.
fn push_parts(
    parts: &mut Vec<PortPrefix>,
    range: PortRange,
    block: PortPrefix,
) -> Result<(), AllocError>
    requires { is_part range block ≡ lies_in range block }
    ensures { OnOk result (parts.new.items ≡ parts.old.items ++ parts_within range (16 - block.len) block.bits) }
{
    if is_apart(range, block) {
        return Ok(());
    }
    if lies_in(range, block) {
        parts.push(block)?;
        return Ok(());
    }
    push_parts(parts, range, lower_half(block))?;
    push_parts(parts, range, upper_half(block))
}

/// Whether no port of the block is in the range.
fn is_apart(range: PortRange, block: PortPrefix) -> bool
    ensures { result ≡ is_apart range block }
{
    block.end() <= u32::from(range.first) || range.last < block.bits
}

/// Whether every port of the block is in the range.
fn lies_in(range: PortRange, block: PortPrefix) -> bool
    ensures { result ≡ lies_in range block }
{
    range.first <= block.bits && block.end() <= u32::from(range.last) + 1
}

/// The prefix of the lower half of the block's ports.
fn lower_half(block: PortPrefix) -> PortPrefix
    requires { block.len < 16 }
    ensures bits { result.bits ≡ block.bits }
    ensures len { result.len ≡ block.len + 1 }
{
    PortPrefix {
        bits: block.bits,
        len: block.len + 1,
    }
}

/// The prefix of the upper half of the block's ports.
fn upper_half(block: PortPrefix) -> PortPrefix
    requires { block.len < 16 }
    ensures bits { result.bits ≡ block.bits + 2 ^ (15 - block.len) }
    ensures len { result.len ≡ block.len + 1 }
{
    PortPrefix {
        bits: block.bits + (1 << (15 - block.len)),
        len: block.len + 1,
    }
}
