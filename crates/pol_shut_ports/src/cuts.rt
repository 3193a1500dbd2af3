//! The ports where what is shut may change.
ghost use Rattle.std.specs.Prelude.{◌≡◌, ◌<◌, ◌++◌, ◌∷◌, ◌↔◌, [], ℕ, IfOk, OnOk};
ghost use Rattle.std.specs.List.{Contains, flat_map};
ghost use Rattle.std.specs.List.Sorted.{IsStrictlySortedBy};
ghost use Rattle.std.specs.Ordering.{nat_cmp};
ghost use Rattle.pol_shut_ports.specs.Pairs.{ends_of};

use pol_audit::Difference;
use pol_data::Memory;
use std::alloc::Global;

/// Appends the ports where a range begins and has just ended.
fn push_ends(cuts: &mut Vec<u16>, range: &Difference) -> Result<(), Memory>
    ensures { OnOk result (cuts.new.items ≡ cuts.old.items ++ ends_of range.now) }
{
    cuts.push(range.first)?;
    if range.last < 65535 {
        cuts.push(range.last + 1)?;
    }
    Ok(())
}

/// Appends the ports where one of the ranges begins or has just ended.
pub(crate) fn push_cuts(cuts: &mut Vec<u16>, ranges: &[Difference]) -> Result<(), Memory>
    ensures { OnOk result (cuts.new.items ≡ cuts.old.items ++ flat_map ends_of ranges.now) }
{
    for range in ranges {
        push_ends(cuts, range)?;
    }
    Ok(())
}

/// The list of port 0 alone.
pub(crate) fn port_0(alloc: Global) -> Result<Vec<u16>, Memory>
    ensures { IfOk result (λ ports. ports.items ≡ 0 ∷ []) }
{
    let mut ports = Vec::new(alloc);
    ports.push(0)?;
    Ok(ports)
}

/// The ports in order, each once. It takes no memory.
pub(crate) fn in_order(ports: Vec<u16>) -> Vec<u16>
    ensures ascend { IsStrictlySortedBy nat_cmp result.items }
    ensures members { (n : ℕ) → Contains result.items n ↔ Contains ports.items n }
{
    let mut ports = ports;
    ports.sort_unstable();
    ports.dedup();
    ports
}

/// Ports are numbers of 16 bits.
pub(crate) fn are_ports(ports: &[u16])
    ensures { (n : ℕ) → Contains ports.now n → n < 65536 }
{
    let _ = ports;
}
