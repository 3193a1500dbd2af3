//! Numbers in order, each once.
ghost use Rattle.std.specs.Prelude.{◌↔◌, ◌<◌, ◌≤◌, ℕ, length};
ghost use Rattle.std.specs.List.{All, Contains};
ghost use Rattle.std.specs.List.Sorted.{IsStrictlySortedBy};
ghost use Rattle.std.specs.Ordering.{nat_cmp};

use pol_mapkey::{Kind, MapKey};

/// The numbers in order, each once. It takes no memory.
pub(crate) fn ids_in_order(numbers: Vec<u32>) -> Vec<u32>
    ensures ascend { IsStrictlySortedBy nat_cmp result.items }
    ensures members { (n : ℕ) → Contains result.items n ↔ Contains numbers.items n }
{
    let mut numbers = numbers;
    numbers.sort_unstable();
    numbers.dedup();
    numbers
}

/// The ports in order, each once. It takes no memory.
pub(crate) fn ports_in_order(ports: Vec<u16>) -> Vec<u16>
    ensures ascend { IsStrictlySortedBy nat_cmp result.items }
    ensures members { (n : ℕ) → Contains result.items n ↔ Contains ports.items n }
    ensures few { length result.items ≤ length ports.items }
{
    let mut ports = ports;
    ports.sort_unstable();
    ports.dedup();
    ports
}

/// Ports are numbers of 16 bits.
pub(crate) fn are_ports(ports: &[u16])
    ensures { (n : ℕ) → Contains ports.now n → n < 65536 }
{
    let _ = ports;
}

/// A port is a number of 16 bits.
fn is_port(port: u16)
    ensures { port < 65536 }
{
    let _ = port;
}

/// The ports of entries are numbers of 16 bits.
pub(crate) fn are_entries(entries: &[(MapKey, Kind)])
    ensures { All (λ e. e.0.port.bits < 65536) entries.now }
{
    for entry in entries {
        is_port(entry.0.port.bits);
    }
}

/// A number of 32 bits is one.
fn is_number(number: u32)
    ensures { number < 4294967296 }
{
    let _ = number;
}

/// The numbers of entries have 32 bits.
pub(crate) fn are_numbered(entries: &[(MapKey, Kind)])
    ensures { All (λ e. e.0.id < 4294967296) entries.now }
{
    for entry in entries {
        is_number(entry.0.id);
    }
}
