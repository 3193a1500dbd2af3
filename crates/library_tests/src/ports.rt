//! Splits against lists from outside.
ghost use Rattle.std.specs.Prelude.{◌≤◌};

use pol_ports::{PortRange, split};
use std::alloc::{AllocError, Global};
use std::test::Fail;

/// Whether the split of the range has exactly these pairs of bits and length.
fn is_split(alloc: Global, first: u16, last: u16, pairs: &[(u16, u8)]) -> Result<bool, AllocError>
    requires { first ≤ last }
{
    let parts = split(alloc, PortRange { first, last })?;
    let is_same = parts.len() == pairs.len();
    Ok(
        is_same
            && parts
                .iter()
                .zip(pairs)
                .all(|(part, pair)| part.bits == pair.0 && part.len == pair.1),
    )
}

#[test]
fn ranges_are_split(rt: HostRuntime) -> Result<(), Fail> {
    let alloc = rt.alloc();
    assert!(rt; is_split(alloc, 80, 84, &[(80, 14), (84, 16)])?);
    assert!(rt; is_split(alloc, 1024, 2047, &[(1024, 6)])?);
    assert!(rt; is_split(alloc, 0, 65535, &[(0, 0)])?);
    let range = PortRange {
        first: 1,
        last: 65534,
    };
    assert!(rt; split(alloc, range)?.len() == 30);
    Ok(())
}
