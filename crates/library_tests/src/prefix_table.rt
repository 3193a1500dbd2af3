//! A small table of both families, and its copy.
use pol_addr::{Addr, Family, Prefix};
use pol_prefix_table::PrefixTable;
use std::alloc::{AllocError, Global};
use std::test::Fail;

fn ipv4(a: u8, b: u8, len: u8) -> Prefix {
    Prefix::new(Addr::from_octets(a, b, 0, 0), len.min(32))
}

/// An address below 2001:db8::/32.
fn below(group: u16) -> Addr {
    Addr::from_groups([0x2001, 0xdb8, group, 0, 0, 0, 0, 1])
}

fn ipv6(group: u16, len: u8) -> Prefix {
    let addr = below(group);
    Prefix::new(addr, len.min(addr.family().width()))
}

/// 10.0.0.0/8 as 1, 10.1.0.0/16 as 2, 2001:db8::/32 as 3, and 2001:db8:1::/48 as 4.
fn nested(alloc: Global) -> Result<PrefixTable, AllocError> {
    let mut table = PrefixTable::new(alloc);
    table.insert(ipv4(10, 0, 8), 1)?;
    table.insert(ipv6(1, 48), 4)?;
    table.insert(ipv4(10, 1, 16), 2)?;
    table.insert(ipv6(0, 32), 3)?;
    Ok(table)
}

fn finds_the_longest(table: &PrefixTable) -> bool {
    table.find(Addr::from_octets(10, 1, 0, 1)) == Some(2)
        && table.find(Addr::from_octets(10, 2, 0, 1)) == Some(1)
        && table.find(Addr::from_octets(11, 0, 0, 1)).is_none()
        && table.find(below(1)) == Some(4)
        && table.find(below(2)) == Some(3)
        && table.find(Addr::V6(1)).is_none()
}

#[test]
fn the_longest_prefix_wins_on_a_table_and_its_copy(rt: HostRuntime) -> Result<(), Fail> {
    let mut table = nested(rt.alloc())?;
    let copy = table.copy(rt.alloc())?;
    assert!(rt; finds_the_longest(&table));
    assert!(rt; table.remove(ipv4(10, 1, 16)) == Some(2));
    assert!(rt; table.remove(ipv6(1, 48)) == Some(4));
    assert!(rt; table.remove(ipv6(1, 48)).is_none());
    assert!(rt; table.find(Addr::from_octets(10, 1, 0, 1)) == Some(1));
    assert!(rt; table.find(below(1)) == Some(3));
    assert!(rt; finds_the_longest(&copy));
    Ok(())
}

/// A table of one prefix of length 0 finds no address of the other family.
#[test]
fn a_world_is_of_one_family(rt: HostRuntime) -> Result<(), Fail> {
    let (v4, v6) = (Addr::from_octets(10, 0, 0, 1), below(1));
    let mut table = PrefixTable::new(rt.alloc());
    table.insert(Prefix::world(Family::Ipv6), 10)?;
    assert!(rt; table.find(v6) == Some(10) && table.find(v4).is_none());
    table.insert(Prefix::world(Family::Ipv4), 9)?;
    assert!(rt; table.find(v6) == Some(10) && table.find(v4) == Some(9));
    assert!(rt; table.remove(Prefix::world(Family::Ipv6)) == Some(10));
    assert!(rt; table.find(v6).is_none() && table.find(v4) == Some(9));
    Ok(())
}

/// So many prefixes of each family that look-ups start below the root.
fn filled(alloc: Global, count: u32) -> Result<PrefixTable, AllocError> {
    let mut table = PrefixTable::new(alloc);
    for i in 0..count {
        table.insert(Prefix::new(Addr::V4(i << 16), 16), i)?;
        table.insert(Prefix::new(Addr::V6(u128::from(i) << 112), 16), i)?;
    }
    Ok(table)
}

#[test]
fn look_ups_start_below_the_root(rt: HostRuntime) -> Result<(), Fail> {
    let mut table = filled(rt.alloc(), 2_000)?;
    for i in [0u32, 1, 255, 256, 1_999] {
        assert!(rt; table.find(Addr::V4((i << 16) | 5)) == Some(i));
        assert!(rt; table.find(Addr::V6((u128::from(i) << 112) | 5)) == Some(i));
    }
    assert!(rt; table.find(Addr::V4(2_000 << 16)).is_none());
    for i in 0..1_900u32 {
        assert!(rt; table.remove(Prefix::new(Addr::V4(i << 16), 16)) == Some(i));
        assert!(rt; table.remove(Prefix::new(Addr::V6(u128::from(i) << 112), 16)) == Some(i));
    }
    assert!(rt; table.find(Addr::V4(5)).is_none());
    assert!(rt; table.find(Addr::V6(1_999 << 112)) == Some(1_999));
    Ok(())
}
