//! Texts of addresses and prefixes that the grammar was read from: those of IPv4, and those that RFC 4291 (sections 2.2 and 2.3)
//! and RFC 5952 (sections 2 and 4) have.
use pol_addr::{Addr, Family, Prefix};
use std::test::Fail;

fn is_v4(text: &str, bits: u32) -> bool {
    Addr::parse(text) == Some(Addr::V4(bits))
}

fn is_v6(text: &str, groups: [u16; 8]) -> bool {
    Addr::parse(text) == Some(Addr::from_groups(groups))
}

fn is_prefix(text: &str, addr: Addr, len: u8) -> bool {
    matches!(Prefix::parse(text), Some(p) if p.network() == addr && p.len() == len)
}

#[test]
fn ipv4_addresses_are_read(rt: HostRuntime) {
    assert!(rt; is_v4("0.0.0.0", 0));
    assert!(rt; is_v4("10.0.0.1", 0x0a00_0001));
    assert!(rt; is_v4("255.255.255.255", 0xffff_ffff));
    for text in [
        "",
        "1.2.3",
        "01.2.3.4",
        "10.0.0.256",
        "1.2.3.4.",
        "+1.2.3.4",
    ] {
        assert!(rt; Addr::parse(text).is_none());
    }
}

#[test]
fn ipv6_addresses_are_read(rt: HostRuntime) {
    let unicast = [0x2001, 0xdb8, 0, 0, 8, 0x800, 0x200c, 0x417a];
    assert!(rt; is_v6("2001:DB8:0:0:8:800:200C:417A", unicast));
    assert!(rt; is_v6("2001:DB8::8:800:200C:417A", unicast));
    let multicast = [0xff01, 0, 0, 0, 0, 0, 0, 0x101];
    assert!(rt; is_v6("FF01:0:0:0:0:0:0:101", multicast));
    assert!(rt; is_v6("FF01::101", multicast));
    assert!(rt; is_v6("0:0:0:0:0:0:0:1", [0, 0, 0, 0, 0, 0, 0, 1]));
    assert!(rt; is_v6("::1", [0, 0, 0, 0, 0, 0, 0, 1]));
    assert!(rt; is_v6("::", [0; 8]));
    let full = [
        0xabcd, 0xef01, 0x2345, 0x6789, 0xabcd, 0xef01, 0x2345, 0x6789,
    ];
    assert!(rt; is_v6("ABCD:EF01:2345:6789:ABCD:EF01:2345:6789", full));
}

#[test]
fn one_address_has_many_texts(rt: HostRuntime) {
    for text in [
        "2001:db8:0:0:1:0:0:1",
        "2001:0db8:0:0:1:0:0:1",
        "2001:db8::1:0:0:1",
        "2001:db8::0:1:0:0:1",
        "2001:0db8::1:0:0:1",
        "2001:db8:0:0:1::1",
        "2001:db8:0000:0:1::1",
        "2001:DB8:0:0:1::1",
    ] {
        assert!(rt; is_v6(text, [0x2001, 0xdb8, 0, 0, 1, 0, 0, 1]));
    }
}

#[test]
fn other_texts_are_refused(rt: HostRuntime) {
    for text in [
        "1::2::3",
        "1:2:3:4:5:6:7",
        "1:2:3:4:5:6:7:8:9",
        "12345::",
        "g::",
        ":1",
        "0:0:0:0:0:0:13.1.68.3",
        "::FFFF:129.144.52.38",
        "fe80::1%eth0",
        "2001:db8::/32",
    ] {
        assert!(rt; Addr::parse(text).is_none());
    }
}

/// Whether the text is read, and printed as the other one.
fn is_printed_as(rt: &HostRuntime, text: &str, short: &str) -> Result<bool, Fail> {
    let addr = Addr::parse(text).ok_or("no address")?;
    let printed = format!(in rt.alloc(); "{addr}")?;
    Ok(printed.as_str() == short)
}

#[test]
fn the_short_text_is_printed(rt: HostRuntime) -> Result<(), Fail> {
    assert!(rt; is_printed_as(&rt, "10.0.0.1", "10.0.0.1")?);
    assert!(rt; is_printed_as(&rt, "2001:0db8::0001", "2001:db8::1")?);
    assert!(rt; is_printed_as(&rt, "2001:db8:0:0:0:0:2:1", "2001:db8::2:1")?);
    assert!(rt; is_printed_as(&rt, "2001:db8::1:1:1:1:1", "2001:db8:0:1:1:1:1:1")?);
    assert!(rt; is_printed_as(&rt, "2001:0:0:1:0:0:0:1", "2001:0:0:1::1")?);
    assert!(rt; is_printed_as(&rt, "2001:db8:0:0:1:0:0:1", "2001:db8::1:0:0:1")?);
    assert!(rt; is_printed_as(&rt, "2001:DB8::AAAA", "2001:db8::aaaa")?);
    Ok(())
}

#[test]
fn prefixes_are_read(rt: HostRuntime) {
    assert!(rt; is_prefix("0.0.0.0/0", Addr::V4(0), 0));
    assert!(rt; is_prefix("10.1.2.3/8", Addr::V4(0x0a00_0000), 8));
    assert!(rt; is_prefix("10.1.2.3", Addr::V4(0x0a01_0203), 32));
    assert!(rt; is_prefix("::/0", Addr::V6(0), 0));
    let network = Addr::from_groups([0x2001, 0xdb8, 0, 0xcd30, 0, 0, 0, 0]);
    assert!(rt; is_prefix("2001:0DB8:0000:CD30:0000:0000:0000:0000/60", network, 60));
    assert!(rt; is_prefix("2001:0DB8::CD30:0:0:0:0/60", network, 60));
    assert!(rt; is_prefix("2001:0DB8:0:CD30::/60", network, 60));
    assert!(rt; is_prefix("2001:0DB8:0:CD30:123:4567:89AB:CDEF/60", network, 60));
    assert!(rt; is_prefix("2001:0DB8:0:CD30::", network, 128));
    assert!(rt; !is_prefix("2001:0DB8::CD30/60", network, 60));
    assert!(rt; !is_prefix("2001:0DB8::CD3/60", network, 60));
    for text in [
        "/8",
        "10.0.0.0/",
        "10.0.0.0/33",
        "10.0.0.0/08",
        "10.0.0/8",
        "2001:0DB8:0:CD3/60",
        "2001:db8::/129",
        "2001:db8::/032",
        "::/0/0",
    ] {
        assert!(rt; Prefix::parse(text).is_none());
    }
}

#[test]
fn a_prefix_is_printed_as_it_is_read(rt: HostRuntime) -> Result<(), Fail> {
    for text in ["0.0.0.0/0", "10.1.2.3/32", "::/0", "2001:db8:0:cd30::/60"] {
        let prefix = Prefix::parse(text).ok_or("no prefix")?;
        let printed = format!(in rt.alloc(); "{prefix}")?;
        assert!(rt; printed.as_str() == text);
    }
    Ok(())
}

#[test]
fn a_prefix_contains_its_own_family_alone(rt: HostRuntime) {
    let (v4, v6) = (Prefix::world(Family::Ipv4), Prefix::world(Family::Ipv6));
    assert!(rt; v4.contains(Addr::V4(1)) && !v4.contains(Addr::V6(1)));
    assert!(rt; v6.contains(Addr::V6(1)) && !v6.contains(Addr::V4(1)));
    assert!(rt; !v4.covers(&v6) && !v6.covers(&v4));
    let mapped = Prefix::new(Addr::V6(0xffff_0a00_0000), 104);
    assert!(rt; mapped.contains(Addr::V6(0xffff_0a00_0001)));
    assert!(rt; !mapped.contains(Addr::V4(0x0a00_0001)));
}
