//! IPv4 and IPv6 addresses.
ghost use Rattle.std.specs.Prelude.{◌≡◌, IfSome, IfNone};
ghost use Rattle.pol_addr.specs.Address.{addr_of_groups, addr_of_octets, family_of, read_addr, read_v4, read_v6, IsAddr};
ghost use Rattle.pol_addr.specs.Grammar.{WritesAddr};

use crate::family::Family;
use std::net::{Ipv4Addr, Ipv6Addr};

/// An address of either family, its bits as one number, the first one highest.
#[derive(Clone, Copy, Debug, PartialEq, Eq, PartialOrd, Ord, Hash)]
pub enum Addr {
    /// An IPv4 address.
    V4(u32),
    /// An IPv6 address.
    V6(u128),
}

/// The IPv4 address that the text writes.
fn parse_v4(text: &str) -> Option<Addr>
    ensures { result ≡ read_v4 text.now }
{
    let [a, b, c, d] = text.parse::<Ipv4Addr>().ok()?.octets();
    Some(Addr::from_octets(a, b, c, d))
}

/// The IPv6 address that the text writes, with no dot: std's parser takes an IPv4 address at the end too.
fn parse_v6(text: &str) -> Option<Addr>
    ensures { result ≡ read_v6 text.now }
{
    if text.contains('.') {
        return None;
    }
    let groups = text.parse::<Ipv6Addr>().ok()?.segments();
    Some(Addr::from_groups(groups))
}

impl Addr {
    /// The address that the text writes. An IPv4 address is four decimal numbers of 0 to 255 without leading zeros, joined by
    /// dots. An IPv6 address is eight groups of one to four hexadecimal digits of either case, joined by colons; once, `::` may
    /// stand for one or more groups of zeros, at the ends too (RFC 4291, section 2.2). None exactly where the text is of another
    /// form: no IPv4 address at the end of an IPv6 address and no zone is read (profile).
    pub fn parse(text: &str) -> Option<Addr>
        ensures reads { result ≡ read_addr text.now }
        ensures written { IfSome result (WritesAddr text.now) }
        ensures none { IfNone result ((addr : Addr) → ¬ WritesAddr text.now addr) }
    {
        match parse_v4(text) {
            Some(addr) => Some(addr),
            None => parse_v6(text),
        }
    }

    /// The IPv4 address with these octets, the first one highest.
    pub fn from_octets(a: u8, b: u8, c: u8, d: u8) -> Addr
        ensures { result ≡ addr_of_octets a b c d }
    {
        let high = u32::from(a) * 256 + u32::from(b);
        Addr::V4((high * 256 + u32::from(c)) * 256 + u32::from(d))
    }

    /// The IPv6 address with these groups of 16 bits, the first one highest.
    pub fn from_groups(groups: [u16; 8]) -> Addr
        ensures { result ≡ addr_of_groups groups }
    {
        let [a, b, c, d, e, f, g, h] = groups;
        let first = (u128::from(a) * 65_536 + u128::from(b)) * 65_536 + u128::from(c);
        let half = (first * 65_536 + u128::from(d)) * 65_536 + u128::from(e);
        Addr::V6(
            ((half * 65_536 + u128::from(f)) * 65_536 + u128::from(g)) * 65_536 + u128::from(h),
        )
    }

    /// The family that it is of. An address has the bits of its family.
    pub fn family(self) -> Family
        ensures value { result ≡ family_of self }
        ensures within { IsAddr self }
    {
        match self {
            Addr::V4(_) => Family::Ipv4,
            Addr::V6(_) => Family::Ipv6,
        }
    }
}
