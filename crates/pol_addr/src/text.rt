//! Addresses and prefixes as texts.
ghost use Rattle.std.specs.Prelude.{◌≡◌, ◌<◌, Some};
ghost use Rattle.pol_addr.specs.Text.{addr_text, group_at, groups_of, octets_of, prefix_text};

use crate::address::Addr;
use crate::network::Prefix;
use std::fmt;
use std::fmt::Display;
use std::net::{Ipv4Addr, Ipv6Addr};

/// The group of 16 bits that has so many bits behind it.
fn group_at(bits: u128, behind: u32) -> u16
    requires { behind < 128 }
    ensures { result ≡ group_at behind bits }
{
    ((bits >> behind) % 65_536) as u16
}

/// The eight groups of these bits.
fn groups_of(bits: u128) -> [u16; 8]
    ensures { result ≡ groups_of bits }
{
    [
        group_at(bits, 112),
        group_at(bits, 96),
        group_at(bits, 80),
        group_at(bits, 64),
        group_at(bits, 48),
        group_at(bits, 32),
        group_at(bits, 16),
        group_at(bits, 0),
    ]
}

/// The four octets of these bits.
fn octets_of(bits: u32) -> [u8; 4]
    ensures { result ≡ octets_of bits }
{
    [
        (bits / 16_777_216) as u8,
        (bits / 65_536 % 256) as u8,
        (bits / 256 % 256) as u8,
        (bits % 256) as u8,
    ]
}

/// The one text of an address that is printed: the shortest one of RFC 5952, section 4, for IPv6.
impl Display for Addr {
    ghost output = { λ a. Some (addr_text a) };

    fn fmt<W: fmt::Write>(&self, f: &mut fmt::Formatter<W>) -> fmt::Result {
        match *self {
            Addr::V4(bits) => Display::fmt(&Ipv4Addr::from_octets(octets_of(bits)), f),
            Addr::V6(bits) => {
                Display::fmt(&Ipv6Addr::from_segments(groups_of(bits)).hex_groups(), f)
            }
        }
    }
}

/// The network address, a slash and the length.
impl Display for Prefix {
    ghost output = { λ p. Some (prefix_text p) };

    fn fmt<W: fmt::Write>(&self, f: &mut fmt::Formatter<W>) -> fmt::Result {
        write!(f, "{}/{}", self.network(), self.len())
    }
}
