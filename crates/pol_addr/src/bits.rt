//! The bits of addresses as numbers.
ghost use Rattle.std.specs.Prelude.{◌≡◌, ◌≤◌, ◌<◌, ◌^◌, ◌-◌};
ghost use Rattle.pol_addr.specs.Address.{width_of};
ghost use Rattle.pol_addr.specs.Cidr.{network};
ghost use Rattle.pol_addr.specs.Prefix.{bit_at};

use crate::address::Addr;

/// The mask of an IPv4 prefix of this length: its first `len` bits are ones.
fn mask_v4(len: u8) -> u32
    requires { len ≤ 32 }
    ensures { result ≡ 2 ^ 32 - 2 ^ (32 - len) }
{
    if len == 0 { 0 } else { u32::MAX << (32 - len) }
}

/// The mask of an IPv6 prefix of this length.
fn mask_v6(len: u8) -> u128
    requires { len ≤ 128 }
    ensures { result ≡ 2 ^ 128 - 2 ^ (128 - len) }
{
    if len == 0 {
        0
    } else {
        u128::MAX << (128 - len)
    }
}

/// The first `len` of the 32 bits, with zeros in place of the host bits.
pub(crate) fn network_v4(bits: u32, len: u8) -> u32
    requires { len ≤ 32 }
    ensures { result ≡ network 32 len bits }
{
    bits & mask_v4(len)
}

/// The first `len` of the 128 bits, with zeros in place of the host bits.
pub(crate) fn network_v6(bits: u128, len: u8) -> u128
    requires { len ≤ 128 }
    ensures { result ≡ network 128 len bits }
{
    bits & mask_v6(len)
}

/// The bit of an address at this place, counted from the left and from 0.
pub(crate) fn bit_at(addr: Addr, place: u8) -> bool
    requires { place < width_of addr }
    ensures { result ≡ bit_at addr place }
{
    match addr {
        Addr::V4(bits) => (bits >> (31 - place)) % 2 == 1,
        Addr::V6(bits) => (bits >> (127 - place)) % 2 == 1,
    }
}
