//! IPv4 and IPv6 prefixes.
ghost use Rattle.std.specs.Prelude.{◌≡◌, ℕ, ◌≤◌, ◌<◌, ◌↔◌, IsTrue, IfSome, IfNone};
ghost use Rattle.pol_addr.specs.Address.{IsAddr, addr_in, family_of, same_addr, width_of};
ghost use Rattle.pol_addr.specs.Cidr.{cleared, IsPrefix};
ghost use Rattle.pol_addr.specs.Prefix.{Prefix, bit_of, contains, covers, host_prefix, network_of, prefix_of, read_bare, read_pair, read_prefix, world};
ghost use Rattle.pol_addr.specs.Grammar.{WritesPrefix};

use crate::address::Addr;
use crate::bits::{bit_at, network_v4, network_v6};
use crate::family::Family;
use crate::len_text::parse_len;
use std::marker::Model;

/// A block of addresses of one family that share their first `len` bits (CIDR notation, RFC 4632, section 3.1, and RFC 4291,
/// section 2.3). `len` is at most 32 or 128, and the other bits of `addr` are zero. Contracts see the record of the two.
#[derive(Clone, Copy, Debug, PartialEq, Eq, PartialOrd, Ord, Hash)]
pub struct Prefix {
    addr: Addr,
    len: u8,
}

impl Model for Prefix {
    ghost use Rattle.pol_addr.specs.Cidr.{Cidr, IsPrefix};

    ghost Value = { Cidr };

    ghost view = { λ p. record { addr = p.addr; len = p.len } };

    ghost invariant = { λ p. IsPrefix (record { addr = p.addr; len = p.len }) };

    ghost inverse = { λ p. record { addr = p.addr; len = p.len } };
}

/// The first address of the family.
fn first_of(family: Family) -> Addr
    ensures { result ≡ addr_in family 0 }
{
    match family {
        Family::Ipv4 => Addr::V4(0),
        Family::Ipv6 => Addr::V6(0),
    }
}

/// The address with its first `len` bits, and zeros in place of the host bits.
fn clear_host_bits(addr: Addr, len: u8) -> Addr
    requires { len ≤ width_of addr }
    ensures value { result ≡ cleared len addr }
    ensures within { IsAddr addr }
{
    match addr {
        Addr::V4(bits) => Addr::V4(network_v4(bits, len)),
        Addr::V6(bits) => Addr::V6(network_v6(bits, len)),
    }
}

/// Whether the first `len` bits of an address are those of this one, which has no others.
fn begins_with(addr: Addr, first: Addr, len: u8) -> bool
    requires { len ≤ width_of first }
    ensures { result ≡ same_addr (cleared len addr) first }
{
    match addr {
        Addr::V4(bits) => match first {
            Addr::V4(own) => network_v4(bits, len) == own,
            Addr::V6(_) => false,
        },
        Addr::V6(bits) => match first {
            Addr::V4(_) => false,
            Addr::V6(own) => network_v6(bits, len) == own,
        },
    }
}

/// How many of the first bits two addresses of a family share, at most `most`.
fn shared_len(a: Addr, b: Addr, most: u8) -> u8
    requires family { family_of a ≡ family_of b }
    requires most { most ≤ width_of a }
    requires within { IsAddr a }
    requires within_too { IsAddr b }
    ensures within { result ≤ most }
    ensures shared { cleared result a ≡ cleared result b }
    ensures longest { (len : ℕ) → len ≤ most → cleared len a ≡ cleared len b → len ≤ result }
{
    let mut len = most;
    while !begins_with(a, clear_host_bits(b, len), len) {
        len -= 1;
    }
    len
}

/// A bare address is the prefix of the greatest length.
fn parse_bare(text: &str) -> Option<Prefix>
    ensures { result ≡ read_bare text.now }
{
    Some(Prefix::host(Addr::parse(text)?))
}

/// The texts before and after the slash.
fn parse_pair(addr: &str, len: &str) -> Option<Prefix>
    ensures { result ≡ read_pair addr.now len.now }
{
    let addr = Addr::parse(addr)?;
    let len = parse_len(len, addr.family().width())?;
    Some(Prefix::new(addr, len))
}

impl Prefix {
    /// The prefix of this length that the address lies in: the address with its host bits cleared.
    pub fn new(addr: Addr, len: u8) -> Prefix
        requires { len ≤ width_of addr }
        ensures value { result ≡ prefix_of addr len }
        ensures within { IsAddr addr }
    {
        Prefix {
            addr: clear_host_bits(addr, len),
            len,
        }
    }

    /// The prefix that contains this address alone.
    pub fn host(addr: Addr) -> Prefix
        ensures { result ≡ host_prefix addr }
    {
        Prefix::new(addr, addr.family().width())
    }

    /// 0.0.0.0/0 or ::/0, which contains every address of the family.
    pub fn world(family: Family) -> Prefix
        ensures { result ≡ world family }
    {
        Prefix {
            addr: first_of(family),
            len: 0,
        }
    }

    /// The prefix that the text writes: an address, or an address, `/` and a length of 0 to 32, or to 128 for IPv6, without
    /// leading zeros. A bare address has the greatest length, and host bits are cleared (profile). None exactly where the text
    /// is of another form.
    pub fn parse(text: &str) -> Option<Prefix>
        ensures reads { result ≡ read_prefix text.now }
        ensures written { IfSome result (WritesPrefix text.now) }
        ensures none { IfNone result ((p : Prefix) → ¬ WritesPrefix text.now p) }
    {
        match text.split_once('/') {
            None => parse_bare(text),
            Some((addr, len)) => parse_pair(addr, len),
        }
    }

    /// The network address: the first address of the prefix, whose host bits are zeros.
    pub fn network(&self) -> Addr
        ensures value { result ≡ network_of self.now }
        ensures valid { IsPrefix self.now }
    {
        self.addr
    }

    /// How many of the first bits are the network's, 0 to 32, or to 128.
    pub fn len(&self) -> u8
        ensures value { result ≡ self.now.len }
        ensures within { result ≤ 128 }
        ensures valid { IsPrefix self.now }
    {
        self.len
    }

    /// Whether the address lies in this prefix: it is of its family, and begins with its bits.
    pub fn contains(&self, addr: Addr) -> bool
        ensures { result ≡ contains self.now addr }
    {
        begins_with(addr, self.addr, self.len)
    }

    /// Whether each address of the other prefix lies in this one, which needs the same family.
    pub fn covers(&self, other: &Prefix) -> bool
        ensures value { result ≡ covers self.now other.now }
        ensures containment { IsTrue result
            ↔ ((addr : Addr) → IsAddr addr → IsTrue (contains other.now addr) → IsTrue (contains self.now addr)) }
    {
        self.len <= other.len && begins_with(other.addr, self.addr, self.len)
    }

    /// The bit at this place of the network address, counted from the left and from 0.
    pub fn bit(&self, place: u8) -> bool
        requires { place < width_of self.now.addr }
        ensures { result ≡ bit_of self.now place }
    {
        bit_at(self.addr, place)
    }

    /// The longest prefix that covers this one and the other, which is of its family.
    pub fn common(&self, other: &Prefix) -> Prefix
        requires family { family_of self.now.addr ≡ family_of other.now.addr }
        ensures this { IsTrue (covers result self.now) }
        ensures that { IsTrue (covers result other.now) }
        ensures longest { (p : Prefix) → IsTrue (covers p self.now) → IsTrue (covers p other.now) → p.len ≤ result.len }
    {
        let len = shared_len(self.addr, other.addr, self.len.min(other.len));
        Prefix {
            addr: clear_host_bits(self.addr, len),
            len,
        }
    }
}
