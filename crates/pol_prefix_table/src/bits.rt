//! The bits of an address of one family, as a table of that family keeps them.
ghost use Rattle.std.specs.Prelude.{refl};
ghost use Rattle.pol_addr.specs.declared.family.Family.TheVariants.{Ipv4, Ipv6};
ghost use Rattle.pol_addr.specs.declared.address.Addr.TheVariants.{V4, V6};

use pol_addr::{Addr, Family};

/// The bits of an address of one family. Contracts see the address (`seen`).
pub(crate) trait Bits: Copy {
    ghost use Rattle.std.specs.Prelude.{◌≡◌, ◌-◌, ◌*◌, ◌^◌, ◌≤◌, ◌<◌, ◌/◌, nat_lt};
    ghost use Rattle.pol_addr.specs.declared.family.Family.{Family};
    ghost use Rattle.pol_addr.specs.declared.address.Addr.{Addr};
    ghost use Rattle.pol_addr.specs.Families.{width};
    ghost use Rattle.pol_addr.specs.Address.{addr_in, bits_of, family_of};

    /// The address with these bits.
    ghost seen: { Self → Addr };

    /// The family that it is of.
    ghost family: { Family };

    /// That family.
    fn family() -> Family
        ensures { result ≡ family };

    /// The bits of an address of the family.
    fn of(addr: Addr) -> Self
        requires { family_of addr ≡ family }
        ensures { seen result ≡ addr };

    /// The address with these bits.
    fn addr(self) -> Addr
        ensures addr { result ≡ seen self }
        ensures family { family_of result ≡ family };

    /// The first 32 bits.
    fn high(self) -> u32
        ensures value { result ≡ bits_of (seen self) / 2 ^ (width family - 32) }
        ensures family { family_of (seen self) ≡ family };

    /// The address of the family whose first `len` bits are `place`, with zeros behind them.
    fn beginning(place: u32, len: u8) -> Addr
        requires some { 0 < len }
        requires few { len ≤ 32 }
        requires small { place < 2 ^ len }
        ensures { result ≡ addr_in family (place * 2 ^ (width family - len)) };

    /// Whether the address comes before the other.
    fn is_below(self, other: Self) -> bool
        ensures { result ≡ nat_lt (bits_of (seen self)) (bits_of (seen other)) };

    ghost of_family: { (x : Self) → family_of (seen x) ≡ family };
}

impl Bits for u32 {
    ghost seen = { V4 };

    ghost family = { Ipv4 };

    #[inline(always)]
    fn family() -> Family {
        Family::Ipv4
    }

    #[inline(always)]
    fn of(addr: Addr) -> u32 {
        match addr {
            Addr::V4(bits) => bits,
            Addr::V6(_) => unreachable!(),
        }
    }

    #[inline(always)]
    fn addr(self) -> Addr {
        Addr::V4(self)
    }

    #[inline(always)]
    fn high(self) -> u32 {
        self
    }

    #[inline(always)]
    fn beginning(place: u32, len: u8) -> Addr {
        Addr::V4(place << (32 - len))
    }

    #[inline(always)]
    fn is_below(self, other: u32) -> bool {
        self < other
    }

    ghost of_family = { λ x. refl };
}

impl Bits for u128 {
    ghost seen = { V6 };

    ghost family = { Ipv6 };

    #[inline(always)]
    fn family() -> Family {
        Family::Ipv6
    }

    #[inline(always)]
    fn of(addr: Addr) -> u128 {
        match addr {
            Addr::V4(_) => unreachable!(),
            Addr::V6(bits) => bits,
        }
    }

    #[inline(always)]
    fn addr(self) -> Addr {
        Addr::V6(self)
    }

    #[inline(always)]
    fn high(self) -> u32 {
        (self >> 96) as u32
    }

    #[inline(always)]
    fn beginning(place: u32, len: u8) -> Addr {
        Addr::V6(u128::from(place) << (128 - len))
    }

    #[inline(always)]
    fn is_below(self, other: u128) -> bool {
        self < other
    }

    ghost of_family = { λ x. refl };
}
