//! The two families of addresses.
ghost use Rattle.std.specs.Prelude.{◌≡◌};

/// The family of an address.
#[derive(Clone, Copy, Debug, PartialEq, Eq, PartialOrd, Ord, Hash)]
pub enum Family {
    /// IPv4: 32 bits.
    Ipv4,
    /// IPv6: 128 bits.
    Ipv6,
}

impl Family {
    ghost use Rattle.pol_addr.specs.Families.{width};

    /// How many bits an address has: 32 or 128.
    pub fn width(self) -> u8
        ensures { result ≡ width self }
    {
        match self {
            Family::Ipv4 => 32,
            Family::Ipv6 => 128,
        }
    }
}
