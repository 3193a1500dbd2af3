//! Ports: traffic directions, protocols, port ranges, port prefixes, and the split of a range into
//! the fewest prefixes.
//!
//! A policy names ports by ranges, and a policy map keeps them by prefixes of the 16-bit port, as
//! the LPM keys of Cilium's policy map do. `split` goes from the one to the other.
#![tactic(auto)]

ghost use Rattle.std.specs.Prelude.{◌≡◌, ◌≤◌, ◌%◌, ◌^◌, ◌-◌};

mod cover;
pub mod laws;

pub use cover::split;

/// The direction of traffic, as the endpoint that a policy selects sees it
/// (Cilium, "Policy Rule Basics": ingress and egress sections).
#[derive(Clone, Copy, PartialEq, Eq, PartialOrd, Ord, Hash, Debug)]
pub enum Direction {
    /// Traffic that comes in at the endpoint.
    Ingress,
    /// Traffic that the endpoint sends.
    Egress,
}

/// A protocol of the transport layer that has ports (Cilium, "Layer 4 Examples").
#[derive(Clone, Copy, PartialEq, Eq, PartialOrd, Ord, Hash, Debug)]
pub enum Proto {
    /// The Transmission Control Protocol, RFC 9293.
    Tcp,
    /// The User Datagram Protocol, RFC 768.
    Udp,
    /// The Stream Control Transmission Protocol, RFC 9260.
    Sctp,
}

/// The ports from `first` to `last`, both included, as `port` and `endPort` of a policy give them
/// (Cilium, "Layer 4 Examples", port ranges). It is never empty.
#[derive(Clone, Copy, PartialEq, Eq, PartialOrd, Ord, Hash, Debug)]
pub struct PortRange {
    /// The least port of the range.
    pub first: u16,
    /// The greatest port of the range, at least `first`.
    pub last: u16,
    pub ghost ordered: { first ≤ last },
}

/// The ports whose first `len` bits are those of `bits`: a block of 2^(16 - `len`) ports that
/// begins at `bits`. The prefix of length 0 has every port, one of length 16 a single port.
/// Prefixes are ordered by `bits`, and then by `len`.
#[derive(Clone, Copy, PartialEq, Eq, PartialOrd, Ord, Hash, Debug)]
pub struct PortPrefix {
    /// The least port of the block; its bits after the first `len` are clear.
    pub bits: u16,
    /// How many leading bits count, from 0 to 16.
    pub len: u8,
    pub ghost short: { len ≤ 16 },
    pub ghost clear: { bits % 2 ^ (16 - len) ≡ 0 },
}

impl PortPrefix {
    ghost use Rattle.pol_ports.specs.PortPrefix.{end_of, prefix_holds, prefix_contains};

    /// One more than the greatest port of the prefix, from 1 to 65536.
    pub fn end(&self) -> u32
        ensures { result ≡ end_of self.now }
    {
        u32::from(self.bits) + (1 << (16 - self.len))
    }

    /// Whether the prefix has the port.
    pub fn holds(&self, port: u16) -> bool
        ensures { result ≡ prefix_holds self.now port }
    {
        self.bits <= port && u32::from(port) < self.end()
    }

    /// Whether the prefix has every port of the other.
    pub fn contains(&self, other: &PortPrefix) -> bool
        ensures { result ≡ prefix_contains self.now other.now }
    {
        self.bits <= other.bits && other.end() <= self.end()
    }
}
