//! Who the ends of connections are.
ghost use Rattle.std.specs.Prelude.{◌≡◌, IfOk};

use pol_addr::Prefix;
use pol_data::{Memory, Text};
use pol_port_ranges::Range;
use pol_ports::Proto;
use std::alloc::Global;

/// Who an end of a connection is ('profile'). The order is that of a table of names, and not that of the ends of a state.
#[derive(Debug, PartialEq, Eq, PartialOrd, Ord, Drop)]
pub enum EndName {
    /// The endpoint of that name.
    Endpoint(Text),
    /// The named identity of that name.
    Identity(Text),
    /// The reserved identity of that number: 1, or 3 to 8 (Cilium, Terminology, "Special Identities").
    Reserved(u32),
    /// The addresses outside the endpoints of which this is the longest prefix.
    Region(Prefix),
}

impl EndName {
    /// A name equal to this one. The one error is want of memory.
    pub fn copy(&self, alloc: Global) -> Result<EndName, Memory>
        ensures equal { IfOk result (λ copy. copy ≡ self.now) }
    {
        Ok(match self {
            EndName::Endpoint(name) => EndName::Endpoint(name.copy(alloc)?),
            EndName::Identity(name) => EndName::Identity(name.copy(alloc)?),
            EndName::Reserved(number) => EndName::Reserved(*number),
            EndName::Region(prefix) => EndName::Region(*prefix),
        })
    }
}

/// A range of ports of a protocol on which a connection is open, or opens or shuts.
#[derive(Debug, Drop)]
pub struct Connection {
    /// Where it comes from.
    pub from: EndName,
    /// Where it goes to.
    pub to: EndName,
    /// Its protocol.
    pub proto: Proto,
    /// Its ports, with what is said of each of them.
    pub range: Range,
}
