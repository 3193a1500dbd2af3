//! A filter by a peer of its own, and what is enforced with filters.
ghost use Rattle.std.specs.Prelude.{◌≡◌, [], IfOk};
ghost use Rattle.engine_bench.specs.Turns.{FilterAt};

use pol_addr::{Addr, Prefix};
use pol_data::{Memory, Text};
use pol_filters::{Filter, FilterList, Filters};
use pol_ports::{PortRange, Proto};
use pol_rule::{Peer, PeerList, Peers, Place, PolicyKey, PortSpec, PortSpecs, Prefixes, Section};
use std::alloc::Global;

/// A peer of its own for each number: a prefix of one address.
pub(crate) fn peer(alloc: Global, number: u32) -> Peer {
    Peer::Cidr {
        prefix: Prefix::host(Addr::V4(number.wrapping_mul(0x9e37_79b1))),
        except: Prefixes::empty(alloc),
    }
}

/// The TCP port of a number.
pub(crate) fn port(number: u32) -> PortSpec {
    let port = (number % 65_536) as u16;
    let range = PortRange {
        first: port,
        last: port,
    };
    PortSpec {
        proto: Some(Proto::Tcp),
        range,
    }
}

/// A filter by a peer of its own.
pub(crate) fn filter(
    alloc: Global,
    number: u32,
    deny: bool,
    ports: PortSpecs,
) -> Result<Filter, Memory>
    ensures { IfOk result (FilterAt number) }
{
    let key = PolicyKey {
        cluster_wide: true,
        namespace: Text::empty(alloc),
        name: Text::from_str(alloc, "policy")?,
    };
    Ok(Filter {
        place: Place {
            key,
            rule: 0,
            section: Section::Ingress,
            entry: number,
        },
        stamp: 1,
        deny,
        peers: Peers::Listed(PeerList::one(alloc, peer(alloc, number))?),
        ports,
    })
}

/// What is enforced with these filters.
pub(crate) fn enforced(alloc: Global, ingress: FilterList) -> Filters
    ensures ingress { result.ingress ≡ ingress }
    ensures egress { result.egress ≡ [] }
{
    Filters {
        never: false,
        ingress_enforced: true,
        egress_enforced: true,
        localhost: false,
        ingress,
        egress: FilterList::empty(alloc),
    }
}
