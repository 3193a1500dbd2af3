//! Tables of small maps, written out.
ghost use Rattle.std.specs.Prelude.{◌≤◌};

use pol_data::{Items, Memory, Text};
use pol_distill::{MapTable, distill, have_sets};
use pol_filters::{Filter, FilterList, Filters};
use pol_mapkey::{KeyProto, Kind, MapKey, Word};
use pol_ports::{Direction, PortPrefix, PortRange, Proto};
use pol_rule::{Entity, Peer, PeerList, Peers, Place, PolicyKey, PortSpec, PortSpecs, Section};
use pol_sets::{IdSet, SetRow, Sets, SharedPeer};
use std::alloc::Global;
use std::sync::Arc;
use std::test::Fail;

/// A filter of identity 257, by a peer that selects it alone.
fn filter(alloc: Global, deny: bool, ports: PortSpecs) -> Result<Filter, Memory> {
    let key = PolicyKey {
        cluster_wide: true,
        namespace: Text::empty(alloc),
        name: Text::empty(alloc),
    };
    Ok(Filter {
        place: Place {
            key,
            rule: 0,
            section: Section::Ingress,
            entry: 0,
        },
        stamp: 1,
        deny,
        peers: Peers::Listed(PeerList::one(alloc, Peer::Entity(Entity::Cluster))?),
        ports,
    })
}

fn ports(alloc: Global, proto: Option<Proto>, first: u16, last: u16) -> Result<PortSpecs, Memory>
    requires { first ≤ last }
{
    let range = PortRange { first, last };
    PortSpecs::one(alloc, PortSpec { proto, range })
}

/// Ingress is enforced, egress isn't, and the local host may come in.
fn filters(alloc: Global, list: Vec<Filter>) -> Filters {
    Filters {
        never: false,
        ingress_enforced: true,
        egress_enforced: false,
        localhost: true,
        ingress: FilterList::from_vec(list),
        egress: FilterList::empty(alloc),
    }
}

fn sets(alloc: Global) -> Result<Sets, Memory> {
    let mut ids = Vec::with_capacity(alloc, 1)?;
    ids.push(257)?;
    let row = SetRow {
        peer: SharedPeer::new(alloc, Peer::Entity(Entity::Cluster))?,
        selector: 0,
        set: Arc::new(alloc, IdSet::from_ascending(ids))?,
    };
    let rows = Items::one(alloc, row)?.into_vec();
    Sets::from_vec(alloc, rows)
}

/// The map of these filters; none where a peer has no row.
fn table(alloc: Global, filters: &Filters) -> Result<Option<MapTable>, Memory> {
    let sets = sets(alloc)?;
    if have_sets(filters, &sets) {
        Ok(Some(distill(alloc, filters, &sets)?))
    } else {
        Ok(None)
    }
}

/// Whether that entry stands at that place.
fn has(table: &MapTable, place: u64, key: MapKey, kind: Kind) -> bool {
    place < table.count() && table.at(place) == (key, kind)
}

fn port_80(alloc: Global) -> Result<PortSpecs, Memory> {
    ports(alloc, Some(Proto::Tcp), 80, 80)
}

/// The filter that lets identity 257 in on TCP port 80, with one that denies it everything or without.
fn let_in(alloc: Global, denied: bool) -> Result<Option<MapTable>, Memory> {
    let mut list = Vec::with_capacity(alloc, 2)?;
    list.push(filter(alloc, false, port_80(alloc)?)?)?;
    if denied {
        list.push(filter(alloc, true, PortSpecs::empty(alloc))?)?;
    }
    table(alloc, &filters(alloc, list))
}

/// The filter that denies identity 257 the ports 80 to 84 of every protocol, and lets it in on UDP port 81.
fn denied_on_ports(alloc: Global) -> Result<Option<MapTable>, Memory> {
    let mut list = Vec::with_capacity(alloc, 2)?;
    list.push(filter(alloc, false, ports(alloc, Some(Proto::Udp), 81, 81)?)?)?;
    list.push(filter(alloc, true, ports(alloc, None, 80, 84)?)?)?;
    table(alloc, &filters(alloc, list))
}

/// The key of an identity for every protocol and port.
fn every_key(dir: Direction, id: u32) -> MapKey {
    MapKey {
        dir,
        id,
        proto: KeyProto::Every,
        port: PortPrefix { bits: 0, len: 0 },
    }
}

fn is_let_in(table: &MapTable) -> bool {
    let web = MapKey {
        dir: Direction::Ingress,
        id: 257,
        proto: KeyProto::Tcp,
        port: PortPrefix { bits: 80, len: 16 },
    };
    table.count() == 3
        && has(table, 0, every_key(Direction::Ingress, 1), Kind::Allow)
        && has(table, 1, web, Kind::Allow)
        && has(table, 2, every_key(Direction::Egress, 0), Kind::Allow)
}

fn is_denied(table: &MapTable) -> bool {
    table.count() == 3
        && has(table, 0, every_key(Direction::Ingress, 1), Kind::Allow)
        && has(table, 1, every_key(Direction::Ingress, 257), Kind::Deny)
        && has(table, 2, every_key(Direction::Egress, 0), Kind::Allow)
}

/// Whether the word is that of packets from identity 257 to that port.
fn says(table: &MapTable, proto: Proto, port: u16, word: Word) -> bool {
    table.look(Direction::Ingress, 257, proto, port) == word
}

fn denies_ports(table: &MapTable) -> bool {
    table.count() == 8
        && says(table, Proto::Sctp, 83, Word::DeniedByRule)
        && says(table, Proto::Udp, 81, Word::DeniedByRule)
        && says(table, Proto::Tcp, 84, Word::DeniedByRule)
        && says(table, Proto::Tcp, 85, Word::DeniedByDefault)
}

#[test]
fn a_deny_takes_the_place_of_what_lies_under_it(rt: HostRuntime) -> Result<(), Fail> {
    assert!(rt; let_in(rt.alloc(), false)?.is_some_and(|table| is_let_in(&table)));
    assert!(rt; let_in(rt.alloc(), true)?.is_some_and(|table| is_denied(&table)));
    Ok(())
}

#[test]
fn a_deny_of_ports_is_for_every_protocol(rt: HostRuntime) -> Result<(), Fail> {
    assert!(rt; denied_on_ports(rt.alloc())?.is_some_and(|table| denies_ports(&table)));
    Ok(())
}
