//! A work that follows its filters, written out.
ghost use Rattle.std.specs.Prelude.{◌≡◌, ◌<◌, ◌≤◌, ◌∷◌, [], IfOk, OnOk};
ghost use Rattle.engine_tests.specs.Works.{AreStamped, StandsThere};

use pol_data::{Items, Memory, Text};
use pol_distill::have_sets;
use pol_filters::{Filter, FilterList, Filters};
use pol_kept_map::{Change, ChangeList, Changes, Givers, Work};
use pol_mapkey::{KeyProto, Kind, MapKey};
use pol_ports::{Direction, PortPrefix, PortRange, Proto};
use pol_rule::{Entity, Peer, PeerList, Peers, Place, PolicyKey, PortSpec, PortSpecs, Section};
use pol_sets::{IdSet, SetRow, Sets, SharedPeer};
use std::alloc::{AllocError, Global};
use std::sync::Arc;
use std::test::Fail;

/// A filter of identity 257, by a peer that selects it alone.
fn filter(
    alloc: Global,
    stamp: u64,
    entry: u32,
    deny: bool,
    ports: PortSpecs,
) -> Result<Filter, Memory>
    ensures { IfOk result (StandsThere stamp entry) }
{
    let key = PolicyKey {
        cluster_wide: true,
        namespace: Text::empty(alloc),
        name: Text::empty(alloc),
    };
    Ok(Filter {
        place: Place {
            key,
            rule: 0,
            section: Section::Ingress,
            entry,
        },
        stamp,
        deny,
        peers: Peers::Listed(PeerList::one(alloc, Peer::Entity(Entity::Cluster))?),
        ports,
    })
}

fn tcp(alloc: Global, first: u16, last: u16) -> Result<PortSpecs, Memory>
    requires { first ≤ last }
{
    let range = PortRange { first, last };
    PortSpecs::one(
        alloc,
        PortSpec {
            proto: Some(Proto::Tcp),
            range,
        },
    )
}

/// Ingress is enforced, egress isn't, and the local host may come in.
fn filters(alloc: Global, ingress: FilterList) -> Filters
    ensures ingress { result.ingress ≡ ingress }
    ensures egress { result.egress ≡ [] }
{
    Filters {
        never: false,
        ingress_enforced: true,
        egress_enforced: false,
        localhost: true,
        ingress,
        egress: FilterList::empty(alloc),
    }
}

/// The filter that lets identity 257 in on TCP port 80.
fn let_in(alloc: Global, stamp: u64) -> Result<Filters, Memory>
    ensures { IfOk result (AreStamped stamp) }
{
    let one = filter(alloc, stamp, 0, false, tcp(alloc, 80, 80)?)?;
    Ok(filters(alloc, FilterList::one(alloc, one)?))
}

/// Both filters, the first one first.
fn both(alloc: Global, one: Filter, other: Filter) -> Result<FilterList, Memory>
    ensures { IfOk result (λ list. list ≡ one ∷ other ∷ []) }
{
    let mut list = Vec::with_capacity(alloc, 2)?;
    list.push(one)?;
    list.push(other)?;
    Ok(FilterList::from_vec(list))
}

/// That filter, with one that denies these ports.
fn let_in_but(alloc: Global, stamp: u64, ports: PortSpecs) -> Result<Filters, Memory>
    ensures { IfOk result (AreStamped stamp) }
{
    let one = filter(alloc, stamp, 0, false, tcp(alloc, 80, 80)?)?;
    let other = filter(alloc, stamp, 1, true, ports)?;
    Ok(filters(alloc, both(alloc, one, other)?))
}

fn sets(alloc: Global) -> Result<Sets, Memory> {
    let row = SetRow {
        peer: SharedPeer::new(alloc, Peer::Entity(Entity::Cluster))?,
        selector: 0,
        set: Arc::new(alloc, IdSet::one(257))?,
    };
    let rows = Items::one(alloc, row)?.into_vec();
    Sets::from_vec(alloc, rows)
}

/// The work of the filter that lets identity 257 in. A peer without a row counts as want of memory.
fn work(alloc: Global) -> Result<Work, Memory>
    ensures { IfOk result (λ work. AreStamped 1 work.filters) }
{
    let filters = let_in(alloc, 1)?;
    let sets = sets(alloc)?;
    if !have_sets(&filters, &sets) {
        return Err(AllocError);
    }
    Work::from_scratch(alloc, Arc::new(alloc, filters)?, sets)
}

/// Takes the work to filters of a later stamp. A peer without a row counts as want of memory.
fn turn(
    alloc: Global,
    work: &mut Work,
    was: u64,
    is: u64,
    filters: Filters,
) -> Result<ChangeList, Memory>
    requires before { AreStamped was work.old.filters }
    requires after { AreStamped is filters }
    requires later { was < is }
    ensures { OnOk result (AreStamped is work.new.filters) }
{
    let sets = sets(alloc)?;
    if !have_sets(&filters, &sets) {
        return Err(AllocError);
    }
    let changes = Changes {
        filters: Arc::new(alloc, filters)?,
        sets,
        moves: None,
    };
    work.apply(&changes)
}

/// The key of every protocol and port of identity 257.
fn every() -> MapKey {
    MapKey {
        dir: Direction::Ingress,
        id: 257,
        proto: KeyProto::Every,
        port: PortPrefix { bits: 0, len: 0 },
    }
}

/// The key of TCP port 80 of identity 257.
fn web() -> MapKey {
    MapKey {
        dir: Direction::Ingress,
        id: 257,
        proto: KeyProto::Tcp,
        port: PortPrefix { bits: 80, len: 16 },
    }
}

/// The key of its TCP ports 64 to 127.
fn around() -> MapKey {
    MapKey {
        dir: Direction::Ingress,
        id: 257,
        proto: KeyProto::Tcp,
        port: PortPrefix { bits: 64, len: 10 },
    }
}

/// Whether the list has these two changes.
fn is_pair(list: &ChangeList, one: Change, other: Change) -> bool {
    let changes = list.as_slice();
    changes.len() == 2 && changes[0] == one && changes[1] == other
}

/// Whether these are the three entries of the map without a deny.
fn is_let_in(list: &ChangeList) -> bool {
    let local = MapKey {
        dir: Direction::Ingress,
        id: 1,
        proto: KeyProto::Every,
        port: PortPrefix { bits: 0, len: 0 },
    };
    let out = MapKey {
        dir: Direction::Egress,
        id: 0,
        proto: KeyProto::Every,
        port: PortPrefix { bits: 0, len: 0 },
    };
    let changes = list.as_slice();
    changes.len() == 3
        && changes[0] == Change::Set(local, Kind::Allow)
        && changes[1] == Change::Set(web(), Kind::Allow)
        && changes[2] == Change::Set(out, Kind::Allow)
}

#[test]
fn a_deny_hides_an_allow_while_it_is_there(rt: HostRuntime) -> Result<(), Fail> {
    let alloc = rt.alloc();
    let mut work = work(alloc)?;
    assert!(rt; work.count() == 3);
    assert!(rt; is_let_in(&work.whole(alloc)?));
    let come = turn(
        alloc,
        &mut work,
        1,
        2,
        let_in_but(alloc, 2, PortSpecs::empty(alloc))?,
    )?;
    assert!(rt;
        is_pair(
            &come,
            Change::Set(every(), Kind::Deny),
            Change::Clear(web())
        )
    );
    assert!(rt; work.count() == 3);
    let go = turn(alloc, &mut work, 2, 3, let_in(alloc, 3)?)?;
    assert!(rt; is_pair(&go, Change::Clear(every()), Change::Set(web(), Kind::Allow)));
    assert!(rt; work.count() == 3);
    let joined = come.then(alloc, &go)?;
    assert!(rt;
        is_pair(
            &joined,
            Change::Clear(every()),
            Change::Set(web(), Kind::Allow)
        )
    );
    Ok(())
}

#[test]
fn a_deny_of_wider_ports_is_counted_beside_the_allow(rt: HostRuntime) -> Result<(), Fail> {
    let alloc = rt.alloc();
    let mut work = work(alloc)?;
    let come = turn(
        alloc,
        &mut work,
        1,
        2,
        let_in_but(alloc, 2, tcp(alloc, 64, 127)?)?,
    )?;
    assert!(rt;
        is_pair(
            &come,
            Change::Set(around(), Kind::Deny),
            Change::Clear(web())
        )
    );
    assert!(rt; work.count() == 3);
    assert!(rt;
        work.givers(&around())
            == Givers {
                allows: 0,
                denies: 1
            }
    );
    assert!(rt;
        work.givers(&web())
            == Givers {
                allows: 1,
                denies: 0
            }
    );
    let go = turn(alloc, &mut work, 2, 3, let_in(alloc, 3)?)?;
    assert!(rt;
        is_pair(
            &go,
            Change::Clear(around()),
            Change::Set(web(), Kind::Allow)
        )
    );
    Ok(())
}

/// So many times all TCP ports but the first and the last: 30 keys each time.
fn nearly_all(alloc: Global, count: usize) -> Result<PortSpecs, Memory> {
    let range = PortRange {
        first: 1,
        last: 65_534,
    };
    let mut specs = Vec::with_capacity(alloc, count)?;
    for _ in 0..count {
        specs.push(PortSpec {
            proto: Some(Proto::Tcp),
            range,
        })?;
    }
    Ok(PortSpecs::from_vec(specs))
}

#[test]
fn too_many_entries_are_refused_before_they_come(rt: HostRuntime) -> Result<(), Fail> {
    let alloc = rt.alloc();
    let mut work = work(alloc)?;
    let over = let_in_but(alloc, 2, nearly_all(alloc, 17_477)?)?;
    assert!(rt; turn(alloc, &mut work, 1, 2, over).is_err());
    assert!(rt; work.count() == 3);
    Ok(())
}

#[test]
fn as_many_entries_as_may_come_do(rt: HostRuntime) -> Result<(), Fail> {
    let alloc = rt.alloc();
    let mut work = work(alloc)?;
    let within = let_in_but(alloc, 2, nearly_all(alloc, 17_476)?)?;
    turn(alloc, &mut work, 1, 2, within)?;
    assert!(rt; work.count() == 32);
    Ok(())
}
