//! How many entries a part puts into a map before they are joined, and where it is cut. No clause rests on either: wherever
//! a map is cut, its size is the same.
use pol_data::Memory;
use pol_distill::ports_keys;
use pol_filters::{Filter, Filters};
use pol_model::selects_every_number;
use pol_ports::Direction;
use pol_rule::{Peer, Peers};
use pol_sets::{IdSet, SetRow};
use std::alloc::Global;
use std::collections::HashMap;

/// A part has at most so many entries, beside those that every part has.
const MOST: usize = 65_536;
/// Or at most so many for each thing that it goes through: so parts are few where each goes through much.
const MOST_FOR_EACH: usize = 8;

/// How many entries filters put into a map.
#[derive(Clone, Copy)]
struct Load {
    /// Those of the numbers that listed peers select: each number is of one part.
    listed: usize,
    /// Those of every number: each part has them.
    every: usize,
    /// How many rows, ports and listed peers are gone through for each part.
    through: usize,
}

/// How many numbers each peer selects.
fn counts_of<'a>(alloc: Global, rows: &'a [SetRow]) -> Result<HashMap<&'a Peer, usize>, Memory> {
    let mut counts: HashMap<&'a Peer, usize> = HashMap::with_capacity(alloc, rows.len())?;
    for row in rows {
        counts.insert(row.peer.peer(), row.set.len())?;
    }
    Ok(counts)
}

/// The load with that of a peer which selects every number, for so many keys.
fn with_every(load: Load, keys: usize) -> Load {
    Load {
        listed: load.listed,
        every: load.every.saturating_add(keys),
        through: load.through,
    }
}

/// The load where so many more things are gone through.
fn with_steps(load: Load, steps: usize) -> Load {
    Load {
        listed: load.listed,
        every: load.every,
        through: load.through.saturating_add(steps),
    }
}

/// The load with that of a listed peer, for so many keys.
fn with_peer(load: Load, peer: &Peer, keys: usize, counts: &HashMap<&Peer, usize>) -> Load {
    if selects_every_number(peer) {
        return with_every(load, keys);
    }
    match counts.get(&peer) {
        None => load,
        Some(count) => Load {
            listed: load.listed.saturating_add(count.saturating_mul(keys)),
            every: load.every,
            through: load.through,
        },
    }
}

/// The load with that of listed peers, for so many keys.
fn with_peers(load: Load, peers: &[Peer], keys: usize, counts: &HashMap<&Peer, usize>) -> Load {
    let mut load = with_steps(load, peers.len());
    for peer in peers {
        load = with_peer(load, peer, keys, counts);
    }
    load
}

/// The load with that of a filter.
fn with_filter(
    alloc: Global,
    load: Load,
    filter: &Filter,
    counts: &HashMap<&Peer, usize>,
) -> Result<Load, Memory> {
    let keys = ports_keys(alloc, Direction::Ingress, filter.ports.as_slice())?.len();
    let load = with_steps(load, filter.ports.len());
    match &filter.peers {
        Peers::Every => Ok(with_every(load, keys)),
        Peers::Listed(peers) => Ok(with_peers(load, peers.as_slice(), keys, counts)),
    }
}

/// The load with that of several filters.
fn with_filters(
    alloc: Global,
    load: Load,
    filters: &[Filter],
    counts: &HashMap<&Peer, usize>,
) -> Result<Load, Memory> {
    let mut load = load;
    for filter in filters {
        load = with_filter(alloc, load, filter, counts)?;
    }
    Ok(load)
}

/// The most entries that are made at once, beside those that every part has.
fn most(load: Load) -> usize {
    MOST.max(load.through.saturating_mul(MOST_FOR_EACH))
}

/// Whether what the filters put into a map is made at once.
pub(crate) fn is_light(alloc: Global, filters: &Filters, rows: &[SetRow]) -> Result<bool, Memory> {
    let counts = counts_of(alloc, rows)?;
    let none = Load {
        listed: 0,
        every: 0,
        through: rows.len(),
    };
    let ingress = with_filters(alloc, none, filters.ingress.as_slice(), &counts)?;
    let load = with_filters(alloc, ingress, filters.egress.as_slice(), &counts)?;
    Ok(load.listed <= load.every.max(most(load)))
}

/// The least and the greatest number, where these two were so far.
fn ends_with(ends: (u32, u32), ids: &IdSet) -> (u32, u32) {
    let mut ends = ends;
    for id in ids.iter() {
        ends = (ends.0.min(id), ends.1.max(id));
    }
    ends
}

/// A number above the least and at most the greatest, where the rows have two.
pub(crate) fn middle(rows: &[SetRow]) -> u32 {
    let mut ends = (u32::MAX, 0);
    for row in rows {
        ends = ends_with(ends, &row.set);
    }
    ends.0 / 2 + ends.1 / 2 + 1
}
