//! Filters, rows and moves that are alike but for their numbers.
ghost use Rattle.std.specs.Prelude.{◌≡◌, ◌++◌, ◌∷◌, [], IfOk, length};
ghost use Rattle.std.specs.Arc.{arc_value};
ghost use Rattle.engine_bench.specs.Turns.{AllAt, AreNumbered, Extends, FilterAt, MoveAt, RowAt, eleven, ten};

use crate::filter::{enforced, filter, peer, port};
use pol_data::Memory;
use pol_filters::{Filter, FilterList, Filters};
use pol_rule::PortSpecs;
use pol_sets::{IdSet, Move, Moves, SetRow, Sets, SharedPeer};
use std::alloc::Global;
use std::sync::Arc;

/// So many TCP ports, from that of a number on. None stand for every port.
fn ports(alloc: Global, number: u32, count: u32) -> Result<PortSpecs, Memory> {
    let mut list = Vec::new(alloc);
    for more in 0..count {
        list.push(port(number.wrapping_add(more)))?;
    }
    Ok(PortSpecs::from_vec(list))
}

/// Filters that allow a TCP port of their own each.
#[tactic(auto, using(crate::proofs::Numbered::pushed_at))]
fn filter_list(alloc: Global, count: u32) -> Result<FilterList, Memory>
    ensures places { IfOk result (AllAt FilterAt) }
    ensures count { IfOk result (λ list. length list ≡ count) }
{
    let mut list = Vec::new(alloc);
    for number in 0..count {
        list.push(filter(alloc, number, false, ports(alloc, number, 1)?)?)?;
    }
    Ok(FilterList::from_vec(list))
}

/// A filter equal to this one.
fn filter_copy(alloc: Global, one: &Filter) -> Result<Filter, Memory>
    ensures { IfOk result (λ copy. copy ≡ one.now) }
{
    Ok(Filter {
        place: one.place.copy(alloc)?,
        stamp: one.stamp,
        deny: one.deny,
        peers: one.peers.copy(alloc)?,
        ports: one.ports.copy(alloc)?,
    })
}

/// These filters, and one more behind them.
#[tactic(auto, using(crate::proofs::Numbered::pushed_at))]
fn with_one(alloc: Global, few: &[Filter], one: &Filter) -> Result<FilterList, Memory>
    ensures { IfOk result (λ list. list ≡ few.now ++ one.now ∷ []) }
{
    let mut list = Vec::new(alloc);
    for own in few {
        list.push(filter_copy(alloc, own)?)?;
    }
    list.push(filter_copy(alloc, one)?)?;
    Ok(FilterList::from_vec(list))
}

/// So many filters, each of a peer and a TCP port of its own.
pub(crate) fn filters(alloc: Global, count: u32) -> Result<Filters, Memory>
    ensures numbered { IfOk result AreNumbered }
    ensures count { IfOk result (λ filters. length filters.ingress ≡ count) }
{
    let list = filter_list(alloc, count)?;
    Ok(enforced(alloc, list))
}

/// These filters, and behind them one that allows so many ports of its own, or, where they are none, denies every port.
#[tactic(auto, using(crate::proofs::Numbered::more_numbered, crate::proofs::Numbered::more_extends))]
pub(crate) fn more_filters(
    alloc: Global,
    few: &Filters,
    count: u32,
    own: u32,
) -> Result<Filters, Memory>
    requires numbered { AreNumbered few.now }
    requires count { length few.now.ingress ≡ count }
    ensures numbered { IfOk result AreNumbered }
    ensures extends { IfOk result (Extends few.now) }
{
    let one = filter(alloc, count, own == 0, ports(alloc, count, own)?)?;
    let list = with_one(alloc, few.ingress.as_slice(), &one)?;
    Ok(enforced(alloc, list))
}

/// A row for each number, all with this set.
#[tactic(auto, using(crate::proofs::Numbered::pushed_at))]
pub(crate) fn rows(alloc: Global, count: u32, set: &Arc<IdSet>) -> Result<Sets, Memory>
    ensures rows { IfOk result (AllAt (RowAt (arc_value set.now))) }
    ensures count { IfOk result (λ rows. length rows ≡ count) }
{
    let mut rows = Vec::new(alloc);
    for number in 0..count {
        rows.push(SetRow {
            peer: SharedPeer::new(alloc, peer(alloc, number))?,
            selector: u64::from(number),
            set: Arc::try_clone(set)?,
        })?;
    }
    let sets = Sets::from_vec(alloc, rows)?;
    Ok(sets)
}

/// A move for each number, all of these numbers.
#[tactic(auto, using(crate::proofs::Numbered::pushed_at))]
pub(crate) fn moves(
    alloc: Global,
    count: u32,
    gained: &IdSet,
    lost: &IdSet,
) -> Result<Moves, Memory>
    ensures moves { IfOk result (AllAt (MoveAt gained.now lost.now)) }
    ensures count { IfOk result (λ moves. length moves ≡ count) }
{
    let mut moves = Vec::new(alloc);
    for number in 0..count {
        moves.push(Move {
            selector: u64::from(number),
            gained: gained.copy(alloc)?,
            lost: lost.copy(alloc)?,
        })?;
    }
    Ok(Moves::from_vec(moves))
}

/// The numbers that each peer selects without the identity.
pub(crate) fn ten(alloc: Global) -> Result<IdSet, Memory>
    ensures { IfOk result (λ set. set ≡ ten) }
{
    let ids: Vec<u32> = vec![in alloc; 256, 257, 258, 259, 260, 261, 262, 263, 264, 265]?;
    Ok(IdSet::from_ascending(ids))
}

/// The numbers that each peer selects with it.
pub(crate) fn eleven(alloc: Global) -> Result<IdSet, Memory>
    ensures { IfOk result (λ set. set ≡ eleven) }
{
    let ids: Vec<u32> = vec![in alloc; 256, 257, 258, 259, 260, 261, 262, 263, 264, 265, 266]?;
    Ok(IdSet::from_ascending(ids))
}
