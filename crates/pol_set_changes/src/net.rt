//! Net changes.
ghost use Rattle.std.specs.Prelude.{◌≡◌, ◌<◌, nat_lt, IfOk, count_by, filter};
ghost use Rattle.std.specs.List.Sorted.{IsSorted};
ghost use Rattle.std.specs.Ordering.{nat_cmp};
ghost use Rattle.pol_set_changes.specs.Net.{times, surplus};

use pol_data::Memory;
use pol_sets::{IdSet, Move};
use std::alloc::Global;

/// How many numbers of a sorted list are below a bound.
fn count_below(ids: &[u32], bound: u64) -> usize
    requires { IsSorted nat_cmp ids.now }
    ensures { result ≡ count_by (λ id. nat_lt id bound) ids.now }
{
    ids.partition_point(|id| u64::from(*id) < bound)
}

/// How often a number stands in a sorted list.
fn times(ids: &[u32], id: u32) -> usize
    requires { IsSorted nat_cmp ids.now }
    ensures { result ≡ times id ids.now }
{
    count_below(ids, u64::from(id) + 1) - count_below(ids, u64::from(id))
}

/// Whether a number stands more often in the one sorted list than in the other.
fn is_more_often(ids: &[u32], others: &[u32], id: u32) -> bool
    requires ids_sorted { IsSorted nat_cmp ids.now }
    requires others_sorted { IsSorted nat_cmp others.now }
    ensures { result ≡ nat_lt (times id others.now) (times id ids.now) }
{
    times(others, id) < times(ids, id)
}

/// The elements of a sorted list that stand there more often than in another one.
fn more_often(alloc: Global, ids: &[u32], others: &[u32]) -> Result<Vec<u32>, Memory>
    requires ids_sorted { IsSorted nat_cmp ids.now }
    requires others_sorted { IsSorted nat_cmp others.now }
    ensures { IfOk result (λ more.
        more.items ≡ filter (λ id. nat_lt (times id others.now) (times id ids.now)) ids.now) }
{
    Ok(
        ids.iter()
            .copied()
            .filter(|id| is_more_often(ids, others, *id))
            .collect(alloc)?,
    )
}

/// The numbers that stand more often in the one sorted list than in the other.
fn surplus(alloc: Global, ids: &[u32], others: &[u32]) -> Result<IdSet, Memory>
    requires ids_sorted { IsSorted nat_cmp ids.now }
    requires others_sorted { IsSorted nat_cmp others.now }
    ensures { IfOk result (λ more. more ≡ surplus ids.now others.now) }
{
    let mut more = more_often(alloc, ids, others)?;
    more.dedup();
    Ok(IdSet::from_ascending(more))
}

/// The net change where all these numbers came and all those went, in any order. The one error is want of memory.
pub(crate) fn net_of(
    alloc: Global,
    selector: u64,
    mut came: Vec<u32>,
    mut went: Vec<u32>,
) -> Result<Move, Memory>
    ensures { IfOk result (λ net. net
        ≡ record {
          selector = selector;
          gained = surplus came.items went.items;
          lost = surplus went.items came.items;
        }) }
{
    came.sort()?;
    went.sort()?;
    Ok(Move {
        selector,
        gained: surplus(alloc, came.as_slice(), went.as_slice())?,
        lost: surplus(alloc, went.as_slice(), came.as_slice())?,
    })
}
