//! What sets gained and lost since a revision.
ghost use Rattle.std.specs.Prelude.{◌≡◌, ◌≤◌, ◌++◌, true, IfOk, OnOk};
ghost use Rattle.std.specs.List.{AllByRecursion};
ghost use Rattle.pol_set_changes.specs.Log.{since};
ghost use Rattle.pol_selcache.specs.Live.{is_live};
ghost use Rattle.pol_set_moves.specs.Moves.{move_since, moves_of};

use pol_data::{Items, Memory};
use pol_selcache::SelectorCache;
use pol_sets::{IdSet, Move, Moves, Sets};
use std::alloc::Global;

/// What the set of one selector gained and lost since a revision. The one error is want of memory.
fn move_of(
    alloc: Global,
    cache: &SelectorCache,
    selector: u64,
    revision: u64,
) -> Result<Option<Move>, Memory>
    requires live { is_live selector cache.now.live ≡ true }
    ensures { IfOk result (λ m. m ≡ since cache.now.log selector revision) }
{
    if cache.unchanged_since(selector) <= revision {
        return Ok(Some(Move {
            selector,
            gained: IdSet::new(alloc),
            lost: IdSet::new(alloc),
        }));
    }
    cache.changes_since(alloc, selector, revision)
}

/// The move of one selector, where its number is less than `next`.
fn push_move(
    alloc: Global,
    moves: &mut Vec<Move>,
    cache: &SelectorCache,
    selector: u64,
    next: u64,
    revision: u64,
) -> Result<(), Memory>
    requires live { is_live selector cache.now.live ≡ true }
    ensures { OnOk result (moves.new.items ≡ moves.old.items ++ move_since cache.now.log next revision selector) }
{
    if selector < next {
        match move_of(alloc, cache, selector, revision)? {
            Some(change) => moves.push(change)?,
            None => (),
        }
    }
    Ok(())
}

/// What the sets of these rows have gained and lost since a revision: one move for each row whose selector's number is less
/// than `next`. None exactly where the revision is below the horizon. The one error is want of memory.
pub fn moves_since(
    alloc: Global,
    cache: &SelectorCache,
    sets: &Sets,
    next: u64,
    revision: u64,
) -> Result<Option<Moves>, Memory>
    requires live { AllByRecursion (λ row. is_live row.selector cache.now.live ≡ true) sets.now }
    ensures moves { IfOk result (λ moves. moves ≡ moves_of cache.now.log next revision sets.now) }
{
    if revision < cache.horizon() {
        return Ok(None);
    }
    let mut moves = Vec::with_capacity(alloc, sets.as_slice().len())?;
    for row in sets.as_slice() {
        push_move(alloc, &mut moves, cache, row.selector, next, revision)?;
    }
    Ok(Some(Items::from_vec(moves)))
}
