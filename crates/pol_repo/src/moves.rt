//! How sets changed since an earlier revision.
ghost use Rattle.std.specs.Prelude.{◌≡◌, ◌<◌, true, IfOk, IfSome, length};
ghost use Rattle.std.specs.List.{AllByRecursion};
ghost use Rattle.pol_selcache.specs.Live.{is_live};
ghost use Rattle.pol_set_moves.specs.Moves.{moves_by};

use pol_data::Memory;
use pol_set_moves::moves_since;
use pol_sets::{Moves, Sets};
use pol_store::Store;
use std::alloc::Global;

/// What the sets of these rows gained and lost since a revision that is known, by the next numbers of all revisions. None
/// where none is known, and where it is below the horizon.
pub(crate) fn moves_in(
    alloc: Global,
    store: &Store,
    nexts: &[u64],
    sets: &Sets,
    since: Option<u64>,
) -> Result<Option<Moves>, Memory>
    requires within { IfSome since (λ revision. revision < length nexts.now) }
    requires live { AllByRecursion (λ row. is_live row.selector store.now.cache.live ≡ true) sets.now }
    ensures moves { IfOk result (λ moves. moves ≡ moves_by store.now.cache.log nexts.now since sets.now) }
{
    match since {
        Some(revision) => {
            let next = nexts[revision as usize];
            moves_since(alloc, store.numbers().selectors(), sets, next, revision)
        }
        None => Ok(None),
    }
}
