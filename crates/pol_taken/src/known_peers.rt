//! The rows of the peers that filters list, as they are kept from one take to the next.
ghost use Rattle.std.specs.Prelude.{◌≡◌, ◌↔◌, Some, IfOk, IfSome, IsSome, IsTrue, map};
ghost use Rattle.std.specs.List.{AllByRecursion};
ghost use Rattle.pol_filters.specs.declared.filter.Filters.{Filters as AnyFilters};
ghost use Rattle.pol_set_changes.specs.Log.{newest};
ghost use Rattle.pol_selcache.specs.Live.{number_of};
ghost use Rattle.pol_taken.specs.Known.{AreUnchanged, HaveSelectors, IsKnownIn, IsListingOf, Serves, key_of};
ghost use Rattle.pol_taken.specs.PeerRows.{AreSetsFor, IsLiveRow, filter_peers};

use pol_data::Memory;
use pol_selcache::SelectorCache;
use pol_sets::{SetRow, Sets};
use std::alloc::Global;
use std::marker::Model;

/// The rows of the peers that filters list, as they were read last. Their numbers serve again as long as these selectors are
/// live, and the rows themselves as long as the log has no later change on their chains.
#[derive(Drop)]
pub struct KnownPeers {
    rows: Sets,
    // The revision of the newest change of any set, as they were read.
    read: u64,
}

impl Model for KnownPeers {
    ghost use Rattle.pol_taken.specs.Known.{KnownRows};

    ghost Value = { KnownRows };

    ghost view = { λ known. record { rows = known.rows; read = known.read } };
}

/// The peer's row with its set as it is now. The one error is want of memory.
fn row_now(cache: &SelectorCache, row: &SetRow) -> Result<SetRow, Memory>
    requires number { number_of row.now.peer cache.now.live ≡ Some row.now.selector }
    ensures key { IfOk result (λ new. key_of new ≡ key_of row.now) }
    ensures live { IfOk result (IsLiveRow cache.now.live) }
{
    let set = cache.set_at_now(row.selector)?;
    Ok(SetRow {
        peer: row.peer.share()?,
        selector: row.selector,
        set,
    })
}

/// The peers' rows with their sets as they are now. The one error is want of memory.
fn rows_now(alloc: Global, cache: &SelectorCache, rows: &[SetRow]) -> Result<Sets, Memory>
    requires numbers { AllByRecursion (λ row. number_of row.peer cache.now.live ≡ Some row.selector) rows.now }
    ensures keys { IfOk result (λ new. map key_of new ≡ map key_of rows.now) }
    ensures live { IfOk result (AllByRecursion (IsLiveRow cache.now.live)) }
{
    let mut new = Vec::with_capacity(alloc, rows.len())?;
    for row in rows {
        new.push(row_now(cache, row)?)?;
    }
    let sets = Sets::from_vec(alloc, new)?;
    Ok(sets)
}

/// Whether the selectors of the rows are live, each looked for behind the one before.
fn are_live(cache: &SelectorCache, rows: &[SetRow]) -> bool
    ensures { IsTrue result ↔ HaveSelectors cache.now rows.now }
{
    let mut near = 0;
    for row in rows {
        let (is_live, behind) = cache.holds_near(row.selector, near);
        if !is_live {
            return false;
        }
        near = behind;
    }
    true
}

impl KnownPeers {
    /// These rows, which are shared. The one error is that the count of who shares them is at its end.
    pub fn of(cache: &SelectorCache, sets: &Sets) -> Result<KnownPeers, Memory>
        ensures rows { IfOk result (λ known. known.rows ≡ sets.now) }
        ensures read { IfOk result (λ known. known.read ≡ newest cache.now.log) }
        ensures known { IfOk result (λ known. (filters : AnyFilters) → AreSetsFor cache.now.live filters sets.now
            → IsListingOf (filter_peers filters) known.rows × IsKnownIn cache.now known × Serves cache.now known) }
    {
        Ok(KnownPeers {
            rows: sets.share()?,
            read: cache.newest(),
        })
    }

    /// Whether the selectors of the rows are live.
    fn have_selectors(&self, cache: &SelectorCache) -> bool
        ensures { IsTrue result ↔ HaveSelectors cache.now self.now.rows }
    {
        are_live(cache, self.rows.as_slice())
    }

    /// Whether the log has no later change on the rows' chains than when they were read.
    fn is_unchanged(&self, cache: &SelectorCache) -> bool
        ensures { IsTrue result ↔ AreUnchanged cache.now self.now.read self.now.rows }
    {
        self.rows
            .as_slice()
            .iter()
            .all(|row| cache.unchanged_since(row.selector) <= self.read)
    }

    /// Whether the rows serve as they are: their selectors are live, and the log has no later change on their chains.
    pub fn serves_as_is(&self, cache: &SelectorCache) -> bool
        ensures { IsTrue result ↔ Serves cache.now self.now }
    {
        self.have_selectors(cache) && self.is_unchanged(cache)
    }

    /// The sets of the peers, as they are now, where the selectors of the rows are live. They are those of any filters that
    /// list these peers. The one error is want of memory.
    pub fn sets_of(&self, alloc: Global, cache: &SelectorCache) -> Result<Option<Sets>, Memory>
        requires known { IsKnownIn cache.now self.now }
        ensures sets { IfOk result (λ found. IfSome found (λ sets. (filters : AnyFilters)
            → IsListingOf (filter_peers filters) self.now.rows → AreSetsFor cache.now.live filters sets)) }
        ensures some { IfOk result (λ found. IsSome found ↔ HaveSelectors cache.now self.now.rows) }
    {
        cache.fits_together();
        if !self.have_selectors(cache) {
            return Ok(None);
        }
        if self.is_unchanged(cache) {
            let shared = self.rows.share()?;
            return Ok(Some(shared));
        }
        let sets = rows_now(alloc, cache, self.rows.as_slice())?;
        Ok(Some(sets))
    }
}
