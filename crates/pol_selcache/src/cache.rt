//! The cache, and what it tells.
ghost use Rattle.std.specs.Prelude.{◌≡◌, ◌↔◌, ◌<◌, IfOk, IsNone, OnOk, OnErr, [], Some, true, option_map};
ghost use Rattle.std.specs.Arc.{arc_value};
ghost use Rattle.pol_set_changes.specs.Log.{empty_log, newest, since, unchanged_since};
ghost use Rattle.pol_selcache.specs.Live.{is_live, selector_of};
ghost use Rattle.pol_selcache.specs.Cache.{Cache, IsSound, dropped};

use pol_data::Memory;
use pol_selectors::Selectors;
use pol_set_changes::ChangeLog;
use pol_sets::{IdSet, Move};
use std::alloc::Global;
use std::marker::Model;
use std::sync::Arc;

/// The sets of identity numbers that the peers of policies select, kept as numbers come and go (Cilium, "Selector
/// cache"). Equal peers share one selector, whose number of 64 bits no other ever has, and which goes with its last
/// reference ('profile').
pub struct SelectorCache {
    pub(crate) alloc: Global,
    pub(crate) table: Selectors,
    // The number of the next new selector.
    pub(crate) next: u64,
    pub(crate) log: ChangeLog,
}

impl Model for SelectorCache {
    ghost use Rattle.pol_selcache.specs.Cache.{Cache, IsSound};

    ghost Value = { Cache };

    ghost view = { λ c. record { live = c.table; next = c.next; log = c.log } };

    ghost invariant = { λ c. IsSound (record { live = c.table; next = c.next; log = c.log }) };
}

/// A destructor of its own, so that how the parts go is proved here, and not in each crate that lets a cache go.
impl Drop for SelectorCache {
    fn drop(self) {
        let SelectorCache {
            alloc: _alloc,
            table: _table,
            next: _next,
            log: _log,
        } = self;
    }
}

impl SelectorCache {
    /// No selector yet, and no change. It takes no memory.
    pub fn new(alloc: Global) -> SelectorCache
        ensures live { result.live ≡ [] }
        ensures next { result.next ≡ 0 }
        ensures log { result.log ≡ empty_log }
        ensures sound { IsSound result }
    {
        SelectorCache {
            alloc,
            table: Selectors::new(alloc),
            next: 0,
            log: ChangeLog::new(alloc),
        }
    }

    /// One reference less to a live selector, which goes with its last one. It takes no memory.
    pub fn drop_ref(&mut self, selector: u64)
        requires live { is_live selector self.old.live ≡ true }
        ensures dropped { self.new ≡ dropped selector self.old }
        ensures sound { IsSound self.new }
    {
        self.table.unrefer(selector);
    }

    /// The number that the next new selector takes. No selector had it yet, nor a greater one ('profile').
    pub fn next_number(&self) -> u64
        ensures next { result ≡ self.now.next }
        ensures sound { IsSound self.now }
    {
        self.next
    }

    /// Whether the selector of a number is live, looked for at a place first, and the place behind it: where the next one
    /// may be looked for. It takes no memory.
    pub fn holds_near(&self, selector: u64, near: usize) -> (bool, usize)
        ensures holds { result.0 ≡ is_live selector self.now.live }
        ensures sound { IsSound self.now }
    {
        self.table.holds_near(selector, near)
    }

    /// The set of a live selector: the numbers that its peer selects. `Memory` is want of memory.
    pub fn set_at_now(&self, selector: u64) -> Result<Arc<IdSet>, Memory>
        requires live { is_live selector self.now.live ≡ true }
        ensures set { IfOk result (λ set.
            option_map (λ s. s.set) (selector_of selector self.now.live) ≡ Some (arc_value set)) }
        ensures sound { IsSound self.now }
    {
        let (row, _) = self.table.row_near(selector, usize::MAX);
        Arc::try_clone(&row.set)
    }

    /// What the set of a live selector gained and lost in all since a revision: the net change of its changes of a later
    /// revision. None exactly where the revision is below the horizon. The one error is want of memory.
    pub fn changes_since(
        &self,
        alloc: Global,
        selector: u64,
        revision: u64,
    ) -> Result<Option<Move>, Memory>
        requires live { is_live selector self.now.live ≡ true }
        ensures since { IfOk result (λ m. m ≡ since self.now.log selector revision) }
        ensures none { IfOk result (λ m. IsNone m ↔ (revision < self.now.log.horizon)) }
        ensures sound { IsSound self.now }
    {
        self.log.since(alloc, selector, revision)
    }

    /// A revision since which the set of a selector hasn't changed. It may be that of a change of another selector whose number is
    /// the same modulo 65,536, or of the newest change that was dropped.
    pub fn unchanged_since(&self, selector: u64) -> u64
        ensures unchanged { result ≡ unchanged_since selector self.now.log }
        ensures sound { IsSound self.now }
    {
        self.log.unchanged_since(selector)
    }

    /// The revision of the newest change of a set so far, 0 before the first.
    pub fn newest(&self) -> u64
        ensures newest { result ≡ newest self.now.log }
        ensures sound { IsSound self.now }
    {
        self.log.newest()
    }

    /// The revision of the newest change that was dropped, 0 if none was. The last 65,536 changes are kept ('profile').
    pub fn horizon(&self) -> u64
        ensures horizon { result ≡ self.now.log.horizon }
        ensures sound { IsSound self.now }
    {
        self.log.horizon()
    }

    /// The call tells that the selectors fit together.
    pub fn fits_together(&self)
        ensures sound { IsSound self.now }
    {
        let _ = &self.table;
    }
}
