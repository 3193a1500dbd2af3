//! What an endpoint's policy map is made of, with how often each of its keys is given where it isn't too large.
ghost use Rattle.std.specs.Prelude.{◌≡◌, IfOk, IfSome, OnErr, OnOk, length};
ghost use Rattle.std.specs.Arc.{arc_value};
ghost use Rattle.pol_distill.specs.Distilled.{distilled};
ghost use Rattle.pol_distill.specs.Sorted.{HaveSets};
ghost use Rattle.pol_map_changes.specs.Changes.{IsDifference, table_of, whole};
ghost use Rattle.pol_kept_map.specs.Work.{IsWorkOf, map_of};
ghost use Rattle.pol_kept_map.specs.Givers.{allows_of, denies_of};
ghost use Rattle.pol_kept_map.specs.Applies.{MovesTell, NamesFilters, PlacesDiffer};

use crate::changes::{Changes, Givers};
use crate::counts::{kept_where, take_tally, tally_where};
use crate::entries::whole_of;
use crate::givers::{allows_in, denies_in};
use crate::origin::Origin;
use crate::turned::turned;
use pol_data::Memory;
use pol_entry_tally::Tally;
use pol_filters::Filters;
use pol_map_changes::ChangeList;
use pol_map_size::map_size;
use pol_mapkey::MapKey;
use pol_ports::Direction;
use pol_sets::Sets;
use std::alloc::Global;
use std::marker::Model;
use std::sync::Arc;

/// An endpoint's filters and the sets of their peers, with the size of the policy map that is made of them, and a tally of
/// its entries where it has no more of them than a limit says. A contract sees the filters and the sets.
#[derive(Drop)]
pub struct Work {
    alloc: Global,
    pub(crate) filters: Arc<Filters>,
    pub(crate) sets: Sets,
    size: u64,
    // A map of more entries has no tally.
    limit: u64,
    tally: Option<Tally>,
}

impl Model for Work {
    ghost use Rattle.std.specs.Arc.{arc_value};
    ghost use Rattle.pol_kept_map.specs.Kept.{IsKept};
    ghost use Rattle.pol_kept_map.specs.Work.{WorkOf};

    ghost Value = { WorkOf };

    ghost view = { λ w. record { filters = arc_value w.filters; rows = w.sets } };

    ghost invariant = { λ w. IsKept (arc_value w.filters) w.sets w.size w.tally };
}

impl Work {
    /// The work of these filters, where each peer selects what its row says (profile). The one error is want of memory.
    pub fn from_scratch(alloc: Global, filters: Arc<Filters>, sets: Sets) -> Result<Work, Memory>
        requires sets { HaveSets sets (arc_value filters) }
        ensures work { IfOk result (IsWorkOf (arc_value filters) sets) }
        ensures map { IfOk result (λ work. map_of work ≡ distilled (arc_value filters) sets) }
    {
        Work::within(alloc, filters, sets, u64::MAX)
    }

    /// The same, for maps of no more entries than the limit says: its map is counted first, part by part, and what a larger
    /// one is made of is kept alone. The one error is want of memory.
    pub fn within(
        alloc: Global,
        filters: Arc<Filters>,
        sets: Sets,
        limit: u64,
    ) -> Result<Work, Memory>
        requires sets { HaveSets sets (arc_value filters) }
        ensures work { IfOk result (IsWorkOf (arc_value filters) sets) }
        ensures map { IfOk result (λ work. map_of work ≡ distilled (arc_value filters) sets) }
    {
        let size = map_size(alloc, &filters, &sets)?;
        let tally = tally_where(alloc, size <= limit, &filters, sets.as_slice())?;
        Ok(Work {
            alloc,
            filters,
            sets,
            size,
            limit,
            tally,
        })
    }

    /// The work of other filters and sets, with the same limit. The one error is want of memory.
    pub fn anew(&self, filters: Arc<Filters>, sets: Sets) -> Result<Work, Memory>
        requires sets { HaveSets sets (arc_value filters) }
        ensures work { IfOk result (IsWorkOf (arc_value filters) sets) }
        ensures map { IfOk result (λ work. map_of work ≡ distilled (arc_value filters) sets) }
    {
        Work::within(self.alloc, filters, sets, self.limit)
    }

    /// Whether it counts how often each key is given, so that going on costs what changes. It does unless the map has more
    /// entries than the limit says, or memory was wanting.
    pub fn is_counted(&self) -> bool {
        self.tally.is_some()
    }

    /// Takes the work to other filters and sets, and gives exactly the keys at which its map changed: `Set` with the kind
    /// that a key has now, `Clear` where it has none any more. A filter with the place and the stamp of one that was there
    /// is that one, and stays. Moves, where they are there, say how the sets of the peers of filters that stay changed.
    /// The one error is want of memory, as which more than 524,288 entries that come, or go, count too. Then the work is as
    /// before, but counts anew the next time.
    pub fn apply(&mut self, changes: &Changes) -> Result<ChangeList, Memory>
        requires sets { HaveSets changes.now.sets (arc_value changes.now.filters) }
        requires before { PlacesDiffer self.old.filters }
        requires after { PlacesDiffer (arc_value changes.now.filters) }
        requires named { NamesFilters self.old.filters (arc_value changes.now.filters) }
        requires moves { IfSome changes.now.moves
            (MovesTell self.old (arc_value changes.now.filters) changes.now.sets) }
        ensures work { OnOk result (IsWorkOf (arc_value changes.now.filters) changes.now.sets self.new) }
        ensures map { OnOk result (map_of self.new ≡ distilled (arc_value changes.now.filters) changes.now.sets) }
        ensures list { IfOk result (λ list.
            IsDifference list (table_of (map_of self.old)) (table_of (map_of self.new))) }
        ensures err { OnErr result (self.new ≡ self.old) }
    {
        let sets = changes.sets.share()?;
        let filters = Arc::try_clone(&changes.filters)?;
        let was: &Filters = &self.filters;
        let was_rows = self.sets.as_slice();
        let mut tally = take_tally(self.alloc, &mut self.tally, was, was_rows)?;
        let changed = turned(
            self.alloc,
            &mut tally,
            self.size,
            was,
            was_rows,
            &changes.filters,
            changes.sets.as_slice(),
            &changes.moves,
        )?;
        self.filters = filters;
        self.sets = sets;
        self.size = changed.size;
        self.tally = kept_where(changed.size <= self.limit, tally);
        Ok(changed.list)
    }

    /// `Set` of each entry of the map, in key order. The one error is want of memory.
    pub fn whole(&self, alloc: Global) -> Result<ChangeList, Memory>
        ensures whole { IfOk result (λ list. list ≡ whole (map_of self.now)) }
    {
        whole_of(alloc, &self.filters, &self.sets)
    }

    /// What the map is made of, from which it can be made again when the work has gone on. It takes no memory: the one error
    /// is that a count of those who share is at its end.
    pub fn origin(&self) -> Result<Origin, Memory>
        ensures same { IfOk result (λ origin. origin ≡ self.now) }
    {
        let sets = self.sets.share()?;
        let filters = Arc::try_clone(&self.filters)?;
        Ok(Origin {
            filters,
            sets,
            size: self.size,
        })
    }

    /// How many entries the map has.
    pub fn count(&self) -> u64
        ensures count { result ≡ length (map_of self.now) }
    {
        self.size
    }

    /// How many filters that allow, and how many that deny, give the key, each counted once: none where nothing is
    /// enforced. What isn't enforced, and the local host, are allowed by no filter. It takes no memory.
    pub fn givers(&self, key: &MapKey) -> Givers
        ensures allows { result.allows ≡ allows_of self.now key.now }
        ensures denies { result.denies ≡ denies_of self.now key.now }
    {
        Givers {
            allows: self.allows(key),
            denies: self.denies(key),
        }
    }

    #[tactic(auto, using(crate::proofs::Given::givers_are))]
    fn allows(&self, key: &MapKey) -> u64
        ensures { result ≡ allows_of self.now key.now }
    {
        if self.filters.never {
            return 0;
        }
        let rows = self.sets.as_slice();
        allows_in(
            self.filters.ingress.as_slice(),
            Direction::Ingress,
            key,
            rows,
        ) + allows_in(self.filters.egress.as_slice(), Direction::Egress, key, rows)
    }

    #[tactic(auto, using(crate::proofs::Given::givers_are))]
    fn denies(&self, key: &MapKey) -> u64
        ensures { result ≡ denies_of self.now key.now }
    {
        if self.filters.never {
            return 0;
        }
        let rows = self.sets.as_slice();
        denies_in(
            self.filters.ingress.as_slice(),
            Direction::Ingress,
            key,
            rows,
        ) + denies_in(self.filters.egress.as_slice(), Direction::Egress, key, rows)
    }
}
