//! The numbers that are held, and what is told of them.
ghost use Rattle.std.specs.Prelude.{◌≡◌, ◌≤◌, IfOk, option_map};
ghost use Rattle.std.specs.Arc.{arc_value};
ghost use Rattle.pol_model.specs.Remote.{longest_at};
ghost use Rattle.pol_model_laws.specs.Keeps.{KeepsRows};
ghost use Rattle.pol_set_changes.specs.Log.{newest};
ghost use Rattle.pol_selcache.specs.Cache.{IsPlanFor, IsSound, carried};
ghost use Rattle.pol_prefixes.specs.Tables.{IsTableOf};
ghost use Rattle.pol_allocator.specs.Held.{nothing_held};

use crate::shared::copied;
use pol_addr::Addr;
use pol_data::Memory;
use pol_ident::Identities;
use pol_prefix_table::PrefixTable;
use pol_prefixes::table_of_start;
use pol_selcache::{Plan, SelectorCache};
use std::alloc::Global;
use std::marker::Model;
use std::sync::Arc;

/// The security identities that are held, and the selectors, whose sets are of their numbers (Cilium, Terminology,
/// "Identity", and "Selector cache"). Contracts see the rows and the selectors.
pub struct Allocator {
    pub(crate) alloc: Global,
    pub(crate) identities: Identities,
    // The numbers of prefixes, for addresses.
    pub(crate) prefixes: PrefixTable,
    // The same once more, to hand out. None until a plan makes it.
    pub(crate) shared: Option<Arc<PrefixTable>>,
    pub(crate) selectors: SelectorCache,
}

impl Model for Allocator {
    ghost use Rattle.pol_model_laws.specs.Keeps.{KeepsRows};
    ghost use Rattle.pol_allocator.specs.Held.{Held};
    ghost use Rattle.pol_prefixes.specs.Tables.{IsTableOf};
    ghost use Rattle.std.specs.Prelude.{IfSome};
    ghost use Rattle.std.specs.Arc.{arc_value};

    ghost Value = { Held };

    ghost view = { λ n. record { rows = n.identities; cache = n.selectors } };

    ghost invariant = { λ n. KeepsRows n.identities
        × IsTableOf n.identities n.prefixes × IfSome n.shared (λ table. IsTableOf n.identities (arc_value table)) };
}

/// A destructor of its own, so that how the parts go is proved here, and not in each crate that lets an allocator go.
impl Drop for Allocator {
    fn drop(self) {
        let Allocator {
            alloc: _alloc,
            identities: _identities,
            prefixes: _prefixes,
            shared: _shared,
            selectors: _selectors,
        } = self;
    }
}

impl Allocator {
    /// The reserved numbers alone, and no selector. The one error is want of memory.
    pub fn new(alloc: Global) -> Result<Allocator, Memory>
        ensures nothing { IfOk result (λ numbers. numbers ≡ nothing_held) }
    {
        Ok(Allocator {
            alloc,
            identities: Identities::new(alloc)?,
            prefixes: table_of_start(alloc)?,
            shared: None,
            selectors: SelectorCache::new(alloc),
        })
    }

    /// The identities that are held. It takes no memory.
    pub fn identities(&self) -> &Identities
        ensures rows { result.now ≡ self.now.rows }
        ensures sound { KeepsRows self.now.rows }
    {
        &self.identities
    }

    /// The number of the longest held prefix that contains the address (Cilium, Terminology, "Identity"). It takes no
    /// memory.
    pub fn number_at(&self, address: Addr) -> Option<u32>
        ensures longest { result ≡ option_map (λ found. found.1) (longest_at address self.now.rows) }
    {
        self.prefixes.find(address)
    }

    /// The selectors with their sets, and the changes of these. It takes no memory.
    pub fn selectors(&self) -> &SelectorCache
        ensures cache { result.now ≡ self.now.cache }
    {
        &self.selectors
    }

    /// The call tells that the rows fit together, and the selectors.
    pub fn fits_together(&self)
        ensures rows { KeepsRows self.now.rows }
        ensures sound { IsSound self.now.cache }
    {
        self.identities.fits_together();
        self.selectors.fits_together();
    }

    /// The numbers of the held prefixes, as they are now. The table is shared as long as no prefix comes or goes, and copied
    /// here only where there is none to share: before the first plan, or after want of memory. The one error is want of
    /// memory.
    pub fn prefix_table(&self) -> Result<Arc<PrefixTable>, Memory>
        ensures table { IfOk result (λ table. IsTableOf self.now.rows (arc_value table)) }
    {
        match &self.shared {
            Some(table) => Arc::try_clone(table),
            None => copied(self.alloc, &self.prefixes),
        }
    }

    /// Makes the changes of the last plan, since which no selector came or went. It takes no memory.
    pub fn carry_out(&mut self, plan: Plan)
        requires fits { IsPlanFor plan self.old.cache }
        ensures carried { self.new ≡ record self.old { cache = carried plan self.old.cache } }
        ensures newest { newest self.new.cache.log ≤ plan.revision }
        ensures sound { IsSound self.new.cache }
    {
        let _ = &self.identities;
        self.selectors.carry_out(plan);
    }
}
