//! What a map was made of that isn't kept itself.
ghost use Rattle.std.specs.Prelude.{◌≡◌, IfOk, length};
ghost use Rattle.pol_map_changes.specs.Changes.{whole};
ghost use Rattle.pol_kept_map.specs.Work.{map_of};

use crate::entries::whole_of;
use pol_data::Memory;
use pol_filters::Filters;
use pol_map_changes::ChangeList;
use pol_sets::Sets;
use std::alloc::Global;
use std::marker::Model;
use std::sync::Arc;

/// An endpoint's filters and the sets of their peers, shared with others, and the size of the policy map that is made of
/// them. A contract sees the filters and the sets.
#[derive(Drop)]
pub struct Origin {
    pub(crate) filters: Arc<Filters>,
    pub(crate) sets: Sets,
    pub(crate) size: u64,
}

impl Model for Origin {
    ghost use Rattle.std.specs.Arc.{arc_value};
    ghost use Rattle.pol_kept_map.specs.Kept.{IsOrigin};
    ghost use Rattle.pol_kept_map.specs.Work.{WorkOf};

    ghost Value = { WorkOf };

    ghost view = { λ o. record { filters = arc_value o.filters; rows = o.sets } };

    ghost invariant = { λ o. IsOrigin (arc_value o.filters) o.sets o.size };
}

impl Origin {
    /// The same once more. It takes no memory: the one error is that a count of those who share is at its end.
    pub fn share(&self) -> Result<Origin, Memory>
        ensures same { IfOk result (λ origin. origin ≡ self.now) }
    {
        let sets = self.sets.share()?;
        let filters = Arc::try_clone(&self.filters)?;
        Ok(Origin {
            filters,
            sets,
            size: self.size,
        })
    }

    /// `Set` of each entry of the map, in key order: the map is made for it. The one error is want of memory.
    pub fn whole(&self, alloc: Global) -> Result<ChangeList, Memory>
        ensures whole { IfOk result (λ list. list ≡ whole (map_of self.now)) }
    {
        whole_of(alloc, &self.filters, &self.sets)
    }

    /// How many entries the map has.
    pub fn count(&self) -> u64
        ensures count { result ≡ length (map_of self.now) }
    {
        self.size
    }
}
