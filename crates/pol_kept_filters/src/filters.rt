//! The filters of endpoints, by slot.
ghost use Rattle.std.specs.Prelude.{◌≡◌, [], not, List, IfSome};
ghost use Rattle.std.specs.Arc.{arc_value};
ghost use Rattle.std.specs.List.{IsAmong};
ghost use Rattle.std.specs.Option.{option_copied};
ghost use Rattle.pol_model.specs.declared.options.Mode.{Mode as AnyMode};
ghost use Rattle.pol_model.specs.declared.row.Stamped.{Stamped as OnePolicy};
ghost use Rattle.pol_filters.specs.Resolved.{filters_for};
ghost use Rattle.pol_selcache.specs.Cache.{Cache as AnyCache};
ghost use Rattle.pol_taken.specs.Known.{IsKnownIn, IsListingOf};
ghost use Rattle.pol_taken.specs.PeerRows.{filter_peers};
ghost use Rattle.pol_kept_filters.specs.Kept.{AreKeptOf, AreListedIn, IsFor, IsListedIn, selects, without_old, without_selected};

use crate::kept::Kept;
use indexmap::IndexMap;
use pol_data::Memory;
use pol_filters::Filters;
use pol_labels::LabelSet;
use pol_model::Stamped;
use pol_rule::Policy;
use pol_taken::KnownPeers;
use std::alloc::Global;
use std::marker::Model;
use std::sync::Arc;

/// The filters that were resolved last for the endpoint of each slot, if they are kept. Contracts see the list of them
/// (`specs/Kept`).
#[derive(Drop)]
pub struct KeptFilters {
    rows: IndexMap<u32, Kept>,
}

impl Model for KeptFilters {
    ghost use Rattle.std.specs.Prelude.{List};
    ghost use Rattle.indexmap.specs.IndexMap.{values};
    ghost use Rattle.pol_kept_filters.specs.declared.kept.Kept.{Kept as OneKept};

    ghost Value = { List OneKept };

    ghost view = { λ kept. values kept.rows };
}

/// Whether some rule of the policy selects the labels.
fn selects(policy: &Policy, labels: &LabelSet) -> bool
    ensures { result ≡ selects labels.now policy.now }
{
    let rules = policy.rules.as_slice();
    rules.iter().any(|rule| rule.subject.is_met_by(labels))
}

impl KeptFilters {
    /// None is kept. It takes no memory.
    pub fn new(alloc: Global) -> KeptFilters
        ensures none { result ≡ [] }
    {
        KeptFilters {
            rows: IndexMap::new(alloc),
        }
    }

    /// What is kept for the slot, where it was resolved for these labels and with the same leave.
    pub fn found(&self, slot: u32, labels: &LabelSet, localhost: bool) -> Option<&Kept>
        ensures kept { IfSome (option_copied result) (λ kept. IsAmong self.now kept) }
        ensures serves { IfSome (option_copied result) (λ kept. IsFor labels.now localhost kept) }
    {
        match self.rows.get(&slot) {
            Some(kept) if kept.is_for(labels, localhost) => Some(kept),
            _ => None,
        }
    }

    /// What is kept for any slot, where it was resolved for these labels and with the same leave.
    fn alike(&self, labels: &LabelSet, localhost: bool) -> Option<&Kept>
        ensures kept { IfSome (option_copied result) (λ kept. IsAmong self.now kept) }
        ensures serves { IfSome (option_copied result) (λ kept. IsFor labels.now localhost kept) }
    {
        for kept in self.rows.values() {
            if kept.is_for(labels, localhost) {
                return Some(kept);
            }
        }
        None
    }

    /// What serves the slot: what is kept for it, and else for an endpoint that is alike, as the replicas of a workload are.
    pub fn serving(&self, slot: u32, labels: &LabelSet, localhost: bool) -> Option<&Kept>
        ensures kept { IfSome (option_copied result) (λ kept. IsAmong self.now kept) }
        ensures serves { IfSome (option_copied result) (λ kept. IsFor labels.now localhost kept) }
    {
        match self.found(slot, labels, localhost) {
            Some(kept) => Some(kept),
            None => self.alike(labels, localhost),
        }
    }

    /// Keeps it for the slot, in the place of what was kept.
    fn put(&mut self, slot: u32, kept: Kept) -> Result<(), Memory>
        ensures kept { (policies : List OnePolicy) (mode : AnyMode)
            → arc_value kept.filters ≡ filters_for policies kept.labels mode kept.localhost
            → AreKeptOf policies mode self.old → AreKeptOf policies mode self.new }
        ensures listed { (cache : AnyCache)
            → IsListedIn cache kept → AreListedIn cache self.old → AreListedIn cache self.new }
    {
        self.rows.insert(slot, kept)?;
        Ok(())
    }

    /// Keeps filters and the rows of the peers that they list for the slot, in the place of what was kept. The one error is
    /// want of memory.
    pub fn keep(
        &mut self,
        alloc: Global,
        slot: u32,
        labels: &LabelSet,
        localhost: bool,
        filters: &Arc<Filters>,
        known: KnownPeers,
    ) -> Result<(), Memory>
        ensures kept { (policies : List OnePolicy) (mode : AnyMode)
            → arc_value filters.now ≡ filters_for policies labels.now mode localhost
            → AreKeptOf policies mode self.old → AreKeptOf policies mode self.new }
        ensures listed { (cache : AnyCache) → IsListingOf (filter_peers (arc_value filters.now)) known.rows
            → IsKnownIn cache known → AreListedIn cache self.old → AreListedIn cache self.new }
    {
        let kept = Kept::new(alloc, labels, localhost, filters, known)?;
        self.put(slot, kept)
    }

    /// Forgets all that is kept. It takes no memory.
    pub fn forget_all(&mut self)
        ensures none { self.new ≡ [] }
    {
        self.rows.clear();
    }

    /// Forgets what is kept for labels that some rule of the policy selects. It takes no memory.
    pub fn forget_selected(&mut self, policy: &Policy)
        ensures left { self.new ≡ without_selected policy.now self.old }
    {
        self.rows.retain(
            |_slot: &u32, kept: &mut Kept| -> bool
                ensures { (result ≡ not (selects kept.old.labels policy.entry.now)) × (kept.new ≡ kept.old) }
            { !selects(policy, &kept.labels) },
        );
    }

    /// The same of a policy that was replaced or taken out, if there was one.
    pub fn forget_old(&mut self, old: &Option<Stamped>)
        ensures left { self.new ≡ without_old old.now self.old }
    {
        if let Some(stamped) = old {
            self.forget_selected(&stamped.policy);
        }
    }
}
