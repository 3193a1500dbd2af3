//! Filters, with what they were made for.
ghost use Rattle.std.specs.Prelude.{◌≡◌, ◌&&◌, IfOk};
ghost use Rattle.std.specs.Arc.{arc_value};
ghost use Rattle.std.specs.Bool.{beq};
ghost use Rattle.pol_labels.specs.Same.{same_labels};

use pol_data::Memory;
use pol_filters::Filters;
use pol_labels::LabelSet;
use pol_taken::KnownPeers;
use std::alloc::Global;
use std::sync::Arc;

/// Filters, with the labels that they were resolved for, whether with leave for the local host, and the rows of the peers that
/// they list.
#[derive(Drop)]
pub struct Kept {
    pub(crate) labels: LabelSet,
    pub(crate) localhost: bool,
    pub(crate) filters: Arc<Filters>,
    pub(crate) known: KnownPeers,
}

impl Kept {
    /// The filters are shared, and the labels copied. The one error is want of memory.
    pub(crate) fn new(
        alloc: Global,
        labels: &LabelSet,
        localhost: bool,
        filters: &Arc<Filters>,
        known: KnownPeers,
    ) -> Result<Kept, Memory>
        ensures labels { IfOk result (λ kept. kept.labels ≡ labels.now) }
        ensures localhost { IfOk result (λ kept. kept.localhost ≡ localhost) }
        ensures filters { IfOk result (λ kept. arc_value kept.filters ≡ arc_value filters.now) }
        ensures known { IfOk result (λ kept. kept.known ≡ known) }
    {
        Ok(Kept {
            labels: labels.copy(alloc)?,
            localhost,
            filters: Arc::try_clone(filters)?,
            known,
        })
    }

    /// Whether they were resolved for these labels, with or without this leave.
    pub(crate) fn is_for(&self, labels: &LabelSet, localhost: bool) -> bool
        ensures same { result ≡ (beq self.now.localhost localhost && same_labels self.now.labels labels.now) }
    {
        self.localhost == localhost && self.labels == *labels
    }

    /// The filters.
    pub fn filters(&self) -> &Arc<Filters>
        ensures filters { arc_value result.now ≡ arc_value self.now.filters }
    {
        &self.filters
    }

    /// The rows of the peers that they list.
    pub fn known(&self) -> &KnownPeers
        ensures known { result.now ≡ self.now.known }
    {
        &self.known
    }
}
