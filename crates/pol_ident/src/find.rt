//! Numbers found by what holds them.
ghost use Rattle.std.specs.Prelude.{◌≡◌, ◌&&◌, not, false};
ghost use Rattle.pol_model.specs.Fault.{has_reserved, is_init};
ghost use Rattle.pol_model.specs.Identities.{number_of_labels};
ghost use Rattle.pol_model_laws.specs.Keeps.{KeepsRows};

use crate::Identities;
use pol_labels::LabelSet;
use pol_model::{CLUSTER_FIRST, INIT_IDENTITY, is_init};

impl Identities {
    /// The number that the label set has; none exactly where no equal set is held. The set of `reserved:init` alone has
    /// the reserved number 5. It takes no memory.
    pub fn number_of(&self, labels: &LabelSet) -> Option<u32>
        requires allowed { (has_reserved labels.now && not (is_init labels.now)) ≡ false }
        ensures number { result ≡ number_of_labels labels.now self.now }
        ensures sound { KeepsRows self.now }
    {
        match self.cluster.find(labels) {
            Some(place) => Some(CLUSTER_FIRST + place),
            None if is_init(labels) => Some(INIT_IDENTITY),
            None => None,
        }
    }
}
