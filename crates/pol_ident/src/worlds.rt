//! The labels that prefixes have.
ghost use Rattle.std.specs.Prelude.{◌≡◌};
ghost use Rattle.pol_model.specs.Worlds.{world_in, world_labels};

use crate::Identities;
use pol_addr::Family;
use pol_labels::LabelSet;
use pol_model::world_identity;

impl Identities {
    /// The labels of each prefix of the family: those of its world's row.
    pub(crate) fn world_labels(&self, family: Family) -> &LabelSet
        ensures { result.now ≡ world_labels (world_in family) }
    {
        let place = world_identity(family) as usize - 1;
        &self.reserved[place].labels
    }
}
