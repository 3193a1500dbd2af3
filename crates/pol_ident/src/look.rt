//! What is known of a number.
ghost use Rattle.std.specs.Prelude.{◌≡◌, option_map};
ghost use Rattle.std.specs.Option.{option_copied};
ghost use Rattle.pol_model_laws.specs.Holding.{has_row, row_of};
ghost use Rattle.pol_model_laws.specs.Keeps.{KeepsRows};
ghost use Rattle.pol_ident.specs.Look.{labels_at, prefix_at};

use crate::Identities;
use crate::place::{NumberPlace, place_of};
use pol_addr::Prefix;
use pol_labels::LabelSet;

impl Identities {
    /// The labels and the prefix of the number.
    fn look(&self, number: u32) -> Option<(&LabelSet, Option<Prefix>)>
        ensures labels { option_map (λ found. found.0.now) result ≡ labels_at number self.now }
        ensures prefix { option_map (λ found.
            found.1) result ≡ option_map (λ row. row.prefix) (row_of number self.now) }
        ensures sound { KeepsRows self.now }
    {
        match place_of(number) {
            NumberPlace::Reserved(place) => {
                let row = &self.reserved[place as usize];
                Some((&row.labels, row.prefix))
            }
            NumberPlace::Cluster(place) => match self.cluster.key_at(place) {
                Some(labels) => Some((labels, None)),
                None => None,
            },
            NumberPlace::Local(place) => match self.local.key_at(place) {
                Some(prefix) => {
                    let labels = self.world_labels(prefix.network().family());
                    Some((labels, Some(*prefix)))
                }
                None => None,
            },
            NumberPlace::Nowhere => None,
        }
    }

    /// The labels of the number; a prefix's number has the label of its world. None exactly where the number isn't
    /// held. It takes no memory.
    pub fn labels_of(&self, number: u32) -> Option<&LabelSet>
        ensures labels { option_copied result ≡ labels_at number self.now }
        ensures sound { KeepsRows self.now }
    {
        match self.look(number) {
            Some((labels, _)) => Some(labels),
            None => None,
        }
    }

    /// The prefix of the number. None exactly where the number isn't held or has none. It takes no memory.
    pub fn prefix_of(&self, number: u32) -> Option<Prefix>
        ensures prefix { result ≡ prefix_at number self.now }
        ensures sound { KeepsRows self.now }
    {
        match self.look(number) {
            Some((_, prefix)) => prefix,
            None => None,
        }
    }

    /// Whether some identity has the number. It takes no memory.
    pub fn held(&self, number: u32) -> bool
        ensures held { result ≡ has_row number self.now }
    {
        self.look(number).is_some()
    }

    /// The call tells that the rows fit together.
    pub fn fits_together(&self)
        ensures sound { KeepsRows self.now }
    {
        let _ = &self.cluster;
    }
}
