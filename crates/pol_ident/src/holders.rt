//! How many hold a number.
ghost use Rattle.std.specs.Prelude.{◌≡◌, option_map};
ghost use Rattle.pol_model_laws.specs.Holding.{row_of};
ghost use Rattle.pol_model_laws.specs.Keeps.{KeepsRows};

use crate::Identities;
use crate::place::{NumberPlace, place_of};

impl Identities {
    /// How many hold the number: one at least, and one for a reserved number. None exactly where the number isn't held.
    /// It takes no memory.
    pub fn holders_of(&self, number: u32) -> Option<u64>
        ensures holders { result ≡ option_map (λ row. row.holders) (row_of number self.now) }
        ensures sound { KeepsRows self.now }
    {
        match place_of(number) {
            NumberPlace::Reserved(place) => Some(self.reserved[place as usize].holders),
            NumberPlace::Cluster(place) => self.cluster.holders_at(place),
            NumberPlace::Local(place) => self.local.holders_at(place),
            NumberPlace::Nowhere => None,
        }
    }
}
