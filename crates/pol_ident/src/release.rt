//! Numbers given back.
ghost use Rattle.std.specs.Prelude.{◌≡◌, true};
ghost use Rattle.pol_model.specs.Identities.{released};
ghost use Rattle.pol_model_laws.specs.Holding.{has_row};
ghost use Rattle.pol_model_laws.specs.Keeps.{KeepsRows};

use crate::Identities;
use crate::place::{NumberPlace, place_of};

impl Identities {
    /// Takes one holder away from the number, which is held. With its last holder the identity goes, and its number is
    /// free. The reserved numbers 1 to 10 stay as they are. It takes no memory.
    pub fn release(&mut self, number: u32)
        requires held { has_row number self.old ≡ true }
        ensures rows { self.new ≡ released number self.old }
        ensures sound { KeepsRows self.new }
    {
        match place_of(number) {
            NumberPlace::Cluster(place) => self.cluster.release(place),
            NumberPlace::Local(place) => self.local.release(place),
            NumberPlace::Reserved(_) => {
                let _ = &self.reserved;
            }
            NumberPlace::Nowhere => unreachable!(),
        }
    }
}
