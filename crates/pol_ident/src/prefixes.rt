//! What is known of prefixes.
ghost use Rattle.std.specs.Prelude.{◌≡◌};
ghost use Rattle.pol_model.specs.Fault.{locals_held};
ghost use Rattle.pol_model.specs.Prefixes.{number_of_prefix};
ghost use Rattle.pol_model_laws.specs.Keeps.{KeepsRows};

use crate::Identities;
use pol_addr::Prefix;
use pol_model::{LOCAL_FIRST, world_identity};

impl Identities {
    /// The number of the prefix, where it has one; 0.0.0.0/0 has 9 and ::/0 has 10. It takes no memory.
    pub fn number_of_prefix(&self, prefix: &Prefix) -> Option<u32>
        ensures number { result ≡ number_of_prefix prefix.now self.now }
        ensures sound { KeepsRows self.now }
    {
        let len = prefix.len();
        match self.local.find(prefix) {
            Some(place) => Some(LOCAL_FIRST + place),
            None if len == 0 => Some(world_identity(prefix.network().family())),
            None => None,
        }
    }

    /// How many numbers prefixes hold. It takes no memory.
    pub fn locals_held(&self) -> usize
        ensures held { result ≡ locals_held self.now }
        ensures sound { KeepsRows self.now }
    {
        self.local.taken()
    }
}
