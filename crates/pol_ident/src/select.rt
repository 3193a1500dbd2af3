//! Which held numbers a peer selects.
ghost use Rattle.std.specs.Prelude.{◌≡◌};
ghost use Rattle.pol_model_laws.specs.Keeps.{KeepsRows};
ghost use Rattle.pol_ident.specs.Look.{selects_held};

use crate::Identities;
use pol_model::selects;
use pol_rule::Peer;

impl Identities {
    /// Whether the number is held, and the peer selects its identity (Cilium, Network Policy, "Layer 3 Examples"). It
    /// takes no memory.
    pub fn is_selected(&self, number: u32, peer: &Peer) -> bool
        ensures selected { result ≡ selects_held self.now peer.now number }
        ensures sound { KeepsRows self.now }
    {
        match self.labels_of(number) {
            None => false,
            Some(labels) => {
                let prefix = self.prefix_of(number);
                selects(peer, number, labels, &prefix)
            }
        }
    }
}
