//! Which selector a peer has.
ghost use Rattle.std.specs.Prelude.{◌≡◌};
ghost use Rattle.pol_selcache.specs.Cache.{IsSound};
ghost use Rattle.pol_selcache.specs.Live.{number_of};

use crate::SelectorCache;
use pol_rule::Peer;

impl SelectorCache {
    /// The number of the live selector of an equal peer. It takes no memory.
    pub fn selector_of(&self, peer: &Peer) -> Option<u64>
        ensures number { result ≡ number_of peer.now self.now.live }
        ensures sound { IsSound self.now }
    {
        self.table.number_of(peer)
    }
}
