//! A peer that rows share.
ghost use Rattle.std.specs.Prelude.{◌≡◌, IfOk};

use pol_data::Memory;
use pol_rule::Peer;
use std::alloc::Global;
use std::marker::Model;
use std::sync::Arc;

/// A peer that several rows may share. A contract sees the peer.
#[derive(Debug, Drop)]
pub struct SharedPeer {
    peer: Arc<Peer>,
}

impl Model for SharedPeer {
    ghost use Rattle.std.specs.Arc.{arc_value};
    ghost use Rattle.pol_rule.specs.declared.policy.Peer.{Peer as OnePeer};

    ghost Value = { OnePeer };

    ghost view = { λ shared. arc_value shared.peer };
}

impl SharedPeer {
    /// The peer, from now on to be shared. The one error is want of memory.
    pub fn new(alloc: Global, peer: Peer) -> Result<SharedPeer, Memory>
        ensures peer { IfOk result (λ shared. shared ≡ peer) }
    {
        Ok(SharedPeer {
            peer: Arc::new(alloc, peer)?,
        })
    }

    /// The peer.
    pub fn peer(&self) -> &Peer
        ensures peer { result.now ≡ self.now }
    {
        &self.peer
    }

    /// The same peer once more, which is counted and not copied. It takes no memory: the one error is that the count is at its end.
    pub fn share(&self) -> Result<SharedPeer, Memory>
        ensures same { IfOk result (λ shared. shared ≡ self.now) }
    {
        Ok(SharedPeer {
            peer: Arc::try_clone(&self.peer)?,
        })
    }
}
