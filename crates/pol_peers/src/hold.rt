//! References taken: for all peers of a policy, or for none.
ghost use Rattle.std.specs.Prelude.{◌+◌, ◌≤◌, [], OnOk, OnErr, length, map};
ghost use Rattle.pol_selcache.specs.Cache.{IsSound};
ghost use Rattle.pol_selcache.specs.Live.{AreExact};
ghost use Rattle.pol_rule.specs.Listed.{listed_peers};
ghost use Rattle.pol_peers.specs.Numbering.{GainsRefs, LosesRefs};
ghost use Rattle.pol_peers.specs.References.{HasRefs, IsMoreBy, steps_to_hold};

use crate::drop::drop_peer;
use pol_data::{Memory, Steps};
use pol_ident::Identities;
use pol_rule::{Peer, Policy, listed_peers};
use pol_selcache::SelectorCache;
use std::alloc::Global;
use std::sync::ledger::Ledger;

/// One reference less to each of these.
fn drop_each(cache: &mut SelectorCache, peers: &[&Peer])
    requires held { HasRefs (map (λ p. p.now) peers.now) cache.old.live }
    ensures dropped { IsMoreBy (map (λ p. p.now) peers.now) cache.new.live cache.old.live }
    ensures loses { LosesRefs cache.old cache.new }
{
    for peer in peers {
        drop_peer(cache, peer);
    }
}

/// One reference more to each of these, or to none.
fn hold_each<L: Ledger>(
    cache: &mut SelectorCache,
    peers: &[&Peer],
    identities: &Identities,
    steps: &mut Steps<L>,
) -> Result<(), Memory>
    requires sound { IsSound cache.old }
    requires exact { AreExact identities.now cache.old.live }
    ensures ok { OnOk result (IsMoreBy (map (λ p. p.now) peers.now) cache.old.live cache.new.live) }
    ensures err { OnErr result (IsMoreBy [] cache.old.live cache.new.live) }
    ensures gains { GainsRefs identities.now cache.old cache.new }
    ensures cost { steps.new ≤ steps.old + steps_to_hold (map (λ p. p.now) peers.now) (length identities.now) }
{
    for (i, peer) in peers.iter().enumerate() {
        match cache.add(peer, identities, steps) {
            Ok(_) => (),
            Err(memory) => {
                drop_each(cache, &peers[..i]);
                return Err(memory);
            }
        }
    }
    Ok(())
}

/// Adds one reference for each peer that the policy lists, in document order. A new selector has the held numbers that its
/// peer selects as its set, and a number that none had before; the others keep their numbers and their sets.
///
/// `Memory` is want of memory, or that no number or no count of 64 bits is left ('profile'). After an error each peer has
/// as many references as before, and the selector that it had.
pub fn hold_peers<L: Ledger>(
    alloc: Global,
    cache: &mut SelectorCache,
    policy: &Policy,
    identities: &Identities,
    steps: &mut Steps<L>,
) -> Result<(), Memory>
    requires exact { AreExact identities.now cache.old.live }
    // On success, and on failure.
    ensures ok { OnOk result (IsMoreBy (listed_peers policy.now) cache.old.live cache.new.live) }
    ensures err { OnErr result (IsMoreBy [] cache.old.live cache.new.live) }
    // In both cases.
    ensures gains { GainsRefs identities.now cache.old cache.new }
    ensures cost { steps.new ≤ steps.old + steps_to_hold (listed_peers policy.now) (length identities.now) }
{
    cache.fits_together();
    let peers = listed_peers(alloc, policy)?;
    hold_each(cache, &peers, identities, steps)
}
