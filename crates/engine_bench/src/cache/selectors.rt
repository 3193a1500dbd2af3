//! Selectors that come and go.
ghost use Rattle.std.specs.Prelude.{◌≡◌};
ghost use Rattle.pol_selcache.specs.Live.{AreExact};

use crate::cache::asked::{Ask, peers};
use crate::watch::Watch;
use anyhow::Result;
use pol_data::{Memory, Steps};
use pol_ident::Identities;
use pol_rule::Peer;
use pol_selcache::{SelectorCache, laws};
use std::alloc::Global;
use std::rt::Clock;
use std::sync::ledger::Ledger;

/// How many selectors go and come again in one round.
const BATCH: u32 = 20;

/// How many rounds there are; the shortest counts.
const ROUNDS: u32 = 50;

/// Makes the selectors of the peers live.
fn add_each<L: Ledger>(
    cache: &mut SelectorCache,
    identities: &Identities,
    peers: &[Peer],
    steps: &mut Steps<L>,
) -> Result<(), Memory>
    requires exact { AreExact identities.now cache.old.live }
    ensures exact { AreExact identities.now cache.new.live }
    ensures log { cache.new.log ≡ cache.old.log }
{
    for peer in peers {
        cache.add(peer, identities, steps)?;
    }
    Ok(())
}

/// Makes so many selectors live.
pub(crate) fn add_all<L: Ledger>(
    alloc: Global,
    cache: &mut SelectorCache,
    identities: &Identities,
    ask: Ask,
    count: u32,
    steps: &mut Steps<L>,
) -> Result<()>
    requires exact { AreExact identities.now cache.old.live }
    ensures exact { AreExact identities.now cache.new.live }
    ensures log { cache.new.log ≡ cache.old.log }
{
    let peers = peers(alloc, ask, 0, count)?;
    add_each(cache, identities, peers.as_slice(), steps)?;
    Ok(())
}

/// The selector of the peer goes.
fn drop_one(cache: &mut SelectorCache, identities: &Identities, peer: &Peer)
    requires exact { AreExact identities.now cache.old.live }
    ensures exact { AreExact identities.now cache.new.live }
{
    match cache.selector_of(peer) {
        None => {}
        Some(selector) => {
            laws::sets_stay_exact();
            cache.drop_ref(selector);
        }
    }
}

/// The selectors of the peers go.
fn drop_each(cache: &mut SelectorCache, identities: &Identities, peers: &[Peer])
    requires exact { AreExact identities.now cache.old.live }
    ensures exact { AreExact identities.now cache.new.live }
{
    for peer in peers {
        drop_one(cache, identities, peer);
    }
}

/// The selectors of these peers go and come again: the nanoseconds that each takes.
fn time_both<R: Clock, L: Ledger>(
    rt: &R,
    watch: Watch,
    cache: &mut SelectorCache,
    identities: &Identities,
    peers: &[Peer],
    steps: &mut Steps<L>,
) -> Result<(u128, u128), Memory>
    requires exact { AreExact identities.now cache.old.live }
    ensures exact { AreExact identities.now cache.new.live }
{
    let start = watch.nanos(rt);
    drop_each(cache, identities, peers);
    let gone = watch.nanos(rt);
    add_each(cache, identities, peers, steps)?;
    let coming = watch.nanos(rt).wrapping_sub(gone);
    let going = gone.wrapping_sub(start);
    Ok((coming / u128::from(BATCH), going / u128::from(BATCH)))
}

/// The oldest selectors go and come again, which makes others the oldest: the shortest of all rounds.
pub(crate) fn time_oldest<R: Clock + AllocGlobal, L: Ledger>(
    rt: &R,
    watch: Watch,
    cache: &mut SelectorCache,
    identities: &Identities,
    ask: Ask,
    steps: &mut Steps<L>,
) -> Result<(u128, u128)>
    requires exact { AreExact identities.now cache.old.live }
{
    let mut coming = u128::MAX;
    let mut going = u128::MAX;
    for round in 0..ROUNDS {
        let peers = peers(rt.alloc(), ask, round.wrapping_mul(BATCH), BATCH)?;
        let (came, went) = time_both(rt, watch, cache, identities, peers.as_slice(), steps)?;
        coming = coming.min(came);
        going = going.min(went);
    }
    Ok((coming, going))
}
