//! The peers of an entry.
ghost use Rattle.std.specs.Prelude.{◌≡◌, filter_map, IfOk};
ghost use Rattle.pol_addr.specs.Prefix.{read_prefix};
ghost use Rattle.pol_sanitize.specs.Peers.{set_peer};
ghost use Rattle.pol_netpol.specs.Translated.{peer_of, peers_of, pods_peer};

use crate::raw::RawNetPeer;
use crate::selectors::{peer_pods, well_formed};
use pol_addr::Prefix;
use pol_data::{Items, Memory, Text};
use pol_rule::{Peer, PeerList, Peers, Prefixes, RawCidrSet};
use std::alloc::Global;

/// The prefixes of these texts.
fn prefixes_of(alloc: Global, texts: &[Text]) -> Result<Prefixes, Memory>
    ensures { IfOk result (λ prefixes. prefixes ≡ filter_map read_prefix texts.now) }
{
    let mut prefixes = Vec::new(alloc);
    for text in texts {
        if let Some(prefix) = Prefix::parse(text.as_str()) {
            prefixes.push(prefix)?;
        }
    }
    Ok(Items::from_vec(prefixes))
}

/// A range without its exceptions.
fn block_peer(alloc: Global, block: &RawCidrSet) -> Result<Option<Peer>, Memory>
    ensures { IfOk result (λ peer. peer ≡ set_peer block.now) }
{
    let Some(prefix) = Prefix::parse(block.cidr.as_str()) else {
        return Ok(None);
    };
    let except = prefixes_of(alloc, block.except.as_slice())?;
    Ok(Some(Peer::Cidr { prefix, except }))
}

/// The pods that both selectors select, in the policy's own namespace where none is named.
fn pods_peer(alloc: Global, own: &Text, peer: &RawNetPeer) -> Result<Option<Peer>, Memory>
    ensures { IfOk result (λ made. made ≡ pods_peer own.now peer.now) }
{
    let asked = peer_pods(alloc, own, &peer.pods, &peer.namespaces)?;
    match well_formed(alloc, asked)? {
        None => Ok(None),
        Some(selector) => Ok(Some(Peer::Labels(selector))),
    }
}

fn peer_of(alloc: Global, own: &Text, peer: &RawNetPeer) -> Result<Option<Peer>, Memory>
    ensures { IfOk result (λ made. made ≡ peer_of own.now peer.now) }
{
    match &peer.block {
        None => pods_peer(alloc, own, peer),
        Some(block) => block_peer(alloc, block),
    }
}

fn listed_peers(alloc: Global, own: &Text, peers: &[RawNetPeer]) -> Result<PeerList, Memory>
    ensures { IfOk result (λ made. made ≡ filter_map (peer_of own.now) peers.now) }
{
    let mut made = Vec::new(alloc);
    for peer in peers {
        if let Some(peer) = peer_of(alloc, own, peer)? {
            made.push(peer)?;
        }
    }
    Ok(Items::from_vec(made))
}

/// The peers of an entry. No peers are every peer.
pub(crate) fn peers_of(alloc: Global, own: &Text, peers: &[RawNetPeer]) -> Result<Peers, Memory>
    ensures { IfOk result (λ made. made ≡ peers_of own.now peers.now) }
{
    match peers {
        [] => Ok(Peers::Every),
        listed => Ok(Peers::Listed(listed_peers(alloc, own, listed)?)),
    }
}
