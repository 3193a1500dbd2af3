//! Which prefixes a policy names, and so holds the identities of.
ghost use Rattle.std.specs.Prelude.{◌≡◌, ◌++◌, IfOk, OnOk, map};
ghost use Rattle.std.specs.List.{flat_map};
ghost use Rattle.pol_rule.specs.Prefixes.{distinct, peer_prefixes, policy_prefixes};

use crate::listed::listed_peers;
use crate::policy::{Peer, Policy, Prefixes};
use indexmap::IndexSet;
use pol_addr::Prefix;
use pol_data::Memory;
use std::alloc::Global;

fn push_peer(out: &mut Vec<Prefix>, peer: &Peer) -> Result<(), Memory>
    ensures { OnOk result (out.new.items ≡ out.old.items ++ peer_prefixes peer.now) }
{
    match peer {
        Peer::Labels(_) => Ok(()),
        Peer::Entity(_) => Ok(()),
        Peer::Cidr { prefix, except } => {
            out.push(*prefix)?;
            out.extend_from_slice(except.as_slice())
        }
    }
}

fn push_each(out: &mut Vec<Prefix>, peers: &[&Peer]) -> Result<(), Memory>
    ensures { OnOk result (out.new.items ≡ out.old.items ++ flat_map peer_prefixes (map (λ p. p.now) peers.now)) }
{
    for peer in peers {
        push_peer(out, peer)?;
    }
    Ok(())
}

/// Each prefix at its first place alone.
fn distinct(alloc: Global, prefixes: &[Prefix]) -> Result<Vec<Prefix>, Memory>
    ensures { IfOk result (λ kept. kept.items ≡ distinct prefixes.now) }
{
    let mut kept = IndexSet::new(alloc);
    for prefix in prefixes {
        kept.insert(*prefix)?;
    }
    let all = Vec::from_slice(alloc, kept.as_slice())?;
    Ok(all)
}

impl Policy {
    /// The prefixes that the policy holds, in document order, each once ('profile'). The one error is want
    /// of memory.
    pub fn prefixes(&self, alloc: Global) -> Result<Prefixes, Memory>
        ensures prefixes { IfOk result (λ prefixes. prefixes ≡ policy_prefixes self.now) }
    {
        let listed = listed_peers(alloc, self)?;
        let mut all = Vec::new(alloc);
        push_each(&mut all, &listed)?;
        Ok(Prefixes::from_vec(distinct(alloc, &all)?))
    }
}
