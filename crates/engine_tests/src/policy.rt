//! A policy that lets one peer in, for the tests of more than one engine.
ghost use Rattle.std.specs.Prelude.{IfOk};
ghost use Rattle.pol_model.specs.Sizes.{HasShortSections, IsShortPolicy};

use pol_data::{Memory, Text};
use pol_filters::Stamped;
use pol_labels::{LabelSet, Selector};
use pol_rule::{Entries, Entry, Peer, PeerList, Peers, Policy, PolicyKey, PortSpecs, Rule, Rules};
use std::alloc::{AllocError, Global};

pub(crate) fn no_labels(alloc: Global) -> Result<LabelSet, Memory> {
    match LabelSet::from_labels(alloc, Vec::new(alloc)) {
        Ok(labels) => Ok(labels),
        Err(_) => Err(AllocError),
    }
}

/// A selector without requirements, which matches every label set.
fn every_endpoint(alloc: Global) -> Result<Selector, Memory> {
    match Selector::from_requirements(alloc, Vec::new(alloc)) {
        Ok(selector) => Ok(selector),
        Err(_) => Err(AllocError),
    }
}

/// A rule that lets the peer in.
fn rule(alloc: Global, peer: Peer) -> Result<Rule, Memory>
    ensures { IfOk result (λ rule. HasShortSections rule) }
{
    let entry = Entry {
        peers: Peers::Listed(PeerList::one(alloc, peer)?),
        ports: PortSpecs::empty(alloc),
    };
    let mut rule = Rule::new(alloc, every_endpoint(alloc)?);
    rule.ingress = Entries::one(alloc, entry)?;
    Ok(rule)
}

/// The policy of that rule, of revision 7.
pub(crate) fn policy(alloc: Global, peer: Peer) -> Result<Stamped, Memory>
    ensures { IfOk result (λ stamped. IsShortPolicy stamped.policy) }
{
    let rules = Rules::one(alloc, rule(alloc, peer)?)?;
    let key = PolicyKey {
        cluster_wide: true,
        namespace: Text::empty(alloc),
        name: Text::empty(alloc),
    };
    Ok(Stamped {
        policy: Policy { key, rules },
        stamp: 7,
    })
}
