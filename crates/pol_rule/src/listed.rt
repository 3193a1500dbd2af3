//! The peers that a policy lists, by reference.
ghost use Rattle.std.specs.Prelude.{◌≡◌, ◌++◌, IfOk, OnOk, map};
ghost use Rattle.std.specs.List.{flat_map};
ghost use Rattle.pol_rule.specs.Listed.{listed_peers, peers_in, rule_peers, section_peers};

use crate::policy::{Entry, Peer, Peers, Policy, Rule};
use pol_data::Memory;
use std::alloc::Global;

fn push_peers<'a>(out: &mut Vec<&'a Peer>, peers: &'a [Peer]) -> Result<(), Memory>
    ensures { OnOk result (map (λ p. p.now) out.new.items ≡ map (λ p. p.now) out.old.items ++ peers.now) }
{
    for peer in peers {
        out.push(peer)?;
    }
    Ok(())
}

/// Puts the peers that are listed behind those that are there. The one error is want of memory.
pub fn push_listed<'a>(out: &mut Vec<&'a Peer>, peers: &'a Peers) -> Result<(), Memory>
    ensures listed { OnOk result (map (λ p.
        p.now) out.new.items ≡ map (λ p. p.now) out.old.items ++ peers_in peers.now) }
{
    match peers {
        Peers::Every => Ok(()),
        Peers::Listed(peers) => push_peers(out, peers.as_slice()),
    }
}

fn push_section<'a>(out: &mut Vec<&'a Peer>, entries: &'a [Entry]) -> Result<(), Memory>
    ensures { OnOk result (map (λ p. p.now) out.new.items ≡ map (λ p.
        p.now) out.old.items ++ section_peers entries.now) }
{
    for entry in entries {
        push_listed(out, &entry.peers)?;
    }
    Ok(())
}

#[tactic(auto, using(crate::proofs::Sections::rule_by_section))]
fn push_rule<'a>(out: &mut Vec<&'a Peer>, rule: &'a Rule) -> Result<(), Memory>
    ensures { OnOk result (map (λ p. p.now) out.new.items ≡ map (λ p. p.now) out.old.items ++ rule_peers rule.now) }
{
    push_section(out, rule.ingress.as_slice())?;
    push_section(out, rule.ingress_deny.as_slice())?;
    push_section(out, rule.egress.as_slice())?;
    push_section(out, rule.egress_deny.as_slice())
}

fn push_rules<'a>(out: &mut Vec<&'a Peer>, rules: &'a [Rule]) -> Result<(), Memory>
    ensures { OnOk result (map (λ p. p.now) out.new.items ≡ map (λ p.
        p.now) out.old.items ++ flat_map rule_peers rules.now) }
{
    for rule in rules {
        push_rule(out, rule)?;
    }
    Ok(())
}

/// The peers that the policy lists, in document order, each as often as it stands there. The one error is want of memory.
pub fn listed_peers<'a>(alloc: Global, policy: &'a Policy) -> Result<Vec<&'a Peer>, Memory>
    ensures listed { IfOk result (λ listed. map (λ p. p.now) listed.items ≡ listed_peers policy.now) }
{
    let mut listed = Vec::new(alloc);
    push_rules(&mut listed, policy.rules.as_slice())?;
    Ok(listed)
}
