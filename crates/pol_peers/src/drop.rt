//! References given back.
ghost use Rattle.std.specs.Prelude.{[], ◌∷◌};
ghost use Rattle.std.specs.List.{flat_map};
ghost use Rattle.pol_rule.specs.Listed.{listed_peers, peers_in, rule_peers, section_peers};
ghost use Rattle.pol_peers.specs.Numbering.{LosesRefs};
ghost use Rattle.pol_peers.specs.References.{HasRefs, IsMoreBy};

use pol_rule::{Entry, Peer, Peers, Policy, Rule};
use pol_selcache::SelectorCache;

/// One reference less to the peer's selector.
pub(crate) fn drop_peer(cache: &mut SelectorCache, peer: &Peer)
    requires held { HasRefs (peer.now ∷ []) cache.old.live }
    ensures dropped { IsMoreBy (peer.now ∷ []) cache.new.live cache.old.live }
    ensures loses { LosesRefs cache.old cache.new }
{
    match cache.selector_of(peer) {
        Some(selector) => cache.drop_ref(selector),
        None => (),
    }
}

fn drop_list(cache: &mut SelectorCache, peers: &[Peer])
    requires held { HasRefs peers.now cache.old.live }
    ensures dropped { IsMoreBy peers.now cache.new.live cache.old.live }
    ensures loses { LosesRefs cache.old cache.new }
{
    for peer in peers {
        drop_peer(cache, peer);
    }
}

fn drop_entry(cache: &mut SelectorCache, entry: &Entry)
    requires held { HasRefs (peers_in entry.now.peers) cache.old.live }
    ensures dropped { IsMoreBy (peers_in entry.now.peers) cache.new.live cache.old.live }
    ensures loses { LosesRefs cache.old cache.new }
{
    match &entry.peers {
        Peers::Every => (),
        Peers::Listed(peers) => drop_list(cache, peers.as_slice()),
    }
}

fn drop_section(cache: &mut SelectorCache, entries: &[Entry])
    requires held { HasRefs (section_peers entries.now) cache.old.live }
    ensures dropped { IsMoreBy (section_peers entries.now) cache.new.live cache.old.live }
    ensures loses { LosesRefs cache.old cache.new }
{
    for entry in entries {
        drop_entry(cache, entry);
    }
}

fn drop_rule(cache: &mut SelectorCache, rule: &Rule)
    requires held { HasRefs (rule_peers rule.now) cache.old.live }
    ensures dropped { IsMoreBy (rule_peers rule.now) cache.new.live cache.old.live }
    ensures loses { LosesRefs cache.old cache.new }
{
    drop_section(cache, rule.ingress.as_slice());
    drop_section(cache, rule.ingress_deny.as_slice());
    drop_section(cache, rule.egress.as_slice());
    drop_section(cache, rule.egress_deny.as_slice());
}

fn drop_rules(cache: &mut SelectorCache, rules: &[Rule])
    requires held { HasRefs (flat_map rule_peers rules.now) cache.old.live }
    ensures dropped { IsMoreBy (flat_map rule_peers rules.now) cache.new.live cache.old.live }
    ensures loses { LosesRefs cache.old cache.new }
{
    for rule in rules {
        drop_rule(cache, rule);
    }
}

/// Takes one reference back for each peer that the policy lists; a selector goes with its last one. The others
/// keep their numbers and their sets, and no number is used again. It takes no memory.
pub fn drop_peers(cache: &mut SelectorCache, policy: &Policy)
    requires held { HasRefs (listed_peers policy.now) cache.old.live }
    ensures dropped { IsMoreBy (listed_peers policy.now) cache.new.live cache.old.live }
    ensures loses { LosesRefs cache.old cache.new }
{
    drop_rules(cache, policy.rules.as_slice());
}
