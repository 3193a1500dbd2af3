//! Laws of policies as data. Each function does nothing: its contract is the law.
ghost use Rattle.std.specs.Prelude.{◌≡◌, ◌↔◌, IsTrue};
ghost use Rattle.pol_rule.specs.declared.policy.DefaultDeny.{DefaultDeny};
ghost use Rattle.pol_rule.specs.declared.policy.Entity.{Entity};
ghost use Rattle.pol_rule.specs.declared.policy.Peer.{Peer};
ghost use Rattle.pol_rule.specs.declared.policy.Peers.{Peers};
ghost use Rattle.pol_rule.specs.declared.policy.PortSpec.{PortSpec};
ghost use Rattle.pol_rule.specs.declared.policy.Entry.{Entry};
ghost use Rattle.pol_rule.specs.declared.policy.PolicyKey.{PolicyKey};
ghost use Rattle.pol_rule.specs.declared.policy.Section.{Section};
ghost use Rattle.pol_rule.specs.declared.policy.Place.{Place};

use crate::{DefaultDeny, Entity, Entry, Peer, Peers, Place, PolicyKey, PortSpec, Section};

/// `==` is true exactly where both are one value, so each of these types that has a hash may be the key of a table.
pub fn equality()
    ensures entity { (a b : Entity) → IsTrue (⟦<Entity as PartialEq>⟧.eq a b) ↔ (a ≡ b) }
    ensures peer { (a b : Peer) → IsTrue (⟦<Peer as PartialEq>⟧.eq a b) ↔ (a ≡ b) }
    ensures peers { (a b : Peers) → IsTrue (⟦<Peers as PartialEq>⟧.eq a b) ↔ (a ≡ b) }
    ensures port_spec { (a b : PortSpec) → IsTrue (⟦<PortSpec as PartialEq>⟧.eq a b) ↔ (a ≡ b) }
    ensures entry { (a b : Entry) → IsTrue (⟦<Entry as PartialEq>⟧.eq a b) ↔ (a ≡ b) }
    ensures policy_key { (a b : PolicyKey) → IsTrue (⟦<PolicyKey as PartialEq>⟧.eq a b) ↔ (a ≡ b) }
    ensures section { (a b : Section) → IsTrue (⟦<Section as PartialEq>⟧.eq a b) ↔ (a ≡ b) }
    ensures default_deny { (a b : DefaultDeny) → IsTrue (⟦<DefaultDeny as PartialEq>⟧.eq a b) ↔ (a ≡ b) }
    ensures place { (a b : Place) → IsTrue (⟦<Place as PartialEq>⟧.eq a b) ↔ (a ≡ b) }
{}
