//! Which rows of identities a peer selects.
ghost use Rattle.std.specs.Prelude.{◌≡◌, None, []};
ghost use Rattle.std.specs.List.{list_any};
ghost use Rattle.pol_labels.specs.Match.{carries};
ghost use Rattle.pol_rule.specs.declared.policy.Entity.TheVariants as entity;
ghost use Rattle.pol_model.specs.Selects.{entity_selects, is_all, is_core_number, known_as, selects, selects_row};
ghost use Rattle.pol_model.specs.Worlds.{is_outside, reserved_label};

use crate::limits::{RESERVED_LAST, WORLD_IDENTITY, WORLD_IPV4_IDENTITY, WORLD_IPV6_IDENTITY};
use crate::row::IdentityRow;
use crate::worlds::{either_world_name, world_name};
use pol_addr::{Family, Prefix};
use pol_labels::LabelSet;
use pol_rule::{Entity, Peer};

/// Whether some label is `reserved:NAME`.
fn is_reserved_as(labels: &LabelSet, name: &str) -> bool
    ensures { result ≡ carries labels.now (reserved_label name.now) }
{
    labels.carries_parts("reserved", name, "")
}

/// Whether the number is that of what lies outside the cluster, of either family or of one.
fn is_outside(number: u32) -> bool
    ensures { result ≡ is_outside number }
{
    matches!(
        number,
        WORLD_IDENTITY | WORLD_IPV4_IDENTITY | WORLD_IPV6_IDENTITY
    )
}

/// Whether the number is one of the cluster's own reserved identities, 1 and 3 to 8: the members of `cluster` by number
/// ('profile').
pub fn is_core(number: u32) -> bool
    ensures { result ≡ is_core_number number }
{
    1 <= number && number <= RESERVED_LAST && !is_outside(number)
}

/// Whether some label is that of what lies outside the cluster, of either family or of one.
fn is_named_outside(labels: &LabelSet) -> bool
    ensures { result ≡ entity_selects (known_as 0 labels.now None) entity.World }
{
    is_reserved_as(labels, either_world_name())
        || is_reserved_as(labels, world_name(Family::Ipv4))
        || is_reserved_as(labels, world_name(Family::Ipv6))
}

fn entity_selects(entity: Entity, number: u32, labels: &LabelSet) -> bool
    ensures { result ≡ entity_selects (known_as number labels.now None) entity }
{
    match entity {
        Entity::All => true,
        Entity::World => is_named_outside(labels),
        Entity::WorldIpv4 => is_reserved_as(labels, world_name(Family::Ipv4)),
        Entity::WorldIpv6 => is_reserved_as(labels, world_name(Family::Ipv6)),
        Entity::Host => is_reserved_as(labels, "host"),
        Entity::RemoteNode => is_reserved_as(labels, "remote-node"),
        Entity::KubeApiserver => is_reserved_as(labels, "kube-apiserver"),
        Entity::Ingress => is_reserved_as(labels, "ingress"),
        Entity::Init => is_reserved_as(labels, "init"),
        Entity::Health => is_reserved_as(labels, "health"),
        Entity::Unmanaged => is_reserved_as(labels, "unmanaged"),
        Entity::Cluster => {
            is_core(number)
                || labels.carries_parts("k8s", "io.cilium.k8s.policy.cluster", "default")
        }
    }
}

fn lies_in(own: &Option<Prefix>, prefix: &Prefix) -> bool
    ensures { result ≡ (known_as 0 [] own.now).lies_in prefix.now }
{
    match own {
        None => false,
        Some(own) => prefix.covers(own),
    }
}

fn lies_in_any(own: &Option<Prefix>, prefixes: &[Prefix]) -> bool
    ensures { result ≡ list_any (known_as 0 [] own.now).lies_in prefixes.now }
{
    prefixes.iter().any(|prefix| lies_in(own, prefix))
}

/// Whether the peer selects an identity of this number, these labels and this prefix (Cilium, Network Policy, "Layer 3
/// Examples").
pub fn selects(peer: &Peer, number: u32, labels: &LabelSet, own: &Option<Prefix>) -> bool
    ensures answer { result ≡ selects (known_as number labels.now own.now) peer.now }
{
    match peer {
        Peer::Labels(selector) => selector.is_met_by(labels),
        Peer::Cidr { prefix, except } => {
            lies_in(own, prefix) && !lies_in_any(own, except.as_slice())
        }
        Peer::Entity(entity) => entity_selects(*entity, number, labels),
    }
}

impl IdentityRow {
    /// Whether the peer selects the identity (Cilium, Network Policy, "Layer 3 Examples").
    pub fn is_selected_by(&self, peer: &Peer) -> bool
        ensures answer { result ≡ selects_row peer.now self.now }
    {
        selects(peer, self.number, &self.labels, &self.prefix)
    }
}

/// Whether the peer is the entity `all`, which selects every number, allocated or not (Cilium, Network
/// Policy, "Entities based").
pub fn selects_every_number(peer: &Peer) -> bool
    ensures { result ≡ is_all peer.now }
{
    matches!(peer, Peer::Entity(Entity::All))
}
