//! The heading of a peer, and that of a label.
ghost use Rattle.std.specs.Prelude.{◌≡◌, find, option_copied, []};
ghost use Rattle.pol_headings.specs.declared.heading.Heading.TheVariants as heading;
ghost use Rattle.pol_headings.specs.Heading.{heading_by, heading_of, heading_of_entity, heading_of_labels, label_heading, names_one, reserved_heading, under_first, whole_octets};

use crate::HeadingRef;
use pol_addr::Prefix;
use pol_labels::{Label, Operator, Requirement, Selector};
use pol_rule::{Entity, Peer};

/// Whether the requirement asks for one value alone.
fn names_one(requirement: &Requirement) -> bool
    ensures { result ≡ names_one requirement.now }
{
    requirement.op == Operator::OneOf && requirement.values.len() == 1
}

/// The first of a selector's requirements that asks for one value alone.
fn first_of_one(selector: &Selector) -> Option<&Requirement>
    ensures { option_copied result ≡ find names_one selector.now }
{
    selector
        .as_slice()
        .iter()
        .find(|requirement| names_one(*requirement))
}

/// The heading of the requirement's key and its first value.
fn under_first<'a>(requirement: &'a Requirement) -> HeadingRef<'a>
    ensures { heading_by result ≡ under_first requirement.now }
{
    match requirement.values.as_slice().get(0) {
        None => HeadingRef::Any,
        Some(value) => HeadingRef::Label {
            key: requirement.key.as_str(),
            value: value.as_str(),
        },
    }
}

fn of_labels<'a>(selector: &'a Selector) -> HeadingRef<'a>
    ensures { heading_by result ≡ heading_of_labels selector.now }
{
    match first_of_one(selector) {
        None => HeadingRef::Any,
        Some(requirement) => under_first(requirement),
    }
}

/// The prefix of the first whole octets.
fn whole_octets(prefix: &Prefix) -> Prefix
    ensures { result ≡ whole_octets prefix.now }
{
    Prefix::new(prefix.network(), prefix.len() / 8 * 8)
}

/// The heading of the label `reserved:NAME`.
fn reserved<'a>(name: &'a str) -> HeadingRef<'a>
    ensures { heading_by result ≡ reserved_heading name.now }
{
    HeadingRef::Label {
        key: name,
        value: "",
    }
}

fn of_entity<'a>(entity: Entity) -> HeadingRef<'a>
    ensures { heading_by result ≡ heading_of_entity entity }
{
    match entity {
        Entity::All | Entity::Cluster | Entity::World => HeadingRef::Any,
        Entity::WorldIpv4 => reserved("world-ipv4"),
        Entity::WorldIpv6 => reserved("world-ipv6"),
        Entity::Host => reserved("host"),
        Entity::RemoteNode => reserved("remote-node"),
        Entity::KubeApiserver => reserved("kube-apiserver"),
        Entity::Ingress => reserved("ingress"),
        Entity::Init => reserved("init"),
        Entity::Health => reserved("health"),
        Entity::Unmanaged => reserved("unmanaged"),
    }
}

impl<'a> HeadingRef<'a> {
    /// The heading of a peer's selector ('profile'). A label selector stands under the first of its requirements that lists
    /// one value alone, a prefix under its first whole octets, and an entity that one reserved label names under that label.
    pub fn of(peer: &'a Peer) -> HeadingRef<'a>
        ensures { heading_by result ≡ heading_of peer.now }
    {
        match peer {
            Peer::Labels(selector) => of_labels(selector),
            Peer::Cidr { prefix, .. } => HeadingRef::Prefix(whole_octets(prefix)),
            Peer::Entity(entity) => of_entity(*entity),
        }
    }

    /// The heading of the label's key and value.
    pub fn of_label(label: &'a Label) -> HeadingRef<'a>
        ensures { heading_by result ≡ label_heading label.now }
    {
        HeadingRef::Label {
            key: label.key.as_str(),
            value: label.value.as_str(),
        }
    }
}
