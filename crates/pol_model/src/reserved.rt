//! Reserved labels, the identities that are there from the start, and the labels of prefixes.
ghost use Rattle.std.specs.Prelude.{◌≡◌, ◌∷◌, [], codes, IfOk};
ghost use Rattle.pol_labels.specs.Same.{same_label};
ghost use Rattle.pol_model.specs.Fault.{has_reserved, is_init};
ghost use Rattle.pol_model.specs.Identities.{reserved_identities, reserved_row};
ghost use Rattle.pol_model.specs.Prefixes.{prefix_row};
ghost use Rattle.pol_model.specs.Worlds.{prefix_of_reserved, reserved_label};

use crate::limits::{WORLD_IDENTITY, WORLD_IPV4_IDENTITY, WORLD_IPV6_IDENTITY};
use crate::row::IdentityRow;
use crate::worlds::{either_world_name, world_name};
use pol_addr::{Family, Prefix};
use pol_data::{Memory, Text};
use pol_labels::{Label, LabelSet};
use std::alloc::{AllocError, Global};

/// Whether some label has the source `reserved`.
pub fn has_reserved(labels: &LabelSet) -> bool
    ensures { result ≡ has_reserved labels.now }
{
    labels
        .as_slice()
        .iter()
        .any(|label| label.source.as_str() == "reserved")
}

fn is_init_label(label: &Label) -> bool
    ensures { result ≡ same_label label.now (reserved_label (codes "init")) }
{
    label.source.as_str() == "reserved"
        && (label.key.as_str() == "init" && label.value.as_str() == "")
}

/// Whether the set is `reserved:init` alone, as that of an endpoint that has no labels yet (Cilium,
/// Terminology, "Special Identities").
pub fn is_init(labels: &LabelSet) -> bool
    ensures { result ≡ is_init labels.now }
{
    match labels.as_slice() {
        [label] => is_init_label(label),
        _ => false,
    }
}

/// The label set that holds `reserved:NAME` alone.
fn reserved_labels(alloc: Global, name: &str) -> Result<LabelSet, Memory>
    ensures { IfOk result (λ labels. labels ≡ reserved_label name.now ∷ []) }
{
    let mut labels = Vec::with_capacity(alloc, 1)?;
    labels.push(Label {
        source: Text::from_str(alloc, "reserved")?,
        key: Text::from_str(alloc, name)?,
        value: Text::from_str(alloc, "")?,
    })?;
    match LabelSet::from_labels(alloc, labels) {
        Ok(set) => Ok(set),
        Err(_) => Err(AllocError),
    }
}

/// The prefix of a reserved number: only the worlds have one.
fn prefix_of_reserved(number: u32) -> Option<Prefix>
    ensures { result ≡ prefix_of_reserved number }
{
    match number {
        WORLD_IPV4_IDENTITY => Some(Prefix::world(Family::Ipv4)),
        WORLD_IPV6_IDENTITY => Some(Prefix::world(Family::Ipv6)),
        _ => None,
    }
}

fn reserved_row(alloc: Global, number: u32, name: &str) -> Result<IdentityRow, Memory>
    ensures { IfOk result (λ row. row ≡ reserved_row number name.now) }
{
    Ok(IdentityRow {
        number,
        labels: reserved_labels(alloc, name)?,
        prefix: prefix_of_reserved(number),
        holders: 1,
    })
}

/// The identities before the first request, each with one holder (Cilium, Terminology, "Special
/// Identities"). The one error is want of memory.
pub fn reserved_rows(alloc: Global) -> Result<Vec<IdentityRow>, Memory>
    ensures rows { IfOk result (λ rows. rows.items ≡ reserved_identities) }
{
    Ok(vec![in alloc;
        reserved_row(alloc, 1, "host")?,
        reserved_row(alloc, WORLD_IDENTITY, either_world_name())?,
        reserved_row(alloc, 3, "unmanaged")?,
        reserved_row(alloc, 4, "health")?,
        reserved_row(alloc, 5, "init")?,
        reserved_row(alloc, 6, "remote-node")?,
        reserved_row(alloc, 7, "kube-apiserver")?,
        reserved_row(alloc, 8, "ingress")?,
        reserved_row(alloc, WORLD_IPV4_IDENTITY, world_name(Family::Ipv4))?,
        reserved_row(alloc, WORLD_IPV6_IDENTITY, world_name(Family::Ipv6))?,
    ]?)
}

impl IdentityRow {
    /// The new row of a prefix, with the label of its world and one holder. The one error is want of memory.
    pub fn of_prefix(alloc: Global, prefix: Prefix, number: u32) -> Result<IdentityRow, Memory>
        ensures row { IfOk result (λ row. row ≡ prefix_row prefix number) }
    {
        Ok(IdentityRow {
            number,
            labels: reserved_labels(alloc, world_name(prefix.network().family()))?,
            prefix: Some(prefix),
            holders: 1,
        })
    }
}
