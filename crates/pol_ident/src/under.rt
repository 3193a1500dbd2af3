//! The identities under a heading, by the index of their kind.
ghost use Rattle.std.specs.Prelude.{◌≡◌, ◌≤◌, ◌++◌, None, Some, true, false, IfOk, IfSome, IfNone, OnOk, filter, length, map};
ghost use Rattle.pol_addr.specs.declared.family.Family.{Family as OneFamily};
ghost use Rattle.pol_addr.specs.declared.family.Family.TheVariants.{Ipv4, Ipv6};
ghost use Rattle.pol_model_laws.specs.Keeps.{KeepsRows};
ghost use Rattle.pol_headings.specs.declared.heading.Heading.TheVariants.{Label as ByLabel};
ghost use Rattle.pol_headings.specs.Heading.{heading_by};
ghost use Rattle.pol_headings.specs.Stands.{stands_under, stands_with};
ghost use Rattle.pol_label_sets.specs.Carried.{carries_heading};
ghost use Rattle.pol_model.specs.Worlds.{world_around, world_in, world_labels};
ghost use Rattle.pol_interner.specs.Slots.{numbers_where};
ghost use Rattle.pol_ident.specs.Rows.{ArePrefixes};

use crate::Identities;
use pol_addr::{Family, Prefix};
use pol_data::Memory;
use pol_headings::HeadingRef;
use pol_label_sets::LabelSets;
use pol_labels::LabelSet;
use pol_local_prefixes::LocalPrefixes;
use pol_model::{CLUSTER_FIRST, CLUSTER_IDENTITIES, IdentityRow, LOCAL_FIRST, LOCAL_IDENTITIES};
use std::alloc::Global;

/// Whether some label has this key and this value, whatever its source.
fn has_label(labels: &LabelSet, key: &str, value: &str) -> bool
    ensures { result ≡ carries_heading (ByLabel key.now value.now) labels.now }
{
    labels.as_slice().iter().any(|own| own.key.as_str() == key && own.value.as_str() == value)
}

/// Whether the row stands under the heading.
fn stands_under(row: &IdentityRow, heading: &HeadingRef<'_>) -> bool
    ensures { result ≡ stands_under (heading_by heading.now) row.now }
{
    match heading {
        HeadingRef::Label { key, value } => has_label(&row.labels, *key, *value),
        HeadingRef::Prefix(within) => match &row.prefix {
            Some(own) => within.covers(own),
            None => false,
        },
        HeadingRef::Any => true,
    }
}

/// The numbers of the rows that stand under the heading.
fn numbers_of(
    alloc: Global,
    rows: &[IdentityRow],
    heading: &HeadingRef<'_>,
) -> Result<Vec<u32>, Memory>
    ensures { IfOk result (λ numbers.
        numbers.items ≡ map (λ row. row.number) (filter (stands_under (heading_by heading.now)) rows.now)) }
{
    rows.iter()
        .filter(|row| stands_under(*row, heading))
        .map(|row| row.number)
        .collect(alloc)
}

/// Puts the numbers of the label sets that stand under the heading behind these.
fn push_cluster(
    cluster: &LabelSets,
    heading: &HeadingRef<'_>,
    numbers: &mut Vec<u32>,
) -> Result<(), Memory>
    requires few { length cluster.now ≤ CLUSTER_IDENTITIES }
    ensures { OnOk result (numbers.new.items ≡ numbers.old.items ++ numbers_where CLUSTER_FIRST (λ labels.
        stands_with labels None (heading_by heading.now)) cluster.now) }
{
    match heading {
        HeadingRef::Label { .. } => cluster.push_numbers_with(CLUSTER_FIRST, heading, numbers),
        HeadingRef::Prefix(_) => Ok(()),
        HeadingRef::Any => cluster.push_numbers(CLUSTER_FIRST, numbers),
    }
}

/// The family whose prefixes have a label of this key and this value, whatever its source. Each has the labels of its
/// family's world.
fn family_with(ipv4: &LabelSet, ipv6: &LabelSet, key: &str, value: &str) -> Option<Family>
    requires ipv4 { ipv4.now ≡ world_labels (world_in Ipv4) }
    requires ipv6 { ipv6.now ≡ world_labels (world_in Ipv6) }
    ensures some { IfSome result (λ family.
        carries_heading (ByLabel key.now value.now) (world_labels (world_in family)) ≡ true) }
    ensures none { IfNone result ((family : OneFamily)
        → carries_heading (ByLabel key.now value.now) (world_labels (world_in family)) ≡ false) }
{
    if has_label(ipv4, key, value) {
        return Some(Family::Ipv4);
    }
    if has_label(ipv6, key, value) {
        return Some(Family::Ipv6);
    }
    None
}

/// Puts the numbers of the prefixes that stand under the heading behind these.
fn push_local(
    local: &LocalPrefixes,
    ipv4: &LabelSet,
    ipv6: &LabelSet,
    heading: &HeadingRef<'_>,
    numbers: &mut Vec<u32>,
) -> Result<(), Memory>
    requires few { length local.now ≤ LOCAL_IDENTITIES }
    requires valid { ArePrefixes local.now }
    requires ipv4 { ipv4.now ≡ world_labels (world_in Ipv4) }
    requires ipv6 { ipv6.now ≡ world_labels (world_in Ipv6) }
    ensures { OnOk result (numbers.new.items ≡ numbers.old.items ++ numbers_where LOCAL_FIRST (λ prefix.
        stands_with (world_labels (world_around prefix)) (Some prefix) (heading_by heading.now)) local.now) }
{
    match heading {
        HeadingRef::Label { key, value } => match family_with(ipv4, ipv6, *key, *value) {
            Some(family) => local.push_numbers_within(LOCAL_FIRST, &Prefix::world(family), numbers),
            None => Ok(()),
        },
        HeadingRef::Prefix(within) => local.push_numbers_within(LOCAL_FIRST, within, numbers),
        HeadingRef::Any => local.push_numbers(LOCAL_FIRST, numbers),
    }
}

impl Identities {
    /// The numbers of the identities that stand under the heading, ascending: of the reserved ones each is looked at, of the
    /// others those alone that are filed under it ('profile'). The one error is want of memory.
    pub fn numbers_under(&self, alloc: Global, heading: &HeadingRef<'_>) -> Result<Vec<u32>, Memory>
        ensures numbers { IfOk result (λ numbers.
            numbers.items ≡ map (λ row. row.number) (filter (stands_under (heading_by heading.now)) self.now)) }
        ensures sound { KeepsRows self.now }
    {
        let mut numbers = numbers_of(alloc, &self.reserved, heading)?;
        push_cluster(&self.cluster, heading, &mut numbers)?;
        let ipv4 = self.world_labels(Family::Ipv4);
        let ipv6 = self.world_labels(Family::Ipv6);
        push_local(&self.local, ipv4, ipv6, heading, &mut numbers)?;
        Ok(numbers)
    }
}
