//! Regions of addresses, and their numbers.
ghost use Rattle.std.specs.Prelude.{◌≡◌, ◌≤◌, ◌∷◌, ◌++◌, List, IfOk, OnOk, option_map};
ghost use Rattle.pol_addr.specs.Prefix.{prefix_of};
ghost use Rattle.pol_connections.specs.Regions.{held_prefixes, longest_over, prefixes_in_order, region_number, regions_of};
ghost use Rattle.pol_model.specs.Remote.{numbered_prefixes};
ghost use Rattle.pol_model.specs.declared.row.IdentityRow.{IdentityRow as OneRow};
ghost use Rattle.pol_connection_maps.specs.Named.{AreNumbersOf, number_of};

use pol_addr::Prefix;
use pol_data::Memory;
use pol_model::{IdentityRow, world_identity_of};
use std::alloc::Global;
use std::collections::{BTreeMap, BTreeSet};

/// Appends the prefixes that have rows.
fn push_held(out: &mut Vec<Prefix>, identities: &[IdentityRow]) -> Result<(), Memory>
    ensures { OnOk result (out.new.items ≡ out.old.items ++ held_prefixes identities.now) }
{
    for row in identities {
        if let Some(prefix) = row.prefix {
            out.push(prefix)?;
        }
    }
    Ok(())
}

/// The prefixes, once and in order.
fn prefixes_in_order(alloc: Global, prefixes: &[Prefix]) -> Result<BTreeSet<Prefix>, Memory>
    ensures { IfOk result (λ ordered. ordered.keys ≡ prefixes_in_order prefixes.now) }
{
    let mut ordered = BTreeSet::new(alloc);
    for i in (0..prefixes.len()).rev() {
        ordered.insert(prefixes[i])?;
    }
    Ok(ordered)
}

/// The regions of two states with these identities: each prefix that either holds, once and in order: those of IPv4 first.
pub(crate) fn regions_of(
    alloc: Global,
    before: &[IdentityRow],
    after: &[IdentityRow],
) -> Result<Vec<Prefix>, Memory>
    ensures { IfOk result (λ regions. regions.items ≡ regions_of before.now after.now) }
{
    let mut held = Vec::new(alloc);
    push_held(&mut held, before)?;
    push_held(&mut held, after)?;
    let ordered = prefixes_in_order(alloc, &held)?;
    ordered.iter().copied().collect(alloc)
}

/// Puts the number of the row at its prefix, if it has one.
fn put_number(numbers: &mut BTreeMap<Prefix, u32>, row: &IdentityRow) -> Result<(), Memory>
    ensures { OnOk result ((rows : List OneRow)
        → AreNumbersOf rows numbers.old → AreNumbersOf (row.now ∷ rows) numbers.new) }
{
    if let Some(prefix) = row.prefix {
        numbers.insert(prefix, row.number)?;
    }
    Ok(())
}

/// The number of each prefix that has rows, by the first of them.
pub(crate) fn numbers_of_prefixes(
    alloc: Global,
    identities: &[IdentityRow],
) -> Result<BTreeMap<Prefix, u32>, Memory>
    ensures { IfOk result (AreNumbersOf identities.now) }
{
    let mut numbers = BTreeMap::new(alloc);
    for i in (0..identities.len()).rev() {
        put_number(&mut numbers, &identities[i])?;
    }
    Ok(numbers)
}

/// The number of the prefix of this length around a region, if it has a row.
fn number_around(numbers: &BTreeMap<Prefix, u32>, region: &Prefix, len: u8) -> Option<u32>
    requires { len ≤ region.now.len }
    ensures { (rows : List OneRow) → AreNumbersOf rows numbers.now
        → result ≡ number_of (prefix_of region.now.addr len) (numbered_prefixes rows) }
{
    let around = Prefix::new(region.network(), len);
    numbers.get(&around).copied()
}

/// The number of the longest prefix around a region that has a row.
fn longest_number(numbers: &BTreeMap<Prefix, u32>, region: &Prefix) -> Option<u32>
    ensures { (rows : List OneRow) → AreNumbersOf rows numbers.now
        → result ≡ option_map (λ e. e.1) (longest_over region.now (numbered_prefixes rows)) }
{
    for len in (0..region.len() + 1).rev() {
        if let Some(number) = number_around(numbers, region, len) {
            return Some(number);
        }
    }
    None
}

/// The number that the addresses of a region have: that of the longest prefix around it that has a row.
pub(crate) fn region_number(numbers: &BTreeMap<Prefix, u32>, region: &Prefix) -> u32
    ensures { (rows : List OneRow) → AreNumbersOf rows numbers.now → result ≡ region_number region.now rows }
{
    match longest_number(numbers, region) {
        Some(number) => number,
        None => world_identity_of(region.network()),
    }
}
