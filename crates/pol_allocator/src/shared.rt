//! The table of the prefixes that is handed out. Where prefixes change, it is changed in place if nobody else has it. One
//! that others have is never changed.
ghost use Rattle.std.specs.Prelude.{◌≡◌, true, false, is_none, is_some, IfOk, IfSome, List, OnOk};
ghost use Rattle.std.specs.Arc.{arc_value};
ghost use Rattle.std.specs.List.{list_any};
ghost use Rattle.pol_model.specs.declared.row.IdentityRow.{IdentityRow as OneRow};
ghost use Rattle.pol_model.specs.Prefixes.{number_of_prefix};
ghost use Rattle.pol_prefixes.specs.Tables.{IsTableOf};
ghost use Rattle.pol_allocator.specs.Sharing.{IsRenewedAt, IsTableBut, IsWithoutGone, is_gone, is_of};

use pol_addr::Prefix;
use pol_data::Memory;
use pol_ident::Identities;
use pol_prefix_table::PrefixTable;
use std::alloc::Global;
use std::sync::Arc;

/// Puts the number of the prefix into the table, or takes the prefix out where it has none.
fn renew(table: &mut PrefixTable, identities: &Identities, prefix: Prefix) -> Result<(), Memory>
    ensures ok { OnOk result (IsRenewedAt prefix identities.now table.old table.new) }
{
    match identities.number_of_prefix(&prefix) {
        Some(number) => table.insert(prefix, number),
        None => {
            table.remove(prefix);
            Ok(())
        }
    }
}

/// Puts the numbers of these prefixes into the table, in which those of all others stand.
fn renew_each(
    table: &mut PrefixTable,
    identities: &Identities,
    prefixes: &[Prefix],
) -> Result<(), Memory>
    requires others { IsTableBut (is_of prefixes.now) identities.now table.old }
    ensures ok { OnOk result (IsTableOf identities.now table.new) }
{
    for prefix in prefixes {
        renew(table, identities, *prefix)?;
    }
    Ok(())
}

/// Whether one of the prefixes has no number.
fn is_any_gone(identities: &Identities, prefixes: &[Prefix]) -> bool
    ensures { result ≡ list_any (λ prefix. is_none (number_of_prefix prefix identities.now)) prefixes.now }
{
    prefixes
        .iter()
        .any(|prefix| identities.number_of_prefix(prefix).is_none())
}

/// Takes the prefix out of the table where it has no number. It takes no memory.
fn remove_if_gone(table: &mut PrefixTable, identities: &Identities, prefix: Prefix)
    ensures { IsWithoutGone prefix identities.now table.old table.new }
{
    if identities.number_of_prefix(&prefix).is_none() {
        table.remove(prefix);
    }
}

/// Takes those of these prefixes out of the table that have no number. It takes no memory.
fn remove_gone(table: &mut PrefixTable, identities: &Identities, prefixes: &[Prefix])
    requires others { IsTableBut (is_gone prefixes.now identities.now) identities.now table.old }
    ensures table { IsTableOf identities.now table.new }
{
    for prefix in prefixes {
        remove_if_gone(table, identities, *prefix);
    }
}

/// The table once these prefixes were held. None where numbers came and others have it, or for want of memory.
pub(crate) fn once_held(
    shared: Option<Arc<PrefixTable>>,
    none_came: bool,
    identities: &Identities,
    prefixes: &[Prefix],
) -> Option<Arc<PrefixTable>>
    requires same { none_came ≡ true → IfSome shared (λ table. IsTableOf identities.now (arc_value table)) }
    requires others { IfSome shared (λ table. IsTableBut (is_of prefixes.now) identities.now (arc_value table)) }
    ensures table { IfSome result (λ table. IsTableOf identities.now (arc_value table)) }
    ensures kept { none_came ≡ true → result ≡ shared }
{
    if none_came {
        return shared;
    }
    let mut table = shared?;
    match renew_each(Arc::get_mut(&mut table)?, identities, prefixes) {
        Ok(()) => Some(table),
        Err(_) => None,
    }
}

/// The table once these prefixes were released. None where some of them lost their numbers and others have it. It takes no
/// memory.
pub(crate) fn once_released(
    shared: Option<Arc<PrefixTable>>,
    identities: &Identities,
    prefixes: &[Prefix],
) -> Option<Arc<PrefixTable>>
    requires others { IfSome shared (λ table.
        IsTableBut (is_gone prefixes.now identities.now) identities.now (arc_value table)) }
    ensures table { IfSome result (λ table. IsTableOf identities.now (arc_value table)) }
    ensures kept { list_any (λ prefix. is_none (number_of_prefix prefix identities.now)) prefixes.now ≡ false
        → result ≡ shared }
{
    if !is_any_gone(identities, prefixes) {
        return shared;
    }
    let mut table = shared?;
    remove_gone(Arc::get_mut(&mut table)?, identities, prefixes);
    Some(table)
}

/// Whether the table is there, and what comes leaves it: where numbers go, nobody else may have it.
fn stays(shared: &Option<Arc<PrefixTable>>, numbers_go: bool) -> bool
    ensures stays { numbers_go ≡ false → result ≡ is_some shared.now }
{
    match shared {
        Some(table) => !numbers_go || Arc::strong_count(table) == 1,
        None => false,
    }
}

/// A table of one's own to share. The one error is want of memory.
pub(crate) fn copied(alloc: Global, table: &PrefixTable) -> Result<Arc<PrefixTable>, Memory>
    ensures { IfOk result (λ copy. arc_value copy ≡ table.now) }
{
    let copy = table.copy(alloc)?;
    Ok(Arc::new(alloc, copy)?)
}

/// The table once a release is planned: the one that is there, but a copy of one's own where there is none, or where
/// numbers go and others have it. Without memory there is none then.
pub(crate) fn once_planned(
    alloc: Global,
    shared: Option<Arc<PrefixTable>>,
    own: &PrefixTable,
    numbers_go: bool,
) -> Option<Arc<PrefixTable>>
    ensures table { (rows : List OneRow) → IsTableOf rows own.now → IfSome shared (λ table.
        IsTableOf rows (arc_value table)) → IfSome result (λ table. IsTableOf rows (arc_value table)) }
    ensures kept { numbers_go ≡ false → is_some shared ≡ true → result ≡ shared }
{
    if stays(&shared, numbers_go) {
        return shared;
    }
    copied(alloc, own).ok()
}
