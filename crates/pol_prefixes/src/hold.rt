//! Prefixes held: all of them, or none.
ghost use Rattle.std.specs.Prelude.{◌≡◌, ◌+◌, ◌++◌, ◌<◌, ◌≤◌, ◌↔◌, nat_lt, [], IfOk, OnOk, OnErr, IsErrOf};
ghost use Rattle.std.specs.List.{AllByRecursion, cons_option};
ghost use Rattle.pol_addr.specs.Cidr.{IsPrefix};
ghost use Rattle.pol_model.specs.declared.limits.TheConstants.{LOCAL_IDENTITIES as MOST};
ghost use Rattle.pol_model.specs.Fault.{locals_held, locals_wanted};
ghost use Rattle.pol_model.specs.Prefixes.{prefix_held, prefixes_held};
ghost use Rattle.pol_model_laws.specs.Keeps.{KeepsRows};
ghost use Rattle.pol_prefixes.specs.Beyond.{AreBeyond};
ghost use Rattle.pol_prefixes.specs.Coming.{all_coming, coming};
ghost use Rattle.pol_prefixes.specs.Tables.{IsTableOf};

use crate::release::release_prefixes;
use pol_addr::Prefix;
use pol_data::Memory;
use pol_ident::{IdentError, Identities};
use pol_model::LOCAL_IDENTITIES;
use pol_prefix_table::PrefixTable;
use std::alloc::{AllocError, Global};

/// Holds the prefix once more, and gives its number where that is new.
fn hold_prefix(
    identities: &mut Identities,
    table: &mut PrefixTable,
    prefix: Prefix,
) -> Result<Option<u32>, Memory>
    requires table { IsTableOf identities.old table.old }
    ensures ok { OnOk result (identities.new ≡ prefix_held prefix identities.old) }
    ensures come { IfOk result (λ come. come ≡ coming prefix identities.old) }
    ensures err { OnErr result (identities.new ≡ identities.old) }
    ensures table { IsTableOf identities.new table.new }
    ensures within { OnOk result (IsPrefix prefix) }
{
    // The call tells that its bits and its length fit.
    let _len = prefix.len();
    let known = identities.number_of_prefix(&prefix).is_some();
    let number = match identities.acquire_prefix(prefix) {
        Ok(number) => number,
        Err(_) => return Err(AllocError),
    };
    if known {
        return Ok(None);
    }
    match table.insert(prefix, number) {
        Ok(()) => Ok(Some(number)),
        Err(memory) => {
            identities.release(number);
            Err(memory)
        }
    }
}

/// Holds one prefix more, and puts its number behind those that came where that is new.
fn hold_next(
    identities: &mut Identities,
    table: &mut PrefixTable,
    prefix: Prefix,
    come: &mut Vec<u32>,
) -> Result<(), Memory>
    requires table { IsTableOf identities.old table.old }
    ensures ok { OnOk result (identities.new ≡ prefix_held prefix identities.old) }
    ensures come { OnOk result (come.new.items ≡ come.old.items ++ cons_option (coming prefix identities.old) []) }
    ensures err { OnErr result (identities.new ≡ identities.old) }
    ensures table { IsTableOf identities.new table.new }
    ensures within { OnOk result (IsPrefix prefix) }
{
    come.reserve(1)?;
    if let Some(number) = hold_prefix(identities, table, prefix)? {
        come.push_reserved(number);
    }
    Ok(())
}

/// Holds each prefix once more, or none of them, and puts the new numbers behind those that came.
fn hold_each(
    identities: &mut Identities,
    table: &mut PrefixTable,
    prefixes: &[Prefix],
    come: &mut Vec<u32>,
) -> Result<(), Memory>
    requires table { IsTableOf identities.old table.old }
    requires keeps { KeepsRows identities.old }
    requires room { locals_held identities.old + locals_wanted identities.old prefixes.now ≤ MOST }
    ensures ok { OnOk result (identities.new ≡ prefixes_held prefixes.now identities.old) }
    ensures come { OnOk result (come.new.items ≡ come.old.items ++ all_coming prefixes.now identities.old) }
    ensures err { OnErr result (identities.new ≡ identities.old) }
    ensures table { IsTableOf identities.new table.new }
    ensures within { OnOk result (AllByRecursion IsPrefix prefixes.now) }
{
    for (i, prefix) in prefixes.iter().enumerate() {
        match hold_next(identities, table, *prefix, come) {
            Ok(()) => (),
            Err(memory) => {
                release_prefixes(identities, table, &prefixes[..i]);
                return Err(memory);
            }
        }
    }
    Ok(())
}

/// How many of the prefixes have no number.
fn wanted(identities: &Identities, prefixes: &[Prefix]) -> usize
    ensures { result ≡ locals_wanted identities.now prefixes.now }
{
    prefixes
        .iter()
        .filter(|prefix| identities.number_of_prefix(prefix).is_none())
        .count()
}

/// Whether the prefixes want more numbers than are left: where `hold_prefixes` answers `Exhausted` ('profile'). A prefix
/// that stands twice among them wants two. It takes no memory.
pub fn are_too_many(identities: &Identities, prefixes: &[Prefix]) -> bool
    ensures many { result ≡ nat_lt MOST (locals_held identities.now + locals_wanted identities.now prefixes.now) }
    ensures keeps { KeepsRows identities.now }
{
    let most = LOCAL_IDENTITIES as usize;
    let held = identities.locals_held();
    held > most || most - held < wanted(identities, prefixes)
}

/// Takes a number for each prefix, one after another: its own, or else the least free one of 16777217 to 16842751. Gives
/// the numbers that weren't held before. The table stays that of the rows.
///
/// `Exhausted` comes exactly where more numbers would be held than there are ('profile'). `Memory` is want of memory, or a
/// count of holders at its end. After an error the identities and the table are as before.
pub fn hold_prefixes(
    alloc: Global,
    identities: &mut Identities,
    table: &mut PrefixTable,
    prefixes: &[Prefix],
) -> Result<Vec<u32>, IdentError>
    requires table { IsTableOf identities.old table.old }
    ensures rows { OnOk result (identities.new ≡ prefixes_held prefixes.now identities.old) }
    ensures come { IfOk result (λ come. AreBeyond identities.old identities.new come.items) }
    ensures table { IsTableOf identities.new table.new }
    // The type of a prefix has no bits beyond its length.
    ensures within { OnOk result (AllByRecursion IsPrefix prefixes.now) }
    ensures err { OnErr result (identities.new ≡ identities.old) }
    ensures same_table { OnErr result (table.new ≡ table.old) }
    ensures exhausted { IsErrOf result IdentError.Exhausted
        ↔ (MOST < locals_held identities.old + locals_wanted identities.old prefixes.now) }
{
    if are_too_many(identities, prefixes) {
        return Err(IdentError::Exhausted);
    }
    let mut come = Vec::new(alloc);
    hold_each(identities, table, prefixes, &mut come)?;
    Ok(come)
}
