//! A table, read from its text.
ghost use Rattle.std.specs.Prelude.{◌≡◌, ◌≢◌, ◌<◌, ◌^◌, ◌++◌, ◌∷◌, [], ℕ, List, IsTrue, ◌↔◌, IfOk, IfErr, IfSome, IfNone, length};
ghost use Rattle.pol_mapkey.specs.Entries.{Entry};
ghost use Rattle.pol_audit.specs.Tables.{IsTable};
ghost use Rattle.pol_audit.specs.Text.{AreKept, IsCause, IsKept, IsReadAs, line_of, text_of};

use crate::entries::Entries;
use crate::error::TableError;
use crate::line::first_entry;
use pol_mapkey::laws::order_of_keys;
use pol_mapkey::{Kind, MapKey};
use std::alloc::Global;

/// Whether the entry may stand behind the table.
fn follows(table: &[(MapKey, Kind)], entry: &(MapKey, Kind)) -> bool
    requires { IsTable table.now }
    ensures { IsTrue result ↔ IsTable (table.now ++ entry.now ∷ []) }
{
    match table.last() {
        None => true,
        Some(last) => order_of_keys(&last.0, &entry.0).is_lt(),
    }
}

/// The entry with the bytes behind its line, where it may stand behind the table.
fn behind_table<'a>(
    table: &[(MapKey, Kind)],
    entry: (MapKey, Kind),
    behind: &'a [u8],
) -> Option<((MapKey, Kind), &'a [u8])>
    requires { IsTable table.now }
    ensures some { IfSome result (λ found. (found.0 ≡ entry) × (found.1.now ≡ behind.now)) }
    ensures table { IfSome result (λ found. IsTable (table.now ++ found.0 ∷ [])) }
    ensures none { IfNone result (IsTable (table.now ++ entry ∷ []) → ⊥) }
{
    if follows(table, &entry) {
        Some((entry, behind))
    } else {
        None
    }
}

/// The entry of the first line, where it may stand behind the table, and the bytes behind that line.
fn next_entry<'a>(table: &[(MapKey, Kind)], bytes: &'a [u8]) -> Option<((MapKey, Kind), &'a [u8])>
    requires { IsTable table.now }
    ensures some { IfSome result (λ found. bytes.now ≡ line_of found.0 ++ found.1.now) }
    ensures kept { IfSome result (λ found. IsKept found.0) }
    ensures table { IfSome result (λ found. IsTable (table.now ++ found.0 ∷ [])) }
    ensures none { IfNone result ((e : Entry) (behind : List ℕ)
        → IsKept e → IsTable (table.now ++ e ∷ []) → bytes.now ≢ line_of e ++ behind) }
{
    match first_entry(bytes) {
        None => None,
        Some((entry, behind)) => behind_table(table, entry, behind),
    }
}

/// The entries of a text, line by line.
fn read_entries(alloc: Global, text: &[u8]) -> Result<Entries, TableError>
    requires { length text.now < 2 ^ 32 }
    ensures text { IfOk result (λ table. text_of table ≡ text.now) }
    ensures kept { IfOk result AreKept }
    ensures cause { IfErr result (IsCause text.now) }
{
    let mut table = Vec::new(alloc);
    let mut rest = text;
    while !rest.is_empty() {
        match next_entry(&table, rest) {
            None => return Err(TableError::Line(table.len() as u32 + 1)),
            Some((entry, behind)) => {
                table.push(entry)?;
                rest = behind;
            }
        }
    }
    Ok(Entries::from_vec(table))
}

/// The table whose text this is, as `table_text` writes it, so that its entries are given back; nothing else is read. The
/// words of a line, numbers and the order of the keys are as there, and numbers are below 2^32 (profile).
///
/// `TableError::Line` tells the first line, from 1, that is no entry's, or whose key isn't above the key before, or that
/// doesn't end with a newline byte.
pub fn read_table(alloc: Global, text: &[u8]) -> Result<Entries, TableError>
    requires { length text.now < 2 ^ 32 }
    ensures text { IfOk result (λ table. text_of table ≡ text.now) }
    ensures kept { IfOk result AreKept }
    ensures again { (table : List Entry)
        → AreKept table → IsTable table → text.now ≡ text_of table → IsReadAs table result }
    ensures cause { IfErr result (IsCause text.now) }
{
    read_entries(alloc, text)
}
