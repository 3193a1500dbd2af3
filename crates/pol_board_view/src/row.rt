//! What is held of a live endpoint.
ghost use Rattle.std.specs.Prelude.{◌≡◌, ◌+◌, ◌≤◌, ℕ, List, None, Some, Option, IfOk, IsErrOf, OnOk, OnErr};
ghost use Rattle.std.specs.Arc.{arc_value};
ghost use Rattle.std.specs.FinMap as finite;
ghost use Rattle.std.specs.Option.{option_copied};
ghost use Rattle.pol_mapkey.specs.Entries.{read_map};
ghost use Rattle.pol_history.specs.Content.{BoardRow, PublishedMap};
ghost use Rattle.pol_history.specs.LookIn.{look_map, look_row};
ghost use Rattle.pol_board_view.specs.Answers.{IsLookOf};
ghost use Rattle.pol_history_log.specs.NextMap.{map_before};
ghost use Rattle.pol_board_view.specs.Rows.{ChangesMap, HasRoom, Holds, HoldsMap, IsShownFirst, IsShownLess, IsShownMore, number_then, table_in};

use crate::answer::{LookError, Verdict};
use indexmap::IndexMap;
use pol_data::{Memory, Steps, Text};
use pol_history::LastReport;
use pol_map_changes::ChangeList;
use pol_model::{Query, Remote};
use pol_prefixes::Addresses;
use pol_trie::PolicyTrie;
use std::alloc::Global;
use std::sync::Arc;
use std::sync::ledger::Ledger;

/// A published map, with what each address was at its revision.
#[derive(Drop)]
pub struct FaceMap {
    /// The revision of the map.
    pub revision: u64,
    /// The map.
    pub trie: PolicyTrie,
    /// What each address was.
    pub addresses: Arc<Addresses>,
    /// Whether all changes of the map's last publication were made. If not, nothing is said of the map, and it is never read.
    pub whole: bool,
}

/// A live endpoint.
#[derive(Drop)]
pub struct FaceRow {
    /// The revision that added it.
    pub added: u64,
    /// Its last report.
    pub report: Option<LastReport>,
    /// Its last published map.
    pub map: Option<FaceMap>,
}

/// The live endpoints, by name.
pub(crate) type Rows = IndexMap<Text, FaceRow>;

/// The number that a query's remote had at the map's revision.
fn number_of(shown: &FaceMap, remote: Remote) -> u32
    ensures { result ≡ number_then shown.now remote }
{
    match remote {
        Remote::Identity(number) => number,
        Remote::Address(address) => shown.addresses.remote(address),
    }
}

/// What the map says of a packet.
fn read_shown<L: Ledger>(shown: &FaceMap, query: &Query, steps: &mut Steps<L>) -> Verdict
    ensures revision { result.revision ≡ shown.now.revision }
    ensures word { result.word ≡ read_map (finite.entries shown.now.trie) query.now.dir
        (number_then shown.now query.now.remote) query.now.proto query.now.port }
    ensures forward { steps.old ≤ steps.new }
    ensures cost { steps.new ≤ steps.old + 36 }
{
    let number = number_of(shown, query.remote);
    Verdict {
        revision: shown.revision,
        word: shown
            .trie
            .look(query.dir, number, query.proto, query.port, steps),
    }
}

/// What is found of a live endpoint, after so many commits. It takes no memory.
fn look_at_map<L: Ledger>(
    commits: u64,
    map: &Option<FaceMap>,
    query: &Query,
    steps: &mut Steps<L>,
) -> Result<Verdict, LookError>
    ensures answer { (held : Option PublishedMap)
        → HoldsMap map.now held → IsLookOf result (look_map commits query.now held) }
    ensures nothing { IsErrOf result LookError.NoGuard → steps.new ≡ steps.old }
    ensures forward { steps.old ≤ steps.new }
    ensures cost { steps.new ≤ steps.old + 36 }
{
    match map {
        None => Err(LookError::NotYet { revision: commits }),
        Some(shown) => {
            if shown.whole {
                Ok(read_shown(shown, query, steps))
            } else {
                Err(LookError::NoGuard)
            }
        }
    }
}

/// What a look-up finds in the rows, after so many commits. It takes no memory.
pub(crate) fn look_in_rows<L: Ledger>(
    commits: u64,
    rows: &Rows,
    query: &Query,
    steps: &mut Steps<L>,
) -> Result<Verdict, LookError>
    ensures answer { (live : List ℕ → Option BoardRow)
        → Holds rows.now live → IsLookOf result (look_row commits query.now (live query.now.endpoint)) }
    ensures nothing { IsErrOf result LookError.NoGuard → steps.new ≡ steps.old }
    ensures forward { steps.old ≤ steps.new }
    ensures cost { steps.new ≤ steps.old + 36 }
{
    match rows.get(&query.endpoint) {
        None => Err(LookError::NoEndpoint { revision: commits }),
        Some(row) => look_at_map(commits, &row.map, query, steps),
    }
}

/// The map, where it is whole. It takes no memory.
pub(crate) fn whole_map(map: &Option<FaceMap>) -> Result<Option<&PolicyTrie>, Memory>
    ensures { (held : Option PublishedMap) → HoldsMap map.now held
        → IfOk result (λ last. finite.entries (map_before (option_copied last)) ≡ table_in held) }
{
    let Some(shown) = map else {
        return Ok(None);
    };
    if !shown.whole {
        return Err(Memory);
    }
    Ok(Some(&shown.trie))
}

/// The map after changes.
fn show_more(
    shown: &mut FaceMap,
    revision: u64,
    changes: &ChangeList,
    addresses: &Arc<Addresses>,
) -> Result<(), Memory>
    requires room { HasRoom (Some shown.old) changes.now }
    ensures ok { OnOk result (IsShownMore shown.old shown.new changes.now (arc_value addresses.now) revision) }
    ensures err { OnErr result (IsShownLess shown.old shown.new) }
{
    if !shown.whole {
        return Err(Memory);
    }
    // The call tells that each key stands once.
    let _ = changes.as_slice();
    let addresses = addresses.clone()?;
    shown.whole = false;
    changes.apply_to(&mut shown.trie)?;
    shown.revision = revision;
    shown.addresses = addresses;
    shown.whole = true;
    Ok(())
}

/// An endpoint's first map.
fn show_first(
    alloc: Global,
    revision: u64,
    changes: &ChangeList,
    addresses: &Arc<Addresses>,
) -> Result<FaceMap, Memory>
    requires room { HasRoom None changes.now }
    ensures { IfOk result (λ shown. IsShownFirst shown changes.now (arc_value addresses.now) revision) }
{
    // The call tells that each key stands once.
    let _ = changes.as_slice();
    let addresses = addresses.clone()?;
    let mut trie = PolicyTrie::new(alloc);
    changes.apply_to(&mut trie)?;
    Ok(FaceMap {
        revision,
        trie,
        addresses,
        whole: true,
    })
}

/// A published map in place of the one before.
pub(crate) fn show_map(
    alloc: Global,
    map: &mut Option<FaceMap>,
    revision: u64,
    changes: &ChangeList,
    addresses: &Arc<Addresses>,
) -> Result<(), Memory>
    requires room { HasRoom map.old changes.now }
    ensures ok { OnOk result ((held : Option PublishedMap) (new : PublishedMap) → HoldsMap map.old held
        → ChangesMap changes.now (arc_value addresses.now) revision held new → HoldsMap map.new (Some new)) }
    ensures err { OnErr result ((held : Option PublishedMap) → HoldsMap map.old held → HoldsMap map.new held) }
{
    match map {
        Some(shown) => show_more(shown, revision, changes, addresses),
        None => {
            *map = Some(show_first(alloc, revision, changes, addresses)?);
            Ok(())
        }
    }
}
