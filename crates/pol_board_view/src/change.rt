//! What an event changes in the rows of a face.
ghost use Rattle.std.specs.Prelude.{◌≡◌, ◌+◌, ◌<◌, ◌≤◌, ◌^◌, ◌++◌, ◌∷◌, [], None, Some, Option, List, ℕ, OnOk, OnErr};
ghost use Rattle.std.specs.Arc.{arc_value};
ghost use Rattle.indexmap.specs.IndexMap.{get};
ghost use Rattle.pol_data.specs.contracts.text.TextPartialEq.TheImpl as text;
ghost use Rattle.pol_model.specs.declared.options.Options.{Options};
ghost use Rattle.pol_history.specs.declared.event.HistoryEvent.{HistoryEvent as OneEvent};
ghost use Rattle.pol_history.specs.Commits.{revision_of};
ghost use Rattle.pol_history.specs.Content.{BoardRow, PublishedMap, added_row, content_of, if_of, row_blocked, with_change, with_row};
ghost use Rattle.pol_history.specs.Reports.{published_before};
ghost use Rattle.pol_history_log.specs.Asked.{id_of};
ghost use Rattle.pol_board_view.specs.Changes.{Tells, commit_count};
ghost use Rattle.pol_board_view.specs.Rows.{ChangesMap, HasRoom, Holds, HoldsRow, IsHeld, RowHasRoom, row_with};
ghost use Rattle.pol_board_view.specs.Room.{HaveRoom};

use crate::row::{FaceRow, Rows, show_map};
use pol_data::{Memory, Text};
use pol_history::LastReport;
use pol_map_changes::ChangeList;
use pol_prefixes::Addresses;
use std::alloc::Global;
use std::sync::Arc;

/// What an event changes.
#[derive(Drop)]
pub enum FaceChange {
    /// A commit that no endpoint comes or goes by.
    Nothing,
    /// A commit that adds the endpoint of that name.
    Added {
        /// Its name.
        name: Text,
    },
    /// A commit that removes the endpoint of that name.
    Removed {
        /// Its name.
        name: Text,
    },
    /// A published map.
    Published {
        /// The endpoint's name.
        name: Text,
        /// The revision that added the endpoint.
        added: u64,
        /// The revision of the map.
        revision: u64,
        /// What leads to it from the one before.
        changes: ChangeList,
        /// What each address was at the revision.
        addresses: Arc<Addresses>,
    },
    /// A map that is too large.
    Blocked {
        /// The endpoint's name.
        name: Text,
        /// The revision that added the endpoint.
        added: u64,
        /// The revision of the map.
        revision: u64,
    },
}

/// An endpoint comes, with the commit of this number.
fn add_row(alloc: Global, rows: &mut Rows, name: &Text, commits: u64) -> Result<(), Memory>
    ensures ok { OnOk result ((live : List ℕ → Option BoardRow)
        → Holds rows.old live → Holds rows.new (with_row name.now (Some (added_row commits)) live)) }
    ensures err { OnErr result ((live : List ℕ → Option BoardRow) → Holds rows.old live → Holds rows.new live) }
{
    let key = name.copy(alloc)?;
    rows.insert(
        key,
        FaceRow {
            added: commits,
            report: None,
            map: None,
        },
    )?;
    Ok(())
}

/// An endpoint goes. It takes no memory.
fn remove_row(rows: &mut Rows, name: &Text)
    ensures { (live : List ℕ → Option BoardRow) → Holds rows.old live → Holds rows.new (with_row name.now None live) }
{
    rows.swap_remove(name);
}

/// A map of the endpoint that was added at a revision was published, after so many commits, if this is its row.
fn publish_row(
    alloc: Global,
    row: &mut FaceRow,
    added: u64,
    commits: u64,
    revision: u64,
    changes: &ChangeList,
    addresses: &Arc<Addresses>,
) -> Result<(), Memory>
    requires room { HasRoom row.old.map changes.now }
    ensures ok { OnOk result ((held : BoardRow) (new : PublishedMap) → IsHeld row.old held
        → (held.added ≡ added → ChangesMap changes.now (arc_value addresses.now) revision held.map new)
        → HoldsRow (Some row.new) (if_of added (row_with commits revision new) (Some held))) }
    ensures err { OnErr result ((held : BoardRow) → IsHeld row.old held → IsHeld row.new held) }
{
    if row.added != added {
        return Ok(());
    }
    show_map(alloc, &mut row.map, revision, changes, addresses)?;
    row.report = Some(LastReport {
        revision,
        commits,
        published: Some(revision),
    });
    Ok(())
}

/// The revision of the last published map, where a report was made.
fn published(report: &Option<LastReport>) -> Option<u64>
    ensures { result ≡ published_before report.now }
{
    match report {
        None => None,
        Some(report) => report.published,
    }
}

/// A map of the endpoint was too large, after so many commits, if this is its row. It takes no memory.
fn block_row(row: &mut FaceRow, added: u64, commits: u64, revision: u64)
    ensures { (held : BoardRow) → IsHeld row.old held
        → HoldsRow (Some row.new) (if_of added (row_blocked revision commits) (Some held)) }
{
    if row.added != added {
        return;
    }
    let published = published(&row.report);
    row.report = Some(LastReport {
        revision,
        commits,
        published,
    });
}

/// A map was published.
fn publish(
    alloc: Global,
    rows: &mut Rows,
    commits: u64,
    name: &Text,
    added: u64,
    revision: u64,
    changes: &ChangeList,
    addresses: &Arc<Addresses>,
) -> Result<(), Memory>
    requires room { RowHasRoom (get text.ghosts.eq rows.old name.now) changes.now }
    ensures ok { OnOk result ((live : List ℕ → Option BoardRow) (new : PublishedMap)
        → Holds rows.old live → ((held : BoardRow) → live name.now ≡ Some held
        → held.added ≡ added → ChangesMap changes.now (arc_value addresses.now) revision held.map new)
        → Holds rows.new (with_change (id_of name.now added) (row_with commits revision new) live)) }
    ensures err { OnErr result ((live : List ℕ → Option BoardRow) → Holds rows.old live → Holds rows.new live) }
{
    match rows.get_mut(name) {
        None => Ok(()),
        Some(row) => publish_row(alloc, row, added, commits, revision, changes, addresses),
    }
}

/// A map was too large. It takes no memory.
fn block(rows: &mut Rows, commits: u64, name: &Text, added: u64, revision: u64)
    ensures { (live : List ℕ → Option BoardRow) → Holds rows.old live
        → Holds rows.new (with_change (id_of name.now added) (row_blocked revision commits) live) }
{
    match rows.get_mut(name) {
        None => {}
        Some(row) => block_row(row, added, commits, revision),
    }
}

/// Takes in the change of an event that so many commits stand before. The one error is want of memory, and then nothing is
/// said of a map that has taken in a part of it.
pub(crate) fn take_in(
    alloc: Global,
    rows: &mut Rows,
    commits: u64,
    change: &FaceChange,
) -> Result<(), Memory>
    requires count { commits < 2 ^ 63 }
    requires room { HaveRoom rows.old change.now }
    ensures ok { OnOk result ((options : Options) (history : List OneEvent) (new : OneEvent) → commits
        ≡ revision_of history → Tells options history change.now new → Holds rows.old (content_of options history).live
        → Holds rows.new (content_of options (history ++ new ∷ [])).live) }
    ensures err { OnErr result ((live : List ℕ → Option BoardRow) → Holds rows.old live → Holds rows.new live) }
{
    match change {
        FaceChange::Nothing => Ok(()),
        FaceChange::Added { name } => add_row(alloc, rows, name, commits + 1),
        FaceChange::Removed { name } => {
            remove_row(rows, name);
            Ok(())
        }
        FaceChange::Published {
            name,
            added,
            revision,
            changes,
            addresses,
        } => publish(
            alloc, rows, commits, name, *added, *revision, changes, addresses,
        ),
        FaceChange::Blocked {
            name,
            added,
            revision,
        } => {
            block(rows, commits, name, *added, *revision);
            Ok(())
        }
    }
}

/// How many commits the event of the change is.
pub(crate) fn commits_of(change: &FaceChange) -> u64
    ensures count { result ≡ commit_count change.now }
    ensures few { result ≤ 1 }
{
    match change {
        FaceChange::Nothing => 1,
        FaceChange::Added { name: _ } => 1,
        FaceChange::Removed { name: _ } => 1,
        FaceChange::Published {
            name: _,
            added: _,
            revision: _,
            changes: _,
            addresses: _,
        } => 0,
        FaceChange::Blocked {
            name: _,
            added: _,
            revision: _,
        } => 0,
    }
}
