//! What differs between the maps before and after a change, as it is listed.
ghost use Rattle.std.specs.Prelude.{◌≡◌, ◌+◌, ◌^◌, ◌<◌, ◌++◌, [], IfOk, OnOk};
ghost use Rattle.std.specs.List.{AllByRecursion};
ghost use Rattle.pol_map_changes.specs.Changes.{difference_at};
ghost use Rattle.pol_entry_tally.specs.Affected.{change_at, changes_in};
ghost use Rattle.pol_entry_tally.specs.Counts.{Ascend, held};
ghost use Rattle.pol_entry_tally.specs.Sizes.{Resizes, clear_count, new_count};

use crate::counts::Count;
use crate::numbers::key_in;
use crate::reading::kind_in;
use crate::sizes::resized;
use pol_data::Memory;
use pol_map_changes::Change;
use pol_mapkey::{Kind, MapKey};
use std::alloc::Global;

/// The changes so far, and the size of the map with them.
#[derive(Drop)]
pub(crate) struct Listing {
    pub(crate) changes: Vec<Change>,
    pub(crate) size: u64,
}

impl Listing {
    /// No changes to a map of that size, with room for so many.
    pub(crate) fn new(alloc: Global, room: usize, size: u64) -> Result<Listing, Memory>
        ensures changes { IfOk result (λ listing. listing.changes.items ≡ []) }
        ensures size { IfOk result (λ listing. listing.size ≡ size) }
    {
        Ok(Listing {
            changes: Vec::with_capacity(alloc, room)?,
            size,
        })
    }
}

/// Puts what differs at a key behind these.
fn push_change(
    changes: &mut Vec<Change>,
    key: MapKey,
    before: Option<Kind>,
    after: Option<Kind>,
) -> Result<(), Memory>
    ensures { OnOk result (changes.new.items ≡ changes.old.items ++ change_at key (difference_at before after)) }
{
    match (before, after) {
        (None, None) => Ok(()),
        (None, Some(kind)) => Ok(changes.push(Change::Set(key, kind))?),
        (Some(_), None) => Ok(changes.push(Change::Clear(key))?),
        (Some(own), Some(kind)) => {
            if own == kind {
                Ok(())
            } else {
                Ok(changes.push(Change::Set(key, kind))?)
            }
        }
    }
}

/// Lists what differs at a key.
fn list_key(
    listing: &mut Listing,
    key: MapKey,
    before: Option<Kind>,
    after: Option<Kind>,
) -> Result<(), Memory>
    ensures made { OnOk result (listing.new.changes.items
        ≡ listing.old.changes.items ++ change_at key (difference_at before after)) }
    ensures size { OnOk result (Resizes before after listing.old.size listing.new.size) }
{
    push_change(&mut listing.changes, key, before, after)?;
    listing.size = resized(listing.size, before, after)?;
    Ok(())
}

/// Lists what differs at the keys of a group that stand there.
pub(crate) fn list_keys(
    listing: &mut Listing,
    group: u64,
    old: &[Count],
    new: &[Count],
    asked: &[u32],
) -> Result<(), Memory>
    requires group { group < 2 ^ 33 }
    requires old { Ascend old.now }
    requires new { Ascend new.now }
    requires asked { AllByRecursion (λ n. n < 2 ^ 23) asked.now }
    ensures made { OnOk result (listing.new.changes.items
        ≡ listing.old.changes.items ++ changes_in group (held old.now) (held new.now) asked.now) }
    ensures size { OnOk result (listing.new.size
        + clear_count (changes_in group (held old.now) (held new.now) asked.now)
        ≡ listing.old.size + new_count (held old.now) (changes_in group (held old.now) (held new.now) asked.now)) }
{
    for local in asked {
        let key = key_in(group, *local);
        list_key(listing, key, kind_in(old, &key), kind_in(new, &key))?;
    }
    Ok(())
}
