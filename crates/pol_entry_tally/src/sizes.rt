//! The size of a map after a change.
ghost use Rattle.std.specs.Prelude.{IfOk};
ghost use Rattle.pol_entry_tally.specs.Sizes.{Resizes};

use pol_data::Memory;
use pol_map_changes::ChangeList;
use pol_mapkey::Kind;

/// What a change makes of a map.
#[derive(Drop)]
pub struct Changed {
    /// The keys at which it changes.
    pub list: ChangeList,
    /// How many entries it has then.
    pub size: u64,
}

/// The size of a map after a key that had the one kind has the other. A size at the end of its type counts as want of
/// memory.
pub(crate) fn resized(size: u64, before: Option<Kind>, after: Option<Kind>) -> Result<u64, Memory>
    ensures { IfOk result (Resizes before after size) }
{
    match (before, after) {
        (None, Some(_)) => size.checked_add(1).ok_or(Memory),
        (Some(_), None) => size.checked_sub(1).ok_or(Memory),
        (None, None) => Ok(size),
        (Some(_), Some(_)) => Ok(size),
    }
}
