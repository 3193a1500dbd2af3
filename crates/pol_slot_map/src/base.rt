//! The map that was published last.
ghost use Rattle.std.specs.Prelude.{◌≡◌, ◌↔◌, ◌+◌, ◌*◌, ◌≤◌, IfOk, IsTrue, OnOk, length};
ghost use Rattle.pol_kept_map.specs.Work.{WorkOf, map_of};
ghost use Rattle.pol_map_changes.specs.Changes.{changed, table_of, whole};
ghost use Rattle.pol_slot_map.specs.Base.{IsFew, entries_in};
ghost use Rattle.pol_slot_map.specs.Renewed.{entries_of};

use crate::pending::no_changes;
use pol_data::Memory;
use pol_kept_map::{Origin, Work};
use pol_map_changes::ChangeList;
use std::alloc::Global;

/// The map that was published last, from which changes lead to a work's map.
#[derive(Drop)]
pub enum Base {
    /// No map was published: changes lead from the empty one.
    Nothing,
    /// It is the work's own map.
    Own,
    /// It was made of this.
    Of(Origin),
}

impl Base {
    /// How many entries it has.
    fn count(&self, work: &Work) -> u64
        ensures { result ≡ length (entries_in self.now work.now) }
    {
        match self {
            Base::Nothing => 0,
            Base::Own => work.count(),
            Base::Of(origin) => origin.count(),
        }
    }

    /// `Set` of each of its entries. The one error is want of memory.
    fn whole(&self, alloc: Global, work: &Work) -> Result<ChangeList, Memory>
        ensures { IfOk result (λ list. list ≡ whole (entries_in self.now work.now)) }
    {
        match self {
            Base::Nothing => Ok(no_changes(alloc)),
            Base::Own => work.whole(alloc),
            Base::Of(origin) => origin.whole(alloc),
        }
    }

    /// What it was made of, if it was made of anything. It takes no memory: the one error is that a count of those who share
    /// is at its end.
    pub(crate) fn origin(&self, work: &Work) -> Result<Option<Origin>, Memory>
        ensures { IfOk result (λ origin. entries_of origin ≡ entries_in self.now work.now) }
    {
        match self {
            Base::Nothing => Ok(None),
            Base::Own => Ok(Some(work.origin()?)),
            Base::Of(origin) => Ok(Some(origin.share()?)),
        }
    }

    /// The same, whatever the work goes on to. It takes no memory: the one error is that a count of those who share is at its
    /// end.
    pub(crate) fn apart(&self, work: &Work) -> Result<Base, Memory>
        ensures same { IfOk result (λ base. (later : WorkOf) → entries_in base later ≡ entries_in self.now work.now) }
    {
        match self {
            Base::Nothing => Ok(Base::Nothing),
            Base::Own => Ok(Base::Of(work.origin()?)),
            Base::Of(origin) => Ok(Base::Of(origin.share()?)),
        }
    }
}

/// Whether there are at most twice as many changes as the two maps have entries.
fn is_few(changes: usize, before: u64, after: u64) -> bool
    ensures { IsTrue result ↔ (changes ≤ 2 * (before + after)) }
{
    let half = (changes - changes / 2) as u64;
    half <= before || half - before <= after
}

/// Where there are more than twice as many changes as base and map have entries, leaves out each `Clear` of a key that the
/// base doesn't have: what is left sets a key of the map, or clears one of the base. The one error is want of memory, and
/// then nothing is left out.
pub(crate) fn cut(
    alloc: Global,
    changes: &mut ChangeList,
    base: &Base,
    work: &Work,
) -> Result<(), Memory>
    // Of the base's map they make what they made, and where that is the work's there are few.
    ensures leads { changed changes.new (table_of (entries_in base.now work.now))
        ≡ changed changes.old (table_of (entries_in base.now work.now)) }
    ensures few { OnOk result (changed changes.old (table_of (entries_in base.now work.now))
        ≡ table_of (map_of work.now) → IsFew changes.new (entries_in base.now work.now) (map_of work.now)) }
{
    if is_few(changes.len(), base.count(work), work.count()) {
        return Ok(());
    }
    let whole = base.whole(alloc, work)?;
    changes.leave_out_clears(&whole);
    Ok(())
}
