//! What a slot keeps of the endpoint that it follows.
ghost use Rattle.std.specs.Prelude.{◌≡◌, ◌≢◌, ◌⊎◌, IfOk, IsTrue, None, OnErr, OnOk, Some, map};
ghost use Rattle.std.specs.Arc.{arc_value};
ghost use Rattle.pol_kept_map.specs.Work.{IsWorkOf, map_of};
ghost use Rattle.pol_distill.specs.Distilled.{distilled};
ghost use Rattle.pol_distill.specs.Sorted.{HaveSets};
ghost use Rattle.pol_slot_map.specs.Follow.{GoesOn, IsShown, IsStartOf, MayApply, Stays};

use crate::base::{Base, cut};
use crate::pending::{Pending, no_changes};
use pol_data::{Memory, Text};
use pol_entry_changes::sets_ascend;
use pol_kept_map::{Changes, Work};
use pol_map_changes::ChangeList;
use pol_taken::Taken;
use std::alloc::Global;
use std::sync::Arc;

/// An endpoint, with the map that was made of it last, and the changes that lead to that map from the one that was
/// published last. Where all changes are joined, there are at most twice as many as the two maps have entries. Of a map that
/// has more entries than a limit says, no key is kept, and no change is listed.
#[derive(Drop)]
pub struct Followed {
    /// The endpoint's name.
    pub name: Text,
    /// The revision that added it.
    pub added: u64,
    /// The revision of the map that was made last.
    pub kept: u64,
    /// The revision of the map that was published last, if there is one.
    pub shown: Option<u64>,
    /// The map that was published last.
    pub base: Base,
    /// The map that was made last, with what it is made of.
    pub work: Work,
    /// The changes since the map that was published last.
    pub pending: Pending,
    /// The changes after these, where want of memory came before they were joined.
    pub behind: Option<ChangeList>,
}

/// The work of what was taken.
fn work_of(alloc: Global, taken: &Taken, limit: u64) -> Result<Work, Memory>
    requires sets { HaveSets taken.now.sets (arc_value taken.now.filters) }
    ensures work { IfOk result (IsWorkOf (arc_value taken.now.filters) taken.now.sets) }
    ensures map { IfOk result (λ work. map_of work ≡ distilled (arc_value taken.now.filters) taken.now.sets) }
{
    let sets = taken.sets.share()?;
    let filters = Arc::try_clone(&taken.filters)?;
    Work::within(alloc, filters, sets, limit)
}

impl Followed {
    /// What is kept of an endpoint that was taken, where nothing was kept of it: its map, and `Set` of each entry. Whatever the
    /// limit is, it is the same; of a map of more entries no key is kept, then and later. The one error is want of memory.
    pub fn start(alloc: Global, taken: &Taken, limit: u64) -> Result<Followed, Memory>
        requires sets { HaveSets taken.now.sets (arc_value taken.now.filters) }
        ensures started { IfOk result (IsStartOf taken.now) }
    {
        let name = taken.endpoint.name.copy(alloc)?;
        let work = work_of(alloc, taken, limit)?;
        let pending = Pending::whole(alloc, &work)?;
        Ok(Followed {
            name,
            added: taken.endpoint.added,
            kept: taken.revision,
            shown: None,
            base: Base::Nothing,
            work,
            pending,
            behind: None,
        })
    }

    /// Joins the changes behind to the others, and keeps them few. The one error is want of memory, and then nothing is
    /// changed.
    fn join_lists(&mut self, alloc: Global) -> Result<(), Memory>
        ensures joined { OnOk result (self.new.behind ≡ None) }
        ensures stays { Stays self.old self.new }
    {
        self.pending.make_list(alloc)?;
        if let Some(behind) = &self.behind {
            let mut joined = self.pending.then(alloc, behind)?;
            cut(alloc, &mut joined, &self.base, &self.work)?;
            self.pending = Pending::listed(joined);
            self.behind = None;
        }
        Ok(())
    }

    /// The changes are those between the two maps, and are listed no more. It takes no memory: the one error is that a count
    /// of those who share is at its end, and then nothing is changed.
    fn unlist(&mut self) -> Result<(), Memory>
        ensures joined { OnOk result (self.new.behind ≡ None) }
        ensures stays { Stays self.old self.new }
    {
        let base = self.base.origin(&self.work)?;
        let map = self.work.origin()?;
        self.pending = Pending::between(base, map);
        self.behind = None;
        Ok(())
    }

    /// All changes are one list, or none where the map is too large. The one error is want of memory, and then nothing is
    /// changed.
    fn join(&mut self, alloc: Global) -> Result<(), Memory>
        ensures joined { OnOk result (self.new.behind ≡ None) }
        ensures stays { Stays self.old self.new }
    {
        if self.work.is_counted() {
            self.join_lists(alloc)
        } else {
            self.unlist()
        }
    }

    /// Takes the work on by what changed, and keeps the changes behind the others. The one error is want of memory, and then
    /// nothing is changed.
    fn take_by(&mut self, changes: &Changes, revision: u64) -> Result<(), Memory>
        requires joined { self.old.behind ≡ None }
        requires may { MayApply self.old.work (arc_value changes.now.filters) changes.now.sets changes.now.moves }
        ensures went { OnOk result
            (GoesOn (arc_value changes.now.filters) changes.now.sets revision self.old self.new) }
        ensures err { OnErr result (self.new ≡ self.old) }
    {
        let base = self.base.apart(&self.work)?;
        let list = self.work.apply(changes)?;
        self.base = base;
        self.kept = revision;
        self.behind = Some(list);
        Ok(())
    }

    /// Takes the work on to these filters and sets without a list of what changed. The one error is want of memory, and then
    /// nothing is changed.
    fn take_anew(&mut self, changes: &Changes, revision: u64) -> Result<(), Memory>
        requires sets { HaveSets changes.now.sets (arc_value changes.now.filters) }
        ensures went { OnOk result
            (GoesOn (arc_value changes.now.filters) changes.now.sets revision self.old self.new) }
        ensures err { OnErr result (self.new ≡ self.old) }
    {
        let sets = changes.sets.share()?;
        let filters = Arc::try_clone(&changes.filters)?;
        let work = self.work.anew(filters, sets)?;
        let base = self.base.apart(&self.work)?;
        let before = base.origin(&work)?;
        let map = work.origin()?;
        self.work = work;
        self.base = base;
        self.kept = revision;
        self.pending = Pending::between(before, map);
        self.behind = None;
        Ok(())
    }

    /// Takes the work on: by what changed where its keys are counted, and anew where they aren't or memory was wanting. The
    /// one error is want of memory, and then nothing is changed.
    fn take_on(&mut self, changes: &Changes, revision: u64) -> Result<(), Memory>
        requires joined { self.old.behind ≡ None }
        requires may { MayApply self.old.work (arc_value changes.now.filters) changes.now.sets changes.now.moves }
        ensures went { OnOk result
            (GoesOn (arc_value changes.now.filters) changes.now.sets revision self.old self.new) }
        ensures err { OnErr result (self.new ≡ self.old) }
    {
        if self.work.is_counted() {
            match self.take_by(changes, revision) {
                Ok(()) => return Ok(()),
                Err(_) => {}
            }
        }
        self.take_anew(changes, revision)
    }

    /// Goes on by these changes. Room is taken for the changes that are kept before the work is taken on, and where there is
    /// none for joining the new ones to them, they stay behind.
    fn go_by(&mut self, alloc: Global, changes: &Changes, revision: u64) -> Result<(), Memory>
        requires may { MayApply self.old.work (arc_value changes.now.filters) changes.now.sets changes.now.moves }
        ensures joined { OnOk result (self.new.behind ≡ None) }
        ensures went { OnOk result
            (GoesOn (arc_value changes.now.filters) changes.now.sets revision self.old self.new) }
        ensures leads { OnErr result (Stays self.old self.new
            ⊎ GoesOn (arc_value changes.now.filters) changes.now.sets revision self.old self.new) }
    {
        self.join(alloc)?;
        self.take_on(changes, revision)?;
        self.join(alloc)
    }

    /// Goes on to what was taken of the same endpoint later, and gives what was taken back, also after the one error, which is
    /// want of memory.
    fn go_by_taken(&mut self, alloc: Global, taken: Taken) -> (Taken, Result<(), Memory>)
        requires may { MayApply self.old.work (arc_value taken.filters) taken.sets taken.moves }
        ensures same { result.0 ≡ taken }
        ensures kept { OnOk result.1 (self.new.kept ≡ taken.revision) }
        ensures joined { OnOk result.1 (self.new.behind ≡ None) }
        ensures leads { Stays self.old self.new
            ⊎ GoesOn (arc_value taken.filters) taken.sets taken.revision self.old self.new }
    {
        let Taken {
            revision,
            endpoint,
            filters,
            sets,
            moves,
            addresses,
        } = taken;
        let changes = Changes {
            filters,
            sets,
            moves,
        };
        let went = self.go_by(alloc, &changes, revision);
        let Changes {
            filters,
            sets,
            moves,
        } = changes;
        let taken = Taken {
            revision,
            endpoint,
            filters,
            sets,
            moves,
            addresses,
        };
        (taken, went)
    }

    /// Whether what was taken leaves the map as it is. It may be false though nothing differs.
    fn stays_by(&self, taken: &Taken) -> bool
        ensures work { IsTrue result
            → MayApply self.now.work (arc_value taken.now.filters) taken.now.sets taken.now.moves
            → IsWorkOf (arc_value taken.now.filters) taken.now.sets self.now.work }
        ensures map { IsTrue result
            → MayApply self.now.work (arc_value taken.now.filters) taken.now.sets taken.now.moves
            → map_of self.now.work ≡ distilled (arc_value taken.now.filters) taken.now.sets }
    {
        sets_ascend(taken.sets.as_slice());
        self.work.stays_by(&taken.filters, &taken.moves)
    }

    /// Goes on to a later revision, at which the map is that of these filters and rows as it is. The one error is want of
    /// memory, and then it has gone on all the same.
    fn stay_until(&mut self, alloc: Global, taken: &Taken) -> Result<(), Memory>
        requires work { IsWorkOf (arc_value taken.now.filters) taken.now.sets self.old.work }
        requires map { map_of self.old.work ≡ distilled (arc_value taken.now.filters) taken.now.sets }
        ensures joined { OnOk result (self.new.behind ≡ None) }
        ensures went { GoesOn (arc_value taken.now.filters) taken.now.sets taken.now.revision self.old self.new }
    {
        self.kept = taken.revision;
        self.join(alloc)
    }

    /// Goes on to what was taken of the same endpoint later, and gives that back, also after the one error, which is want of
    /// memory. Where it is of the revision that is kept, or leaves the map as it is, nothing is made. After the error the work
    /// is as before, or has gone on, and what is kept leads to its map all the same.
    pub fn try_go_on(&mut self, alloc: Global, taken: Taken) -> (Taken, Result<(), Memory>)
        requires may { self.old.kept ≢ taken.revision
            → MayApply self.old.work (arc_value taken.filters) taken.sets taken.moves }
        ensures same { result.0 ≡ taken }
        ensures kept { OnOk result.1 (self.new.kept ≡ taken.revision) }
        ensures joined { OnOk result.1 (self.new.behind ≡ None) }
        ensures leads { Stays self.old self.new
            ⊎ GoesOn (arc_value taken.filters) taken.sets taken.revision self.old self.new }
    {
        if self.kept == taken.revision {
            let joined = self.join(alloc);
            return (taken, joined);
        }
        if self.stays_by(&taken) {
            let stayed = self.stay_until(alloc, &taken);
            return (taken, stayed);
        }
        self.go_by_taken(alloc, taken)
    }

    /// Goes on to what was taken of the same endpoint later, and gives that back. The one error is want of memory: then the
    /// work is as before, or has gone on, and what is kept leads to its map all the same.
    pub fn go_on(&mut self, alloc: Global, taken: Taken) -> Result<Taken, Memory>
        requires may { MayApply self.old.work (arc_value taken.filters) taken.sets taken.moves }
        ensures same { IfOk result (λ again. again ≡ taken) }
        ensures kept { OnOk result (self.new.kept ≡ taken.revision) }
        ensures joined { OnOk result (self.new.behind ≡ None) }
        ensures leads { Stays self.old self.new
            ⊎ GoesOn (arc_value taken.filters) taken.sets taken.revision self.old self.new }
    {
        let (taken, went) = self.try_go_on(alloc, taken);
        match went {
            Ok(()) => Ok(taken),
            Err(_) => Err(Memory),
        }
    }

    /// The map was published: no change leads on from it. It takes no memory.
    pub fn published(&mut self, alloc: Global)
        ensures shown { IsShown self.old self.new }
    {
        self.shown = Some(self.kept);
        self.base = Base::Own;
        self.pending = Pending::listed(no_changes(alloc));
        self.behind = None;
    }
}
