//! A finish.
ghost use Rattle.std.specs.Prelude.{◌≡◌, IfSome, None, OnErr, OnOk, Some, length};
ghost use Rattle.std.specs.Arc.{arc_value};
ghost use Rattle.pol_kept_map.specs.Work.{map_of};
ghost use Rattle.pol_distill.specs.Sorted.{HaveSets};
ghost use Rattle.pol_slot_map.specs.declared.follow.Followed.{Followed as OneFollowed};
ghost use Rattle.pol_history.specs.Machine.{is_reported};
ghost use Rattle.pol_history.specs.Reports.{published_before};
ghost use Rattle.pol_machine.specs.Parts.{Finishes, FinishesRow, FinishesSlot, FinishesTaken, Follows, HasFewKeys, IsShownOf, IsSmallMap, MayFinish, MayFinishTaken, MayGo, PublishesRow, Reports, by_slot, left_over};
ghost use Rattle.pol_machine.specs.Rows.{by_name};

use crate::double::DoubleTrie;
use crate::row::{MachineMap, MachineRow, Rows};
use crate::take::Takes;
use pol_data::Memory;
use pol_history::{LastReport, Reply};
use pol_map_changes::ChangeList;
use pol_slot_map::Followed;
use pol_taken::Taken;
use std::alloc::Global;

/// Whether the last report is of that revision.
fn is_reported(last: Option<LastReport>, revision: u64) -> bool
    ensures { result ≡ is_reported revision last }
{
    match last {
        Some(report) => report.revision == revision,
        None => false,
    }
}

/// The revision of the last published map, where a report was made.
fn published(last: Option<LastReport>) -> Option<u64>
    ensures { result ≡ published_before last }
{
    match last {
        None => None,
        Some(report) => report.published,
    }
}

/// Makes the map of what was taken: by what changed, where one was made before. Of a map of more entries than the limit says
/// no key is kept. It gives back what was taken. The one error is want of memory.
fn follow(
    alloc: Global,
    limit: u64,
    work: &mut Option<Followed>,
    taken: Taken,
) -> (Taken, Result<(), Memory>)
    requires sets { HaveSets taken.sets (arc_value taken.filters) }
    requires may { MayGo work.old taken }
    ensures same { result.0 ≡ taken }
    ensures follows { Follows work.old taken work.new result.1 }
{
    match work {
        Some(known) => known.try_go_on(alloc, taken),
        None => match Followed::start(alloc, &taken, limit) {
            Ok(made) => {
                *work = Some(made);
                (taken, Ok(()))
            }
            Err(_) => (taken, Err(Memory)),
        },
    }
}

/// The published map after these changes, with what each address was when it was taken. The one error is want of memory, and
/// then the map and the changes are as before.
fn show(
    alloc: Global,
    map: &mut Option<MachineMap>,
    changes: &mut ChangeList,
    taken: &Taken,
) -> Result<(), Memory>
    requires few { HasFewKeys map.old changes.old }
    ensures ok { OnOk result ((shown : MachineMap)
        × (map.new ≡ Some shown) × IsShownOf map.old changes.old taken.now shown) }
    ensures err { OnErr result ((map.new ≡ map.old) × (changes.new ≡ changes.old)) }
{
    changes.fits_together();
    let addresses = taken.addresses.clone()?;
    let revision = taken.revision;
    match map {
        Some(shown) => {
            shown.trie.change(alloc, changes)?;
            shown.revision = revision;
            shown.addresses = addresses;
        }
        None => {
            let mut trie = DoubleTrie::new(alloc);
            trie.change(alloc, changes)?;
            *map = Some(MachineMap {
                revision,
                trie,
                addresses,
            });
        }
    }
    Ok(())
}

/// Publishes the map that was made, after so many commits. The one error is want of memory, and then the row is as before.
fn publish(alloc: Global, row: &mut MachineRow, commits: u64, taken: &Taken) -> Result<(), Memory>
    requires made { (made : OneFollowed) × (row.old.work ≡ Some made) }
    requires few { IfSome row.old.work (λ made. HasFewKeys row.old.map made.pending) }
    ensures ok { OnOk result ((made : OneFollowed)
        → row.old.work ≡ Some made → PublishesRow commits taken.now row.old made row.new) }
    ensures err { OnErr result (row.new ≡ row.old) }
{
    match &mut row.work {
        None => unreachable!(),
        Some(work) => {
            let mut list = work.pending.list(alloc)?;
            show(alloc, &mut row.map, &mut list, taken)?;
            work.published(alloc);
            row.report = Some(LastReport {
                revision: taken.revision,
                commits,
                published: Some(taken.revision),
            });
            row.full = None;
            Ok(())
        }
    }
}

/// Notes that the map at the revision has so many entries, which are too many, after so many commits. It takes no memory.
fn block(row: &mut MachineRow, commits: u64, revision: u64, count: u64)
    ensures { row.new ≡ record row.old {
      report = Some (record {
        revision = revision;
        commits = commits;
        published = published_before row.old.report;
      });
      full = Some count;
    } }
{
    let published = published(row.report);
    row.report = Some(LastReport {
        revision,
        commits,
        published,
    });
    row.full = Some(count);
}

/// How many entries the map that was made has.
fn count_of(row: &MachineRow) -> u64
    requires made { (made : OneFollowed) × (row.now.work ≡ Some made) }
    ensures { IfSome row.now.work (λ made. result ≡ length (map_of made.work)) }
{
    match &row.work {
        None => unreachable!(),
        Some(made) => made.work.count(),
    }
}

/// Reports the map that was made, after so many commits: publishes it where it fits the limit. The one error is want of
/// memory, and then the row is as before.
fn report(
    alloc: Global,
    limit: u64,
    commits: u64,
    row: &mut MachineRow,
    taken: &Taken,
) -> Result<Reply, Memory>
    requires made { (made : OneFollowed) × (row.old.work ≡ Some made) }
    requires few { IfSome row.old.work (IsSmallMap limit row.old.map) }
    ensures { (made : OneFollowed) → row.old.work ≡ Some made
        → Reports limit commits taken.now row.old made row.new result }
{
    let count = count_of(row);
    if count <= limit {
        publish(alloc, row, commits, taken)?;
        return Ok(Reply::Published(taken.revision));
    }
    block(row, commits, taken.revision, count);
    Ok(Reply::Full {
        revision: taken.revision,
        count,
    })
}

/// Finishes what was taken of the endpoint of this row, and gives it back. The one error is want of memory: nothing was
/// reported, but the map may be made.
fn finish_row(
    alloc: Global,
    limit: u64,
    commits: u64,
    row: &mut MachineRow,
    taken: Taken,
) -> (Taken, Result<Reply, Memory>)
    requires sets { HaveSets taken.sets (arc_value taken.filters) }
    requires may { MayFinish limit taken row.old }
    ensures same { result.0 ≡ taken }
    ensures finishes { FinishesRow limit commits taken row.old row.new result.1 }
{
    let revision = taken.revision;
    if is_reported(row.report, revision) {
        return (taken, Ok(Reply::Already(revision)));
    }
    let (taken, followed) = follow(alloc, limit, &mut row.work, taken);
    match followed {
        Ok(()) => {
            let reply = report(alloc, limit, commits, row, &taken);
            (taken, reply)
        }
        Err(_) => (taken, Err(Memory)),
    }
}

/// Finishes what was taken, and gives it back. The one error is want of memory.
fn finish_taken(
    alloc: Global,
    limit: u64,
    commits: u64,
    rows: &mut Rows,
    taken: Taken,
) -> (Taken, Result<Reply, Memory>)
    requires sets { HaveSets taken.sets (arc_value taken.filters) }
    requires may { MayFinishTaken limit taken (by_name rows.old taken.endpoint.name) }
    ensures same { result.0 ≡ taken }
    ensures finishes { FinishesTaken limit commits taken (by_name rows.old taken.endpoint.name)
        (by_name rows.old) (by_name rows.new) (left_over taken result.1) result.1 }
{
    match rows.get_mut(&taken.endpoint.name) {
        None => (taken, Ok(Reply::Gone)),
        Some(row) => {
            if row.added != taken.endpoint.added {
                return (taken, Ok(Reply::Gone));
            }
            finish_row(alloc, limit, commits, row, taken)
        }
    }
}

/// What was taken is put back, where there was no memory to finish it.
fn put_back(
    place: &mut Option<Taken>,
    taken: Taken,
    reply: Result<Reply, Memory>,
) -> Result<Reply, Memory>
    requires spent { place.old ≡ None }
    ensures left { place.new ≡ left_over taken reply }
    ensures same { result ≡ reply }
{
    if let Err(_) = reply {
        *place = Some(taken);
    }
    reply
}

/// Finishes what stands in a slot's place, and spends it. The one error is want of memory, and then it still stands there.
fn finish_place(
    alloc: Global,
    limit: u64,
    commits: u64,
    rows: &mut Rows,
    place: &mut Option<Taken>,
) -> Result<Reply, Memory>
    requires sets { IfSome place.old (λ taken. HaveSets taken.sets (arc_value taken.filters)) }
    requires may { IfSome place.old (λ taken. MayFinishTaken limit taken (by_name rows.old taken.endpoint.name)) }
    ensures { Finishes limit commits place.old (by_name rows.old) (by_name rows.new) place.new result }
{
    match place.take() {
        None => Ok(Reply::Idle),
        Some(taken) => {
            let (taken, reply) = finish_taken(alloc, limit, commits, rows, taken);
            put_back(place, taken, reply)
        }
    }
}

/// Finishes what the slot has taken, after so many commits, and spends it: publishes the map where it has as many entries as
/// the limit says at most. The one error is want of memory, and then nothing was reported, and what was taken is still there.
pub(crate) fn finish(
    alloc: Global,
    limit: u64,
    commits: u64,
    rows: &mut Rows,
    takes: &mut Takes,
    slot: u32,
) -> Result<Reply, Memory>
    requires sets { IfSome (by_slot takes.old slot) (λ taken. HaveSets taken.sets (arc_value taken.filters)) }
    requires may { IfSome (by_slot takes.old slot) (λ taken.
        MayFinishTaken limit taken (by_name rows.old taken.endpoint.name)) }
    ensures { FinishesSlot limit commits slot
        (by_slot takes.old) (by_name rows.old) (by_name rows.new) (by_slot takes.new) result }
{
    match takes.get_mut(&slot) {
        None => Ok(Reply::Idle),
        Some(place) => finish_place(alloc, limit, commits, rows, place),
    }
}
