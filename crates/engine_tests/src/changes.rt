//! What a log of few changes tells, and one of 65,537.
ghost use Rattle.std.specs.Prelude.{◌≡◌, IfOk};
ghost use Rattle.pol_set_changes.specs.Log.{newest};

use pol_data::Memory;
use pol_set_changes::{ChangeLog, SetChange};
use pol_sets::IdSet;
use std::alloc::Global;
use std::test::Fail;

/// The set of this one number.
fn one(alloc: Global, id: u32) -> Result<IdSet, Memory> {
    let mut ids = Vec::new(alloc);
    ids.push(id)?;
    Ok(IdSet::from_ascending(ids))
}

/// That number 257 came to the selector's set.
fn came(alloc: Global, selector: u64, revision: u64) -> Result<SetChange, Memory>
    ensures { IfOk result (λ c. c.revision ≡ revision) }
{
    Ok(SetChange {
        selector,
        revision,
        gained: one(alloc, 257)?,
        lost: IdSet::new(alloc),
    })
}

/// That it came at an odd revision, and went at an even one.
fn came_or_went(alloc: Global, selector: u64, revision: u64) -> Result<SetChange, Memory>
    ensures { IfOk result (λ c. c.revision ≡ revision) }
{
    if revision % 2 == 1 {
        return came(alloc, selector, revision);
    }
    Ok(SetChange {
        selector,
        revision,
        gained: IdSet::new(alloc),
        lost: one(alloc, 257)?,
    })
}

/// Records so many changes of the selector's set, of the revisions from 1 on.
fn come_and_go(alloc: Global, log: &mut ChangeLog, selector: u64, turns: u32) -> Result<(), Memory>
    requires { newest log.old ≡ 0 }
{
    for turn in 0..turns {
        log.reserve(1)?;
        log.record(came_or_went(alloc, selector, u64::from(turn) + 1)?);
    }
    Ok(())
}

/// Whether the set gained exactly these numbers since the revision, and lost none.
fn gained_since(
    alloc: Global,
    log: &ChangeLog,
    selector: u64,
    revision: u64,
    ids: &[u32],
) -> Result<bool, Memory> {
    Ok(match log.since(alloc, selector, revision)? {
        None => false,
        Some(net) => net.selector == selector
            && net.gained.iter().eq(ids.iter().copied())
            && net.lost.is_empty(),
    })
}

#[test]
fn what_came_at_revision_2_is_gained_since_1(rt: HostRuntime) -> Result<(), Fail> {
    let alloc = rt.alloc();
    let mut log = ChangeLog::new(alloc);
    log.reserve(1)?;
    log.record(came(alloc, 1, 2)?);
    assert!(rt; gained_since(alloc, &log, 1, 1, &[257])?);
    assert!(rt; gained_since(alloc, &log, 1, 2, &[])?);
    assert!(rt; gained_since(alloc, &log, 65_537, 1, &[])?);
    assert!(rt; log.horizon() == 0);
    Ok(())
}

#[test]
fn of_65537_changes_the_first_is_dropped(rt: HostRuntime) -> Result<(), Fail> {
    let alloc = rt.alloc();
    let mut log = ChangeLog::new(alloc);
    come_and_go(alloc, &mut log, 1, 65_537)?;
    assert!(rt; log.horizon() == 1);
    assert!(rt; log.since(alloc, 1, 0)?.is_none());
    assert!(rt; gained_since(alloc, &log, 1, 1, &[])?);
    assert!(rt; gained_since(alloc, &log, 1, 65_536, &[257])?);
    Ok(())
}
