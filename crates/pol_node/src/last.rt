//! What the last sync told.
ghost use Rattle.std.specs.Prelude.{◌≡◌, IfOk, IfSome, IsTrue};
ghost use mathlib.Core.List.{IsPrefix};
ghost use Rattle.pol_history.specs.Calls.{IsSynced};
ghost use Rattle.pol_history.specs.Commits.{revision_of};

use crate::report::SyncReport;
use pol_board::{NodeName, Pass, Seen};
use pol_data::Memory;
use std::alloc::Global;
use std::marker::Model;
use std::sync::{Mutex, MutexGuard, Wait};

/// What a sync told, and what had been seen at its end, where no commit came while it ran. A sync that has seen no event
/// more tells the same. Contracts see what had been seen.
#[derive(Drop)]
pub(crate) struct LastSync<N: NodeName> {
    seen: Seen<N>,
    report: SyncReport,
}

impl<N: NodeName> Model for LastSync<N> {
    ghost use Rattle.std.specs.Prelude.{List};
    ghost use Rattle.pol_history.specs.declared.event.HistoryEvent.{HistoryEvent as OneEvent};
    ghost use Rattle.pol_history.specs.Calls.{IsSynced};

    ghost Value = { List OneEvent };

    ghost view = { λ s. s.seen };

    ghost invariant = { λ s. IsSynced N.options s.seen s.seen s.report.revision s.report.full };
}

// Whether both have seen the same.
fn is_same<N: NodeName>(one: &Seen<N>, other: &Seen<N>) -> bool
    ensures { IsTrue result → one.now ≡ other.now }
{
    if !one.begins(other) {
        return false;
    }
    other.begins(one)
}

// What was told at the end of what had been seen, where just this has been seen now.
fn told_again<N: NodeName>(
    alloc: Global,
    then: &Seen<N>,
    told: &SyncReport,
    seen: &Seen<N>,
) -> Result<Option<SyncReport>, Memory>
    requires tells { IsSynced N.options then.now then.now told.now.revision told.now.full }
    ensures tells { IfOk result (λ again.
        IfSome again (λ report. IsSynced N.options seen.now seen.now report.revision report.full)) }
{
    if !is_same(then, seen) {
        return Ok(None);
    }
    Ok(Some(told.copy(alloc)?))
}

impl<N: NodeName> LastSync<N> {
    // What was told, in memory of its own.
    fn of(alloc: Global, seen: Seen<N>, report: &SyncReport) -> Result<LastSync<N>, Memory>
        requires tells { IsSynced N.options seen seen report.now.revision report.now.full }
    {
        let report = report.copy(alloc)?;
        Ok(LastSync { seen, report })
    }

    // What it told, where just this had been seen.
    fn again(&self, alloc: Global, seen: &Seen<N>) -> Result<Option<SyncReport>, Memory>
        ensures tells { IfOk result (λ told.
            IfSome told (λ report. IsSynced N.options seen.now seen.now report.revision report.full)) }
    {
        told_again(alloc, &self.seen, &self.report, seen)
    }
}

/// What the last sync told, where the pass has seen just what had been seen at its end. The one error is want of memory.
pub(crate) fn told_last<N: NodeName, W: Wait>(
    rt: &W,
    alloc: Global,
    last: &Mutex<Option<LastSync<N>>>,
    pass: &Pass<N>,
) -> Result<Option<SyncReport>, Memory>
    ensures tells { IfOk result (λ told. IfSome told (λ report.
        IsSynced N.options pass.now.has.history pass.now.has.history report.revision report.full)) }
{
    let seen = pass.seen();
    let last = last.lock(rt);
    match &*last {
        Some(last) => last.again(alloc, &seen),
        None => Ok(None),
    }
}

/// Keeps what a sync told that began where `then` was seen, if it told the present revision and there is memory for it. If not,
/// the next one goes through the slots again.
pub(crate) fn keep<N: NodeName, W: Wait>(
    rt: &W,
    alloc: Global,
    last: &Mutex<Option<LastSync<N>>>,
    pass: &Pass<N>,
    then: &Seen<N>,
    report: &SyncReport,
    now: u64,
)
    requires begins { IsPrefix then.now pass.now.has.history }
    requires now { now ≡ revision_of pass.now.has.history }
    requires tells { IsSynced N.options then.now pass.now.has.history report.now.revision report.now.full }
{
    if report.revision != now {
        return;
    }
    if let Ok(told) = LastSync::of(alloc, pass.seen(), report) {
        let mut last = last.lock(rt);
        *last = Some(told);
        MutexGuard::unlock(last);
    }
}
