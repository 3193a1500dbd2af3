//! What a slot's lock holds.
ghost use Rattle.std.specs.Prelude.{◌≡◌, [], false, IfErr, IfOk, IfSome, IsSomeAnd, None, OnOk, Some, length, option_map};
ghost use mathlib.Core.List.{IsPrefix};
ghost use Rattle.pol_history.specs.Commits.{revision_of, state_now};
ghost use Rattle.pol_history.specs.Grows.{PassGrows, PassGrowsWhole};
ghost use Rattle.pol_history.specs.Machine.{endpoint_id};
ghost use Rattle.pol_history.specs.Reports.{last_report};
ghost use Rattle.pol_history.specs.SlotTurns.{TellsTurn};
ghost use Rattle.pol_model.specs.PolicyMap.{policy_map};
ghost use Rattle.pol_node.specs.declared.kept.KeptEndpoint.{KeptEndpoint as OneKept};
ghost use Rattle.pol_node.specs.Finish.{Finishes, Regenerates};
ghost use Rattle.pol_node.specs.Kept.{IsKeptOf, IsKeptWith, IsLastNow, Keeps, NotRegenerated, NotReported, ReportsOn, ShowsOn, report_in, since_of};
ghost use Rattle.pol_node.specs.KeptAfter.{KeepsAfterError, KeepsAt, KeepsStill, KeepsUnlessGone};
ghost use Rattle.pol_node.specs.Lost.{is_gone, is_lost, is_overtaken, says_gone};
ghost use Rattle.pol_node.specs.Slot.{IsMade, IsTakenAt, TellsAnyTurn, TellsMovesFrom, regen_of, turn_of};
ghost use Rattle.pol_node.specs.TakenFor.{TakesFor};
ghost use Rattle.pol_slot_map.specs.Followed.{id_in};

use crate::desk::Desk;
use crate::kept::{KeptEndpoint, NotTaken, let_go};
use crate::report::{Finished, Regen, RegenError, Reported};
use pol_board::{NodeName, Pass, Seen};
use pol_data::Memory;
use pol_history::SlotTurn;
use pol_model::FullSlot;
use pol_slot_map::Followed;
use pol_taken::Taken;
use std::alloc::Global;
use std::marker::Model;
use std::sync::{Mutex, MutexGuard, Wait};

/// A slot: its pass, and the endpoint that it follows, with its last report and the map that was made of it last. Whoever has
/// the slot tells its number with each call. Contracts see the pass, and what is kept of reports.
#[derive(Drop)]
pub struct Slot<N: NodeName> {
    pass: Pass<N>,
    // Of a map of more entries no key is kept.
    limit: u64,
    kept: Option<KeptEndpoint>,
}

impl<N: NodeName> Model for Slot<N> {
    ghost use Rattle.std.specs.Prelude.{IfSome, option_map};
    ghost use Rattle.pol_node.specs.Kept.{Keeps, report_in};
    ghost use Rattle.pol_node.specs.Slot.{SlotState};

    ghost Value = { SlotState };

    ghost view = { λ s. record { pass = s.pass; kept = option_map report_in s.kept } };

    ghost invariant = { λ s. IfSome s.kept (Keeps N.options s.pass.has.history) };
}

/// What a regeneration did, and what a sync learns of it.
#[derive(Drop)]
struct Done {
    regen: Regen,
    turn: SlotTurn,
}

/// Takes in what another has seen, and takes what the map of the slot's endpoint is made of, under the desk's lock. What is kept
/// of another endpoint is let go.
fn take<N: NodeName, W: Wait, R: Wait + Drop>(
    rt: &W,
    alloc: Global,
    desk: &Mutex<Desk<N, R>>,
    pass: &mut Pass<N>,
    seen: Seen<N>,
    slot: u32,
    kept: &mut Option<KeptEndpoint>,
) -> Result<Taken, NotTaken>
    requires kept { IfSome kept.old (IsKeptOf N.options pass.old.has.history) }
    ensures grows { PassGrowsWhole N.options pass.old pass.new [] }
    ensures learned { IsPrefix seen pass.new.has.history }
    ensures takes { TakesFor N.options pass.new.has.history slot kept.old kept.new result }
{
    pass.learn(rt, seen);
    let mut desk = desk.lock(rt);
    let taken = desk.take_for(rt, alloc, pass, slot, kept);
    MutexGuard::unlock(desk);
    taken
}

/// Reports the map that was made of what was taken, under the desk's lock.
fn finish<N: NodeName, W: Wait, R: Wait + Drop>(
    rt: &W,
    alloc: Global,
    desk: &Mutex<Desk<N, R>>,
    pass: &mut Pass<N>,
    taken: &Taken,
    kept: &KeptEndpoint,
) -> Result<Reported, RegenError>
    requires taken { IsTakenAt N.options pass.old.has.history taken.now.endpoint.slot taken.now }
    requires keeps { Keeps N.options pass.old.has.history kept.now }
    requires made { IsMade taken.now kept.now.followed }
    ensures grows { PassGrowsWhole N.options pass.old pass.new [] }
    ensures finished { IfOk result (λ done.
        Finishes N.options (endpoint_id taken.now.endpoint) taken.now.revision
        (length (policy_map N.options (state_now N.options pass.old.has.history) taken.now.endpoint))
        pass.old.has.history pass.new.has.history done.finished) }
    ensures reported { IfOk result (λ done.
        ReportsOn N.options pass.new.has.history (endpoint_id taken.now.endpoint) taken.now.revision kept.now.last
        done.finished done.last) }
    ensures cause { IfErr result (NotReported N.options pass.new.has.history
        (endpoint_id taken.now.endpoint) (last_report (endpoint_id taken.now.endpoint) pass.old.has.history)) }
{
    let count = kept.followed.work.count();
    let mut desk = desk.lock(rt);
    let done = desk.finish(
        rt,
        alloc,
        pass,
        taken,
        count,
        kept.last,
        &kept.followed.pending,
    );
    MutexGuard::unlock(desk);
    done
}

/// Makes the map of what was taken: by what changed, where the endpoint is followed. Of a map of more entries than the limit
/// says no key is kept. The one error is want of memory, and what is kept is of the history all the same.
fn follow<N: NodeName>(
    alloc: Global,
    limit: u64,
    pass: &Pass<N>,
    kept: &mut Option<KeptEndpoint>,
    taken: Taken,
) -> Result<Taken, Memory>
    requires taken { IsTakenAt N.options pass.now.has.history taken.endpoint.slot taken }
    requires moves { TellsMovesFrom N.options pass.now.has.history (since_of kept.old) taken }
    requires keeps { IfSome kept.old (Keeps N.options pass.now.has.history) }
    requires known { IsKeptWith pass.now.has.history taken.endpoint kept.old }
    ensures same { IfOk result (λ again. again ≡ taken) }
    ensures made { OnOk result ((k : OneKept) × (kept.new ≡ Some k) × IsMade taken k.followed) }
    ensures keeps { IfSome kept.new (Keeps N.options pass.now.has.history) }
    ensures known { IsKeptWith pass.now.has.history taken.endpoint kept.new }
{
    let _ = pass;
    match kept {
        Some(known) => return known.followed.go_on(alloc, taken),
        None => {}
    }
    *kept = Some(KeptEndpoint {
        followed: Followed::start(alloc, &taken, limit)?,
        last: None,
    });
    Ok(taken)
}

/// What is told of what was taken, whose map has so many entries. It takes no memory.
fn make_done(finished: Finished, taken: Taken, count: u64) -> Done
    ensures regen { result.regen ≡ regen_of taken.revision count finished }
    ensures turn { result.turn
        ≡ turn_of (record { name = taken.endpoint.name; revision = taken.revision; count = count }) finished }
    ensures agree { says_gone result.regen ≡ is_gone result.turn }
{
    let Taken {
        revision,
        endpoint,
        ..
    } = taken;
    let row = FullSlot {
        name: endpoint.name,
        revision,
        count,
    };
    match finished {
        Finished::Published => Done {
            regen: Regen::Published(revision),
            turn: SlotTurn::Shown,
        },
        Finished::Already { published: true } => Done {
            regen: Regen::Already(revision),
            turn: SlotTurn::Shown,
        },
        Finished::Already { published: false } => Done {
            regen: Regen::Already(revision),
            turn: SlotTurn::Full(row),
        },
        Finished::Full => Done {
            regen: Regen::Full { revision, count },
            turn: SlotTurn::Full(row),
        },
        Finished::Gone => Done {
            regen: Regen::Gone,
            turn: SlotTurn::Gone,
        },
    }
}

/// What is followed once its map was finished so. It takes no memory.
fn show_on(alloc: Global, followed: &mut Followed, finished: Finished)
    ensures { ShowsOn finished followed.old followed.new }
{
    match finished {
        Finished::Published => followed.published(alloc),
        Finished::Already { published: _ } => {}
        Finished::Full => {}
        Finished::Gone => {}
    }
}

/// What is kept of an endpoint once its map was finished, where the endpoint isn't gone. It takes no memory.
fn keep_on<N: NodeName>(
    alloc: Global,
    pass: &Pass<N>,
    kept: &mut KeptEndpoint,
    taken: &Taken,
    reported: Reported,
)
    requires keeps { IsKeptOf N.options pass.now.has.history kept.old }
    requires made { IsMade taken.now kept.old.followed }
    requires reported { ReportsOn N.options pass.now.has.history (endpoint_id taken.now.endpoint) taken.now.revision
        kept.old.last reported.finished reported.last }
    ensures keeps { (reported.finished ≡ Finished.Gone → ⊥) → Keeps N.options pass.now.has.history kept.new }
    ensures same { id_in kept.new.followed ≡ endpoint_id taken.now.endpoint }
{
    let _ = pass;
    let _ = taken;
    show_on(alloc, &mut kept.followed, reported.finished);
    kept.last = reported.last;
}

/// Reports the map that was made of what was taken, and tells what was done.
fn report<N: NodeName, W: Wait, R: Wait + Drop>(
    rt: &W,
    alloc: Global,
    desk: &Mutex<Desk<N, R>>,
    pass: &mut Pass<N>,
    taken: Taken,
    kept: &mut KeptEndpoint,
) -> Result<Done, RegenError>
    requires taken { IsTakenAt N.options pass.old.has.history taken.endpoint.slot taken }
    requires keeps { Keeps N.options pass.old.has.history kept.old }
    requires made { IsMade taken kept.old.followed }
    ensures grows { PassGrowsWhole N.options pass.old pass.new [] }
    ensures regen { IfOk result (λ done.
        Regenerates N.options taken.endpoint.slot pass.old.has.history pass.new.has.history done.regen) }
    ensures turn { IfOk result (λ done.
        TellsAnyTurn N.options taken.endpoint.slot pass.old.has.history pass.new.has.history done.turn) }
    ensures agree { IfOk result (λ done. says_gone done.regen ≡ is_gone done.turn) }
    ensures keeps { IfOk result (λ done. is_gone done.turn ≡ false
        → KeepsAt N.options pass.new.has.history taken.endpoint.slot kept.new) }
    ensures cause { IfErr result (NotReported N.options pass.new.has.history
        (endpoint_id taken.endpoint) (last_report (endpoint_id taken.endpoint) pass.old.has.history)) }
    ensures left { IfErr result (λ error. is_overtaken error ≡ false
        → KeepsAt N.options pass.new.has.history taken.endpoint.slot kept.new) }
{
    let count = kept.followed.work.count();
    let reported = finish(rt, alloc, desk, pass, &taken, kept)?;
    keep_on(alloc, pass, kept, &taken, reported);
    Ok(make_done(reported.finished, taken, count))
}

/// Takes in what another has seen, takes under the desk's lock, builds outside of it, and finishes under it; it tells what was
/// done, and what a sync learns of that that had seen the same. Where the endpoint is gone, or another has reported it, what is
/// kept isn't told.
fn regenerate<N: NodeName, W: Wait, R: Wait + Drop>(
    rt: &W,
    alloc: Global,
    desk: &Mutex<Desk<N, R>>,
    slot: u32,
    limit: u64,
    pass: &mut Pass<N>,
    seen: Seen<N>,
    kept: &mut Option<KeptEndpoint>,
) -> Result<Done, RegenError>
    requires kept { IfSome kept.old (IsKeptOf N.options pass.old.has.history) }
    ensures grows { PassGrowsWhole N.options pass.old pass.new [] }
    ensures regen { IfOk result (λ done.
        Regenerates N.options slot pass.old.has.history pass.new.has.history done.regen) }
    ensures turn { IfOk result (λ done. TellsAnyTurn N.options slot seen pass.new.has.history done.turn) }
    ensures agree { IfOk result (λ done. says_gone done.regen ≡ is_gone done.turn) }
    ensures keeps { IfOk result (λ done.
        is_gone done.turn ≡ false → IsSomeAnd kept.new (KeepsAt N.options pass.new.has.history slot)) }
    ensures cause { IfErr result
        (NotRegenerated N.options pass.new.has.history slot (option_map report_in kept.old)) }
    ensures left { IfErr result (λ error.
        is_overtaken error ≡ false → KeepsStill N.options pass.new.has.history slot kept.new) }
{
    let taken = match take(rt, alloc, desk, pass, seen, slot, kept) {
        Ok(taken) => taken,
        Err(NotTaken::Gone) => {
            return Ok(Done {
                regen: Regen::Gone,
                turn: SlotTurn::Gone,
            });
        }
        Err(NotTaken::Memory) => return Err(RegenError::Memory),
        Err(NotTaken::Overtaken) => return Err(RegenError::Overtaken),
    };
    let taken = follow(alloc, limit, pass, kept, taken)?;
    match kept {
        Some(kept) => report(rt, alloc, desk, pass, taken, kept),
        None => unreachable!(),
    }
}

/// Whether the endpoint is gone, or another has reported it.
fn tells_lost(done: &Result<Done, RegenError>) -> bool
    ensures { result ≡ is_lost done.now }
{
    match done {
        Ok(done) => matches!(done.turn, SlotTurn::Gone),
        Err(RegenError::Memory) => false,
        Err(RegenError::Overtaken) => true,
    }
}

/// The same. What is kept of an endpoint that is gone, or that another has reported, is let go.
fn regenerate_kept<N: NodeName, W: Wait, R: Wait + Drop>(
    rt: &W,
    alloc: Global,
    desk: &Mutex<Desk<N, R>>,
    slot: u32,
    limit: u64,
    pass: &mut Pass<N>,
    seen: Seen<N>,
    kept: &mut Option<KeptEndpoint>,
) -> Result<Done, RegenError>
    requires keeps { IfSome kept.old (Keeps N.options pass.old.has.history) }
    ensures grows { PassGrowsWhole N.options pass.old pass.new [] }
    ensures regen { IfOk result (λ done.
        Regenerates N.options slot pass.old.has.history pass.new.has.history done.regen) }
    ensures turn { IfOk result (λ done. TellsAnyTurn N.options slot seen pass.new.has.history done.turn) }
    ensures agree { IfOk result (λ done. says_gone done.regen ≡ is_gone done.turn) }
    ensures keeps { IfSome kept.new (Keeps N.options pass.new.has.history) }
    ensures kept { IfOk result (λ done. KeepsUnlessGone N.options pass.new.has.history slot
        (option_map report_in kept.new) (is_gone done.turn)) }
    ensures cause { IfErr result
        (NotRegenerated N.options pass.new.has.history slot (option_map report_in kept.old)) }
    ensures left { IfErr result
        (KeepsAfterError N.options pass.new.has.history slot (option_map report_in kept.new)) }
{
    let done = regenerate(rt, alloc, desk, slot, limit, pass, seen, kept);
    let_go(kept, tells_lost(&done));
    done
}

impl<N: NodeName> Slot<N> {
    /// A slot that follows no endpoint. Of a map of more entries than the limit says it will keep no key. It takes no memory.
    pub fn open(pass: Pass<N>, limit: u64) -> Slot<N>
        ensures pass { result.pass ≡ pass }
        ensures kept { result.kept ≡ None }
    {
        Slot {
            pass,
            limit,
            kept: None,
        }
    }

    /// Takes in what another has seen, regenerates the endpoint of the slot of that number, and tells what was done, and what a
    /// sync learns of that that had seen the same.
    fn turn<W: Wait, R: Wait + Drop>(
        &mut self,
        rt: &W,
        alloc: Global,
        desk: &Mutex<Desk<N, R>>,
        number: u32,
        seen: Seen<N>,
    ) -> Result<Done, RegenError>
        ensures grows { PassGrowsWhole N.options self.old.pass self.new.pass [] }
        ensures regen { IfOk result (λ done.
            Regenerates N.options number self.old.pass.has.history self.new.pass.has.history done.regen) }
        ensures turn { IfOk result (λ done. TellsAnyTurn N.options number seen self.new.pass.has.history done.turn) }
        ensures kept { IfOk result (λ done.
            KeepsUnlessGone N.options self.new.pass.has.history number self.new.kept (is_gone done.turn)) }
        ensures cause { IfErr result (NotRegenerated N.options self.new.pass.has.history number self.old.kept) }
        ensures left { IfErr result (KeepsAfterError N.options self.new.pass.has.history number self.new.kept) }
    {
        regenerate_kept(
            rt,
            alloc,
            desk,
            number,
            self.limit,
            &mut self.pass,
            seen,
            &mut self.kept,
        )
    }

    /// The call tells that the endpoint that is followed lives after all commits that the slot's pass has seen, and that its
    /// last report there is the one that is kept.
    pub fn fits_together(&self)
        ensures { IfSome self.now.kept (λ kept. IsLastNow N.options self.now.pass.has.history kept.endpoint kept.last) }
    {
        let _ = &self.pass;
    }

    /// Takes in what another has seen, regenerates the endpoint of the slot of that number, and shows the other what was
    /// done. What the other had seen comes first, so that what is told is of no time before it. The number is the caller's:
    /// what is kept is tied to its endpoint, and to no number.
    ///
    /// `Memory` is want of memory, and `Overtaken` comes where another than the slot has reported its endpoint: as of
    /// `regenerate_over`.
    pub fn turn_for<W: Wait, R: Wait + Drop>(
        &mut self,
        rt: &W,
        alloc: Global,
        desk: &Mutex<Desk<N, R>>,
        number: u32,
        pass: &mut Pass<N>,
    ) -> Result<SlotTurn, RegenError>
        ensures grows { PassGrows N.options pass.old pass.new [] }
        ensures turn { IfOk result
            (TellsTurn N.options number pass.old.has.history pass.new.has.history (revision_of pass.old.has.history)) }
        ensures kept { IfOk result (λ turn.
            KeepsUnlessGone N.options self.new.pass.has.history number self.new.kept (is_gone turn)) }
        ensures cause { IfErr result (NotRegenerated N.options self.new.pass.has.history number self.old.kept) }
        ensures left { IfErr result (KeepsAfterError N.options self.new.pass.has.history number self.new.kept) }
    {
        let done = self.turn(rt, alloc, desk, number, pass.seen());
        pass.learn(rt, self.pass.seen());
        match done {
            Ok(done) => Ok(done.turn),
            Err(error) => Err(error),
        }
    }

    /// Regenerates the endpoint of the slot of that number: takes it under the desk's lock, makes its map outside of it, and
    /// reports that under it.
    ///
    /// After each answer but `Gone` the slot keeps its endpoint's last report, after `Gone` none.
    ///
    /// `Memory` is want of memory: no report was added, so that the last one of the slot's endpoint is the one that was kept
    /// before, and goes on to be kept; but the board's writer may be spent. `Overtaken` comes where that last report is another
    /// one: somebody else has reported the endpoint. In every run nobody does, since there is one slot for each number.
    pub fn regenerate_over<W: Wait, R: Wait + Drop>(
        &mut self,
        rt: &W,
        alloc: Global,
        desk: &Mutex<Desk<N, R>>,
        number: u32,
    ) -> Result<Regen, RegenError>
        ensures grows { PassGrowsWhole N.options self.old.pass self.new.pass [] }
        ensures regen { IfOk result (Regenerates N.options number self.old.pass.has.history self.new.pass.has.history) }
        ensures kept { IfOk result (λ regen.
            KeepsUnlessGone N.options self.new.pass.has.history number self.new.kept (says_gone regen)) }
        ensures cause { IfErr result (NotRegenerated N.options self.new.pass.has.history number self.old.kept) }
        ensures left { IfErr result (KeepsAfterError N.options self.new.pass.has.history number self.new.kept) }
    {
        let seen = self.pass.seen();
        let done = regenerate_kept(
            rt,
            alloc,
            desk,
            number,
            self.limit,
            &mut self.pass,
            seen,
            &mut self.kept,
        )?;
        Ok(done.regen)
    }
}
