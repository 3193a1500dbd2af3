//! The calls of the node.
ghost use Rattle.std.specs.Prelude.{◌≡◌, ◌+◌, ◌<◌, ◌≤◌, ◌∷◌, ◌++◌, [], false, IfErr, IfOk, IsErrOf, List, Ok, OnErr, OnOk, Some, drop, length, map, slice_get, true, ℕ};
ghost use mathlib.Core.List.{IsPrefix};
ghost use Rattle.pol_history.specs.declared.event.HistoryEvent.{HistoryEvent as OneEvent};
ghost use Rattle.std.specs.List.{AllByRecursion};
ghost use Rattle.pol_model.specs.Committed.{slots_of};
ghost use Rattle.pol_model.specs.Sizes.{IsShort};
ghost use Rattle.pol_repo.specs.Cost.{label_peers};
ghost use Rattle.pol_requests.specs.Prepared.{is_of_policy};
ghost use Rattle.pol_history.specs.Calls.{IsAccepted, IsSynced, IsTraced};
ghost use Rattle.pol_history.specs.Commits.{revision_of, state_now};
ghost use Rattle.pol_history.specs.Grows.{PassGrows, PassGrowsWhole, PassState, nothing_yet};
ghost use Rattle.pol_history.specs.Legal.{IsLegal};
ghost use Rattle.pol_history.specs.Look.{look};
ghost use Rattle.pol_history.specs.Meet.{HaveMet, has, meetings_of};
ghost use Rattle.pol_history.specs.SlotTurns.{EachTells};
ghost use Rattle.pol_board.specs.Counts.{new_passes};
ghost use Rattle.pol_board_view.specs.Answers.{IsLookOf};
ghost use Rattle.pol_node.specs.Desk.{IsCauseOf, IsNotTraced};
ghost use Rattle.pol_node.specs.Finish.{HasRegenerated};

use crate::desk::Desk;
use crate::last::{LastSync, keep, told_last};
use crate::report::{Config, Regen, RegenError, SyncReport, TraceError, Traced};
use crate::rows::rows_in;
use crate::slot::Slot;
use left_right::Absorb;
use pol_board::{BoardWriter, LookError, NodeName, Pass, Verdict};
use pol_board_view::{Face, FaceOp};
use pol_data::{Memory, Steps};
use pol_history::SlotTurn;
use pol_model::{CommitError, Committed, Query, Request};
use pol_repo::Repo;
use std::alloc::Global;
use std::sync::ledger::Ledger;
use std::sync::{Mutex, MutexGuard, Wait};

/// The running node: a desk behind one lock, and a slot for each endpoint that can be live, each behind its own. It can't be
/// dropped, and is ended by `close`.
pub struct Node<N: NodeName, R: Wait + Drop>
where
    Face<N>: Absorb<FaceOp<N>>,
{
    desk: Mutex<Desk<N, R>>,
    slots: Vec<Mutex<Slot<N>>>,
    last: Mutex<Option<LastSync<N>>>,
    ghost all: { length slots.items ≡ 256 },
}

/// A slot for each of these passes, with this limit.
fn slots_of_passes<N: NodeName>(
    alloc: Global,
    passes: Vec<Pass<N>>,
    limit: u64,
) -> Result<Vec<Mutex<Slot<N>>>, Memory>
    requires few { length passes.items ≤ 256 }
    ensures { IfOk result (λ slots. length slots.items ≡ length passes.items) }
{
    let mut slots = Vec::new(alloc);
    for pass in passes {
        slots.push(Mutex::new(Slot::open(pass, limit)))?;
    }
    Ok(slots)
}

/// The slots, over the first 256 passes. The next pass is left out, and the others are handed out.
fn seated<N: NodeName>(
    alloc: Global,
    places: Vec<Pass<N>>,
    limit: u64,
) -> Result<(Vec<Mutex<Slot<N>>>, Vec<Pass<N>>), Memory>
    requires enough { 257 ≤ length places.items }
    ensures slots { IfOk result (λ seated. length seated.0.items ≡ 256) }
    ensures rest { IfOk result (λ seated. seated.1.items ≡ drop 257 places.items) }
{
    let mut places = places;
    let handed_out = places.split_off(257)?;
    places.truncate(256);
    Ok((slots_of_passes(alloc, places, limit)?, handed_out))
}

/// Shows the history to the pass, under the lock.
fn show<N: NodeName, W: Wait, R: Wait + Drop>(
    rt: &W,
    desk: &Mutex<Desk<N, R>>,
    pass: &mut Pass<N>,
) -> (u64, u64)
    ensures grows { PassGrowsWhole N.options pass.old pass.new [] }
    ensures revision { result.0 ≡ revision_of pass.new.has.history }
    ensures slots { slots_of (state_now N.options pass.new.has.history).endpoints ≡ result.1 }
    ensures few { result.1 ≤ 256 }
{
    let mut desk = desk.lock(rt);
    let shown = desk.show(rt, pass);
    MutexGuard::unlock(desk);
    shown
}

/// One turn more.
fn push_turn(turns: &mut Vec<SlotTurn>, turn: SlotTurn) -> Result<(), Memory>
    ensures { OnOk result (turns.new.items ≡ turns.old.items ++ turn ∷ []) }
{
    turns.push(turn)?;
    Ok(())
}

/// The turn of each of these slots, one after another.
fn turns_of<N: NodeName, W: Wait, R: Wait + Drop>(
    rt: &W,
    alloc: Global,
    desk: &Mutex<Desk<N, R>>,
    slots: &[Mutex<Slot<N>>],
    pass: &mut Pass<N>,
) -> Result<Vec<SlotTurn>, RegenError>
    requires few { length slots.now ≤ 256 }
    requires legal { IsLegal N.options pass.old.has.history }
    ensures grows { PassGrows N.options pass.old pass.new [] }
    ensures each { IfOk result (λ turns. length turns.items ≡ length slots.now) }
    ensures tell { IfOk result (λ turns. EachTells N.options pass.old.has.history pass.new.has.history
        (revision_of pass.old.has.history) 0 turns.items) }
{
    let mut turns = Vec::new(alloc);
    for number in 0..slots.len() {
        let mut slot = slots[number].lock(rt);
        let turn = slot.turn_for(rt, alloc, desk, number as u32, pass)?;
        push_turn(&mut turns, turn)?;
    }
    Ok(turns)
}

/// The turns of all slots in use, where the revision is that of what the pass has seen; and all that is shown to the pass. It
/// tells what a sync tells that began at any moment before, and keeps that for the next one, where no commit came meanwhile.
fn sync_slots<N: NodeName, W: Wait, R: Wait + Drop>(
    rt: &W,
    alloc: Global,
    desk: &Mutex<Desk<N, R>>,
    slots: &[Mutex<Slot<N>>],
    last: &Mutex<Option<LastSync<N>>>,
    pass: &mut Pass<N>,
    revision: u64,
) -> Result<SyncReport, RegenError>
    requires few { length slots.now ≤ 256 }
    requires all { slots_of (state_now N.options pass.old.has.history).endpoints ≤ length slots.now }
    requires legal { IsLegal N.options pass.old.has.history }
    requires revision { revision ≡ revision_of pass.old.has.history }
    ensures grows { PassGrows N.options pass.old pass.new [] }
    ensures whole { OnOk result (PassGrowsWhole N.options pass.old pass.new []) }
    ensures synced { IfOk result (λ report. (first : List OneEvent) → IsPrefix first pass.old.has.history
        → IsSynced N.options first pass.new.has.history report.revision report.full) }
{
    let then = pass.seen();
    let turns = turns_of(rt, alloc, desk, slots, pass)?;
    let full = rows_in(alloc, turns)?;
    let (now, _) = show(rt, desk, pass);
    let report = SyncReport { revision, full };
    keep(rt, alloc, last, pass, &then, &report, now);
    Ok(report)
}

impl<N: NodeName, R: Wait + Drop> Node<N, R> {
    /// A node over the writer and the places of a new board: one for each of 256 slots, one of the writer, and the last
    /// ones, which are handed out. Where it is refused it has closed the writer.
    ///
    /// The one error is want of memory.
    pub fn new<W: Wait>(
        rt: &W,
        alloc: Global,
        config: Config,
        writer: BoardWriter<N, R>,
        places: Vec<Pass<N>>,
    ) -> Result<(Node<N, R>, Vec<Pass<N>>), Memory>
        requires options { N.options
            ≡ record { mode = config.mode; localhost = config.localhost; map_max = Some config.map_max } }
        requires limit { config.map_max ≤ 65536 }
        requires passes { (0 < config.passes) × (config.passes ≤ 40) }
        requires empty { writer.seen ≡ [] }
        requires places { places.items ≡ new_passes (257 + config.passes) }
        requires handed_out { N.passes ≡ map (λ pass. pass.number) (drop 257 places.items) }
        ensures count { IfOk result (λ made. length made.1.items ≡ config.passes) }
        ensures those { IfOk result (λ made. map (λ pass. pass.number) made.1.items ≡ N.passes) }
        ensures nothing { IfOk result (λ made. AllByRecursion (λ pass. pass.has ≡ nothing_yet) made.1.items) }
        ensures apart { IfOk result (λ made. (i j : ℕ) (one other : PassState) → slice_get made.1.items i ≡ Some one
            → slice_get made.1.items j ≡ Some other → one.number ≡ other.number → i ≡ j) }
    {
        let (slots, passes) = match seated(alloc, places, config.map_max as u64) {
            Ok(seated) => seated,
            Err(error) => {
                writer.close(rt);
                return Err(error);
            }
        };
        let repo = match Repo::new(alloc, config.mode, config.localhost) {
            Ok(repo) => repo,
            Err(error) => {
                writer.close(rt);
                return Err(error);
            }
        };
        let desk = Mutex::new(Desk::open(repo, writer, config.map_max));
        let last = Mutex::new(None);
        Ok((Node { desk, slots, last }, passes))
    }

    /// Ends it, and the writer of its board. It takes no memory.
    pub fn close<W: Wait>(self, rt: &W) {
        let Node {
            desk,
            slots: _slots,
            last: _last,
        } = self;
        desk.into_inner().close(rt);
    }

    /// Commits the request. After any refusal the board's history and the repository are as before.
    ///
    /// `Refused` names the fault of the request at the revision that it carries. `Memory` is want of memory, and the
    /// board's writer may then be spent. It waits for the desk's lock, and under it for readers that are within a look, also for
    /// one whose thread is put aside there.
    pub fn commit<W: Wait, L: Ledger>(
        &self,
        rt: &W,
        alloc: Global,
        pass: &mut Pass<N>,
        request: Request,
        steps: &mut Steps<L>,
    ) -> Result<Committed, CommitError>
        requires handed_out { has N.passes pass.old.number ≡ true }
        requires short { IsShort request }
        ensures grows { OnOk result (PassGrowsWhole N.options pass.old pass.new (request ∷ [])) }
        ensures accepted { IfOk result
            (IsAccepted N.options pass.old.number pass.old.has.history pass.new.has.history request) }
        ensures nothing { OnErr result (PassGrowsWhole N.options pass.old pass.new []) }
        ensures cause { IfErr result (IsCauseOf N.options pass.old.has.history pass.new.has.history request) }
        // Only a policy may list peers that are new, which are judged by all identities.
        ensures cost { is_of_policy request ≡ false
            → steps.new ≤ steps.old + label_peers (state_now N.options pass.new.has.history).policies }
    {
        let mut desk = self.desk.lock(rt);
        let done = desk.commit(rt, alloc, pass, request, steps);
        MutexGuard::unlock(desk);
        done
    }

    /// The verdict on a packet, by the endpoint's last published map, with at most 36 steps: `Pass::look`. It takes no
    /// memory, and waits for nobody. At `NoGuard` the pass is as before, and no step was taken.
    pub fn verdict<L: Ledger>(
        &self,
        pass: &mut Pass<N>,
        query: &Query,
        steps: &mut Steps<L>,
    ) -> Result<Verdict, LookError>
        ensures grows { PassGrows N.options pass.old pass.new [] }
        ensures answer { IsLookOf result (look N.options pass.new.has.history query.now) }
        ensures no_guard { IsErrOf result LookError.NoGuard → (pass.new ≡ pass.old) × (steps.new ≡ steps.old) }
        ensures forward { steps.old ≤ steps.new }
        ensures cost { steps.new ≤ steps.old + 36 }
    {
        pass.look(query, steps)
    }

    /// Explains the verdict on the query's packet, by all rules, at the present revision.
    ///
    /// `NoEndpoint` comes exactly where no endpoint of that name is live there. `Memory` is want of memory.
    pub fn trace<W: Wait>(
        &self,
        rt: &W,
        alloc: Global,
        pass: &mut Pass<N>,
        query: &Query,
    ) -> Result<Traced, TraceError>
        ensures grows { PassGrowsWhole N.options pass.old pass.new [] }
        ensures traced { IfOk result (λ traced.
            IsTraced N.options pass.old.has.history pass.new.has.history query.now traced.revision traced.trace) }
        ensures cause { IfErr result (IsNotTraced N.options pass.old.has.history pass.new.has.history query.now) }
    {
        let mut desk = self.desk.lock(rt);
        let traced = desk.trace(rt, alloc, pass, query);
        MutexGuard::unlock(desk);
        traced
    }

    /// Regenerates the slot: `Slot::regenerate_over` of that number, under the slot's lock. What was done, the slot's pass has
    /// seen. There are slots from 0 to 255; of another number it is `Gone`.
    ///
    /// `Memory` is want of memory: no event was added, but the board's writer may be spent. `Overtaken` comes where another than
    /// the slot has reported its endpoint, as in no run of a node.
    pub fn regenerate<W: Wait>(&self, rt: &W, alloc: Global, slot: u32) -> Result<Regen, RegenError>
        ensures regen { slot < 256 → IfOk result (HasRegenerated N.options slot) }
        ensures gone { 256 ≤ slot → result ≡ Ok Regen.Gone }
    {
        match self.slots.get(slot as usize) {
            None => Ok(Regen::Gone),
            Some(held) => {
                let mut held = held.lock(rt);
                held.regenerate_over(rt, alloc, &self.desk, slot)
            }
        }
    }

    /// Brings the map of every live endpoint up to date, and shows all that to the pass. Where nothing has happened since the
    /// last sync, it tells what that told, and asks no slot.
    ///
    /// `Memory` is want of memory: some slots may have been reported, and the board's writer may be spent. `Overtaken` comes where
    /// another than a slot has reported its endpoint, as in no run of a node.
    pub fn sync<W: Wait>(
        &self,
        rt: &W,
        alloc: Global,
        pass: &mut Pass<N>,
    ) -> Result<SyncReport, RegenError>
        ensures grows { PassGrows N.options pass.old pass.new [] }
        ensures whole { OnOk result (PassGrowsWhole N.options pass.old pass.new []) }
        ensures synced { IfOk result (λ report.
            IsSynced N.options pass.old.has.history pass.new.has.history report.revision report.full) }
    {
        let (revision, used) = show(rt, &self.desk, pass);
        let told = told_last(rt, alloc, &self.last, pass)?;
        if let Some(report) = told {
            return Ok(report);
        }
        let slots = &self.slots[..used as usize];
        sync_slots(rt, alloc, &self.desk, slots, &self.last, pass, revision)
    }

    /// Shows one history to all: they have met.
    pub fn meet<W: Wait>(&self, rt: &W, passes: &mut [Pass<N>])
        ensures met { HaveMet N.options N.passes (meetings_of passes.old passes.new) }
        ensures numbers { map (λ pass. pass.number) passes.new ≡ map (λ pass. pass.number) passes.old }
    {
        let mut desk = self.desk.lock(rt);
        desk.meet(rt, passes);
        MutexGuard::unlock(desk);
    }
}
