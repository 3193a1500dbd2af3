//! The writer of a board.
ghost use Rattle.std.specs.Prelude.{◌≡◌, ◌<◌, ◌≤◌, ◌^◌, ◌++◌, ◌∷◌, [], None, Some, false, length, IfOk, IfSome, IsErr, OnOk, OnErr, IsTrue};
ghost use mathlib.Core.List.{IsPrefix};
ghost use Rattle.left_right.specs.Handles.{pending, published};
ghost use Rattle.pol_model.specs.After.{after};
ghost use Rattle.pol_model.specs.Committed.{committed_of};
ghost use Rattle.pol_model.specs.Fault.{fault_of};
ghost use Rattle.pol_history.specs.declared.event.HistoryEvent.TheVariants as event;
ghost use Rattle.pol_history.specs.Commits.{Lives, commits_by, revision_of, state_after, state_now};
ghost use Rattle.pol_history.specs.Grows.{PassGrowsWhole};
ghost use Rattle.pol_history.specs.Machine.{endpoint_id};
ghost use Rattle.pol_history.specs.MayFollow.{BlockedMayFollow, PublishMayFollow};
ghost use Rattle.pol_history.specs.Reports.{last_report};
ghost use Rattle.pol_history_log.specs.Asked.{id_of, table_at};
ghost use Rattle.pol_board_view.specs.Changes.{IsChangeOf, table_shown};
ghost use Rattle.pol_board_view.specs.Rows.{Leads};
ghost use Rattle.pol_taken.specs.OfState.{IsTakenOf};
ghost use Rattle.pol_board.specs.Counts.{Counted};

use crate::changes::{blocked_change, commit_change, published_change};
use crate::pass::Pass;
use left_right::{Absorb, WriteHandle};
use pol_board_view::{Face, FaceChange, FaceOp};
use pol_data::{Memory, Text};
use pol_history::LastReport;
use pol_history_log::{Book, NextMap, NodeName, Seen};
use pol_map_changes::ChangeList;
use pol_model::{Committed, Request};
use pol_taken::Taken;
use std::alloc::Global;
use std::sync::Wait;

/// The largest number of events of a history.
const EVENTS: u64 = 1 << 61;

/// The writer, with its history. It can't be dropped, and is ended by `close`.
///
/// Each call that adds an event waits until every reader has left the look that it was in: also for one whose thread is put aside
/// there, however long that is.
pub struct BoardWriter<N: NodeName, R: Wait + Drop>
where
    Face<N>: Absorb<FaceOp<N>>,
{
    /// What it has seen: all events.
    pub seen: Seen<N>,
    book: Book<N>,
    board: WriteHandle<Face<N>, FaceOp<N>, R>,
    spent: bool,
    counts: Vec<u64>,
    ghost shown: { published board ≡ seen },
    // Nothing waits to be shown: what was refused is never shown.
    ghost calm: { spent ≡ false → pending board ≡ [] },
    ghost counted: { Counted counts.items seen },
}

/// Whether the pass has seen no more than the writer, and made as many commits as the writer has of it.
fn fits<N: NodeName>(seen: &Seen<N>, counts: &[u64], pass: &Pass<N>) -> bool
    requires counted { Counted counts.now seen.now }
    ensures grows { IsTrue result → IsPrefix pass.now.has.history seen.now }
    ensures own { IsTrue result → commits_by pass.now.number seen.now ≡ pass.now.has.mine }
    ensures listed { IsTrue result → pass.now.number < length counts.now }
{
    let number = pass.number;
    if number >= counts.len() as u64 {
        return false;
    }
    if counts[number as usize] != pass.count {
        return false;
    }
    if !pass.seen.begins(seen) {
        return false;
    }
    pass.own.begins(seen)
}

/// Waits until that is so. In every run it is so at once.
fn until_fits<N: NodeName, W: Wait>(rt: &W, seen: &Seen<N>, counts: &[u64], pass: &Pass<N>)
    requires counted { Counted counts.now seen.now }
    ensures grows { IsPrefix pass.now.has.history seen.now }
    ensures own { commits_by pass.now.number seen.now ≡ pass.now.has.mine }
    ensures listed { pass.now.number < length counts.now }
{
    for _ in rt.forever() {
        if fits(seen, counts, pass) {
            return;
        }
    }
    unreachable!()
}

/// Shows a history with an event more, where there is one.
fn append<N: NodeName, R: Wait + Drop>(
    board: &mut WriteHandle<Face<N>, FaceOp<N>, R>,
    longer: Option<Seen<N>>,
    change: FaceChange,
) -> Result<Seen<N>, Memory>
    requires change { IfSome longer (λ l. IsChangeOf N.options change l) }
    requires calm { pending board.old ≡ [] }
    ensures ok { IfOk result (λ l. (longer ≡ Some l) × (published board.new ≡ l) × (pending board.new ≡ [])) }
    ensures err { OnErr result (published board.new ≡ published board.old) }
{
    let Some(longer) = longer else {
        return Err(Memory);
    };
    let Ok(_) = board.append(FaceOp::new(change, &longer)) else {
        return Err(Memory);
    };
    let Ok(_) = board.publish() else {
        return Err(Memory);
    };
    Ok(longer)
}

/// One commit more of the pass.
fn count_one<N: NodeName>(
    counts: &mut Vec<u64>,
    pass: u64,
    number: u64,
    seen: &Seen<N>,
    request: &Request,
)
    requires counted { Counted counts.old.items seen.now }
    requires listed { pass < length counts.old.items }
    requires room { length seen.now < 2 ^ 62 }
    ensures { Counted counts.new.items (seen.now ++ event.Commit pass number request.now ∷ []) }
{
    let before = counts[pass as usize];
    counts[pass as usize] = before + 1;
}

impl<N: NodeName, R: Wait + Drop> BoardWriter<N, R> {
    /// The writer of an empty board.
    pub(crate) fn open(
        seen: Seen<N>,
        book: Book<N>,
        board: WriteHandle<Face<N>, FaceOp<N>, R>,
        counts: Vec<u64>,
    ) -> BoardWriter<N, R>
        requires shown { published board ≡ seen }
        requires calm { pending board ≡ [] }
        requires counted { Counted counts.items seen }
        ensures { result.seen ≡ seen }
    {
        BoardWriter {
            seen,
            book,
            board,
            spent: false,
            counts,
        }
    }

    /// Ends the writer. It takes no memory.
    pub fn close<W: Wait>(self, _rt: &W) {
        let BoardWriter {
            seen: _seen,
            book: _book,
            board,
            spent: _,
            counts: _counts,
        } = self;
        drop(board);
    }

    /// A note of its history. It takes no memory.
    pub fn tell(&mut self) -> Seen<N>
        ensures told { result ≡ self.old.seen }
        ensures same { self.new.seen ≡ self.old.seen }
    {
        self.seen.again()
    }

    /// Shows the history to the pass: afterwards the pass's history is the writer's.
    pub fn show<W: Wait>(&mut self, rt: &W, pass: &mut Pass<N>)
        ensures grows { PassGrowsWhole N.options pass.old pass.new [] }
        ensures all { pass.new.has.history ≡ self.new.seen }
        ensures same { self.new.seen ≡ self.old.seen }
    {
        until_fits(rt, &self.seen, &self.counts, pass);
        pass.shown(&self.seen);
    }

    /// Adds the pass's next commit and shows it to the pass. The one error is want of memory: then nothing is added, and the
    /// writer may be spent.
    pub fn commit<W: Wait>(
        &mut self,
        rt: &W,
        alloc: Global,
        pass: &mut Pass<N>,
        request: &Request,
        done: &Committed,
    ) -> Result<(), Memory>
        requires no_fault { fault_of (state_now N.options self.old.seen) request.now ≡ None }
        requires done { done.now ≡ committed_of (after (state_now N.options self.old.seen) request.now) request.now }
        ensures grows { OnOk result (PassGrowsWhole N.options pass.old pass.new (request.now ∷ [])) }
        ensures added { OnOk result (self.new.seen ≡ self.old.seen
            ++ event.Commit pass.old.number (length (commits_by pass.old.number self.old.seen)) request.now ∷ []) }
        ensures shown { pass.new.has.history ≡ self.new.seen }
        ensures err { OnErr result (self.new.seen ≡ self.old.seen) }
        ensures err_grows { OnErr result (PassGrowsWhole N.options pass.old pass.new []) }
        ensures spent { IsTrue self.old.spent → IsErr result × IsTrue self.new.spent }
    {
        let _ = done;
        until_fits(rt, &self.seen, &self.counts, pass);
        pass.shown(&self.seen);
        if self.spent || self.seen.len() >= EVENTS {
            return Err(Memory);
        }
        let change = commit_change(alloc, request)?;
        let number = pass.number();
        let count = pass.count();
        self.spent = true;
        let longer = self.seen.commit(&self.book, number, count, request);
        let seen = append(&mut self.board, longer, change)?;
        self.spent = false;
        count_one(&mut self.counts, number, count, &self.seen, request);
        pass.committed(&seen, request);
        self.seen = seen;
        Ok(())
    }

    /// Adds that the endpoint's canonical map at the taken revision was published, and shows that to the pass. The one error is
    /// want of memory: then nothing is added, and the writer may be spent.
    pub fn publish<W: Wait>(
        &mut self,
        rt: &W,
        alloc: Global,
        pass: &mut Pass<N>,
        taken: &Taken,
        changes: &ChangeList,
    ) -> Result<(), Memory>
        requires seen { taken.now.revision ≤ revision_of pass.old.has.history }
        requires taken { IsTakenOf N.options
            (state_after N.options pass.old.has.history taken.now.revision) taken.now.endpoint.slot taken.now }
        requires may { PublishMayFollow N.options self.old.seen (endpoint_id taken.now.endpoint) taken.now.revision
            (table_at N.options self.old.seen (endpoint_id taken.now.endpoint) taken.now.revision) }
        requires leads { Leads changes.now (table_shown N.options self.old.seen taken.now.endpoint.name)
            (table_at N.options self.old.seen (endpoint_id taken.now.endpoint) taken.now.revision) }
        ensures grows { PassGrowsWhole N.options pass.old pass.new [] }
        ensures added { OnOk result (self.new.seen
            ≡ self.old.seen ++ event.Publish (endpoint_id taken.now.endpoint) taken.now.revision
            (table_at N.options self.old.seen (endpoint_id taken.now.endpoint) taken.now.revision) ∷ []) }
        ensures shown { pass.new.has.history ≡ self.new.seen }
        ensures err { OnErr result (self.new.seen ≡ self.old.seen) }
        ensures spent { IsTrue self.old.spent → IsErr result × IsTrue self.new.spent }
    {
        until_fits(rt, &self.seen, &self.counts, pass);
        pass.shown(&self.seen);
        if self.spent || self.seen.len() >= EVENTS {
            return Err(Memory);
        }
        let change = published_change(alloc, taken, changes)?;
        let longer = self.with_map(taken, changes)?;
        self.spent = true;
        let seen = append(&mut self.board, longer, change)?;
        self.spent = false;
        pass.shown(&seen);
        self.seen = seen;
        Ok(())
    }

    /// Adds that the endpoint's map at the taken revision is too large, and shows that to the pass. The one error is want of
    /// memory: then nothing is added, and the writer may be spent.
    pub fn block<W: Wait>(
        &mut self,
        rt: &W,
        alloc: Global,
        pass: &mut Pass<N>,
        taken: &Taken,
        count: u64,
    ) -> Result<(), Memory>
        requires seen { taken.now.revision ≤ revision_of pass.old.has.history }
        requires taken { IsTakenOf N.options
            (state_after N.options pass.old.has.history taken.now.revision) taken.now.endpoint.slot taken.now }
        requires may { BlockedMayFollow N.options self.old.seen
            (endpoint_id taken.now.endpoint) taken.now.revision count }
        ensures grows { PassGrowsWhole N.options pass.old pass.new [] }
        ensures added { OnOk result (self.new.seen
            ≡ self.old.seen ++ event.Blocked (endpoint_id taken.now.endpoint) taken.now.revision count ∷ []) }
        ensures shown { pass.new.has.history ≡ self.new.seen }
        ensures err { OnErr result (self.new.seen ≡ self.old.seen) }
        ensures spent { IsTrue self.old.spent → IsErr result × IsTrue self.new.spent }
    {
        until_fits(rt, &self.seen, &self.counts, pass);
        pass.shown(&self.seen);
        if self.spent || self.seen.len() >= EVENTS {
            return Err(Memory);
        }
        let change = blocked_change(alloc, taken)?;
        self.spent = true;
        let longer = self.seen.block(
            &self.book,
            &taken.endpoint.name,
            taken.endpoint.added,
            taken.revision,
            count,
        );
        let seen = append(&mut self.board, longer, change)?;
        self.spent = false;
        pass.shown(&seen);
        self.seen = seen;
        Ok(())
    }

    /// The history with the publication of what the changes make of the map that is shown. It takes no memory; the one error is
    /// that want of memory has cut off a change of that map, and then nothing was added.
    fn with_map(&self, taken: &Taken, changes: &ChangeList) -> Result<Option<Seen<N>>, Memory>
        requires room { length self.now.seen < 2 ^ 62 }
        requires may { PublishMayFollow N.options self.now.seen (endpoint_id taken.now.endpoint) taken.now.revision
            (table_at N.options self.now.seen (endpoint_id taken.now.endpoint) taken.now.revision) }
        requires leads { Leads changes.now (table_shown N.options self.now.seen taken.now.endpoint.name)
            (table_at N.options self.now.seen (endpoint_id taken.now.endpoint) taken.now.revision) }
        ensures { IfOk result (λ longer.
            IfSome longer (λ l. l ≡ self.now.seen ++ event.Publish (endpoint_id taken.now.endpoint) taken.now.revision
            (table_at N.options self.now.seen (endpoint_id taken.now.endpoint) taken.now.revision) ∷ [])) }
    {
        let endpoint = &taken.endpoint;
        let last = self.board.published().last_map(&endpoint.name)?;
        let map = NextMap::of(last, changes);
        let longer = self.seen.publish(
            &self.book,
            &endpoint.name,
            endpoint.added,
            taken.revision,
            &map,
        );
        Ok(longer)
    }

    /// The last report of a live endpoint. It takes no memory.
    pub fn last_report(&self, name: &Text, added: u64) -> Option<LastReport>
        requires live { Lives (state_now N.options self.now.seen) (id_of name.now added) }
        ensures { result ≡ last_report (id_of name.now added) self.now.seen }
    {
        self.board.published().last_report(name, added)
    }
}
