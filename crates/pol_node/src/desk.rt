//! What lies under the desk's lock.
ghost use Rattle.std.specs.Prelude.{◌≡◌, ◌↔◌, ◌+◌, ◌<◌, ◌≤◌, ◌∷◌, [], IfErr, IfOk, IfSome, IsErrOf, MatchBool, None, OnErr, OnOk, Some, false, length, map, true};
ghost use Rattle.std.specs.Arc.{arc_value};
ghost use Rattle.pol_set_moves.specs.Moves.{TellsMovesSince};
ghost use Rattle.pol_distill.specs.Distilled.{distilled};
ghost use Rattle.pol_map_changes.specs.Changes.{changed, table_of};
ghost use Rattle.pol_slot_map.specs.Followed.{table_then};
ghost use Rattle.pol_history.specs.Calls.{IsAccepted, IsTraced};
ghost use Rattle.pol_history.specs.Commits.{Lives, commits_in, revision_of, state_now};
ghost use Rattle.pol_history.specs.Grows.{PassGrowsWhole};
ghost use Rattle.pol_history.specs.Legal.{IsLegal};
ghost use Rattle.pol_history.specs.Machine.{endpoint_id, endpoint_in, is_reported};
ghost use Rattle.pol_history.specs.Meet.{AreOf, HaveMet, has, meetings_of};
ghost use Rattle.pol_history.specs.Reports.{last_report, published_before};
ghost use Rattle.pol_model.specs.Ascending.{Ascends};
ghost use Rattle.pol_model.specs.Committed.{slots_of};
ghost use Rattle.pol_model.specs.PolicyMap.{policy_map};
ghost use Rattle.pol_model.specs.Sizes.{IsShort};
ghost use Rattle.pol_repo.specs.Cost.{label_peers};
ghost use Rattle.pol_requests.specs.Prepared.{is_of_policy};
ghost use Rattle.pol_taken.specs.OfState.{IsTakenOf};
ghost use Rattle.pol_repo_history.specs.AtHistory.{IsAt};
ghost use Rattle.pol_node.specs.Desk.{IsCauseOf, IsNotTraced};
ghost use Rattle.pol_node.specs.Finish.{Finishes, TellsPublished};
ghost use Rattle.pol_node.specs.Kept.{Finds, IsKeptOf, NotReported, ReportsOn, blocked_now, published_now};
ghost use Rattle.pol_node.specs.TakenFor.{TakesFor};

use crate::kept::{
    Found, KeptEndpoint, NotTaken, is_other, is_same_report, last_kept, let_go, since, told,
};
use crate::report::{Finished, RegenError, Reported, TraceError, Traced};
use left_right::Absorb;
use pol_board::{BoardWriter, NodeName, Pass};
use pol_board_view::{Face, FaceOp};
use pol_data::Steps;
use pol_history::LastReport;
use pol_model::{CommitError, Committed, Query, Request};
use pol_repo::{EndpointRow, Repo};
use pol_slot_map::Pending;
use pol_taken::{TakeError, Taken};
use pol_trace::{ExplainError, explain};
use std::alloc::Global;
use std::sync::Wait;
use std::sync::ledger::Ledger;

/// The repository and the board's writer, which are at one history. It can't be dropped, and is ended by `close`.
pub struct Desk<N: NodeName, R: Wait + Drop>
where
    Face<N>: Absorb<FaceOp<N>>,
{
    /// The board's writer.
    pub writer: BoardWriter<N, R>,
    repo: Repo,
    // Maps of more entries aren't published.
    limit: u32,
    ghost at: { IsAt N.options writer.seen repo },
    ghost ours: { AreOf N.passes writer.seen },
    ghost limited: { N.options.map_max ≡ Some limit },
}

impl<N: NodeName, R: Wait + Drop> Desk<N, R> {
    /// The desk over the writer of a board without events and a repository without requests.
    pub fn open(repo: Repo, writer: BoardWriter<N, R>, limit: u32) -> Desk<N, R>
        requires repo { IsAt N.options [] repo }
        requires writer { writer.seen ≡ [] }
        requires limit { N.options.map_max ≡ Some limit }
        ensures history { result.writer.seen ≡ [] }
    {
        Desk {
            writer,
            repo,
            limit,
        }
    }

    /// Ends it, and the board's writer. It takes no memory.
    pub fn close<W: Wait>(self, rt: &W) {
        let Desk {
            writer,
            repo: _repo,
            limit: _,
        } = self;
        writer.close(rt);
    }

    /// Commits the request, and shows that to the pass.
    ///
    /// `Refused` names the fault of the request at the revision that it carries. `Memory` is want of memory, and the
    /// board's writer may then be spent. After either the history is as before.
    pub fn commit<W: Wait, L: Ledger>(
        &mut self,
        rt: &W,
        alloc: Global,
        pass: &mut Pass<N>,
        request: Request,
        steps: &mut Steps<L>,
    ) -> Result<Committed, CommitError>
        requires handed_out { has N.passes pass.old.number ≡ true }
        requires short { IsShort request }
        ensures grows { OnOk result (PassGrowsWhole N.options pass.old pass.new (request ∷ [])) }
        ensures accepted { IfOk result
            (IsAccepted N.options pass.old.number pass.old.has.history pass.new.has.history request) }
        ensures nothing { OnErr result (PassGrowsWhole N.options pass.old pass.new []) }
        ensures cause { IfErr result (IsCauseOf N.options pass.old.has.history pass.new.has.history request) }
        ensures stays { OnErr result (self.new.writer.seen ≡ self.old.writer.seen) }
        ensures cost { is_of_policy request ≡ false
            → steps.new ≤ steps.old + label_peers (state_now N.options pass.new.has.history).policies }
        ensures shown { pass.new.has.history ≡ self.new.writer.seen }
    {
        self.writer.show(rt, pass);
        let ready = self.repo.prepare(request, steps)?;
        match self
            .writer
            .commit(rt, alloc, pass, &ready.request, &ready.done)
        {
            Ok(()) => Ok(self.repo.accept(ready)),
            Err(_) => {
                self.repo.withdraw(ready);
                Err(CommitError::Memory)
            }
        }
    }

    /// Shows the history to the pass, and tells its revision and how many slots are in use.
    pub fn show<W: Wait>(&mut self, rt: &W, pass: &mut Pass<N>) -> (u64, u64)
        ensures grows { PassGrowsWhole N.options pass.old pass.new [] }
        ensures revision { result.0 ≡ revision_of pass.new.has.history }
        ensures slots { slots_of (state_now N.options pass.new.has.history).endpoints ≡ result.1 }
        ensures few { result.1 ≤ 256 }
        ensures stays { self.new.writer.seen ≡ self.old.writer.seen }
        ensures shown { pass.new.has.history ≡ self.new.writer.seen }
    {
        self.writer.show(rt, pass);
        // Each request had no fault: so only the first 256 slots are in use.
        self.repo.fits_together();
        (self.repo.revision(), slots_in(self.repo.endpoints()))
    }

    /// Shows the history to the pass, and explains the verdict on the query's packet at its revision.
    ///
    /// `NoEndpoint` comes exactly where no endpoint of that name is live there. `Memory` is want of memory.
    pub fn trace<W: Wait>(
        &mut self,
        rt: &W,
        alloc: Global,
        pass: &mut Pass<N>,
        query: &Query,
    ) -> Result<Traced, TraceError>
        ensures grows { PassGrowsWhole N.options pass.old pass.new [] }
        ensures traced { IfOk result (λ traced.
            IsTraced N.options pass.old.has.history pass.new.has.history query.now traced.revision traced.trace) }
        ensures cause { IfErr result (IsNotTraced N.options pass.old.has.history pass.new.has.history query.now) }
        ensures stays { self.new.writer.seen ≡ self.old.writer.seen }
        ensures shown { pass.new.has.history ≡ self.new.writer.seen }
    {
        self.writer.show(rt, pass);
        let revision = self.repo.revision();
        match explain(alloc, &self.repo, query) {
            Ok(trace) => Ok(Traced { revision, trace }),
            Err(ExplainError::NoEndpoint) => Err(TraceError::NoEndpoint { revision }),
            Err(ExplainError::Memory) => Err(TraceError::Memory),
        }
    }

    /// Shows the history to the pass, and takes what the map of the slot's endpoint is made of there. `since` is a revision
    /// that the pass had seen before, none where nothing is known.
    ///
    /// `Gone` comes exactly where no live endpoint has the slot. `Memory` is want of memory.
    pub fn take<W: Wait>(
        &mut self,
        rt: &W,
        alloc: Global,
        pass: &mut Pass<N>,
        slot: u32,
        since: Option<u64>,
    ) -> Result<Taken, TakeError>
        requires since { IfSome since (λ revision. revision ≤ revision_of pass.old.has.history) }
        ensures grows { PassGrowsWhole N.options pass.old pass.new [] }
        ensures revision { IfOk result (λ taken. taken.revision ≡ revision_of pass.new.has.history) }
        ensures taken { IfOk result (IsTakenOf N.options (state_now N.options pass.new.has.history) slot) }
        ensures map { IfOk result (λ taken. distilled (arc_value taken.filters) taken.sets
            ≡ policy_map N.options (state_now N.options pass.new.has.history) taken.endpoint) }
        ensures moves { IfOk result (λ taken.
            TellsMovesSince N.options (commits_in pass.new.has.history) since taken.sets taken.moves) }
        ensures gone { IsErrOf result TakeError.Gone
            ↔ (endpoint_in slot (state_now N.options pass.new.has.history).endpoints ≡ None) }
        ensures stays { self.new.writer.seen ≡ self.old.writer.seen }
        ensures shown { pass.new.has.history ≡ self.new.writer.seen }
    {
        self.writer.show(rt, pass);
        self.repo.refresh(alloc, slot);
        self.repo.take(alloc, slot, since)
    }

    /// The same, by what is kept of the slot's endpoint. What is kept of another endpoint is let go.
    ///
    /// `Gone` comes where no live endpoint has the slot. `Overtaken` comes where the last report of the slot's endpoint is
    /// another one than is kept, or one and none is kept. `Memory` is want of memory.
    pub(crate) fn take_for<W: Wait>(
        &mut self,
        rt: &W,
        alloc: Global,
        pass: &mut Pass<N>,
        slot: u32,
        kept: &mut Option<KeptEndpoint>,
    ) -> Result<Taken, NotTaken>
        requires kept { IfSome kept.old (IsKeptOf N.options pass.old.has.history) }
        ensures grows { PassGrowsWhole N.options pass.old pass.new [] }
        ensures takes { TakesFor N.options pass.new.has.history slot kept.old kept.new result }
    {
        self.writer.show(rt, pass);
        match self.finds(pass, slot, kept) {
            Found::Gone => Err(NotTaken::Gone),
            Found::Overtaken => Err(NotTaken::Overtaken),
            Found::Still => told(self.take(rt, alloc, pass, slot, since(kept))),
        }
    }

    /// Reports the map of what was taken: publishes it where it fits the limit. It has `count` entries, and `last` is the
    /// endpoint's last report where it was taken. The changes lead to the map from the one that was published last, from an
    /// empty one where none was. Nothing is reported where the endpoint is gone, or where its last report is of the taken
    /// revision.
    ///
    /// `Memory` is want of memory: then nothing was reported, and the board's writer may be spent. `Overtaken` comes where the
    /// endpoint's last report is no longer `last`: another has reported it since the take.
    pub fn finish<W: Wait>(
        &mut self,
        rt: &W,
        alloc: Global,
        pass: &mut Pass<N>,
        taken: &Taken,
        count: u64,
        last: Option<LastReport>,
        changes: &Pending,
    ) -> Result<Reported, RegenError>
        requires revision { taken.now.revision ≡ revision_of pass.old.has.history }
        requires taken { IsTakenOf N.options
            (state_now N.options pass.old.has.history) taken.now.endpoint.slot taken.now }
        requires count { count
            ≡ length (policy_map N.options (state_now N.options pass.old.has.history) taken.now.endpoint) }
        requires last { last_report (endpoint_id taken.now.endpoint) pass.old.has.history ≡ last }
        requires shown { IfSome (published_before last) (λ revision. revision ≤ revision_of pass.old.has.history) }
        requires leads { changed changes.now
            (table_then N.options pass.old.has.history (endpoint_id taken.now.endpoint) (published_before last))
            ≡ table_of (policy_map N.options (state_now N.options pass.old.has.history) taken.now.endpoint) }
        ensures grows { PassGrowsWhole N.options pass.old pass.new [] }
        ensures finished { IfOk result (λ done.
            Finishes N.options (endpoint_id taken.now.endpoint) taken.now.revision count pass.old.has.history
            pass.new.has.history done.finished) }
        ensures reported { IfOk result (λ done.
            ReportsOn N.options pass.new.has.history (endpoint_id taken.now.endpoint) taken.now.revision last
            done.finished done.last) }
        ensures cause { IfErr result
            (NotReported N.options pass.new.has.history (endpoint_id taken.now.endpoint) last) }
        ensures nothing { OnErr result (self.new.writer.seen ≡ self.old.writer.seen) }
        ensures shown { pass.new.has.history ≡ self.new.writer.seen }
    {
        self.writer.show(rt, pass);
        if !self.is_live(taken) {
            return Ok(Reported {
                finished: Finished::Gone,
                last,
            });
        }
        let report = self
            .writer
            .last_report(&taken.endpoint.name, taken.endpoint.added);
        if !is_same_report(report, last) {
            return Err(RegenError::Overtaken);
        }
        if is_of(last, taken.revision) {
            return Ok(Reported {
                finished: Finished::Already {
                    published: is_published(last, taken.revision),
                },
                last,
            });
        }
        let commits = self.repo.revision();
        if count <= self.limit as u64 {
            let list = changes.list(alloc)?;
            self.writer.publish(rt, alloc, pass, taken, &list)?;
            Ok(Reported {
                finished: Finished::Published,
                last: published(taken.revision, commits),
            })
        } else {
            self.writer.block(rt, alloc, pass, taken, count)?;
            Ok(Reported {
                finished: Finished::Full,
                last: blocked(taken.revision, commits, last),
            })
        }
    }

    /// Shows the history to all: they have met.
    pub fn meet<W: Wait>(&mut self, rt: &W, passes: &mut [Pass<N>])
        ensures met { HaveMet N.options N.passes (meetings_of passes.old passes.new) }
        ensures numbers { map (λ pass. pass.number) passes.new ≡ map (λ pass. pass.number) passes.old }
        ensures stays { self.new.writer.seen ≡ self.old.writer.seen }
    {
        for k in 0..passes.len() {
            self.writer.show(rt, &mut passes[k]);
        }
    }
}

impl<N: NodeName, R: Wait + Drop> Desk<N, R> {
    // Whether the endpoint that was taken is live now.
    fn is_live(&self, taken: &Taken) -> bool
        ensures { MatchBool result (Lives (state_now N.options self.now.writer.seen) (endpoint_id taken.now.endpoint))
            (Lives (state_now N.options self.now.writer.seen) (endpoint_id taken.now.endpoint) → ⊥) }
    {
        match self.repo.endpoint(taken.endpoint.name.as_str()) {
            Some(row) => row.added == taken.endpoint.added,
            None => false,
        }
    }
}

impl<N: NodeName, R: Wait + Drop> Desk<N, R> {
    // What is found of the slot's endpoint, beside what is kept. Where its last report is the one that is kept, what is kept
    // of another endpoint is let go.
    fn finds(&self, pass: &Pass<N>, slot: u32, kept: &mut Option<KeptEndpoint>) -> Found
        requires shown { pass.now.has.history ≡ self.now.writer.seen }
        requires legal { IsLegal N.options pass.now.has.history }
        requires kept { IfSome kept.old (IsKeptOf N.options pass.now.has.history) }
        ensures { Finds N.options pass.now.has.history slot kept.old kept.new result }
    {
        match self.repo.endpoint_at(slot) {
            None => Found::Gone,
            Some(row) => self.finds_at(pass, slot, row, kept),
        }
    }

    // The same of the row of the slot.
    fn finds_at(
        &self,
        pass: &Pass<N>,
        slot: u32,
        row: &EndpointRow,
        kept: &mut Option<KeptEndpoint>,
    ) -> Found
        requires shown { pass.now.has.history ≡ self.now.writer.seen }
        requires legal { IsLegal N.options pass.now.has.history }
        requires there { endpoint_in slot (state_now N.options pass.now.has.history).endpoints ≡ Some row.now }
        requires kept { IfSome kept.old (IsKeptOf N.options pass.now.has.history) }
        ensures { Finds N.options pass.now.has.history slot kept.old kept.new result }
    {
        let _ = pass;
        let _ = slot;
        let last = self.writer.last_report(&row.name, row.added);
        if is_same_report(last, last_kept(kept, row)) {
            let other = is_other(kept, row);
            let_go(kept, other);
            Found::Still
        } else {
            Found::Overtaken
        }
    }
}

// How many slots are in use: one more than the last.
fn slots_in(endpoints: &[EndpointRow]) -> u64
    requires ascend { Ascends (map (λ endpoint. endpoint.slot) endpoints.now) }
    ensures { result ≡ slots_of endpoints.now }
{
    match endpoints.last() {
        Some(row) => row.slot as u64 + 1,
        None => 0,
    }
}

// Whether the last report is of that revision.
fn is_of(last: Option<LastReport>, revision: u64) -> bool
    ensures { result ≡ is_reported revision last }
{
    match last {
        Some(report) => report.revision == revision,
        None => false,
    }
}

// Whether the map that was published last is of that revision.
fn is_published(last: Option<LastReport>, revision: u64) -> bool
    ensures { TellsPublished result revision (published_before last) }
{
    match last {
        Some(report) => report.published == Some(revision),
        None => false,
    }
}

// The report that the map at the revision was published, behind so many commits.
fn published(revision: u64, commits: u64) -> Option<LastReport>
    ensures { result ≡ published_now revision commits }
{
    Some(LastReport {
        revision,
        commits,
        published: Some(revision),
    })
}

// The report that the map at the revision is too large, behind so many commits and this report.
fn blocked(revision: u64, commits: u64, last: Option<LastReport>) -> Option<LastReport>
    ensures { result ≡ blocked_now revision commits last }
{
    Some(LastReport {
        revision,
        commits,
        published: last_shown(last),
    })
}

// The revision of the map that was published last.
fn last_shown(last: Option<LastReport>) -> Option<u64>
    ensures { result ≡ published_before last }
{
    match last {
        Some(report) => report.published,
        None => None,
    }
}
