//! What readers of a board see.
ghost use Rattle.std.specs.Prelude.{◌≡◌, ◌+◌, ◌<◌, ◌≤◌, [], length, IfNone, IfOk, IfSome, IsErrOf};
ghost use Rattle.std.specs.FinMap as finite;
ghost use Rattle.std.specs.Option.{option_copied};
ghost use mathlib.Core.List.{IsPrefix};
ghost use Rattle.pol_history.specs.Commits.{Lives, state_now};
ghost use Rattle.pol_history.specs.Content.{content_of};
ghost use Rattle.pol_history.specs.Legal.{IsLegal};
ghost use Rattle.pol_history.specs.LookIn.{look_in};
ghost use Rattle.pol_history.specs.Reports.{last_report};
ghost use Rattle.pol_history_log.specs.Asked.{id_of};
ghost use Rattle.pol_board_view.specs.Answers.{IsLookOf};
ghost use Rattle.pol_history_log.specs.NextMap.{map_before};
ghost use Rattle.pol_board_view.specs.Changes.{table_shown};
ghost use Rattle.pol_board_view.specs.Room.{IsLimited};

use crate::answer::{LookError, Verdict};
use crate::change::{commits_of, take_in};
use crate::op::FaceOp;
use crate::row::{Rows, look_in_rows, whole_map};
use indexmap::IndexMap;
use left_right::Absorb;
use pol_data::{Memory, Steps, Text};
use pol_history::{HistoryEvent, LastReport};
use pol_history_log::{NodeName, Seen};
use pol_model::Query;
use pol_trie::PolicyTrie;
use std::alloc::{AllocError, Global};
use std::collections::LinkedList;
use std::marker::Model;
use std::sync::ledger::Ledger;

/// The largest number of events of a history.
const EVENTS: u64 = 1 << 62;

/// What readers see: the content that one history makes. Contracts see it as its history.
#[derive(Drop)]
pub struct Face<N: NodeName> {
    commits: u64,
    rows: Rows,
    seen: Seen<N>,
    alloc: Global,
}

impl<N: NodeName> Model for Face<N> {
    ghost use Rattle.std.specs.Prelude.{◌≡◌, List};
    ghost use Rattle.pol_history.specs.declared.event.HistoryEvent.{HistoryEvent as OneEvent};
    ghost use Rattle.pol_history.specs.Commits.{revision_of};
    ghost use Rattle.pol_history.specs.Content.{content_of};
    ghost use Rattle.pol_board_view.specs.Room.{IsLimited};
    ghost use Rattle.pol_board_view.specs.Rows.{Holds};

    ghost Value = { List OneEvent };

    ghost view = { λ f. f.seen };

    ghost invariant = { λ f.
        (f.commits ≡ revision_of f.seen) × Holds f.rows (content_of N.options f.seen).live × IsLimited N.options };
}

impl<N: NodeName> Face<N> {
    /// The face of an empty history. It takes no memory yet.
    pub fn new(alloc: Global, seen: &Seen<N>) -> Face<N>
        requires empty { seen.now ≡ [] }
        requires limit { IsLimited N.options }
        ensures { result ≡ seen.now }
    {
        Face {
            commits: 0,
            rows: IndexMap::new(alloc),
            seen: seen.again(),
            alloc,
        }
    }

    /// What a look-up finds, with at most 36 steps. It takes no memory. No clause says when it is `NoGuard`: the body answers
    /// it where a change of the endpoint's map was cut off by want of memory, and takes no step then.
    pub fn look<L: Ledger>(&self, query: &Query, steps: &mut Steps<L>) -> Result<Verdict, LookError>
        ensures answer { IsLookOf result (look_in (content_of N.options self.now) query.now) }
        ensures nothing { IsErrOf result LookError.NoGuard → steps.new ≡ steps.old }
        ensures forward { steps.old ≤ steps.new }
        ensures cost { steps.new ≤ steps.old + 36 }
    {
        look_in_rows(self.commits, &self.rows, query, steps)
    }

    /// The last report of a live endpoint. It takes no memory.
    pub fn last_report(&self, name: &Text, added: u64) -> Option<LastReport>
        requires live { Lives (state_now N.options self.now) (id_of name.now added) }
        ensures { result ≡ last_report (id_of name.now added) self.now }
    {
        let _ = self.seen.len();
        match self.rows.get(name) {
            None => None,
            Some(row) => row.report,
        }
    }

    /// The last published map of the endpoint of that name, if there is one. It takes no memory; the one error is that want of
    /// memory has cut a change of the map off.
    pub fn last_map(&self, name: &Text) -> Result<Option<&PolicyTrie>, Memory>
        ensures { IfOk result (λ last.
            finite.entries (map_before (option_copied last)) ≡ table_shown N.options self.now name.now) }
    {
        match self.rows.get(name) {
            None => Ok(None),
            Some(row) => whole_map(&row.map),
        }
    }

    /// Its history, where that begins with this one. It takes no memory.
    pub fn since(&self, seen: &Seen<N>) -> Option<Seen<N>>
        ensures newer { IfSome result (λ s. (s ≡ self.now) × IsPrefix seen.now s × IsLegal N.options s) }
        ensures older { IfNone result (length self.now < length seen.now) }
    {
        if seen.begins(&self.seen) {
            Some(self.seen.again())
        } else {
            None
        }
    }
}

impl<N: NodeName> Absorb<FaceOp<N>> for Face<N> {
    type State = LinkedList<HistoryEvent>;

    ghost state = { λ f. f };

    ghost applied = { λ history op. op };

    fn absorb_first(&mut self, operation: &FaceOp<N>, _other: &Face<N>) -> Result<(), AllocError> {
        if operation.seen.len() == 0
            || operation.seen.len() > EVENTS
            || self.seen.len() != operation.seen.len() - 1
            || !self.seen.begins(&operation.seen)
        {
            return Err(AllocError);
        }
        let Ok(_) = take_in(self.alloc, &mut self.rows, self.commits, &operation.change) else {
            return Err(AllocError);
        };
        self.commits += commits_of(&operation.change);
        self.seen = operation.seen.again();
        Ok(())
    }
}
