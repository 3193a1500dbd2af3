//! What one owner has seen and made.
ghost use Rattle.std.specs.Prelude.{◌≡◌, ◌+◌, ◌<◌, ◌≤◌, ◌^◌, ◌++◌, ◌∷◌, [], ◌↔◌, length, IsErrOf, IsTrue};
ghost use mathlib.Core.List.{IsPrefix};
ghost use Rattle.pol_history.specs.Commits.{commits_by};
ghost use Rattle.pol_history.specs.Grows.{PassGrows, PassGrowsWhole, nothing_yet};
ghost use Rattle.pol_history.specs.Legal.{IsLegal};
ghost use Rattle.pol_history.specs.Look.{look};
ghost use Rattle.pol_board_view.specs.Answers.{IsLookOf};

use left_right::ReadHandle;
use pol_board_view::{Face, LookError, Verdict};
use pol_data::Steps;
use pol_history_log::{NodeName, Seen};
use pol_model::{Query, Request};
use std::marker::Model;
use std::sync::Wait;
use std::sync::ledger::Ledger;

/// A pass: what its owner has seen, and the list of the commits that it made. It keeps the lengths of both as numbers, and
/// the token of an older history that has all its own commits.
#[derive(Drop)]
pub struct Pass<N: NodeName> {
    pub(crate) number: u64,
    pub(crate) count: u64,
    pub(crate) seen: Seen<N>,
    pub(crate) own: Seen<N>,
    handle: Option<ReadHandle<Face<N>>>,
}

impl<N: NodeName> Model for Pass<N> {
    ghost use Rattle.std.specs.Prelude.{◌≡◌, length};
    ghost use Rattle.pol_history.specs.Commits.{commits_by};
    ghost use Rattle.pol_history.specs.Grows.{PassState};
    ghost use Rattle.pol_history.specs.Legal.{IsLegal};

    ghost Value = { PassState };

    ghost view = { λ p.
        record { number = p.number; has = record { history = p.seen; mine = commits_by p.number p.own } } };

    ghost invariant = { λ p. (p.count ≡ length (commits_by p.number p.own)) × IsLegal N.options p.seen };
}

impl<N: NodeName> Pass<N> {
    /// A pass that has seen nothing. Without a handle it never looks.
    pub(crate) fn new(number: u64, seen: &Seen<N>, handle: Option<ReadHandle<Face<N>>>) -> Pass<N>
        requires nothing { seen.now ≡ [] }
        ensures { result ≡ record { number = number; has = nothing_yet } }
    {
        Pass {
            number,
            count: 0,
            seen: seen.again(),
            own: seen.again(),
            handle,
        }
    }

    /// Its number, by which the commits of the history are told apart.
    pub fn number(&self) -> u64
        ensures { result ≡ self.now.number }
    {
        self.number
    }

    /// How many commits it made.
    pub fn count(&self) -> u64
        ensures { result ≡ length self.now.has.mine }
    {
        self.count
    }

    /// A copy of what it has seen. It takes no memory.
    pub fn seen(&self) -> Seen<N>
        ensures same { result ≡ self.now.has.history }
        ensures legal { IsLegal N.options result }
    {
        self.seen.again()
    }

    /// The call tells that what it has seen is a legal history.
    pub fn fits_together(&self)
        ensures legal { IsLegal N.options self.now.has.history }
    {
        let _ = &self.seen;
    }

    /// It has one commit more, which is the last of its own in this history.
    pub(crate) fn committed(&mut self, seen: &Seen<N>, request: &Request)
        requires longer { IsPrefix self.old.has.history seen.now }
        requires own { commits_by self.old.number seen.now ≡ self.old.has.mine ++ request.now ∷ [] }
        requires room { length self.old.has.mine < 2 ^ 63 }
        ensures grows { PassGrowsWhole N.options self.old self.new (request.now ∷ []) }
        ensures all { self.new.has.history ≡ seen.now }
    {
        self.count += 1;
        self.seen = seen.again();
        self.own = seen.again();
    }

    /// It has seen this history, and all its own commits are there.
    pub(crate) fn shown(&mut self, seen: &Seen<N>)
        requires longer { IsPrefix self.old.has.history seen.now }
        requires own { commits_by self.old.number seen.now ≡ self.old.has.mine }
        ensures grows { PassGrowsWhole N.options self.old self.new [] }
        ensures all { self.new.has.history ≡ seen.now }
    {
        self.seen = seen.again();
        self.own = seen.again();
    }

    /// What was seen is taken in. Afterwards the pass has seen all that the one who told had seen.
    pub fn learn<W: Wait>(&mut self, _rt: &W, seen: Seen<N>)
        ensures grows { PassGrows N.options self.old self.new [] }
        ensures learned { IsPrefix seen self.new.has.history }
    {
        self.seen = self.seen.longer(&seen);
    }

    /// What the board shows of the query's endpoint, with at most 36 steps: the verdict of its last published map, at the
    /// number that the remote had at the map's revision. It is `NoEndpoint` where no endpoint of that name is live, and
    /// `NotYet` where it has no published map. It takes no memory and waits for nobody.
    ///
    /// At `NoGuard` the pass is as before, and no step was taken. No clause says when that is: the body answers it where the
    /// pass has no handle, where the board gave no guard, or one of a history that the pass is ahead of, or of a map whose
    /// change was cut off by want of memory.
    pub fn look<L: Ledger>(
        &mut self,
        query: &Query,
        steps: &mut Steps<L>,
    ) -> Result<Verdict, LookError>
        ensures grows { PassGrows N.options self.old self.new [] }
        ensures answer { IsLookOf result (look N.options self.new.has.history query.now) }
        ensures no_guard { IsErrOf result LookError.NoGuard → (self.new ≡ self.old) × (steps.new ≡ steps.old) }
        ensures forward { steps.old ≤ steps.new }
        ensures cost { steps.new ≤ steps.old + 36 }
    {
        let Some(handle) = &mut self.handle else {
            return Err(LookError::NoGuard);
        };
        let Some(face) = handle.enter() else {
            return Err(LookError::NoGuard);
        };
        let Some(seen) = face.since(&self.seen) else {
            return Err(LookError::NoGuard);
        };
        let _ = port_of(query);
        let found = face.look(query, steps);
        if is_no_guard(&found) {
            return Err(LookError::NoGuard);
        }
        self.seen = seen;
        found
    }
}

/// Whether nothing was told.
fn is_no_guard(found: &Result<Verdict, LookError>) -> bool
    ensures { IsTrue result ↔ IsErrOf found.now LookError.NoGuard }
{
    match found {
        Ok(_) => false,
        Err(LookError::NoEndpoint { revision: _ }) => false,
        Err(LookError::NotYet { revision: _ }) => false,
        Err(LookError::NoGuard) => true,
    }
}

/// The port of a query.
fn port_of(query: &Query) -> u16
    ensures { result ≡ query.now.port }
{
    query.port
}
