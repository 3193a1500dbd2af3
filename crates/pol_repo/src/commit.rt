//! What was prepared is accepted, or withdrawn.
ghost use Rattle.std.specs.Prelude.{◌≡◌, ◌+◌, ◌≤◌, ◌++◌, ◌∷◌, [], None, Some, false, IfErr, IfOk, OnErr, OnOk};
ghost use Rattle.pol_model.specs.After.{after};
ghost use Rattle.pol_model.specs.Commits.{Commits};
ghost use Rattle.pol_model.specs.Committed.{committed_of};
ghost use Rattle.pol_model.specs.Sizes.{IsShort};
ghost use Rattle.pol_requests.specs.Prepared.{is_of_policy};
ghost use Rattle.pol_repo.specs.Causes.{IsCause};
ghost use Rattle.pol_repo.specs.Cost.{label_peers};
ghost use Rattle.pol_repo.specs.Repository.{state_in};

use crate::prepare::Ready;
use crate::repo::Repo;
use pol_data::Steps;
use pol_model::{CommitError, Committed, Request};
use pol_requests::{accept, withdraw};
use std::sync::ledger::Ledger;

impl Repo {
    /// Does the request that was prepared last, and answers it. It takes no memory.
    pub fn accept(&mut self, ready: Ready) -> Committed
        requires request { self.old.prepared ≡ Some ready.request }
        requires done { ready.done ≡ committed_of (after (state_in self.old) ready.request) ready.request }
        ensures committed { Commits (state_in self.old) (state_in self.new) ready.request result }
        ensures new { self.new ≡ record self.old { journal = self.old.journal ++ ready.request ∷ []; prepared = None } }
    {
        let Ready { request, done } = ready;
        let prepared = self.prepared.take().unwrap();
        self.store.fits_together();
        accept(&mut self.store, prepared);
        let next = self.store.numbers().selectors().next_number();
        self.nexts.push(next).unwrap();
        self.journal.push(request).unwrap();
        done
    }

    /// Gives up the request that was prepared last. It takes no memory.
    pub fn withdraw(&mut self, ready: Ready)
        requires request { self.old.prepared ≡ Some ready.request }
        ensures new { self.new ≡ record self.old { prepared = None } }
    {
        let prepared = self.prepared.take().unwrap();
        withdraw(&mut self.store, prepared);
        self.store.fits_together();
    }

    /// Does the request, if it has no fault, and raises the revision by one. The errors are those of `Repo::prepare`; after
    /// either all is as before.
    pub fn commit<L: Ledger>(
        &mut self,
        request: Request,
        steps: &mut Steps<L>,
    ) -> Result<Committed, CommitError>
        requires idle { self.old.prepared ≡ None }
        requires short { IsShort request }
        ensures committed { IfOk result (λ done. Commits (state_in self.old) (state_in self.new) request done) }
        ensures new { OnOk result (self.new ≡ record self.old { journal = self.old.journal ++ request ∷ [] }) }
        ensures cause { IfErr result (IsCause (state_in self.old) request) }
        ensures stays { OnErr result (self.new ≡ self.old) }
        ensures cost { is_of_policy request ≡ false → steps.new ≤ steps.old + label_peers (state_in self.old).policies }
    {
        let ready = self.prepare(request, steps)?;
        Ok(self.accept(ready))
    }
}
