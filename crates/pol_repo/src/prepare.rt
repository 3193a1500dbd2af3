//! Requests are prepared.
ghost use Rattle.std.specs.Prelude.{◌≡◌, ◌<◌, ◌+◌, ◌-◌, ◌^◌, ◌≤◌, None, Some, false, length, IfErr, IfOk, OnErr, OnOk, vec_len};
ghost use Rattle.std.specs.Vec.{vec_capacity};
ghost use Rattle.pol_model.specs.After.{after};
ghost use Rattle.pol_model.specs.Committed.{committed_of};
ghost use Rattle.pol_model.specs.Fault.{fault_of};
ghost use Rattle.pol_model.specs.Sizes.{IsShort};
ghost use Rattle.pol_selcache.specs.Cache.{IsSound as AreSound};
ghost use Rattle.pol_selcache.specs.Live.{label_selectors};
ghost use Rattle.pol_peers.specs.Numbering.{GainsSelectors};
ghost use Rattle.pol_requests.specs.Prepared.{PreparesOrNot, is_of_policy};
ghost use Rattle.pol_store.specs.Store.{StandsForSome};
ghost use Rattle.pol_repo.specs.Causes.{IsCause};
ghost use Rattle.pol_repo.specs.Cost.{label_peers};
ghost use Rattle.pol_repo.specs.Repository.{state_in};

use crate::repo::Repo;
use pol_data::Steps;
use pol_model::{CommitError, Committed, Fault, Refused, Request};
use pol_requests::{PrepareError, Prepared, answer, prepare};
use pol_store::Store;
use std::sync::ledger::Ledger;

/// A request that is prepared, and what it will be answered.
#[derive(Drop)]
pub struct Ready {
    /// The request.
    pub request: Request,
    /// Its answer, once it is accepted.
    pub done: Committed,
}

// The request is prepared, with room in the journal and in the list of next numbers for one more.
fn prepare_in<L: Ledger>(
    journal: &mut Vec<Request>,
    nexts: &mut Vec<u64>,
    store: &mut Store,
    request: &Request,
    steps: &mut Steps<L>,
) -> Result<Prepared, PrepareError>
    requires stands { StandsForSome store.old }
    requires counts { store.old.state.revision ≡ length journal.old.items }
    requires short { IsShort request.now }
    ensures journal { journal.new.items ≡ journal.old.items }
    ensures room { OnOk result (vec_len journal.new < vec_capacity journal.new) }
    ensures nexts { nexts.new.items ≡ nexts.old.items }
    ensures more { OnOk result (vec_len nexts.new < vec_capacity nexts.new) }
    ensures selectors { GainsSelectors store.old.cache store.new.cache }
    ensures before { AreSound store.old.cache }
    ensures sound { AreSound store.new.cache }
    ensures rises { OnOk result (store.old.state.revision < 2 ^ 64 - 1) }
    ensures prepared { PreparesOrNot request.now store.old store.new result }
    ensures cost { is_of_policy request.now ≡ false → steps.new ≤ steps.old + label_selectors store.old.cache.live }
{
    store.fits_together();
    journal.reserve(1)?;
    nexts.reserve(1)?;
    // The call tells that a capacity is a number of 64 bits, and so the revision is below the last one.
    let _capacity = journal.capacity();
    let prepared = prepare(store, request, steps);
    store.fits_together();
    prepared
}

// The request has this fault, at the store's revision.
fn refused(store: &Store, fault: Fault) -> CommitError
    ensures error { result ≡ CommitError.Refused (record { revision = store.now.state.revision; fault = fault }) }
{
    CommitError::Refused(Refused {
        revision: store.revision(),
        fault,
    })
}

impl Repo {
    /// Prepares the request: takes the numbers, the references and all the memory that it needs. Journal, revision and
    /// state stay as they are. Until `Repo::accept` or `Repo::withdraw` takes what is answered, only `Repo::journal` and
    /// `Repo::revision` may be called.
    ///
    /// `Refused` names the first fault of the request, at the present revision. `Memory` is want of memory, or a count of
    /// 64 bits at its end. After either all is as before.
    pub fn prepare<L: Ledger>(
        &mut self,
        request: Request,
        steps: &mut Steps<L>,
    ) -> Result<Ready, CommitError>
        requires idle { self.old.prepared ≡ None }
        requires short { IsShort request }
        ensures request { IfOk result (λ ready. ready.request ≡ request) }
        ensures no_fault { OnOk result (fault_of (state_in self.old) request ≡ None) }
        ensures done { IfOk result (λ ready. ready.done ≡ committed_of (after (state_in self.old) request) request) }
        ensures prepared { OnOk result (self.new ≡ record self.old { prepared = Some request }) }
        ensures cause { IfErr result (IsCause (state_in self.old) request) }
        ensures stays { OnErr result (self.new ≡ self.old) }
        // Only a policy may list peers that are new, which are judged by all identities.
        ensures cost { is_of_policy request ≡ false → steps.new ≤ steps.old + label_peers (state_in self.old).policies }
    {
        self.store.fits_together();
        match prepare_in(
            &mut self.journal,
            &mut self.nexts,
            &mut self.store,
            &request,
            steps,
        ) {
            Ok(prepared) => {
                let done = answer(&self.store, &prepared);
                self.prepared = Some(prepared);
                Ok(Ready { request, done })
            }
            Err(PrepareError::Fault(fault)) => Err(refused(&self.store, fault)),
            Err(PrepareError::Memory) => Err(CommitError::Memory),
        }
    }
}
