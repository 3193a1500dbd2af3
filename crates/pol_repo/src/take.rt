//! What the policy map of an endpoint is made of.
ghost use Rattle.std.specs.Prelude.{◌≡◌, ◌≤◌, ◌↔◌, None, IfOk, IfSome, IsErrOf};
ghost use Rattle.std.specs.Arc.{arc_value};
ghost use Rattle.pol_model.specs.PolicyMap.{policy_map};
ghost use Rattle.pol_distill.specs.Distilled.{distilled};
ghost use Rattle.pol_tables.specs.Tables.{endpoint_in};
ghost use Rattle.pol_taken.specs.OfState.{IsTakenOf};
ghost use Rattle.pol_set_moves.specs.Moves.{TellsMovesSince};
ghost use Rattle.pol_repo.specs.Repository.{state_in};

use crate::moves::moves_in;
use crate::repo::Repo;
use pol_taken::{TakeError, Taken};
use std::alloc::Global;

impl Repo {
    /// What the policy map of the endpoint of that slot is made of, at the present revision: its filters, one row of a set
    /// for each distinct peer that they list, and what each address is (Cilium, "Endpoint regeneration"). It stays as it is
    /// whatever is committed afterwards. `since` is a revision that is known, none where nothing is. Where it isn't below
    /// the horizon of the journal, `moves` has a move for each row whose peer was listed ever since: what its set has now
    /// and had not, and what it had and has not ('profile').
    ///
    /// `Gone` comes exactly where no live endpoint has the slot. `Memory` is want of memory. What is kept of it (`refresh`) is
    /// shared, and the rest is made anew.
    pub fn take(&self, alloc: Global, slot: u32, since: Option<u64>) -> Result<Taken, TakeError>
        requires idle { self.now.prepared ≡ None }
        requires since { IfSome since (λ revision. revision ≤ (state_in self.now).revision) }
        ensures taken { IfOk result (IsTakenOf self.now.options (state_in self.now) slot) }
        ensures map { IfOk result (λ taken. distilled (arc_value taken.filters) taken.sets
            ≡ policy_map self.now.options (state_in self.now) taken.endpoint) }
        ensures moves { IfOk result (λ taken.
            TellsMovesSince self.now.options self.now.journal since taken.sets taken.moves) }
        ensures gone { IsErrOf result TakeError.Gone ↔ (endpoint_in slot (state_in self.now).endpoints ≡ None) }
    {
        let mut taken = self.store.take(alloc, slot, self.options.localhost)?;
        taken.moves = moves_in(
            alloc,
            &self.store,
            self.nexts.as_slice(),
            &taken.sets,
            since,
        )?;
        Ok(taken)
    }

    /// Keeps what a take of the slot's endpoint shares: its filters with the rows of the peers that they list, and what each
    /// address is. What is kept and serves as it is stays. The repository is as before. Where memory is wanting, or no live
    /// endpoint has the slot, less is kept; that is no error, and the next take makes it anew.
    pub fn refresh(&mut self, alloc: Global, slot: u32)
        requires idle { self.old.prepared ≡ None }
        ensures same { self.new ≡ self.old }
    {
        let localhost = self.options.localhost;
        self.store.refresh(alloc, slot, localhost);
    }
}
