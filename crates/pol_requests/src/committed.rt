//! What a prepared request will be answered.
ghost use Rattle.std.specs.Prelude.{◌≡◌, ◌<◌, ◌-◌, ◌^◌, map};
ghost use Rattle.std.specs.List.{AllByRecursion};
ghost use Rattle.pol_model.specs.declared.limits.TheConstants.{ENDPOINTS_MAX};
ghost use Rattle.pol_model.specs.declared.request.Request.{Request as OneRequest};
ghost use Rattle.pol_model.specs.After.{after};
ghost use Rattle.pol_model.specs.Ascending.{Ascends};
ghost use Rattle.pol_model.specs.Committed.{committed_of, slots_of};
ghost use Rattle.pol_model.specs.Endpoints.{without_endpoint};
ghost use Rattle.pol_model.specs.State.{State};
ghost use Rattle.pol_model_laws.specs.Keeps.{Keeps};
ghost use Rattle.pol_requests.specs.Answer.{FitsSlots, identity_in, slots_with};
ghost use Rattle.pol_requests.specs.Prepared.{IsPrepared};

use crate::prepared::{Prepared, TableChange};
use pol_model::{Committed, Endpoint};
use pol_store::Store;
use std::cmp::max;

/// One more than the slot of the last endpoint of another name, 0 where there is none.
fn last_slot_without(endpoints: &[Endpoint], name: &str) -> u32
    ensures slots { Ascends (map (λ endpoint. endpoint.slot) endpoints.now) → AllByRecursion (λ endpoint.
        endpoint.slot < ENDPOINTS_MAX) endpoints.now → result ≡ slots_of (without_endpoint name.now endpoints.now) }
{
    for i in (0..endpoints.len()).rev() {
        if endpoints[i].name.as_str() != name {
            return endpoints[i].slot.saturating_add(1);
        }
    }
    0
}

/// The identity of what the change adds.
fn identity_in(change: &TableChange) -> Option<u32>
    ensures identity { result ≡ identity_in change.now }
{
    match change {
        TableChange::Endpoint(endpoint, _) => Some(endpoint.identity),
        TableChange::Named(_, number) => Some(*number),
        TableChange::NoEndpoint(_, _)
        | TableChange::NotNamed(_, _)
        | TableChange::Policy { .. }
        | TableChange::NoPolicy(_, _)
        | TableChange::Mode(_) => None,
    }
}

/// One more than the greatest slot once the change is done.
fn slots_with(store: &Store, change: &TableChange) -> u32
    ensures slots { (s : State) → Keeps s
        → store.now.state.endpoints ≡ s.endpoints → FitsSlots change.now → result ≡ slots_with change.now s.endpoints }
{
    match change {
        TableChange::Endpoint(endpoint, _) => {
            max(store.endpoints().slots(), endpoint.slot.saturating_add(1))
        }
        TableChange::NoEndpoint(name, _) => {
            last_slot_without(store.endpoints().as_slice(), name.as_str())
        }
        TableChange::Named(_, _)
        | TableChange::NotNamed(_, _)
        | TableChange::Policy { .. }
        | TableChange::NoPolicy(_, _)
        | TableChange::Mode(_) => store.endpoints().slots(),
    }
}

/// What the prepared request is answered once it is done.
pub fn answer(store: &Store, prepared: &Prepared) -> Committed
    requires room { store.now.state.revision < 2 ^ 64 - 1 }
    ensures answer { (s : State) (request : OneRequest) → Keeps s → IsPrepared s request store.now prepared.now
        → result ≡ committed_of (after s request) request }
{
    Committed {
        revision: store.next_revision(),
        identity: identity_in(&prepared.change),
        slots: slots_with(store, &prepared.change),
    }
}
