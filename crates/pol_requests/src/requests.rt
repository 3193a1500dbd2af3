//! Requests are prepared.
ghost use Rattle.std.specs.Prelude.{◌≡◌, ◌<◌, ◌+◌, ◌-◌, ◌^◌, ◌≤◌, false};
ghost use Rattle.pol_model.specs.declared.request.Request.TheVariants.{SetMode};
ghost use Rattle.pol_model.specs.Sizes.{IsShort};
ghost use Rattle.pol_peers.specs.Numbering.{GainsSelectors};
ghost use Rattle.pol_selcache.specs.Cache.{with_room};
ghost use Rattle.pol_selcache.specs.Live.{label_selectors};
ghost use Rattle.pol_requests.specs.Prepared.{PreparesOrNot, is_of_policy};
ghost use Rattle.pol_store.specs.Store.{StandsForSome};

use crate::endpoints::{prepare_endpoint, prepare_no_endpoint};
use crate::error::PrepareError;
use crate::identities::{prepare_identity, prepare_no_identity};
use crate::policies::{prepare_no_policy, prepare_policy};
use crate::prepared::{Prepared, TableChange};
use pol_data::Steps;
use pol_model::{Mode, Request};
use pol_store::Store;
use std::sync::ledger::Ledger;

/// Prepares another mode.
fn prepare_mode<L: Ledger>(
    store: &mut Store,
    mode: Mode,
    steps: &mut Steps<L>,
) -> Result<Prepared, PrepareError>
    requires stands { StandsForSome store.old }
    requires room { store.old.state.revision < 2 ^ 64 - 1 }
    ensures prepared { PreparesOrNot (SetMode mode) store.old store.new result }
    ensures sets { store.new.cache ≡ with_room store.new.cache.log.spare store.old.cache }
    ensures cost { steps.new ≤ steps.old }
{
    let plan = store.plan_nothing(steps)?;
    Ok(Prepared {
        plan,
        change: TableChange::Mode(mode),
    })
}

/// Prepares the request: takes the numbers, the references and all the memory that it needs. The state is as before
/// until it is done.
///
/// `Fault` names the first fault of the request in the present state. `Memory` is want of memory, or a count of 64 bits
/// at its end. After either all is as before.
pub fn prepare<L: Ledger>(
    store: &mut Store,
    request: &Request,
    steps: &mut Steps<L>,
) -> Result<Prepared, PrepareError>
    requires stands { StandsForSome store.old }
    requires room { store.old.state.revision < 2 ^ 64 - 1 }
    requires short { IsShort request.now }
    ensures prepared { PreparesOrNot request.now store.old store.new result }
    ensures selectors { GainsSelectors store.old.cache store.new.cache }
    // Only a policy may bring peers that are new, which are judged by all rows.
    ensures cost { is_of_policy request.now ≡ false → steps.new ≤ steps.old + label_selectors store.old.cache.live }
{
    match request {
        Request::AddEndpoint {
            name,
            labels,
            address,
        } => prepare_endpoint(store, name, labels, *address, steps),
        Request::RemoveEndpoint { name } => prepare_no_endpoint(store, name, steps),
        Request::AddIdentity { name, labels } => prepare_identity(store, name, labels, steps),
        Request::RemoveIdentity { name } => prepare_no_identity(store, name, steps),
        Request::Apply(policy) => prepare_policy(store, policy, steps),
        Request::Remove(key) => prepare_no_policy(store, key, steps),
        Request::SetMode(mode) => prepare_mode(store, *mode, steps),
    }
}
