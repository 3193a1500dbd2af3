//! What was prepared is done, or taken back.
ghost use Rattle.std.specs.Prelude.{◌≡◌, ◌<◌, ◌-◌, ◌^◌};
ghost use Rattle.pol_model.specs.declared.request.Request.{Request as OneRequest};
ghost use Rattle.pol_model.specs.After.{after};
ghost use Rattle.pol_model.specs.State.{State};
ghost use Rattle.pol_model_laws.specs.Keeps.{Keeps};
ghost use Rattle.pol_peers.specs.Numbering.{LosesSelectors};
ghost use Rattle.pol_selcache.specs.Cache.{carried};
ghost use Rattle.pol_requests.specs.Prepared.{CanBeDone, Changes, IsPrepared, MayChange, TakesBack};
ghost use Rattle.pol_store.specs.Store.{StandsFor};

use crate::endpoints::{accept_endpoint, accept_no_endpoint};
use crate::identities::{accept_identity, accept_no_identity};
use crate::policies::{accept_no_policy, accept_policy, withdraw_policy};
use crate::prepared::{Prepared, TableChange};
use pol_model::Mode;
use pol_store::Store;

/// Changes the mode.
fn change_mode(store: &mut Store, mode: Mode)
    requires may { MayChange store.old (TableChange.Mode mode) }
    ensures done { Changes store.old (TableChange.Mode mode) store.new }
    ensures sets { store.new.cache ≡ store.old.cache }
{
    store.set_mode(mode);
}

/// Changes the tables, and gives up what goes.
fn make_change(store: &mut Store, change: TableChange)
    requires may { MayChange store.old change }
    ensures done { Changes store.old change store.new }
    ensures selectors { LosesSelectors store.old.cache store.new.cache }
{
    match change {
        TableChange::Endpoint(endpoint, name) => accept_endpoint(store, endpoint, name),
        TableChange::NoEndpoint(name, number) => accept_no_endpoint(store, name, number),
        TableChange::Named(name, number) => accept_identity(store, name, number),
        TableChange::NotNamed(name, number) => accept_no_identity(store, name, number),
        TableChange::Policy {
            stamped,
            key,
            taken,
            given_up,
        } => accept_policy(store, stamped, key, taken, given_up),
        TableChange::NoPolicy(key, given_up) => accept_no_policy(store, key, given_up),
        TableChange::Mode(mode) => change_mode(store, mode),
    }
}

/// Does what was prepared, and raises the revision by one. It takes no memory.
pub fn accept(store: &mut Store, prepared: Prepared)
    requires ready { CanBeDone store.old prepared }
    requires room { store.old.state.revision < 2 ^ 64 - 1 }
    ensures done { (s : State) (request : OneRequest)
        → Keeps s → IsPrepared s request store.old prepared → StandsFor (after s request) store.new }
    ensures selectors { LosesSelectors (carried prepared.plan store.old.cache) store.new.cache }
{
    let Prepared { plan, change } = prepared;
    store.accept(plan);
    make_change(store, change);
}

/// Gives back what was taken when the request was prepared. It takes no memory.
pub fn withdraw(store: &mut Store, prepared: Prepared)
    requires ready { CanBeDone store.old prepared }
    ensures back { TakesBack store.old prepared store.new }
    ensures selectors { LosesSelectors store.old.cache store.new.cache }
{
    let Prepared {
        plan: _plan,
        change,
    } = prepared;
    match change {
        TableChange::Endpoint(endpoint, _) => store.release(endpoint.identity),
        TableChange::Named(_, number) => store.release(number),
        TableChange::Policy { stamped, taken, .. } => {
            withdraw_policy(store, &stamped.policy, &taken)
        }
        TableChange::NoEndpoint(_, _)
        | TableChange::NotNamed(_, _)
        | TableChange::NoPolicy(_, _)
        | TableChange::Mode(_) => (),
    }
}
