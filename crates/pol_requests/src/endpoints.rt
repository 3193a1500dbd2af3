//! Endpoints that come and go.
ghost use Rattle.std.specs.Prelude.{◌≡◌, ◌<◌, ◌+◌, ◌-◌, ◌^◌, ◌≤◌};
ghost use Rattle.pol_model.specs.declared.request.Request.TheVariants.{AddEndpoint, RemoveEndpoint};
ghost use Rattle.pol_model.specs.Fault.{is_taken};
ghost use Rattle.pol_selcache.specs.Cache.{with_room};
ghost use Rattle.pol_selcache.specs.Live.{label_selectors};
ghost use Rattle.pol_requests.specs.Causes.{endpoint_fault};
ghost use Rattle.pol_requests.specs.Prepared.{Changes, MayChange, PreparesOrNot};
ghost use Rattle.pol_store.specs.Store.{StandsForSome};

use crate::error::PrepareError;
use crate::prepared::{Prepared, TableChange};
use pol_addr::Addr;
use pol_allocator::LabelsHeld;
use pol_data::{Steps, Text};
use pol_ident::IdentError;
use pol_labels::LabelSet;
use pol_model::{ENDPOINTS_MAX, Endpoint, Fault, has_reserved, is_init};
use pol_store::Store;
use std::sync::ledger::Ledger;

/// Whether a live endpoint has the address.
fn is_taken(store: &Store, address: Addr) -> bool
    ensures taken { result ≡ is_taken store.now.state.endpoints address }
{
    store.endpoints().at_address(address).is_some()
}

/// The fault of a new endpoint, but for numbers that ran out.
fn endpoint_fault(store: &Store, name: &str, labels: &LabelSet, address: Addr) -> Option<Fault>
    ensures fault { result ≡ endpoint_fault store.now.state name.now labels.now address }
{
    if has_reserved(labels) && !is_init(labels) {
        Some(Fault::ReservedLabel)
    } else if store.endpoints().find(name).is_some() {
        Some(Fault::DuplicateEndpoint)
    } else if ENDPOINTS_MAX as usize <= store.endpoints().len() {
        Some(Fault::EndpointsFull)
    } else if is_taken(store, address) {
        Some(Fault::AddressTaken)
    } else {
        None
    }
}

/// Prepares a new endpoint: it holds the number of its labels.
pub(crate) fn prepare_endpoint<L: Ledger>(
    store: &mut Store,
    name: &Text,
    labels: &LabelSet,
    address: Addr,
    steps: &mut Steps<L>,
) -> Result<Prepared, PrepareError>
    requires stands { StandsForSome store.old }
    requires room { store.old.state.revision < 2 ^ 64 - 1 }
    ensures prepared { PreparesOrNot (AddEndpoint name.now labels.now address) store.old store.new result }
    ensures sets { store.new.cache ≡ with_room store.new.cache.log.spare store.old.cache }
    ensures cost { steps.new ≤ steps.old + label_selectors store.old.cache.live }
{
    if let Some(fault) = endpoint_fault(store, name.as_str(), labels, address) {
        return Err(PrepareError::Fault(fault));
    }
    store.reserve_endpoint()?;
    let own = name.copy(store.allocator())?;
    let mut endpoint = store.endpoint_without_number(name, labels, address)?;
    match store.hold_labels(labels, steps) {
        Ok(LabelsHeld { number, plan }) => {
            endpoint.identity = number;
            Ok(Prepared {
                plan,
                change: TableChange::Endpoint(endpoint, own),
            })
        }
        Err(IdentError::Exhausted) => Err(PrepareError::Fault(Fault::IdentitiesExhausted)),
        Err(IdentError::Memory) => Err(PrepareError::Memory),
    }
}

/// Prepares that the endpoint of that name goes.
pub(crate) fn prepare_no_endpoint<L: Ledger>(
    store: &mut Store,
    name: &Text,
    steps: &mut Steps<L>,
) -> Result<Prepared, PrepareError>
    requires stands { StandsForSome store.old }
    requires room { store.old.state.revision < 2 ^ 64 - 1 }
    ensures prepared { PreparesOrNot (RemoveEndpoint name.now) store.old store.new result }
    ensures sets { store.new.cache ≡ with_room store.new.cache.log.spare store.old.cache }
    ensures cost { steps.new ≤ steps.old }
{
    let number = match store.endpoints().find(name.as_str()) {
        Some(endpoint) => endpoint.identity,
        None => return Err(PrepareError::Fault(Fault::UnknownEndpoint)),
    };
    let own = name.copy(store.allocator())?;
    let plan = store.plan_release(number, steps)?;
    Ok(Prepared {
        plan,
        change: TableChange::NoEndpoint(own, number),
    })
}

/// Places the endpoint, whose number is held.
pub(crate) fn accept_endpoint(store: &mut Store, endpoint: Endpoint, name: Text)
    requires may { MayChange store.old (TableChange.Endpoint endpoint name) }
    ensures done { Changes store.old (TableChange.Endpoint endpoint name) store.new }
    ensures sets { store.new.cache ≡ store.old.cache }
{
    store.put_endpoint(endpoint, name);
}

/// Takes the endpoint out, and gives its number back.
pub(crate) fn accept_no_endpoint(store: &mut Store, name: Text, number: u32)
    requires may { MayChange store.old (TableChange.NoEndpoint name number) }
    ensures done { Changes store.old (TableChange.NoEndpoint name number) store.new }
    ensures sets { store.new.cache ≡ store.old.cache }
{
    store.drop_endpoint(name.as_str());
    store.release(number);
}
