//! Named identities that come and go.
ghost use Rattle.std.specs.Prelude.{◌≡◌, ◌<◌, ◌+◌, ◌-◌, ◌^◌, ◌≤◌};
ghost use Rattle.pol_model.specs.declared.request.Request.TheVariants.{AddIdentity, RemoveIdentity};
ghost use Rattle.pol_selcache.specs.Cache.{with_room};
ghost use Rattle.pol_selcache.specs.Live.{label_selectors};
ghost use Rattle.pol_requests.specs.Prepared.{Changes, MayChange, PreparesOrNot};
ghost use Rattle.pol_store.specs.Store.{StandsForSome};

use crate::error::PrepareError;
use crate::prepared::{Prepared, TableChange};
use pol_allocator::LabelsHeld;
use pol_data::{Steps, Text};
use pol_ident::IdentError;
use pol_labels::LabelSet;
use pol_model::{Fault, has_reserved};
use pol_store::Store;
use std::sync::ledger::Ledger;

/// Prepares a new named identity: it holds the number of its labels.
pub(crate) fn prepare_identity<L: Ledger>(
    store: &mut Store,
    name: &Text,
    labels: &LabelSet,
    steps: &mut Steps<L>,
) -> Result<Prepared, PrepareError>
    requires stands { StandsForSome store.old }
    requires room { store.old.state.revision < 2 ^ 64 - 1 }
    ensures prepared { PreparesOrNot (AddIdentity name.now labels.now) store.old store.new result }
    ensures sets { store.new.cache ≡ with_room store.new.cache.log.spare store.old.cache }
    ensures cost { steps.new ≤ steps.old + label_selectors store.old.cache.live }
{
    if has_reserved(labels) {
        return Err(PrepareError::Fault(Fault::ReservedLabel));
    }
    if store.named().find(name.as_str()).is_some() {
        return Err(PrepareError::Fault(Fault::DuplicateIdentityName));
    }
    store.reserve_name()?;
    let own = name.copy(store.allocator())?;
    match store.hold_labels(labels, steps) {
        Ok(LabelsHeld { number, plan }) => Ok(Prepared {
            plan,
            change: TableChange::Named(own, number),
        }),
        Err(IdentError::Exhausted) => Err(PrepareError::Fault(Fault::IdentitiesExhausted)),
        Err(IdentError::Memory) => Err(PrepareError::Memory),
    }
}

/// Prepares that the named identity goes.
pub(crate) fn prepare_no_identity<L: Ledger>(
    store: &mut Store,
    name: &Text,
    steps: &mut Steps<L>,
) -> Result<Prepared, PrepareError>
    requires stands { StandsForSome store.old }
    requires room { store.old.state.revision < 2 ^ 64 - 1 }
    ensures prepared { PreparesOrNot (RemoveIdentity name.now) store.old store.new result }
    ensures sets { store.new.cache ≡ with_room store.new.cache.log.spare store.old.cache }
    ensures cost { steps.new ≤ steps.old }
{
    let number = match store.named().find(name.as_str()) {
        Some(number) => number,
        None => return Err(PrepareError::Fault(Fault::UnknownIdentityName)),
    };
    let own = name.copy(store.allocator())?;
    let plan = store.plan_release(number, steps)?;
    Ok(Prepared {
        plan,
        change: TableChange::NotNamed(own, number),
    })
}

/// The name holds the number, which is held.
pub(crate) fn accept_identity(store: &mut Store, name: Text, number: u32)
    requires may { MayChange store.old (TableChange.Named name number) }
    ensures done { Changes store.old (TableChange.Named name number) store.new }
    ensures sets { store.new.cache ≡ store.old.cache }
{
    store.put_name(name, number);
}

/// Takes the name out, and gives its number back.
pub(crate) fn accept_no_identity(store: &mut Store, name: Text, number: u32)
    requires may { MayChange store.old (TableChange.NotNamed name number) }
    ensures done { Changes store.old (TableChange.NotNamed name number) store.new }
    ensures sets { store.new.cache ≡ store.old.cache }
{
    store.drop_name(name.as_str());
    store.release(number);
}
