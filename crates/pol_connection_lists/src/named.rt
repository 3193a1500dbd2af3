//! The named identities of a journal, by name.
ghost use Rattle.std.specs.Prelude.{◌≡◌, IfOk, List, OnOk};
ghost use Rattle.std.specs.BTreeMap.{IsOrdered};
ghost use Rattle.std.specs.Cmp.Lexicographic.{slice_cmp};
ghost use Rattle.std.specs.Ordering.{nat_cmp};
ghost use Rattle.pol_model.specs.declared.options.Options.{Options};
ghost use Rattle.pol_model.specs.declared.row.NamedIdentity.{NamedIdentity as OneIdentity};
ghost use Rattle.pol_model.specs.After.{after, state_of};
ghost use Rattle.pol_model.specs.State.{State};
ghost use Rattle.pol_model_laws.specs.Keeps.{Keeps};
ghost use Rattle.pol_model_laws.specs.WithoutFaults.{MayCommit, WithoutFaults};
ghost use Rattle.pol_connections.specs.Ends.{by_name};
ghost use Rattle.pol_connection_lists.specs.Names.{AreLabelsIn, identities_by, number_allowed};

use pol_data::{Memory, Text};
use pol_ident::Identities;
use pol_labels::LabelSet;
use pol_model::{NamedIdentity, Request, has_reserved, is_init};
use std::alloc::Global;
use std::collections::BTreeMap;

/// What the request does to the labels that names hold.
fn follow<'a>(
    alloc: Global,
    held: &mut BTreeMap<Text, &'a LabelSet>,
    request: &'a Request,
) -> Result<(), Memory>
    ensures { OnOk result ((s : State) → Keeps s
        → MayCommit s request.now → AreLabelsIn s held.old → AreLabelsIn (after s request.now) held.new) }
{
    match request {
        Request::AddIdentity { name, labels } => {
            held.insert(name.copy(alloc)?, labels)?;
            Ok(())
        }
        Request::RemoveIdentity { name } => {
            held.remove(name);
            Ok(())
        }
        _ => Ok(()),
    }
}

/// The labels that each name holds after the requests.
fn labels_after<'a>(
    alloc: Global,
    journal: &'a [Request],
) -> Result<BTreeMap<Text, &'a LabelSet>, Memory>
    ensures { IfOk result (λ held.
        (options : Options) → WithoutFaults options journal.now → AreLabelsIn (state_of options journal.now) held) }
{
    let mut held = BTreeMap::new(alloc);
    for request in journal {
        follow(alloc, &mut held, request)?;
    }
    Ok(held)
}

/// The number of a label set that an identity may have.
fn number_of(identities: &Identities, labels: &LabelSet) -> Option<u32>
    ensures { result ≡ number_allowed identities.now labels.now }
{
    if has_reserved(labels) && !is_init(labels) {
        None
    } else {
        identities.number_of(labels)
    }
}

/// The named identities of these labels.
fn numbered(
    alloc: Global,
    identities: &Identities,
    held: &BTreeMap<Text, &LabelSet>,
) -> Result<Vec<NamedIdentity>, Memory>
    ensures named { IfOk result (λ named. named.items ≡ identities_by identities.now held.now.entries) }
    ensures ordered { IsOrdered (slice_cmp nat_cmp) held.now }
{
    // The call tells that the names ascend.
    let _count = held.len();
    let mut named = Vec::new(alloc);
    for (name, labels) in held {
        if let Some(number) = number_of(identities, *labels) {
            named.push(NamedIdentity {
                name: name.copy(alloc)?,
                number,
            })?;
        }
    }
    Ok(named)
}

/// The named identities of the state after the requests, by name.
pub(crate) fn named_by_name(
    alloc: Global,
    journal: &[Request],
    identities: &Identities,
) -> Result<Vec<NamedIdentity>, Memory>
    ensures { IfOk result (λ named. (options : Options)
        → WithoutFaults options journal.now → identities.now ≡ (state_of options journal.now).identities
        → named.items ≡ by_name (λ (identity : OneIdentity). identity.name) (state_of options journal.now).named) }
{
    let held = labels_after(alloc, journal)?;
    numbered(alloc, identities, &held)
}
