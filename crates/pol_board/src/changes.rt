//! The changes of events.
ghost use Rattle.std.specs.Prelude.{◌≡◌, ℕ, List, IfOk};
ghost use Rattle.std.specs.Arc.{arc_value};
ghost use Rattle.pol_model.specs.declared.options.Options.{Options};
ghost use Rattle.pol_mapkey.specs.Entries.{Entry as OneEntry};
ghost use Rattle.pol_history.specs.declared.event.HistoryEvent.{HistoryEvent as OneEvent};
ghost use Rattle.pol_history.specs.declared.event.HistoryEvent.TheVariants as event;
ghost use Rattle.pol_history.specs.Machine.{endpoint_id};
ghost use Rattle.pol_board_view.specs.Changes.{IsMadeOf, Tells};

use pol_board_view::FaceChange;
use pol_data::Memory;
use pol_map_changes::ChangeList;
use pol_model::Request;
use pol_taken::Taken;
use std::alloc::Global;

/// What a commit changes.
pub(crate) fn commit_change(alloc: Global, request: &Request) -> Result<FaceChange, Memory>
    ensures { IfOk result (λ change. (options : Options) (history : List OneEvent) (pass number : ℕ)
        → Tells options history change (event.Commit pass number request.now)) }
{
    Ok(match request {
        Request::AddEndpoint {
            name,
            labels: _,
            address: _,
        } => FaceChange::Added {
            name: name.copy(alloc)?,
        },
        Request::RemoveEndpoint { name } => FaceChange::Removed {
            name: name.copy(alloc)?,
        },
        Request::AddIdentity { name: _, labels: _ } => FaceChange::Nothing,
        Request::RemoveIdentity { name: _ } => FaceChange::Nothing,
        Request::Apply(_) => FaceChange::Nothing,
        Request::Remove(_) => FaceChange::Nothing,
        Request::SetMode(_) => FaceChange::Nothing,
    })
}

/// What a publication changes.
pub(crate) fn published_change(
    alloc: Global,
    taken: &Taken,
    changes: &ChangeList,
) -> Result<FaceChange, Memory>
    ensures { IfOk result (λ change. (options : Options) (history : List OneEvent) (table : List OneEntry)
        → IsMadeOf options history taken.now.endpoint.name taken.now.revision changes.now
        (arc_value taken.now.addresses) table
        → Tells options history change (event.Publish (endpoint_id taken.now.endpoint) taken.now.revision table)) }
{
    let addresses = taken.addresses.clone()?;
    Ok(FaceChange::Published {
        name: taken.endpoint.name.copy(alloc)?,
        added: taken.endpoint.added,
        revision: taken.revision,
        changes: changes.copy(alloc)?,
        addresses,
    })
}

/// What a report that a map is too large changes.
pub(crate) fn blocked_change(alloc: Global, taken: &Taken) -> Result<FaceChange, Memory>
    ensures { IfOk result (λ change. (options : Options) (history : List OneEvent) (count : ℕ)
        → Tells options history change (event.Blocked (endpoint_id taken.now.endpoint) taken.now.revision count)) }
{
    Ok(FaceChange::Blocked {
        name: taken.endpoint.name.copy(alloc)?,
        added: taken.endpoint.added,
        revision: taken.revision,
    })
}
