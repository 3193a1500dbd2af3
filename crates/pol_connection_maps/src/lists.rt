//! The lists of connections.
ghost use Rattle.std.specs.Prelude.{◌≡◌, IfOk};
ghost use Rattle.pol_model.specs.declared.options.Options.{Options};
ghost use Rattle.pol_model.specs.State.{State};
ghost use Rattle.pol_model_laws.specs.Keeps.{Keeps};
ghost use Rattle.pol_connections.specs.Connections.{changes_of, connections_of, ends_alone};
ghost use Rattle.pol_connection_maps.specs.Rows.{AreRowsOf, AreSound};

use crate::alone::names_alone;
use crate::by_maps::{changed_by_maps, open_by_maps};
use crate::end_row::end_rows;
use crate::maps::number_maps;
use crate::peer_rows::PeerRows;
use crate::regions::regions_of;
use crate::rows::StateRows;
use crate::sets::sets_of;
use pol_connections::{Connection, EndName};
use pol_data::Memory;
use std::alloc::Global;

/// The open connections of a state with these rows: of each pair of ends, in their order, and each protocol, the ranges of ports on
/// which the source may send and the target may receive ('profile'; Cilium, Network Policy). The one error is want of memory.
pub fn open_connections(alloc: Global, rows: &StateRows<'_>) -> Result<Vec<Connection>, Memory>
    requires { AreSound rows.now }
    ensures { IfOk result (λ list. (options : Options) (s : State)
        → AreRowsOf options s rows.now → Keeps s → list.items ≡ connections_of options s) }
{
    let regions = regions_of(alloc, rows.identities, rows.identities)?;
    let sets = sets_of(alloc, rows.identities, rows.policies)?;
    let index = PeerRows::new(alloc, sets.as_slice())?;
    let maps = number_maps(alloc, &[], &index, rows, &index)?;
    open_by_maps(alloc, rows, &regions, &maps)
}

/// The connections that a change from a state with the first rows to one with the second opens or shuts: of each pair of ends that
/// both have, in the order of the second, and each protocol, the ranges of ports on which the connection is open before or after and
/// not both ('profile'). Where halves are told, those too on which a half has another word. The one error is want of memory.
pub fn changed_connections(
    alloc: Global,
    halves: bool,
    before: &StateRows<'_>,
    after: &StateRows<'_>,
) -> Result<Vec<Connection>, Memory>
    requires before { AreSound before.now }
    requires after { AreSound after.now }
    ensures { IfOk result (λ list. (options : Options) (s t : State) → AreRowsOf options s before.now
        → AreRowsOf options t after.now → Keeps s → Keeps t → list.items ≡ changes_of halves options s t) }
{
    let regions = regions_of(alloc, before.identities, after.identities)?;
    let sets_before = sets_of(alloc, before.identities, before.policies)?;
    let sets_after = sets_of(alloc, after.identities, after.policies)?;
    let peers_before = PeerRows::new(alloc, sets_before.as_slice())?;
    let peers_after = PeerRows::new(alloc, sets_after.as_slice())?;
    let maps_before = number_maps(alloc, &[], &peers_before, before, &peers_before)?;
    let maps_after = number_maps(alloc, &maps_before, &peers_before, after, &peers_after)?;
    changed_by_maps(
        alloc,
        halves,
        &regions,
        before,
        &maps_before,
        after,
        &maps_after,
    )
}

/// The names of ends of a state with the second rows that one with the first rows doesn't have, in the order of ends ('profile').
/// The one error is want of memory.
pub fn ends_alone(
    alloc: Global,
    one: &StateRows<'_>,
    other: &StateRows<'_>,
) -> Result<Vec<EndName>, Memory>
    requires one { AreSound one.now }
    requires other { AreSound other.now }
    ensures { IfOk result (λ names. (options later : Options) (s t : State)
        → AreRowsOf options s one.now → AreRowsOf later t other.now → names.items ≡ ends_alone s t) }
{
    let regions = regions_of(alloc, one.identities, other.identities)?;
    let ends_one = end_rows(alloc, one, &regions)?;
    let ends_other = end_rows(alloc, other, &regions)?;
    names_alone(alloc, &ends_one, &ends_other)
}
