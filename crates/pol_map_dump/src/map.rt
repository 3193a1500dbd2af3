//! The map of an endpoint is written as a table.
ghost use Rattle.std.specs.Prelude.{◌≡◌, None, Some, true, false, IfOk, is_some};
ghost use Rattle.std.specs.Arc.{arc_value};
ghost use Rattle.pol_answer.specs.declared.answer.Answer.TheVariants as answer;
ghost use Rattle.pol_answer.specs.Text.{text_of as answer_text};
ghost use Rattle.pol_audit.specs.Text.{text_of as table_text};
ghost use Rattle.pol_audit.specs.Tables.{IsTable};
ghost use Rattle.pol_distill.specs.Distilled.{distilled};
ghost use Rattle.pol_distill.specs.Sorted.{HaveSets};
ghost use Rattle.pol_model.specs.Endpoints.{endpoint_of};
ghost use Rattle.pol_model.specs.PolicyMap.{policy_map};
ghost use Rattle.pol_repo.specs.Repository.{state_in};
ghost use Rattle.pol_tables.specs.Tables.{endpoint_in};
ghost use Rattle.pol_map_dump.specs.AtEnd.{map_text_in};

use pol_answer::{Answer, answer_text};
use pol_audit::{Entries, table_text};
use pol_data::Memory;
use pol_distill::{MapTable, distill};
use pol_model::Endpoint;
use pol_repo::Repo;
use pol_taken::{TakeError, Taken};
use std::alloc::Global;

/// What is written of a map.
#[derive(Debug, Drop)]
pub struct MapText {
    /// The table of the map, a line an entry; or `noendpoint at N`.
    pub text: Vec<u8>,
    /// Whether an endpoint of the name is live.
    pub live: bool,
}

/// The map of the endpoint of that name, or that none is live after so many commits.
pub(crate) fn map_of(alloc: Global, repo: &Repo, name: &str) -> Result<MapText, Memory>
    requires { repo.now.prepared ≡ None }
    ensures text { IfOk result (λ map. map.text.items
        ≡ map_text_in repo.now.options (state_in repo.now) (endpoint_of name.now (state_in repo.now).endpoints)) }
    ensures live { IfOk result (λ map. map.live ≡ is_some (endpoint_of name.now (state_in repo.now).endpoints)) }
{
    match repo.endpoint(name) {
        None => no_map(alloc, repo.revision()),
        Some(endpoint) => map_in_slot(alloc, repo, endpoint),
    }
}

/// That no endpoint of a name is live after so many commits.
fn no_map(alloc: Global, revision: u64) -> Result<MapText, Memory>
    ensures text { IfOk result (λ map. map.text.items ≡ answer_text (answer.NoEndpoint revision)) }
    ensures live { IfOk result (λ map. map.live ≡ false) }
{
    let text = answer_text(alloc, &Answer::NoEndpoint(revision))?;
    Ok(MapText { text, live: false })
}

/// The table of the map of an endpoint that is live in its slot.
fn map_in_slot(alloc: Global, repo: &Repo, endpoint: &Endpoint) -> Result<MapText, Memory>
    requires idle { repo.now.prepared ≡ None }
    requires slot { endpoint_in endpoint.now.slot (state_in repo.now).endpoints ≡ Some endpoint.now }
    ensures text { IfOk result (λ map.
        map.text.items ≡ table_text (policy_map repo.now.options (state_in repo.now) endpoint.now)) }
    ensures live { IfOk result (λ map. map.live ≡ true) }
{
    match repo.take(alloc, endpoint.slot, None) {
        Ok(taken) => taken_map(alloc, taken),
        Err(TakeError::Gone) => unreachable!(),
        Err(TakeError::Memory) => Err(Memory),
    }
}

/// The table of the map that is made of what was taken.
fn taken_map(alloc: Global, taken: Taken) -> Result<MapText, Memory>
    requires { HaveSets taken.sets (arc_value taken.filters) }
    ensures text { IfOk result (λ map. map.text.items ≡ table_text (distilled (arc_value taken.filters) taken.sets)) }
    ensures live { IfOk result (λ map. map.live ≡ true) }
{
    let table = distill(alloc, &taken.filters, &taken.sets)?;
    let entries = entries_of(alloc, &table)?;
    let text = table_text(alloc, &entries)?;
    Ok(MapText { text, live: true })
}

/// The entries of a map, in the order of their keys.
fn entries_of(alloc: Global, table: &MapTable) -> Result<Entries, Memory>
    requires { IsTable table.now }
    ensures { IfOk result (λ entries. entries ≡ table.now) }
{
    let mut entries = Vec::new(alloc);
    for place in 0..table.count() {
        entries.push(table.at(place))?;
    }
    Ok(Entries::from_vec(entries))
}
