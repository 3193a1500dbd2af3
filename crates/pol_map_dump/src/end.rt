//! The map of an endpoint at the end of a script.
ghost use Rattle.std.specs.Prelude.{◌≡◌, [], None, IfOk, is_some};
ghost use Rattle.pol_map_dump.specs.AtEnd.{endpoint_after, is_live, map_text, map_text_after};

use crate::map::{MapText, map_of};
use pol_data::Memory;
use pol_model::Options;
use pol_repo::Repo;
use pol_script::{Reading, read_script};
use pol_script_commits::commit_all;
use std::alloc::Global;

/// What is written of the map of the endpoint of that name at the end of a script. The requests of the script are committed
/// in their order, and all other lines and what is refused are passed over. It is the table of the endpoint's map, whatever
/// its size; or `noendpoint at N`, exactly where none of the name is live after the N commits ('profile'). The one error is
/// want of memory.
pub fn map_at_end(
    alloc: Global,
    options: Options,
    name: &str,
    script: &[u8],
) -> Result<MapText, Memory>
    requires { options.map_max ≡ None }
    ensures text { IfOk result (λ map. map.text.items ≡ map_text options name.now script.now) }
    ensures live { IfOk result (λ map. map.live ≡ is_live options name.now script.now) }
{
    let readings = read_script(alloc, script)?;
    map_after(alloc, options, name, readings)
}

// The same, of lines that were read.
fn map_after(
    alloc: Global,
    options: Options,
    name: &str,
    readings: Vec<Reading>,
) -> Result<MapText, Memory>
    requires { options.map_max ≡ None }
    ensures text { IfOk result (λ map. map.text.items ≡ map_text_after options name.now readings.items) }
    ensures live { IfOk result (λ map. map.live ≡ is_some (endpoint_after options name.now readings.items)) }
{
    let mut repo = Repo::new(alloc, options.mode, options.localhost)?;
    map_over(alloc, &mut repo, name, readings)
}

// The same, over a repository without a request.
fn map_over(
    alloc: Global,
    repo: &mut Repo,
    name: &str,
    readings: Vec<Reading>,
) -> Result<MapText, Memory>
    requires first { repo.old.journal ≡ [] }
    requires idle { repo.old.prepared ≡ None }
    ensures text { IfOk result (λ map. map.text.items ≡ map_text_after repo.old.options name.now readings.items) }
    ensures live { IfOk result (λ map. map.live ≡ is_some (endpoint_after repo.old.options name.now readings.items)) }
{
    commit_all(alloc, repo, readings)?;
    map_of(alloc, repo, name)
}
