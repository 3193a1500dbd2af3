//! Endpoints by name.
ghost use Rattle.std.specs.Prelude.{◌≡◌, IfOk, map};
ghost use Rattle.std.specs.List.{IsDistinct};
ghost use Rattle.std.specs.Str.{bytes_eq};
ghost use Rattle.pol_connections.specs.Ends.{by_name};

use pol_data::{Memory, Text};
use pol_model::Endpoint;
use std::alloc::Global;
use std::collections::BTreeMap;

/// The numbers of the endpoints, by name.
pub(crate) fn numbers_by_name(
    alloc: Global,
    endpoints: &[Endpoint],
) -> Result<BTreeMap<Text, u32>, Memory>
    requires { IsDistinct bytes_eq (map (λ endpoint. endpoint.name) endpoints.now) }
    ensures { IfOk result (λ numbers. numbers.entries ≡ map (λ endpoint.
        (endpoint.name, endpoint.identity)) (by_name (λ endpoint. endpoint.name) endpoints.now)) }
{
    let mut numbers = BTreeMap::new(alloc);
    for i in (0..endpoints.len()).rev() {
        let endpoint = &endpoints[i];
        numbers.insert(endpoint.name.copy(alloc)?, endpoint.identity)?;
    }
    Ok(numbers)
}
