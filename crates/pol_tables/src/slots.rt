//! Endpoints in the order of their slots.
ghost use Rattle.std.specs.Prelude.{◌≡◌, ◌<◌, nat_lt, count_by, map};
ghost use Rattle.std.specs.List.{AllByRecursion};
ghost use Rattle.std.specs.Option.{option_copied};
ghost use Rattle.pol_model.specs.Ascending.{Ascends};
ghost use Rattle.pol_model.specs.Committed.{slots_of};
ghost use Rattle.pol_model.specs.Endpoints.{free_slot};
ghost use Rattle.pol_tables.specs.Tables.{endpoint_in};

use pol_model::{ENDPOINTS_MAX, Endpoint};

/// How many endpoints have a lesser slot.
pub(crate) fn place_of(endpoints: &[Endpoint], slot: u32) -> usize
    requires { Ascends (map (λ endpoint. endpoint.slot) endpoints.now) }
    ensures { result ≡ count_by (λ endpoint. nat_lt endpoint.slot slot) endpoints.now }
{
    endpoints.partition_point(|endpoint| endpoint.slot < slot)
}

/// The endpoint of the slot.
pub(crate) fn at_slot(endpoints: &[Endpoint], slot: u32) -> Option<&Endpoint>
    requires { Ascends (map (λ endpoint. endpoint.slot) endpoints.now) }
    ensures { option_copied result ≡ endpoint_in slot endpoints.now }
{
    match endpoints.get(place_of(endpoints, slot)) {
        Some(endpoint) if endpoint.slot == slot => Some(endpoint),
        _ => None,
    }
}

/// The least slot that no endpoint has.
pub(crate) fn least_slot(endpoints: &[Endpoint]) -> u32
    requires { AllByRecursion (λ endpoint. endpoint.slot < ENDPOINTS_MAX) endpoints.now }
    ensures { result ≡ free_slot endpoints.now }
{
    let mut next = 0u32;
    for endpoint in endpoints {
        if endpoint.slot == next {
            next = endpoint.slot + 1;
        } else if next < endpoint.slot {
            return next;
        }
    }
    next
}

/// One more than the last slot, 0 where there is no endpoint.
pub(crate) fn count_slots(endpoints: &[Endpoint]) -> u32
    requires ascend { Ascends (map (λ endpoint. endpoint.slot) endpoints.now) }
    requires few { AllByRecursion (λ endpoint. endpoint.slot < ENDPOINTS_MAX) endpoints.now }
    ensures { result ≡ slots_of endpoints.now }
{
    match endpoints.last() {
        Some(endpoint) => endpoint.slot + 1,
        None => 0,
    }
}
