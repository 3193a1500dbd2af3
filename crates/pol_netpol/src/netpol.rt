//! Documents of NetworkPolicies: from a JSON value to the policy.
ghost use Rattle.serde_json.specs.View.{view};
ghost use Rattle.pol_json.specs.Gives.{Gives};
ghost use Rattle.pol_netpol.specs.Document.{net_fault_of, netpol_of};

use crate::document::read_object;
use crate::fault::NetError;
use crate::translation::translate;
use pol_rule::Policy;
use serde_json::Value;
use std::alloc::Global;

/// The policy of a NetworkPolicy's document (Kubernetes, `NetworkPolicy`), or its first fault.
///
/// The policy has the key of `network_key` and one rule, which means the same as the object
/// (`laws::what_is_read_keeps_its_meaning`). `Fault` comes exactly where there is a fault, with the first
/// one: a `Doc` comes before each `Rule`, and among them the order is that of `network_spec` and
/// `translate` ('profile'). `Memory` is want of memory.
pub fn read_netpol(alloc: Global, value: &Value) -> Result<Policy, NetError>
    ensures exact { Gives net_fault_of result (netpol_of (view value.now)) }
{
    let raw = read_object(alloc, value)?;
    Ok(translate(alloc, &raw)?)
}
