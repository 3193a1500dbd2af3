//! Documents of a Kubernetes NetworkPolicy: which values are one, and what is wrong with one.
ghost use Rattle.std.specs.Prelude.{◌≡◌, codes, Some, IfOk};
ghost use Rattle.serde_json.specs.View.{view};
ghost use Rattle.pol_json.specs.Gives.{Finds};
ghost use Rattle.pol_json.specs.Members.{present};
ghost use Rattle.pol_json.specs.Network.{is_network_policy, network_fault, network_head_fault, network_name, network_namespace};

use crate::document::{DEFAULT_NAMESPACE, check_places, has_name, metadata_text};
use crate::fault::{DocError, DocFault};
use crate::members::{is_text_at, present};
use crate::table::ObjectKind;
use serde_json::Value;
use std::alloc::Global;

/// Whether the value is an object of the version and the kind of a NetworkPolicy (Kubernetes, `NetworkPolicy`).
pub fn is_network_policy(value: &Value) -> bool
    ensures { result ≡ is_network_policy (view value.now) }
{
    is_text_at(value, "apiVersion", "networking.k8s.io/v1")
        && is_text_at(value, "kind", "NetworkPolicy")
}

/// The spec, or the fault of what is no NetworkPolicy, has no name, or has no spec.
fn head_of(value: &Value) -> Result<&Value, DocError>
    ensures fault { Finds (network_head_fault (view value.now)) result }
    ensures spec { IfOk result (λ spec. present (codes "spec") (view value.now) ≡ Some (view spec.now)) }
{
    if !is_network_policy(value) {
        return Err(DocError::Fault(DocFault::NotPolicy));
    }
    if !has_name(value) {
        return Err(DocError::Fault(DocFault::NoName));
    }
    match present(value, "spec") {
        None => Err(DocError::Fault(DocFault::NoSpec)),
        Some(spec) => Ok(spec),
    }
}

/// The spec of a NetworkPolicy's document, or the document's first fault (Kubernetes, `NetworkPolicy`).
///
/// `Fault` comes exactly where the document has a fault, with the first one: `NotPolicy`, `NoName` and
/// `NoSpec` in this order, and then that of the first place with a cause, members in the byte order of
/// their names, items in order, a value before what it holds ('profile'). `Memory` is want of memory.
pub fn network_spec(alloc: Global, value: &Value) -> Result<&Value, DocError>
    ensures fault { Finds (network_fault (view value.now)) result }
    ensures spec { IfOk result (λ spec. present (codes "spec") (view value.now) ≡ Some (view spec.now)) }
{
    let spec = head_of(value)?;
    check_places(alloc, ObjectKind::NetworkPolicy, value)?;
    Ok(spec)
}

/// The name of a NetworkPolicy; empty where there is none, which is a fault.
pub fn network_name(value: &Value) -> &str
    ensures { result.now ≡ network_name (view value.now) }
{
    metadata_text(value, "name").unwrap_or("")
}

/// The namespace of a NetworkPolicy; one that names none is in the default one (Kubernetes, "Namespaces").
pub fn network_namespace(value: &Value) -> &str
    ensures { result.now ≡ network_namespace (view value.now) }
{
    metadata_text(value, "namespace").unwrap_or(DEFAULT_NAMESPACE)
}
