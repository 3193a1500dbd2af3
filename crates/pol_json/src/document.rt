//! Policy documents: what is read first, the walk, and the policy.
ghost use Rattle.std.specs.Prelude.{◌≡◌, codes, Some, is_some, IfOk, IfSome, option_and_then, option_map};
ghost use Rattle.serde_json.specs.View.{view};
ghost use Rattle.pol_json.specs.Build.{is_cluster_wide, key_with, rules_with};
ghost use Rattle.pol_json.specs.Document.{has_kind, has_name, head_fault, is_long, is_there_and_long, places_in, read_document};
ghost use Rattle.pol_json.specs.Gives.{Gives, Finds, doc_fault_of};
ghost use Rattle.pol_json.specs.Members.{present, text_at};
ghost use Rattle.pol_json.specs.Path.{fault_of};
ghost use Rattle.pol_json.specs.Places.{first_found};

use crate::fault::{DocError, DocFault};
use crate::members::{is_text_at, list_at, present, text_at};
use crate::part::{Part, items_at};
use crate::path::from_policy;
use crate::table::{Content, ObjectKind};
use crate::walk::walk;
use pol_data::{Items, Memory, Text};
use pol_rule::{PolicyKey, RawPolicy, RawRule, RawRules};
use serde_json::Value;
use std::alloc::Global;

/// The namespace of a policy that names none (Kubernetes, "Namespaces").
pub(crate) const DEFAULT_NAMESPACE: &str = "default";

/// What is read first of a policy: its kind, its metadata and the name there, and the rule of `spec`.
#[derive(Clone, Copy)]
struct Head<'v> {
    /// Whether it is of the cluster-wide kind.
    cluster_wide: bool,
    /// The metadata.
    metadata: &'v Value,
    /// The name.
    name: &'v str,
    /// The rule of `spec`, where it is there.
    spec: Option<&'v Value>,
}

/// Whether a policy is of the cluster-wide kind; none where it is of no kind.
fn kind_of(value: &Value) -> Option<bool>
    ensures kind { is_some result ≡ has_kind (view value.now) }
    ensures wide { IfSome result (λ wide. wide ≡ is_cluster_wide (view value.now)) }
{
    let kind = text_at(value, "kind")?;
    let cluster_wide = "CiliumClusterwideNetworkPolicy" == kind;
    if "CiliumNetworkPolicy" == kind || cluster_wide {
        Some(cluster_wide)
    } else {
        None
    }
}

/// The name in the metadata, unless it is empty.
fn name_in<'v>(metadata: &'v Value) -> Option<&'v str>
    ensures there { is_some result ≡ is_long (text_at (codes "name") (view metadata.now)) }
    ensures name { IfSome result (λ name. text_at (codes "name") (view metadata.now) ≡ Some name.now) }
{
    let name = text_at(metadata, "name")?;
    if name.is_empty() { None } else { Some(name) }
}

/// Whether there is metadata with a name that isn't empty.
pub(crate) fn has_name(value: &Value) -> bool
    ensures { result ≡ has_name (view value.now) }
{
    match present(value, "metadata") {
        None => false,
        Some(metadata) => name_in(metadata).is_some(),
    }
}

/// A text of the metadata.
pub(crate) fn metadata_text<'v>(value: &'v Value, name: &str) -> Option<&'v str>
    ensures { option_map (λ text.
        text.now) result ≡ option_and_then (text_at name.now) (present (codes "metadata") (view value.now)) }
{
    text_at(present(value, "metadata")?, name)
}

/// Whether `specs` is there and is no empty list.
fn has_specs(value: &Value) -> bool
    ensures { result ≡ is_there_and_long (codes "specs") (view value.now) }
{
    match list_at(value, "specs") {
        None => present(value, "specs").is_some(),
        Some(items) => !items.is_empty(),
    }
}

/// What is read first, or the fault of what is no policy, has no name, or has no rule.
fn head_of(value: &Value) -> Result<Head, DocError>
    ensures fault { Finds (head_fault (view value.now)) result }
    ensures kind { IfOk result (λ head. head.cluster_wide ≡ is_cluster_wide (view value.now)) }
    ensures metadata { IfOk result (λ head.
        present (codes "metadata") (view value.now) ≡ Some (view head.metadata.now)) }
    ensures name { IfOk result (λ head. text_at (codes "name") (view head.metadata.now) ≡ Some head.name.now) }
    ensures spec { IfOk result (λ head.
        option_map (λ spec. view spec.now) head.spec ≡ present (codes "spec") (view value.now)) }
{
    if !is_text_at(value, "apiVersion", "cilium.io/v2") {
        return Err(DocError::Fault(DocFault::NotPolicy));
    }
    let Some(cluster_wide) = kind_of(value) else {
        return Err(DocError::Fault(DocFault::NotPolicy));
    };
    let Some(metadata) = present(value, "metadata") else {
        return Err(DocError::Fault(DocFault::NoName));
    };
    let Some(name) = name_in(metadata) else {
        return Err(DocError::Fault(DocFault::NoName));
    };
    let spec = present(value, "spec");
    if spec.is_none() && !has_specs(value) {
        return Err(DocError::Fault(DocFault::NoSpec));
    }
    Ok(Head {
        cluster_wide,
        metadata,
        name,
        spec,
    })
}

/// The first fault at a place of a document of this kind.
pub(crate) fn check_places(alloc: Global, kind: ObjectKind, value: &Value) -> Result<(), DocError>
    ensures { Finds (option_map fault_of (first_found (places_in kind (view value.now)))) result }
{
    from_policy(alloc, walk(alloc, Content::Object(kind), value))
}

/// The key: a cluster-wide policy has no namespace, and another that names none is in the default one.
fn build_key(alloc: Global, head: &Head) -> Result<PolicyKey, Memory>
    ensures { IfOk result (λ key. key ≡ key_with head.now.cluster_wide (view head.now.metadata.now) head.now.name.now) }
{
    let namespace = if head.cluster_wide {
        ""
    } else {
        text_at(head.metadata, "namespace").unwrap_or(DEFAULT_NAMESPACE)
    };
    Ok(PolicyKey {
        cluster_wide: head.cluster_wide,
        namespace: Text::from_str(alloc, namespace)?,
        name: Text::from_str(alloc, head.name)?,
    })
}

/// The rule of `spec`, then those of `specs`.
fn build_rules(alloc: Global, value: &Value, spec: Option<&Value>) -> Result<RawRules, Memory>
    ensures { IfOk result (λ rules.
        rules ≡ rules_with (option_map (λ spec. view spec.now) spec.entry) (view value.now)) }
{
    let more: RawRules = items_at(alloc, value, "specs")?;
    match spec {
        None => Ok(more),
        Some(spec) => {
            let mut rules = Vec::new(alloc);
            rules.push(RawRule::build(alloc, spec)?)?;
            rules.append(&mut more.into_vec())?;
            Ok(Items::from_vec(rules))
        }
    }
}

/// The policy of a document, as it was written (Cilium, "CiliumNetworkPolicy").
///
/// `Fault` comes exactly where the document has a fault, with the first one: `NotPolicy`, `NoName` and
/// `NoSpec` in this order, and then that of the first place with a cause, members in the byte order of
/// their names, items in order, a value before what it holds ('profile'). `Memory` is want of memory.
pub fn read_policy(alloc: Global, value: &Value) -> Result<RawPolicy, DocError>
    ensures exact { Gives doc_fault_of result (read_document (view value.now)) }
{
    let head = head_of(value)?;
    check_places(alloc, ObjectKind::Policy, value)?;
    Ok(RawPolicy {
        key: build_key(alloc, &head)?,
        rules: build_rules(alloc, value, head.spec)?,
    })
}
