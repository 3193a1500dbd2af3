//! Lines that apply a policy, and lines that delete one.
ghost use Rattle.serde_json.specs.View.{view};
ghost use Rattle.pol_script.specs.Commands.{cilium_policy_of, key_of, network_policy_of, policy_of};
ghost use Rattle.pol_script.specs.Gives.{Reads};
ghost use Rattle.pol_script.specs.Reading.{read_op};
ghost use Rattle.std.specs.Prelude.{◌≡◌, true, false, [], IfOk, option_map};

use crate::endpoint::session_of;
use crate::kind::PolicyKind;
use crate::members::{
    check_known, needed_kind, needed_name, needed_value, optional_name, optional_session,
};
use crate::op::Op;
use crate::{Command, LineError};
use pol_data::{Memory, Text};
use pol_json::{is_network_policy, read_policy};
use pol_model::Request;
use pol_netpol::{network_key, read_netpol};
use pol_rule::{Policy, PolicyKey};
use pol_sanitize::sanitize;
use serde_json::Value;
use std::alloc::Global;

/// The namespace of a policy that names none (Kubernetes, "Namespaces").
const DEFAULT_NAMESPACE: &str = "default";

/// What a document of Cilium's says, or its first fault.
fn cilium_policy_of(alloc: Global, document: &Value) -> Result<Policy, LineError>
    ensures { Reads (λ policy. policy) result (cilium_policy_of (view document.now)) }
{
    let raw = read_policy(alloc, document)?;
    Ok(sanitize(alloc, &raw)?)
}

/// What the document of a NetworkPolicy says, or its first fault.
fn network_policy_of(alloc: Global, document: &Value) -> Result<Policy, LineError>
    ensures { Reads (λ policy. policy) result (network_policy_of (view document.now)) }
{
    Ok(read_netpol(alloc, document)?)
}

/// What the policy of a document says, or its first fault. A document of the version and the kind of a
/// NetworkPolicy is read as one, and every other as one of Cilium's.
fn policy_of(alloc: Global, document: &Value) -> Result<Policy, LineError>
    ensures { Reads (λ policy. policy) result (policy_of (view document.now)) }
{
    if is_network_policy(document) {
        network_policy_of(alloc, document)
    } else {
        cilium_policy_of(alloc, document)
    }
}

/// The command of a line that applies a policy.
pub(crate) fn read_apply(alloc: Global, value: &Value) -> Result<Command, LineError>
    ensures { Reads (λ command. command) result (read_op Op.Apply (view value.now)) }
{
    let document = needed_value(alloc, value, "policy")?;
    let session = optional_session(alloc, value)?;
    check_known(alloc, value, &["op", "policy", "session"])?;
    let policy = policy_of(alloc, document)?;
    Ok(Command::Commit {
        session: session_of(session),
        request: Request::Apply(policy),
    })
}

fn namespaced_key(alloc: Global, namespace: &str, name: &str) -> Result<PolicyKey, Memory>
    ensures { IfOk result (λ key. key ≡ record { cluster_wide = false; namespace = namespace.now; name = name.now }) }
{
    Ok(PolicyKey {
        cluster_wide: false,
        namespace: Text::from_str(alloc, namespace)?,
        name: Text::from_str(alloc, name)?,
    })
}

fn cluster_wide_key(alloc: Global, name: &str) -> Result<PolicyKey, Memory>
    ensures { IfOk result (λ key. key ≡ record { cluster_wide = true; namespace = []; name = name.now }) }
{
    Ok(PolicyKey {
        cluster_wide: true,
        namespace: Text::empty(alloc),
        name: Text::from_str(alloc, name)?,
    })
}

/// The key of a policy of this kind. A cluster-wide one has no namespace, whatever is named.
fn key_of(
    alloc: Global,
    kind: PolicyKind,
    namespace: Option<&str>,
    name: &str,
) -> Result<PolicyKey, Memory>
    ensures { IfOk result (λ key. key ≡ key_of kind (option_map (λ text. text.now) namespace.entry) name.now) }
{
    let namespace = namespace.unwrap_or(DEFAULT_NAMESPACE);
    match kind {
        PolicyKind::Namespaced => namespaced_key(alloc, namespace, name),
        PolicyKind::ClusterWide => cluster_wide_key(alloc, name),
        PolicyKind::Network => network_key(alloc, namespace, name),
    }
}

/// The command of a line that deletes a policy.
pub(crate) fn read_delete(alloc: Global, value: &Value) -> Result<Command, LineError>
    ensures { Reads (λ command. command) result (read_op Op.Delete (view value.now)) }
{
    let kind = needed_kind(alloc, value, "kind")?;
    let namespace = optional_name(alloc, value, "namespace")?;
    let name = needed_name(alloc, value, "name")?;
    let session = optional_session(alloc, value)?;
    check_known(
        alloc,
        value,
        &["op", "kind", "namespace", "name", "session"],
    )?;
    Ok(Command::Commit {
        session: session_of(session),
        request: Request::Remove(key_of(alloc, kind, namespace, name)?),
    })
}
