//! Pods: their labels, what selects them, and the requests by which they come and go.

use pol_addr::Addr;
use pol_data::{Items, Memory, Text};
use pol_labels::{Label, LabelSet, Operator, Requirement, Selector};
use pol_model::Request;
use std::alloc::Global;

const NAMESPACE: &str = "io.kubernetes.pod.namespace";

const ACCOUNT: &str = "io.cilium.k8s.policy.serviceaccount";

fn label(alloc: Global, key: &str, value: &str) -> Result<Label, Memory> {
    Ok(Label {
        source: Text::from_str(alloc, "k8s")?,
        key: Text::from_str(alloc, key)?,
        value: Text::from_str(alloc, value)?,
    })
}

/// Four labels of a pod of `web-NUMBER`, in a namespace.
fn pod_labels(alloc: Global, number: u32, namespace: &str) -> Result<Vec<Label>, Memory> {
    let app = format!(in alloc; "web-{number}")?;
    let mut labels = Vec::with_capacity(alloc, 4)?;
    labels.push(label(alloc, "app", app.as_str())?)?;
    labels.push(label(alloc, "io.cilium.k8s.policy.cluster", "default")?)?;
    labels.push(label(alloc, ACCOUNT, "default")?)?;
    labels.push(label(alloc, NAMESPACE, namespace)?)?;
    Ok(labels)
}

/// The set of these four. What isn't a set of labels is want of memory here.
fn label_set(alloc: Global, number: u32, namespace: &str) -> Result<LabelSet, Memory> {
    match LabelSet::from_labels(alloc, pod_labels(alloc, number, namespace)?) {
        Ok(labels) => Ok(labels),
        Err(_) => Err(Memory),
    }
}

fn value(alloc: Global, number: u32) -> Result<Items<Text>, Memory> {
    let value = format!(in alloc; "web-{number}")?;
    Items::one(alloc, Text::from_string(value))
}

/// What the key `app` is compared with: the value `web-NUMBER`.
fn app(alloc: Global, op: Operator, number: u32) -> Result<Requirement, Memory> {
    let key = Text::from_str(alloc, "app")?;
    Ok(Requirement {
        any_source: true,
        source: Text::empty(alloc),
        key,
        op,
        values: value(alloc, number)?,
    })
}

/// That there is such a key.
fn has(alloc: Global, key: &str) -> Result<Requirement, Memory> {
    let source = Text::from_str(alloc, "k8s")?;
    Ok(Requirement {
        any_source: false,
        source,
        key: Text::from_str(alloc, key)?,
        op: Operator::Present,
        values: Items::empty(alloc),
    })
}

fn requirements(
    alloc: Global,
    op: Operator,
    number: u32,
    key: &str,
) -> Result<Vec<Requirement>, Memory> {
    let first = app(alloc, op, number)?;
    let second = has(alloc, key)?;
    Ok(vec![in alloc; first, second]?)
}

/// What isn't a selector is want of memory here.
fn selector(alloc: Global, op: Operator, number: u32, key: &str) -> Result<Selector, Memory> {
    match Selector::from_requirements(alloc, requirements(alloc, op, number, key)?) {
        Ok(selector) => Ok(selector),
        Err(_) => Err(Memory),
    }
}

/// The pods of `web-NUMBER`, as a policy of the whole cluster selects them.
pub(crate) fn pods(alloc: Global, number: u32) -> Result<Selector, Memory> {
    selector(alloc, Operator::OneOf, number, NAMESPACE)
}

/// The pods of `web-NUMBER` that have a service account.
pub(crate) fn with_account(alloc: Global, number: u32) -> Result<Selector, Memory> {
    selector(alloc, Operator::OneOf, number, ACCOUNT)
}

/// All pods but those of `web-NUMBER`.
pub(crate) fn all_but(alloc: Global, number: u32) -> Result<Selector, Memory> {
    selector(alloc, Operator::NoneOf, number, NAMESPACE)
}

fn name(alloc: Global, number: u32, namespace: &str) -> Result<Text, Memory> {
    let name = format!(in alloc; "{namespace}-{number}")?;
    Ok(Text::from_string(name))
}

/// The identity of that number in a namespace.
pub(crate) fn identity(alloc: Global, number: u32, namespace: &str) -> Result<Request, Memory> {
    let name = name(alloc, number, namespace)?;
    Ok(Request::AddIdentity {
        labels: label_set(alloc, number, namespace)?,
        name,
    })
}

/// It goes.
pub(crate) fn no_identity(alloc: Global, number: u32, namespace: &str) -> Result<Request, Memory> {
    Ok(Request::RemoveIdentity {
        name: name(alloc, number, namespace)?,
    })
}

/// The endpoint of that number, whose labels those of a namespace have.
pub(crate) fn endpoint(alloc: Global, number: u32, namespace: &str) -> Result<Request, Memory> {
    let name = name(alloc, number, namespace)?;
    Ok(Request::AddEndpoint {
        labels: label_set(alloc, number, namespace)?,
        name,
        address: Addr::V4(number.wrapping_add(0x0a00_0000)),
    })
}

/// It goes.
pub(crate) fn no_endpoint(alloc: Global, number: u32, namespace: &str) -> Result<Request, Memory> {
    Ok(Request::RemoveEndpoint {
        name: name(alloc, number, namespace)?,
    })
}
