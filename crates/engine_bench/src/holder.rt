//! What takes a number: a label set or a prefix.

use anyhow::Result;
use pol_addr::Prefix;
use pol_data::Text;
use pol_labels::{Label, LabelSet};
use std::alloc::{AllocError, Global};

/// What takes a number.
#[derive(Drop)]
pub(crate) enum Holder {
    Labels(LabelSet),
    Prefix(Prefix),
}

fn label(alloc: Global, key: &str, value: &str) -> Result<Label, AllocError> {
    Ok(Label {
        source: Text::from_str(alloc, "k8s")?,
        key: Text::from_str(alloc, key)?,
        value: Text::from_str(alloc, value)?,
    })
}

/// Four labels of a pod, of which one tells it from the others.
fn labels(alloc: Global, number: u32) -> Result<Vec<Label>, AllocError> {
    let app = format!(in alloc; "web-{number}")?;
    let mut labels = Vec::with_capacity(alloc, 4)?;
    labels.push(label(alloc, "app", app.as_str())?)?;
    labels.push(label(alloc, "io.cilium.k8s.policy.cluster", "default")?)?;
    labels.push(label(alloc, "io.cilium.k8s.policy.serviceaccount", "default")?)?;
    labels.push(label(alloc, "io.kubernetes.pod.namespace", "default")?)?;
    Ok(labels)
}

/// The set of these four.
pub(crate) fn label_set(alloc: Global, number: u32) -> Result<LabelSet> {
    let labels = labels(alloc, number)?;
    Ok(LabelSet::from_labels(alloc, labels)?)
}
