//! Copies of requests, with ample memory.

use pol_data::Text;
use pol_labels::{Label, LabelSet};
use pol_model::Request;
use std::alloc::Global;
use std::test::Fail;

#[test]
fn a_request_without_labels_is_copied(rt: HostRuntime) -> Result<(), Fail> {
    let name = Text::from_str(rt.alloc(), "deathstar")?;
    let request = Request::RemoveEndpoint { name };
    let is_equal = match request.copy(rt.alloc())? {
        Request::RemoveEndpoint { name } => name.as_str() == "deathstar",
        _ => false,
    };
    assert!(rt; is_equal);
    Ok(())
}

fn labels(alloc: Global) -> Result<LabelSet, Fail> {
    let mut list = Vec::new(alloc);
    list.push(Label::parse(alloc, "k8s:org=empire")?)?;
    Ok(LabelSet::from_labels(alloc, list)?)
}

fn is_the_identity(request: &Request) -> bool {
    match request {
        Request::AddIdentity { name, labels } => {
            name.as_str() == "deathstar"
                && matches!(labels.as_slice(), [only] if only.value.as_str() == "empire")
        }
        _ => false,
    }
}

#[test]
fn a_request_with_labels_is_copied(rt: HostRuntime) -> Result<(), Fail> {
    let alloc = rt.alloc();
    let name = Text::from_str(alloc, "deathstar")?;
    let labels = labels(alloc)?;
    let request = Request::AddIdentity { name, labels };
    let copy = request.copy(alloc)?;
    assert!(rt; is_the_identity(&copy));
    Ok(())
}
