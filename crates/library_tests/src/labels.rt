//! Each call that takes memory, once with ample memory, and label texts that the grammar was read from.
ghost use Rattle.std.specs.Prelude.{◌≡◌};
ghost use Rattle.pol_labels.specs.Match.{matches};

use pol_data::{Items, Memory, Steps, Text};
use pol_labels::{
    Label, LabelError, LabelSet, Operator, Requirement, Selector, SelectorError, SetError,
};
use std::alloc::Global;
use std::marker::Brand;
use std::sync::ledger::{Blank, Ledger};
use std::test::Fail;

/// Whether the text is read as the label of this source, key and value.
fn is_read(alloc: Global, text: &str, source: &str, key: &str, value: &str) -> bool {
    match Label::parse(alloc, text) {
        Ok(label) => {
            label.source.as_str() == source
                && label.key.as_str() == key
                && label.value.as_str() == value
        }
        Err(_) => false,
    }
}

/// Whether the text is no label's.
fn is_bad(alloc: Global, text: &str) -> bool {
    matches!(Label::parse(alloc, text), Err(LabelError::Bad))
}

#[test]
fn label_texts_are_read_by_the_rules(rt: HostRuntime) {
    let alloc = rt.alloc();
    assert!(rt; is_read(alloc, "k8s:app=web", "k8s", "app", "web"));
    assert!(rt; is_read(alloc, "app", "unspec", "app", ""));
    assert!(rt; is_read(alloc, "k8s:a=b:c", "k8s", "a", "b:c"));
    assert!(rt; is_read(alloc, "k8s:a:b=c", "k8s", "a:b", "c"));
    assert!(rt; is_bad(alloc, "k8s:"));
    assert!(rt; is_bad(alloc, "any:a=b"));
    assert!(rt; is_bad(alloc, "k8s:a=b c"));
}

/// The set of the labels of two texts.
fn set_of(alloc: Global, first: &str, second: &str) -> Result<Result<LabelSet, SetError>, Fail> {
    let mut labels = Vec::new(alloc);
    labels.push(Label::parse(alloc, first)?)?;
    labels.push(Label::parse(alloc, second)?)?;
    Ok(LabelSet::from_labels(alloc, labels))
}

/// Whether the set has labels of these keys, in this order.
fn has_keys(set: &LabelSet, first: &str, second: &str) -> bool {
    matches!(set.as_slice(), [a, b] if a.key.as_str() == first && b.key.as_str() == second)
}

#[test]
fn a_set_is_sorted_and_copied(rt: HostRuntime) -> Result<(), Fail> {
    let alloc = rt.alloc();
    let set = set_of(alloc, "k8s:b=1", "k8s:a=2")??;
    assert!(rt; has_keys(&set, "a", "b"));
    assert!(rt; set.copy(alloc)? == set);
    Ok(())
}

#[test]
fn a_set_has_no_key_twice(rt: HostRuntime) -> Result<(), Fail> {
    let twice = set_of(rt.alloc(), "k8s:a=1", "k8s:a=2")?;
    assert!(rt; matches!(twice, Err(SetError::DuplicateKey)));
    Ok(())
}

/// That some label has the key `env` and one of these values, from any source.
fn env_is(alloc: Global, value: &str) -> Result<Requirement, Memory> {
    Ok(Requirement {
        any_source: true,
        source: Text::empty(alloc),
        key: Text::from_str(alloc, "env")?,
        op: Operator::OneOf.copy(alloc)?,
        values: Items::one(alloc, Text::from_str(alloc, value)?)?,
    })
}

/// The selector of that requirement.
fn selects_env(alloc: Global, value: &str) -> Result<Selector, Fail> {
    let mut list = Vec::new(alloc);
    list.push(env_is(alloc, value)?)?;
    Ok(Selector::from_requirements(alloc, list)?)
}

fn is_match_over<L: Ledger>(blank: Blank, selector: &Selector, labels: &LabelSet) -> bool
    requires name { blank.name ≡ L.name }
    requires parts { blank.parts ≡ L.parts }
    requires some { blank.parts ≡ 1 }
    ensures { result ≡ matches selector.now labels.now }
{
    let mut steps = Steps::<L>::new(blank);
    selector.matches(labels, &mut steps)
}

/// Whether the labels match, for a caller that counts no steps.
fn is_match(selector: &Selector, labels: &LabelSet) -> bool
    ensures { result ≡ matches selector.now labels.now }
{
    is_match_over::<Brand>(Blank::new(1), selector, labels)
}

#[test]
fn a_selector_matches_and_is_copied(rt: HostRuntime) -> Result<(), Fail> {
    let alloc = rt.alloc();
    let selector = selects_env(alloc, "prod")?;
    let labels = set_of(alloc, "k8s:env=prod", "cni:env=dev")??;
    assert!(rt; is_match(&selector, &labels));
    assert!(rt; !is_match(&selects_env(alloc, "test")?, &labels));
    assert!(rt; selector.copy(alloc)? == selector);
    Ok(())
}

#[test]
fn a_selector_of_a_bad_requirement_is_refused(rt: HostRuntime) -> Result<(), Fail> {
    let alloc = rt.alloc();
    let mut list = Vec::new(alloc);
    let mut requirement = env_is(alloc, "prod")?;
    requirement.op = Operator::Present;
    list.push(requirement)?;
    let refused = Selector::from_requirements(alloc, list);
    assert!(rt; matches!(refused, Err(SelectorError::Bad)));
    Ok(())
}
