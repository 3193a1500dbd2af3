//! What the selectors of a NetworkPolicy ask, as requirements.
ghost use Rattle.std.specs.Prelude.{◌≡◌, ◌++◌, ◌∷◌, [], map, filter_map, IfOk, OnOk};
ghost use Rattle.pol_sanitize.specs.Selectors.{has_namespace, is_in_namespace, operator_of};
ghost use Rattle.pol_netpol.specs.Translated.{asks, expression_requirement, label_requirement, of_namespaces, of_pods, requirements_of, well_formed};

use pol_data::{Items, Memory, Text, Texts};
use pol_labels::{Operator, Requirement, Selector, SelectorError};
use pol_rule::{RawExpression, RawPair, RawSelector};
use std::alloc::Global;

/// The source of the labels that Kubernetes gives.
const K8S_SOURCE: &str = "k8s";

/// The key of the label that every pod has its namespace in.
const NAMESPACE_KEY: &str = "io.kubernetes.pod.namespace";

/// The keys of a namespace's own labels begin so.
const NAMESPACE_LABELS: &str = "io.cilium.k8s.namespace.labels.";

/// The operator of a text.
pub(crate) fn operator_of(text: &str) -> Option<Operator>
    ensures { result ≡ operator_of text.now }
{
    match text {
        "In" => Some(Operator::OneOf),
        "NotIn" => Some(Operator::NoneOf),
        "Exists" => Some(Operator::Present),
        "DoesNotExist" => Some(Operator::Absent),
        _ => None,
    }
}

fn one_text(alloc: Global, text: &Text) -> Result<Texts, Memory>
    ensures { IfOk result (λ texts. texts ≡ text.now ∷ []) }
{
    Items::one(alloc, text.copy(alloc)?)
}

/// One text behind another.
pub(crate) fn joined(alloc: Global, front: &str, key: &str) -> Result<Text, Memory>
    ensures { IfOk result (λ text. text ≡ front.now ++ key.now) }
{
    let mut text = String::from_str(alloc, front)?;
    text.push_str(key)?;
    Ok(Text::from_string(text))
}

fn asks(alloc: Global, key: Text, op: Operator, values: Texts) -> Result<Requirement, Memory>
    ensures { IfOk result (λ requirement. requirement ≡ asks key op values) }
{
    Ok(Requirement {
        any_source: false,
        source: Text::from_str(alloc, K8S_SOURCE)?,
        key,
        op,
        values,
    })
}

fn label_requirement(alloc: Global, front: &str, pair: &RawPair) -> Result<Requirement, Memory>
    ensures { IfOk result (λ requirement. requirement ≡ label_requirement front.now pair.now) }
{
    let key = joined(alloc, front, pair.key.as_str())?;
    asks(alloc, key, Operator::OneOf, one_text(alloc, &pair.value)?)
}

fn expression_requirement(
    alloc: Global,
    front: &str,
    expression: &RawExpression,
) -> Result<Option<Requirement>, Memory>
    ensures { IfOk result (λ requirement. requirement ≡ expression_requirement front.now expression.now) }
{
    let Some(op) = operator_of(expression.operator.as_str()) else {
        return Ok(None);
    };
    let key = joined(alloc, front, expression.key.as_str())?;
    let requirement = asks(alloc, key, op, expression.values.copy(alloc)?)?;
    Ok(Some(requirement))
}

fn push_labels(
    alloc: Global,
    front: &str,
    labels: &[RawPair],
    asked: &mut Vec<Requirement>,
) -> Result<(), Memory>
    ensures { OnOk result (asked.new.items ≡ asked.old.items ++ map (label_requirement front.now) labels.now) }
{
    for pair in labels {
        asked.push(label_requirement(alloc, front, pair)?)?;
    }
    Ok(())
}

fn push_expressions(
    alloc: Global,
    front: &str,
    expressions: &[RawExpression],
    asked: &mut Vec<Requirement>,
) -> Result<(), Memory>
    ensures { OnOk result (asked.new.items
        ≡ asked.old.items ++ filter_map (expression_requirement front.now) expressions.now) }
{
    for expression in expressions {
        if let Some(requirement) = expression_requirement(alloc, front, expression)? {
            asked.push(requirement)?;
        }
    }
    Ok(())
}

fn push_selector(
    alloc: Global,
    front: &str,
    selector: &RawSelector,
    asked: &mut Vec<Requirement>,
) -> Result<(), Memory>
    ensures { OnOk result (asked.new.items ≡ asked.old.items ++ requirements_of front.now selector.now) }
{
    push_labels(alloc, front, selector.labels.as_slice(), asked)?;
    push_expressions(alloc, front, selector.expressions.as_slice(), asked)
}

fn is_in_namespace(alloc: Global, own: &Text) -> Result<Requirement, Memory>
    ensures { IfOk result (λ requirement. requirement ≡ is_in_namespace own.now) }
{
    let key = Text::from_str(alloc, NAMESPACE_KEY)?;
    asks(alloc, key, Operator::OneOf, one_text(alloc, own)?)
}

fn has_namespace(alloc: Global) -> Result<Requirement, Memory>
    ensures { IfOk result (λ requirement. requirement ≡ has_namespace) }
{
    let key = Text::from_str(alloc, NAMESPACE_KEY)?;
    asks(alloc, key, Operator::Present, Items::empty(alloc))
}

/// What a selector of pods asks, and that the pod is of this namespace.
pub(crate) fn own_pods(
    alloc: Global,
    own: &Text,
    selector: &RawSelector,
) -> Result<Vec<Requirement>, Memory>
    ensures { IfOk result (λ asked. asked.items ≡ requirements_of [] selector.now ++ is_in_namespace own.now ∷ []) }
{
    let mut asked = Vec::new(alloc);
    push_selector(alloc, "", selector, &mut asked)?;
    asked.push(is_in_namespace(alloc, own)?)?;
    Ok(asked)
}

fn push_namespaces(
    alloc: Global,
    own: &Text,
    namespaces: &Option<RawSelector>,
    asked: &mut Vec<Requirement>,
) -> Result<(), Memory>
    ensures { OnOk result (asked.new.items ≡ asked.old.items ++ of_namespaces own.now namespaces.now) }
{
    match namespaces {
        None => asked.push(is_in_namespace(alloc, own)?)?,
        Some(selector) => {
            asked.push(has_namespace(alloc)?)?;
            push_selector(alloc, NAMESPACE_LABELS, selector, asked)?;
        }
    }
    Ok(())
}

/// What a peer without `ipBlock` asks of the pods that it selects.
pub(crate) fn peer_pods(
    alloc: Global,
    own: &Text,
    pods: &Option<RawSelector>,
    namespaces: &Option<RawSelector>,
) -> Result<Vec<Requirement>, Memory>
    ensures { IfOk result (λ asked. asked.items ≡ of_pods pods.now ++ of_namespaces own.now namespaces.now) }
{
    let mut asked = Vec::new(alloc);
    if let Some(selector) = pods {
        push_selector(alloc, "", selector, &mut asked)?;
    }
    push_namespaces(alloc, own, namespaces, &mut asked)?;
    Ok(asked)
}

/// The selector of these requirements, where they can be those of one.
pub(crate) fn well_formed(
    alloc: Global,
    asked: Vec<Requirement>,
) -> Result<Option<Selector>, Memory>
    ensures { IfOk result (λ selector. selector ≡ well_formed asked.items) }
{
    match Selector::from_requirements(alloc, asked) {
        Ok(selector) => Ok(Some(selector)),
        Err(SelectorError::Bad) => Ok(None),
        Err(SelectorError::Memory) => Err(Memory),
    }
}
