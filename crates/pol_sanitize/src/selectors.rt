//! What selectors ask, and how the namespace of their policy binds them.
ghost use Rattle.std.specs.Prelude.{◌≡◌, ◌∷◌, [], not, IfOk, OnOk};
ghost use Rattle.pol_labels.specs.WellFormed.{all_well_formed};
ghost use Rattle.pol_rule.specs.declared.cause.RuleCause.TheVariants as rule;
ghost use Rattle.pol_sanitize.specs.Answers.{Finds};
ghost use Rattle.pol_sanitize.specs.Faults.{found, located};
ghost use Rattle.pol_sanitize.specs.Keys.{requirement_of};
ghost use Rattle.pol_sanitize.specs.Selectors.{bound_subject, expression_requirement, has_bad_member, has_namespace, is_bad_expression, is_bad_label, is_bad_selector, is_in_namespace, label_requirement, operator_of, other_requirement, peer_selector, requirements_of, subject_selector};

use crate::SanitizeError;
use crate::fault::Location;
use crate::keys::{
    ANY_SOURCE, K8S_SOURCE, NAMESPACE_KEY, OnInit, SaysNamespace, has_key, is_namespace, split_key,
};
use crate::kind::{PartKind, push_each};
use pol_data::{Items, Memory, Text, Texts};
use pol_labels::{Operator, Requirement, Selector, SelectorError};
use pol_rule::{PolicyKey, RawExpression, RawPair, RawSelector, RuleCause};
use std::alloc::Global;

// ---- requirements

fn one_text(alloc: Global, text: &Text) -> Result<Texts, Memory>
    ensures { IfOk result (λ texts. texts ≡ text.now ∷ []) }
{
    let mut texts = Vec::new(alloc);
    texts.push(text.copy(alloc)?)?;
    Ok(Items::from_vec(texts))
}

/// What is asked of the labels of a source and a key.
fn requirement_of(
    alloc: Global,
    source: &str,
    name: &str,
    op: Operator,
    values: Texts,
) -> Result<Requirement, Memory>
    ensures { IfOk result (λ requirement. requirement ≡ requirement_of source.now name.now op values) }
{
    let any_source = source == ANY_SOURCE;
    Ok(Requirement {
        any_source,
        source: Text::from_str(alloc, if any_source { "" } else { source })?,
        key: Text::from_str(alloc, name)?,
        op,
        values,
    })
}

fn operator_of(text: &str) -> Option<Operator>
    ensures { result ≡ operator_of text.now }
{
    match text {
        "In" => Some(Operator::OneOf),
        "NotIn" => Some(Operator::NoneOf),
        "Exists" => Some(Operator::Present),
        "DoesNotExist" => Some(Operator::Absent),
        _ => None,
    }
}

/// Members of `matchLabels`.
struct Labels;

impl PartKind for Labels {
    type Raw = RawPair;

    type Part = Requirement;

    ghost cause = { rule.BadSelector };

    ghost bad = { is_bad_label };

    ghost part = { λ _ pair. label_requirement pair };

    fn read(
        alloc: Global,
        _key: &PolicyKey,
        location: Location,
        pair: &RawPair,
    ) -> Result<Option<Requirement>, SanitizeError> {
        let (source, name) = split_key(pair.key.as_str());
        if source.is_empty() {
            return Err(location.fault(RuleCause::BadSelector));
        }
        let values = one_text(alloc, &pair.value)?;
        let requirement = requirement_of(alloc, source, name, Operator::OneOf, values)?;
        Ok(Some(requirement))
    }
}

/// Members of `matchLabels`, without those on the key of the namespace.
struct OtherLabels;

impl PartKind for OtherLabels {
    type Raw = RawPair;

    type Part = Requirement;

    ghost cause = { rule.BadSelector };

    ghost bad = { is_bad_label };

    ghost part = { λ _ pair. other_requirement pair };

    fn read(
        alloc: Global,
        key: &PolicyKey,
        location: Location,
        pair: &RawPair,
    ) -> Result<Option<Requirement>, SanitizeError> {
        let (source, name) = split_key(pair.key.as_str());
        if source.is_empty() {
            return Err(location.fault(RuleCause::BadSelector));
        }
        if is_namespace(source, name) {
            return Ok(None);
        }
        let values = one_text(alloc, &pair.value)?;
        let requirement = requirement_of(alloc, source, name, Operator::OneOf, values)?;
        Ok(Some(requirement))
    }
}

/// Items of `matchExpressions`.
struct Expressions;

impl PartKind for Expressions {
    type Raw = RawExpression;

    type Part = Requirement;

    ghost cause = { rule.BadSelector };

    ghost bad = { is_bad_expression };

    ghost part = { λ _ expression. expression_requirement expression };

    fn read(
        alloc: Global,
        _key: &PolicyKey,
        location: Location,
        expression: &RawExpression,
    ) -> Result<Option<Requirement>, SanitizeError> {
        let (source, name) = split_key(expression.key.as_str());
        if source.is_empty() {
            return Err(location.fault(RuleCause::BadSelector));
        }
        let Some(op) = operator_of(expression.operator.as_str()) else {
            return Err(location.fault(RuleCause::BadSelector));
        };
        let values = expression.values.copy(alloc)?;
        let requirement = requirement_of(alloc, source, name, op, values)?;
        Ok(Some(requirement))
    }
}

// ---- namespaces

/// The requirement that the pod is of this namespace.
fn is_in_namespace(alloc: Global, namespace: &Text) -> Result<Requirement, Memory>
    ensures { IfOk result (λ requirement. requirement ≡ is_in_namespace namespace.now) }
{
    Ok(Requirement {
        any_source: false,
        source: Text::from_str(alloc, K8S_SOURCE)?,
        key: Text::from_str(alloc, NAMESPACE_KEY)?,
        op: Operator::OneOf,
        values: one_text(alloc, namespace)?,
    })
}

/// The requirement that the pod is of some namespace.
fn has_namespace(alloc: Global) -> Result<Requirement, Memory>
    ensures { IfOk result (λ requirement. requirement ≡ has_namespace) }
{
    Ok(Requirement {
        any_source: false,
        source: Text::from_str(alloc, K8S_SOURCE)?,
        key: Text::from_str(alloc, NAMESPACE_KEY)?,
        op: Operator::Present,
        values: Items::from_vec(Vec::new(alloc)),
    })
}

/// What the selector asks, member by member.
fn requirements_of(
    alloc: Global,
    key: &PolicyKey,
    location: Location,
    selector: &RawSelector,
) -> Result<Vec<Requirement>, SanitizeError>
    ensures fault { Finds (located location (found rule.BadSelector (has_bad_member selector.now))) result }
    ensures requirements { IfOk result (λ requirements. requirements.items ≡ requirements_of selector.now) }
{
    let mut requirements = Vec::new(alloc);
    let labels = selector.labels.as_slice();
    let expressions = selector.expressions.as_slice();
    push_each::<Labels>(alloc, key, location, labels, &mut requirements)?;
    push_each::<Expressions>(alloc, key, location, expressions, &mut requirements)?;
    Ok(requirements)
}

/// What the selector asks, in the policy's namespace in place of any that `matchLabels` names.
fn bound_subject(
    alloc: Global,
    key: &PolicyKey,
    location: Location,
    selector: &RawSelector,
) -> Result<Vec<Requirement>, SanitizeError>
    ensures fault { Finds (located location (found rule.BadSelector (has_bad_member selector.now))) result }
    ensures requirements { IfOk result (λ requirements.
        requirements.items ≡ bound_subject key.now.namespace selector.now) }
{
    let mut requirements = Vec::new(alloc);
    let labels = selector.labels.as_slice();
    let expressions = selector.expressions.as_slice();
    push_each::<OtherLabels>(alloc, key, location, labels, &mut requirements)?;
    push_each::<Expressions>(alloc, key, location, expressions, &mut requirements)?;
    requirements.push(is_in_namespace(alloc, &key.namespace)?)?;
    Ok(requirements)
}

fn subject_requirements(
    alloc: Global,
    key: &PolicyKey,
    location: Location,
    selector: &RawSelector,
) -> Result<Vec<Requirement>, SanitizeError>
    ensures fault { Finds (located location (found rule.BadSelector (has_bad_member selector.now))) result }
    ensures requirements { IfOk result (λ requirements. requirements.items ≡ subject_selector key.now selector.now) }
{
    if key.cluster_wide || has_key::<OnInit>(selector) {
        requirements_of(alloc, key, location, selector)
    } else {
        bound_subject(alloc, key, location, selector)
    }
}

/// Adds what a peer selector in a policy of this key means beside its own members.
fn bind_peer(
    alloc: Global,
    key: &PolicyKey,
    selector: &RawSelector,
    requirements: &mut Vec<Requirement>,
) -> Result<(), Memory>
    requires { requirements.old.items ≡ requirements_of selector.now }
    ensures { OnOk result (requirements.new.items ≡ peer_selector key.now selector.now) }
{
    if key.cluster_wide {
        if requirements.is_empty() {
            requirements.push(has_namespace(alloc)?)?;
        }
    } else if !has_key::<SaysNamespace>(selector) {
        requirements.push(is_in_namespace(alloc, &key.namespace)?)?;
    }
    Ok(())
}

fn selector_from(
    alloc: Global,
    location: Location,
    requirements: Vec<Requirement>,
) -> Result<Selector, SanitizeError>
    ensures fault { Finds
        (located location (found rule.BadSelector (not (all_well_formed requirements.items)))) result }
    ensures selector { IfOk result (λ selector. selector ≡ requirements.items) }
{
    match Selector::from_requirements(alloc, requirements) {
        Ok(selector) => Ok(selector),
        Err(SelectorError::Bad) => Err(location.fault(RuleCause::BadSelector)),
        Err(SelectorError::Memory) => Err(SanitizeError::Memory),
    }
}

/// The endpoints that the rule selects.
pub(crate) fn subject_selector(
    alloc: Global,
    key: &PolicyKey,
    location: Location,
    selector: &RawSelector,
) -> Result<Selector, SanitizeError>
    ensures fault { Finds (located location (found rule.BadSelector (is_bad_selector selector.now))) result }
    ensures selector { IfOk result (λ made. made ≡ subject_selector key.now selector.now) }
{
    let requirements = subject_requirements(alloc, key, location, selector)?;
    selector_from(alloc, location, requirements)
}

/// The endpoints that a peer selector means.
pub(crate) fn peer_selector(
    alloc: Global,
    key: &PolicyKey,
    location: Location,
    selector: &RawSelector,
) -> Result<Selector, SanitizeError>
    ensures fault { Finds (located location (found rule.BadSelector (is_bad_selector selector.now))) result }
    ensures selector { IfOk result (λ made. made ≡ peer_selector key.now selector.now) }
{
    let mut requirements = requirements_of(alloc, key, location, selector)?;
    bind_peer(alloc, key, selector, &mut requirements)?;
    selector_from(alloc, location, requirements)
}
