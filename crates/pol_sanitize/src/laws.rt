//! Laws of what policies say and of their faults, over the definitions alone.
//! Each function does nothing: its contract is the law.
ghost use Rattle.std.specs.Prelude.{◌≡◌, ◌↔◌, ◌&&◌, ◌||◌, ◌<◌, true, false, All, List, [], length, None, Ok, Err, IsTrue};
ghost use Rattle.std.specs.List.{list_any};
ghost use Rattle.pol_labels.specs.Match.{candidate, carries, matches};
ghost use Rattle.pol_labels.specs.declared.label.Label.{Label};
ghost use Rattle.pol_rule.specs.declared.fault.RuleFault.{RuleFault};
ghost use Rattle.pol_rule.specs.declared.policy.Policy.{Policy};
ghost use Rattle.pol_rule.specs.declared.policy.PolicyKey.{PolicyKey};
ghost use Rattle.pol_rule.specs.declared.raw.RawPolicy.{RawPolicy};
ghost use Rattle.pol_rule.specs.declared.raw.RawSelector.{RawSelector};
ghost use Rattle.pol_sanitize.specs.Keys.{is_on_init, says_namespace};
ghost use Rattle.pol_sanitize.specs.Order.{comes_before, is_fault_of};
ghost use Rattle.pol_sanitize.specs.Sanitized.{sanitized_of};
ghost use Rattle.pol_sanitize.specs.Selectors.{has_key, has_namespace, namespace_label, peer_selector, requirements_of, subject_selector, without_namespace};
ghost use Rattle.pol_sanitize.specs.Whole.{IsWellFormedRule, IsWhole};

/// The endpoints that a rule selects are of the policy's own namespace, whatever its `matchLabels` says of
/// namespaces; those of a cluster-wide policy, and endpoints that have no labels yet, are as written.
pub fn subjects()
    ensures own_namespace { (key : PolicyKey) (selector : RawSelector) (labels : List Label)
        → (key.cluster_wide || has_key is_on_init selector) ≡ false
        → matches (subject_selector key selector) labels ≡ (matches
        (requirements_of (without_namespace selector)) labels && carries labels (namespace_label key.namespace)) }
    ensures as_written { (key : PolicyKey) (selector : RawSelector)
        → (key.cluster_wide || has_key is_on_init selector) ≡ true
        → subject_selector key selector ≡ requirements_of selector }
{}

/// A peer is of the policy's own namespace exactly where its selector says nothing of namespaces. In a
/// cluster-wide policy it is as written, and one that asks nothing means the endpoints of all namespaces.
pub fn peers()
    ensures own_namespace { (key : PolicyKey) (selector : RawSelector) (labels : List Label)
        → (key.cluster_wide || has_key says_namespace selector) ≡ false
        → matches (peer_selector key selector) labels
        ≡ (matches (requirements_of selector) labels && carries labels (namespace_label key.namespace)) }
    ensures as_written { (key : PolicyKey) (selector : RawSelector)
        → (key.cluster_wide || has_key says_namespace selector) ≡ true → 0 < length (requirements_of selector)
        → peer_selector key selector ≡ requirements_of selector }
    ensures every_namespace { (key : PolicyKey) (selector : RawSelector) (labels : List Label)
        → key.cluster_wide ≡ true → requirements_of selector ≡ []
        → matches (peer_selector key selector) labels ≡ list_any (candidate has_namespace) labels }
{}

/// A policy that is accepted keeps its key, and nothing of it is left out: each rule, entry, selector,
/// requirement, prefix, exception, entity and port of it is read, and each rule says what it was written to say of default
/// deny. Its selectors are well formed.
pub fn accepted()
    ensures whole { (raw : RawPolicy) (policy : Policy) → sanitized_of raw ≡ Ok policy → IsWhole raw policy }
    ensures well_formed { (raw : RawPolicy) (policy : Policy)
        → sanitized_of raw ≡ Ok policy → All IsWellFormedRule policy.rules }
{}

/// A policy is refused exactly where it has a fault. What it is refused for is one: its location leads to a
/// part of the policy at which its cause holds. And no fault of the policy comes before it.
pub fn faults()
    ensures is_one { (raw : RawPolicy) (fault : RuleFault)
        → sanitized_of raw ≡ Err fault → IsTrue (is_fault_of raw fault) }
    ensures first { (raw : RawPolicy) (fault other : RuleFault) → sanitized_of raw ≡ Err fault
        → IsTrue (is_fault_of raw other) → comes_before other fault ≡ false }
    ensures none { (raw : RawPolicy) (policy : Policy) (fault : RuleFault) → sanitized_of raw ≡ Ok policy
        → is_fault_of raw fault ≡ false }
{}
