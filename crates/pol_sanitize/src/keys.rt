//! The keys of selectors.
ghost use Rattle.std.specs.Prelude.{◌≡◌, nat_eq};
ghost use Rattle.std.specs.List.{list_any, starts_with};
ghost use Rattle.pol_rule.specs.declared.raw.RawExpression.{RawExpression};
ghost use Rattle.pol_rule.specs.declared.raw.RawPair.{RawPair};
ghost use Rattle.pol_sanitize.specs.Selectors.{has_key};
ghost use Rattle.pol_labels.specs.LabelText.{key_part};
ghost use Rattle.pol_sanitize.specs.Keys.{is_k8s_source, is_namespace, is_on_init, namespace_labels, says_namespace, source_of};

use pol_rule::{RawExpression, RawPair, RawSelector};

/// The source that stands for every source.
pub(crate) const ANY_SOURCE: &str = "any";

/// The source of the labels that Kubernetes gives.
pub(crate) const K8S_SOURCE: &str = "k8s";

/// The source of the labels that Cilium gives to identities of its own.
const RESERVED_SOURCE: &str = "reserved";

/// The key of the label that every pod has its namespace in.
pub(crate) const NAMESPACE_KEY: &str = "io.kubernetes.pod.namespace";

/// The keys of a namespace's own labels begin so.
const NAMESPACE_LABELS: &str = "io.cilium.k8s.namespace.labels.";

/// The source and the rest of a key.
pub(crate) fn split_key(key: &str) -> (&str, &str)
    ensures source { result.0.now ≡ source_of key.now }
    ensures rest { result.1.now ≡ key_part key.now }
{
    match key.split_once(':') {
        Some(parts) => parts,
        None => (ANY_SOURCE, key),
    }
}

/// Whether labels of this source count as Kubernetes' own: they are, or every source is meant.
fn is_k8s_source(source: &str) -> bool
    ensures { result ≡ is_k8s_source source.now }
{
    source == ANY_SOURCE || source == K8S_SOURCE
}

/// Whether a source and a key are those of a pod's namespace.
pub(crate) fn is_namespace(source: &str, name: &str) -> bool
    ensures { result ≡ is_namespace source.now name.now }
{
    is_k8s_source(source) && name == NAMESPACE_KEY
}

fn is_namespace_label(name: &str) -> bool
    ensures { result ≡ starts_with nat_eq name.now namespace_labels }
{
    name.starts_with(NAMESPACE_LABELS)
}

/// Whether the key is that of the endpoints that have no labels yet.
fn is_on_init(key: &str) -> bool
    ensures { result ≡ is_on_init key.now }
{
    let (source, name) = split_key(key);
    source == RESERVED_SOURCE && name == "init"
}

/// Whether a peer's key says in which namespaces its endpoints are.
fn says_namespace(key: &str) -> bool
    ensures { result ≡ says_namespace key.now }
{
    let (source, name) = split_key(key);
    source == RESERVED_SOURCE
        || is_k8s_source(source) && (name == NAMESPACE_KEY || is_namespace_label(name))
}

/// A test of keys.
pub(crate) trait KeyTest {
    ghost use Rattle.std.specs.Prelude.{ℕ, Bool, List};

    /// Whether a key passes.
    ghost test: { List ℕ → Bool };

    /// Whether the key passes.
    fn holds(key: &str) -> bool
        ensures { result ≡ test key.now };
}

/// Keys of the endpoints that have no labels yet.
pub(crate) struct OnInit;

impl KeyTest for OnInit {
    ghost test = { is_on_init };

    fn holds(key: &str) -> bool {
        is_on_init(key)
    }
}

/// Keys by which a peer selector says in which namespaces its endpoints are.
pub(crate) struct SaysNamespace;

impl KeyTest for SaysNamespace {
    ghost test = { says_namespace };

    fn holds(key: &str) -> bool {
        says_namespace(key)
    }
}

fn has_label<T: KeyTest>(labels: &[RawPair]) -> bool
    ensures { result ≡ list_any (λ (pair : RawPair). T.test pair.key) labels.now }
{
    labels.iter().any(|pair| T::holds(pair.key.as_str()))
}

fn has_expression<T: KeyTest>(expressions: &[RawExpression]) -> bool
    ensures { result ≡ list_any (λ (expression : RawExpression). T.test expression.key) expressions.now }
{
    expressions
        .iter()
        .any(|expression| T::holds(expression.key.as_str()))
}

/// Whether the selector has a requirement on a key that passes.
pub(crate) fn has_key<T: KeyTest>(selector: &RawSelector) -> bool
    ensures { result ≡ has_key T.test selector.now }
{
    has_label::<T>(selector.labels.as_slice())
        || has_expression::<T>(selector.expressions.as_slice())
}
