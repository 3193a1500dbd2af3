//! The kinds of policies that a line deletes.

/// The kind of a policy.
#[derive(Clone, Copy)]
pub(crate) enum PolicyKind {
    /// Of one namespace (Cilium, "CiliumNetworkPolicy").
    Namespaced,
    /// Of no namespace (Cilium, "CiliumClusterwideNetworkPolicy").
    ClusterWide,
    /// Of one namespace, and Kubernetes' own (Kubernetes, "Network Policies").
    Network,
}
