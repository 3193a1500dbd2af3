//! What rules say of one endpoint.
use pol_data::Items;
use pol_rule::{Peers, Place, PortSpecs};

/// What one entry of a rule allows or denies.
#[derive(Debug, Drop)]
pub struct Filter {
    /// Where the entry stands.
    pub place: Place,
    /// The revision that applied its policy.
    pub stamp: u64,
    /// Whether it denies (Cilium, Network Policy, "Deny Policies").
    pub deny: bool,
    /// The other sides.
    pub peers: Peers,
    /// The ports; where there are none, every protocol and port.
    pub ports: PortSpecs,
}

/// A list of filters.
pub type FilterList = Items<Filter>;

/// What all rules say of one endpoint (Cilium, Policy Enforcement Modes).
#[derive(Debug, Drop)]
pub struct Filters {
    /// Whether nothing is enforced: the mode is `Never`.
    pub never: bool,
    /// Whether what isn't allowed into the endpoint is denied.
    pub ingress_enforced: bool,
    /// Whether what isn't allowed out of the endpoint is denied.
    pub egress_enforced: bool,
    /// Whether the local host may always come in (Cilium, `--allow-localhost`).
    pub localhost: bool,
    /// The filters of what comes in.
    pub ingress: FilterList,
    /// The filters of what goes out.
    pub egress: FilterList,
}
