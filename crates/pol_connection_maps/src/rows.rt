//! What of a state its connections are told by.
use pol_model::{Endpoint, IdentityRow, Mode, NamedIdentity, Stamped};

/// The rows of a state, as far as its connections are told by them.
#[derive(Drop)]
pub struct StateRows<'a> {
    /// The mode of enforcement (Cilium, Policy Enforcement Modes).
    pub mode: Mode,
    /// Whether the local host may always come in (Cilium, `--allow-localhost`).
    pub localhost: bool,
    /// The policies in force, in the order in which their keys came.
    pub policies: &'a [Stamped],
    /// The identities, ascending by number.
    pub identities: &'a [IdentityRow],
    /// The live endpoints.
    pub endpoints: &'a [Endpoint],
    /// The named identities, by name.
    pub named: &'a [NamedIdentity],
}
