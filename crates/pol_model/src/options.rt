//! What is chosen before the first request.

/// When rules are enforced (Cilium, Policy Enforcement Modes).
#[derive(Clone, Copy, Debug, PartialEq, Eq)]
pub enum Mode {
    /// A direction of an endpoint is enforced where some rule that selects it speaks of the direction;
    /// both are for an endpoint of identity 5, which has no labels yet.
    Default,
    /// Both directions of every endpoint are enforced.
    Always,
    /// No direction is enforced, and everything is allowed.
    Never,
}

/// The options of a run; every definition of the state and of what follows from it takes them.
#[derive(Clone, Copy, Debug, PartialEq, Eq)]
pub struct Options {
    /// The mode before the first request that sets one.
    pub mode: Mode,
    /// Whether the local host may always reach an endpoint (Cilium, `--allow-localhost`).
    pub localhost: bool,
    /// How many entries a published map has at most; `None`: as many as it wants ('profile').
    pub map_max: Option<u32>,
}
