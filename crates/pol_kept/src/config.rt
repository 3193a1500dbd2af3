//! How a machine is begun.

use pol_model::Mode;

/// How a machine is begun, before the requests of its journal.
#[derive(Clone, Copy, Debug, PartialEq, Eq)]
pub struct KeptConfig {
    /// The mode before the first request that sets one.
    pub mode: Mode,
    /// Whether the local host may always reach an endpoint (Cilium, `--allow-localhost`).
    pub localhost: bool,
    /// How many entries a published map has at most, up to 65,536 ('profile').
    pub map_max: u32,
}
