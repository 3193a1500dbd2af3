//! What a work is changed to, and what it tells of a key.
use pol_filters::Filters;
use pol_sets::{Moves, Sets};
use std::sync::Arc;

/// What an endpoint's policy map is made of from now on.
#[derive(Drop)]
pub struct Changes {
    /// What the policies say of the endpoint.
    pub filters: Arc<Filters>,
    /// What the peers that the filters list select.
    pub sets: Sets,
    /// How the sets changed since what the work is of, where that is known.
    pub moves: Option<Moves>,
}

/// How many filters give a key of a policy map.
#[derive(Clone, Copy, PartialEq, Eq, Debug)]
pub struct Givers {
    /// How many that allow.
    pub allows: u64,
    /// How many that deny.
    pub denies: u64,
}
