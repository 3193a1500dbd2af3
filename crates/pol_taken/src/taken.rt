//! What an endpoint's policy map is made of, at one revision.
use pol_filters::Filters;
use pol_model::Endpoint;
use pol_prefixes::Addresses;
use pol_sets::{Moves, Sets};
use std::sync::Arc;

/// What is taken of a state for the endpoint of a slot. It stays as it is whatever is committed afterwards.
#[derive(Drop)]
pub struct Taken {
    /// How many requests had been accepted.
    pub revision: u64,
    /// The endpoint.
    pub endpoint: Endpoint,
    /// What the policies say of it.
    pub filters: Arc<Filters>,
    /// One row for each distinct peer that the filters list.
    pub sets: Sets,
    /// How the sets changed since an earlier revision, where one is known.
    pub moves: Option<Moves>,
    /// What each address is.
    pub addresses: Arc<Addresses>,
}
