//! What happens on a node, as its history keeps it.

use pol_data::{Items, Text};
use pol_mapkey::{Kind, MapKey};
use pol_model::Request;

/// An endpoint, for as long as it lives: its name, with the revision that added it. A later endpoint of the
/// same name is another one.
#[derive(Debug, Drop)]
pub struct EndpointId {
    /// Its name.
    pub name: Text,
    /// The revision that added it, from 1.
    pub added: u64,
}

/// An event of a history.
#[derive(Debug, Drop)]
pub enum HistoryEvent {
    /// A request was committed, by the pass of that number.
    Commit {
        /// The number of the pass.
        pass: u64,
        /// How many requests the pass had committed before, from 0.
        number: u64,
        /// The request.
        request: Request,
    },
    /// The endpoint's map at a revision was published.
    Publish {
        /// The endpoint.
        endpoint: EndpointId,
        /// The revision of the map.
        revision: u64,
        /// Its entries, in the order of their keys.
        table: Items<(MapKey, Kind)>,
    },
    /// The endpoint's map at a revision was reported as too large to be published ('profile').
    Blocked {
        /// The endpoint.
        endpoint: EndpointId,
        /// The revision of the map.
        revision: u64,
        /// How many entries it has.
        count: u64,
    },
}

/// The last report of an endpoint, published or blocked.
#[derive(Clone, Copy, Debug, PartialEq, Eq)]
pub struct LastReport {
    /// The revision of its map.
    pub revision: u64,
    /// How many commits stand before it.
    pub commits: u64,
    /// The revision of the endpoint's last published map, if there is one.
    pub published: Option<u64>,
}
