//! What the policy core answers.

use pol_data::{Items, Text};
use pol_mapkey::Word;
use pol_rule::Place;
use thiserror::Error;

/// Why a request is refused; the first that holds, in the order reserved label, and then as below.
#[derive(Clone, Copy, Debug, PartialEq, Eq)]
pub enum Fault {
    /// 30: an endpoint of that name is live.
    DuplicateEndpoint,
    /// 31: no endpoint of that name is live.
    UnknownEndpoint,
    /// 32: 256 endpoints are live.
    EndpointsFull,
    /// 33: a named identity of that name is there.
    DuplicateIdentityName,
    /// 34: no named identity of that name is there.
    UnknownIdentityName,
    /// 35: a live endpoint has that address.
    AddressTaken,
    /// 36: no policy has that key.
    UnknownPolicy,
    /// 37: all 65,280 cluster numbers are held, and the label set has none.
    IdentitiesExhausted,
    /// 38: the policy's new prefixes would be more than the local numbers that are left.
    LocalExhausted,
    /// 41: a label has the source `reserved`, and it isn't an endpoint with `reserved:init` alone.
    ReservedLabel,
}

/// An accepted request.
#[derive(Clone, Copy, Debug, PartialEq, Eq)]
pub struct Committed {
    /// The revision that the request made: how many were accepted so far, from 1.
    pub revision: u64,
    /// The number that a new endpoint or a new named identity holds.
    pub identity: Option<u32>,
    /// One more than the greatest slot of a live endpoint, 0 if none is live.
    pub slots: u32,
}

/// A refused request.
#[derive(Clone, Copy, Debug, PartialEq, Eq)]
pub struct Refused {
    /// The revision at which the fault holds.
    pub revision: u64,
    /// The fault.
    pub fault: Fault,
}

/// Why a request was not committed. After either the state is as before.
#[derive(Debug, Drop, Error)]
pub enum CommitError {
    /// The request has a fault in the present state.
    #[error("the request is refused")]
    Refused(Refused),
    /// Want of memory.
    #[error("out of memory")]
    Memory,
}

/// A list of places of entries.
pub type Places = Items<Place>;

/// Why a packet is allowed or denied.
#[derive(Debug, Drop)]
pub struct Trace {
    /// The verdict.
    pub word: Word,
    /// The number of the other side.
    pub remote: u32,
    /// The deny entries that cover the packet, in policy, rule and entry order.
    pub denies: Places,
    /// The allow entries that cover the packet, in that order.
    pub allows: Places,
}

/// A map that is too large to be published ('profile').
#[derive(Debug, Drop)]
pub struct FullSlot {
    /// The endpoint's name.
    pub name: Text,
    /// The revision of the map.
    pub revision: u64,
    /// How many entries it has.
    pub count: u64,
}

/// A list of maps that are too large, sorted by name and then revision.
pub type FullList = Items<FullSlot>;
