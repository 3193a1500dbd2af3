//! What policies mean: the state after a list of requests, the fault of a request, the verdict on a
//! packet and the reasons for it, and the policy map of an endpoint.
//!
//! The source has the types that requests, queries and answers are made of. The meaning stands in
//! `specs/`: `State` and `Fault` fold requests, `Selects` judges a peer, `Verdict` and `Explain` scan
//! all rules, `Remote` resolves an address, and `PolicyMap` lists what a map has. Each layer above
//! cites these definitions, and none of them shares the code of any body.
#![tactic(auto)]

mod answer;
mod full_rows;
pub mod laws;
mod limits;
mod options;
mod peers;
mod request;
mod reserved;
mod row;
mod row_copy;
mod sections;
mod size;
mod worlds;

pub use answer::{CommitError, Committed, Fault, FullList, FullSlot, Places, Refused, Trace};
pub use full_rows::in_row_order;
pub use limits::{
    CLUSTER_FIRST, CLUSTER_IDENTITIES, CLUSTER_LAST, ENDPOINTS_MAX, EVERY_IDENTITY, HOST_IDENTITY,
    INIT_IDENTITY, LOCAL_FIRST, LOCAL_IDENTITIES, LOCAL_LAST, RESERVED_LAST, WORLD_IDENTITY,
    WORLD_IPV4_IDENTITY, WORLD_IPV6_IDENTITY,
};
pub use options::{Mode, Options};
pub use peers::{is_core, selects, selects_every_number};
pub use request::{Query, Remote, Request};
pub use reserved::{has_reserved, is_init, reserved_rows};
pub use row::{Endpoint, IdentityRow, NamedIdentity, Stamped};
pub use sections::{allow_section, deny_section, rule_says};
pub use worlds::{world_identity, world_identity_of};
