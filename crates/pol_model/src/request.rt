//! What is asked of the policy core.
ghost use Rattle.std.specs.Prelude.{◌≡◌, IfOk};

use crate::options::Mode;
use pol_addr::Addr;
use pol_data::{Memory, Text};
use pol_labels::LabelSet;
use pol_ports::{Direction, Proto};
use pol_rule::{Policy, PolicyKey};
use std::alloc::Global;

/// A change of the state. A request that is accepted is a commit, and raises the revision by one.
#[derive(Debug, Drop)]
pub enum Request {
    /// A new endpoint, with its labels and its address.
    AddEndpoint {
        name: Text,
        labels: LabelSet,
        address: Addr,
    },
    /// The endpoint of that name goes.
    RemoveEndpoint {
        name: Text,
    },
    /// A new named identity: labels that are held without an endpoint.
    AddIdentity {
        name: Text,
        labels: LabelSet,
    },
    /// The named identity goes.
    RemoveIdentity {
        name: Text,
    },
    /// The policy is placed, in place of one of the same key if there is one.
    Apply(Policy),
    /// The policy of that key goes.
    Remove(PolicyKey),
    /// The mode from now on.
    SetMode(Mode),
}

impl Request {
    /// A request equal to this one. The one error is want of memory.
    pub fn copy(&self, alloc: Global) -> Result<Request, Memory>
        ensures equal { IfOk result (λ copy. copy ≡ self.now) }
    {
        Ok(match self {
            Request::AddEndpoint {
                name,
                labels,
                address,
            } => Request::AddEndpoint {
                name: name.copy(alloc)?,
                labels: labels.copy(alloc)?,
                address: *address,
            },
            Request::RemoveEndpoint { name } => Request::RemoveEndpoint {
                name: name.copy(alloc)?,
            },
            Request::AddIdentity { name, labels } => Request::AddIdentity {
                name: name.copy(alloc)?,
                labels: labels.copy(alloc)?,
            },
            Request::RemoveIdentity { name } => Request::RemoveIdentity {
                name: name.copy(alloc)?,
            },
            Request::Apply(policy) => Request::Apply(policy.copy(alloc)?),
            Request::Remove(key) => Request::Remove(key.copy(alloc)?),
            Request::SetMode(mode) => Request::SetMode(*mode),
        })
    }
}

/// The other side of a connection.
#[derive(Clone, Copy, Debug, PartialEq, Eq)]
pub enum Remote {
    /// By its security identity's number, allocated or not.
    Identity(u32),
    /// By its address.
    Address(Addr),
}

/// A question about one packet of an endpoint.
#[derive(Debug, Drop)]
pub struct Query {
    /// The name of the endpoint.
    pub endpoint: Text,
    /// Whether the packet comes in or goes out.
    pub dir: Direction,
    /// The other side.
    pub remote: Remote,
    /// The protocol.
    pub proto: Proto,
    /// The destination port.
    pub port: u16,
}
