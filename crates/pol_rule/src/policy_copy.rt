//! Copies of the parts of a policy, each equal to its source. The one error of each is want of memory.
ghost use Rattle.std.specs.Prelude.{◌≡◌, IfOk, Ok};

use crate::policy::{
    DefaultDeny, Entity, Entry, Peer, Peers, Place, Policy, PolicyKey, PortSpec, Rule, Section,
};
use pol_data::{Items, Memory, TryCopy};
use std::alloc::Global;

impl Entity {
    /// The entity again. It takes no memory, and so has no error.
    pub fn copy(&self, _alloc: Global) -> Result<Entity, Memory>
        ensures { result ≡ Ok self.now }
    {
        Ok(*self)
    }
}

impl TryCopy for Entity {
    fn try_copy(&self, alloc: Global) -> Result<Entity, Memory> {
        self.copy(alloc)
    }
}

impl Peer {
    /// A peer equal to this one. The one error is want of memory.
    pub fn copy(&self, alloc: Global) -> Result<Peer, Memory>
        ensures equal { IfOk result (λ copy. copy ≡ self.now) }
    {
        Ok(match self {
            Peer::Labels(selector) => Peer::Labels(selector.copy(alloc)?),
            Peer::Cidr { prefix, except } => Peer::Cidr {
                prefix: *prefix,
                except: Items::from_vec(Vec::from_slice(alloc, except.as_slice())?),
            },
            Peer::Entity(entity) => Peer::Entity(*entity),
        })
    }
}

impl TryCopy for Peer {
    fn try_copy(&self, alloc: Global) -> Result<Peer, Memory> {
        self.copy(alloc)
    }
}

impl Peers {
    /// Peers equal to these. The one error is want of memory.
    pub fn copy(&self, alloc: Global) -> Result<Peers, Memory>
        ensures equal { IfOk result (λ copy. copy ≡ self.now) }
    {
        Ok(match self {
            Peers::Every => Peers::Every,
            Peers::Listed(peers) => Peers::Listed(peers.copy(alloc)?),
        })
    }
}

impl TryCopy for Peers {
    fn try_copy(&self, alloc: Global) -> Result<Peers, Memory> {
        self.copy(alloc)
    }
}

impl PortSpec {
    /// The ports again. It takes no memory, and so has no error.
    pub fn copy(&self, _alloc: Global) -> Result<PortSpec, Memory>
        ensures { result ≡ Ok self.now }
    {
        Ok(*self)
    }
}

impl TryCopy for PortSpec {
    fn try_copy(&self, alloc: Global) -> Result<PortSpec, Memory> {
        self.copy(alloc)
    }
}

impl Entry {
    /// An entry equal to this one. The one error is want of memory.
    pub fn copy(&self, alloc: Global) -> Result<Entry, Memory>
        ensures equal { IfOk result (λ copy. copy ≡ self.now) }
    {
        Ok(Entry {
            peers: self.peers.try_copy(alloc)?,
            ports: self.ports.try_copy(alloc)?,
        })
    }
}

impl TryCopy for Entry {
    fn try_copy(&self, alloc: Global) -> Result<Entry, Memory> {
        self.copy(alloc)
    }
}

impl DefaultDeny {
    /// What is said, again. It takes no memory, and so has no error.
    pub fn copy(&self, _alloc: Global) -> Result<DefaultDeny, Memory>
        ensures { result ≡ Ok self.now }
    {
        Ok(*self)
    }
}

impl TryCopy for DefaultDeny {
    fn try_copy(&self, alloc: Global) -> Result<DefaultDeny, Memory> {
        self.copy(alloc)
    }
}

impl Rule {
    /// A rule equal to this one. The one error is want of memory.
    pub fn copy(&self, alloc: Global) -> Result<Rule, Memory>
        ensures equal { IfOk result (λ copy. copy ≡ self.now) }
    {
        Ok(Rule {
            subject: self.subject.try_copy(alloc)?,
            ingress: self.ingress.try_copy(alloc)?,
            ingress_deny: self.ingress_deny.try_copy(alloc)?,
            egress: self.egress.try_copy(alloc)?,
            egress_deny: self.egress_deny.try_copy(alloc)?,
            default_deny: self.default_deny,
        })
    }
}

impl TryCopy for Rule {
    fn try_copy(&self, alloc: Global) -> Result<Rule, Memory> {
        self.copy(alloc)
    }
}

impl PolicyKey {
    /// A key equal to this one. The one error is want of memory.
    pub fn copy(&self, alloc: Global) -> Result<PolicyKey, Memory>
        ensures equal { IfOk result (λ copy. copy ≡ self.now) }
    {
        Ok(PolicyKey {
            cluster_wide: self.cluster_wide,
            namespace: self.namespace.try_copy(alloc)?,
            name: self.name.try_copy(alloc)?,
        })
    }
}

impl TryCopy for PolicyKey {
    fn try_copy(&self, alloc: Global) -> Result<PolicyKey, Memory> {
        self.copy(alloc)
    }
}

impl Policy {
    /// A policy equal to this one. The one error is want of memory.
    pub fn copy(&self, alloc: Global) -> Result<Policy, Memory>
        ensures equal { IfOk result (λ copy. copy ≡ self.now) }
    {
        Ok(Policy {
            key: self.key.try_copy(alloc)?,
            rules: self.rules.try_copy(alloc)?,
        })
    }
}

impl TryCopy for Policy {
    fn try_copy(&self, alloc: Global) -> Result<Policy, Memory> {
        self.copy(alloc)
    }
}

impl Section {
    /// The section again. It takes no memory, and so has no error.
    pub fn copy(&self, _alloc: Global) -> Result<Section, Memory>
        ensures { result ≡ Ok self.now }
    {
        Ok(*self)
    }
}

impl TryCopy for Section {
    fn try_copy(&self, alloc: Global) -> Result<Section, Memory> {
        self.copy(alloc)
    }
}

impl Place {
    /// A place equal to this one. The one error is want of memory.
    pub fn copy(&self, alloc: Global) -> Result<Place, Memory>
        ensures equal { IfOk result (λ copy. copy ≡ self.now) }
    {
        Ok(Place {
            key: self.key.try_copy(alloc)?,
            rule: self.rule,
            section: self.section,
            entry: self.entry,
        })
    }
}

impl TryCopy for Place {
    fn try_copy(&self, alloc: Global) -> Result<Place, Memory> {
        self.copy(alloc)
    }
}
