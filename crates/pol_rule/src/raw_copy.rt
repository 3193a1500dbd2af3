//! Copies of the parts of a policy document, each equal to its source. The one error of each is want of memory.
ghost use Rattle.std.specs.Prelude.{◌≡◌, IfOk};

use crate::raw::{
    RawCidrSet, RawEntry, RawExpression, RawPair, RawPolicy, RawPort, RawPortItem, RawRule,
    RawSelector,
};
use pol_data::{Memory, TryCopy};
use std::alloc::Global;

impl RawPair {
    /// A member equal to this one. The one error is want of memory.
    pub fn copy(&self, alloc: Global) -> Result<RawPair, Memory>
        ensures equal { IfOk result (λ copy. copy ≡ self.now) }
    {
        Ok(RawPair {
            key: self.key.try_copy(alloc)?,
            value: self.value.try_copy(alloc)?,
        })
    }
}

impl TryCopy for RawPair {
    fn try_copy(&self, alloc: Global) -> Result<RawPair, Memory> {
        self.copy(alloc)
    }
}

impl RawExpression {
    /// An expression equal to this one. The one error is want of memory.
    pub fn copy(&self, alloc: Global) -> Result<RawExpression, Memory>
        ensures equal { IfOk result (λ copy. copy ≡ self.now) }
    {
        Ok(RawExpression {
            key: self.key.try_copy(alloc)?,
            operator: self.operator.try_copy(alloc)?,
            values: self.values.try_copy(alloc)?,
        })
    }
}

impl TryCopy for RawExpression {
    fn try_copy(&self, alloc: Global) -> Result<RawExpression, Memory> {
        self.copy(alloc)
    }
}

impl RawSelector {
    /// A selector equal to this one. The one error is want of memory.
    pub fn copy(&self, alloc: Global) -> Result<RawSelector, Memory>
        ensures equal { IfOk result (λ copy. copy ≡ self.now) }
    {
        Ok(RawSelector {
            labels: self.labels.try_copy(alloc)?,
            expressions: self.expressions.try_copy(alloc)?,
        })
    }
}

impl TryCopy for RawSelector {
    fn try_copy(&self, alloc: Global) -> Result<RawSelector, Memory> {
        self.copy(alloc)
    }
}

impl RawCidrSet {
    /// An item equal to this one. The one error is want of memory.
    pub fn copy(&self, alloc: Global) -> Result<RawCidrSet, Memory>
        ensures equal { IfOk result (λ copy. copy ≡ self.now) }
    {
        Ok(RawCidrSet {
            cidr: self.cidr.try_copy(alloc)?,
            except: self.except.try_copy(alloc)?,
        })
    }
}

impl TryCopy for RawCidrSet {
    fn try_copy(&self, alloc: Global) -> Result<RawCidrSet, Memory> {
        self.copy(alloc)
    }
}

impl RawPort {
    /// A port equal to this one. The one error is want of memory.
    pub fn copy(&self, alloc: Global) -> Result<RawPort, Memory>
        ensures equal { IfOk result (λ copy. copy ≡ self.now) }
    {
        Ok(RawPort {
            port: self.port.try_copy(alloc)?,
            protocol: self.protocol.try_copy(alloc)?,
            end_port: self.end_port,
        })
    }
}

impl TryCopy for RawPort {
    fn try_copy(&self, alloc: Global) -> Result<RawPort, Memory> {
        self.copy(alloc)
    }
}

impl RawPortItem {
    /// An item equal to this one. The one error is want of memory.
    pub fn copy(&self, alloc: Global) -> Result<RawPortItem, Memory>
        ensures equal { IfOk result (λ copy. copy ≡ self.now) }
    {
        Ok(RawPortItem {
            ports: self.ports.try_copy(alloc)?,
        })
    }
}

impl TryCopy for RawPortItem {
    fn try_copy(&self, alloc: Global) -> Result<RawPortItem, Memory> {
        self.copy(alloc)
    }
}

impl RawEntry {
    /// An entry equal to this one. The one error is want of memory.
    pub fn copy(&self, alloc: Global) -> Result<RawEntry, Memory>
        ensures equal { IfOk result (λ copy. copy ≡ self.now) }
    {
        Ok(RawEntry {
            endpoints: self.endpoints.try_copy(alloc)?,
            cidrs: self.cidrs.try_copy(alloc)?,
            cidr_sets: self.cidr_sets.try_copy(alloc)?,
            entities: self.entities.try_copy(alloc)?,
            ports: self.ports.try_copy(alloc)?,
        })
    }
}

impl TryCopy for RawEntry {
    fn try_copy(&self, alloc: Global) -> Result<RawEntry, Memory> {
        self.copy(alloc)
    }
}

impl RawRule {
    /// A rule equal to this one. The one error is want of memory.
    pub fn copy(&self, alloc: Global) -> Result<RawRule, Memory>
        ensures equal { IfOk result (λ copy. copy ≡ self.now) }
    {
        Ok(RawRule {
            subject: self.subject.try_copy(alloc)?,
            ingress: self.ingress.try_copy(alloc)?,
            ingress_deny: self.ingress_deny.try_copy(alloc)?,
            egress: self.egress.try_copy(alloc)?,
            egress_deny: self.egress_deny.try_copy(alloc)?,
            default_deny: self.default_deny,
        })
    }
}

impl TryCopy for RawRule {
    fn try_copy(&self, alloc: Global) -> Result<RawRule, Memory> {
        self.copy(alloc)
    }
}

impl RawPolicy {
    /// A policy document equal to this one. The one error is want of memory.
    pub fn copy(&self, alloc: Global) -> Result<RawPolicy, Memory>
        ensures equal { IfOk result (λ copy. copy ≡ self.now) }
    {
        Ok(RawPolicy {
            key: self.key.try_copy(alloc)?,
            rules: self.rules.try_copy(alloc)?,
        })
    }
}

impl TryCopy for RawPolicy {
    fn try_copy(&self, alloc: Global) -> Result<RawPolicy, Memory> {
        self.copy(alloc)
    }
}
