//! Copies of the rows of the state, each equal to its source. The one error of each is want of memory.
ghost use Rattle.std.specs.Prelude.{◌≡◌, IfOk};

use crate::row::{Endpoint, IdentityRow, NamedIdentity, Stamped};
use pol_data::{Memory, TryCopy};
use std::alloc::Global;

impl IdentityRow {
    /// A row equal to this one. The one error is want of memory.
    pub fn copy(&self, alloc: Global) -> Result<IdentityRow, Memory>
        ensures equal { IfOk result (λ copy. copy ≡ self.now) }
    {
        Ok(IdentityRow {
            number: self.number,
            labels: self.labels.copy(alloc)?,
            prefix: self.prefix,
            holders: self.holders,
        })
    }
}

impl TryCopy for IdentityRow {
    fn try_copy(&self, alloc: Global) -> Result<IdentityRow, Memory> {
        self.copy(alloc)
    }
}

impl NamedIdentity {
    /// A named identity equal to this one. The one error is want of memory.
    pub fn copy(&self, alloc: Global) -> Result<NamedIdentity, Memory>
        ensures equal { IfOk result (λ copy. copy ≡ self.now) }
    {
        Ok(NamedIdentity {
            name: self.name.copy(alloc)?,
            number: self.number,
        })
    }
}

impl TryCopy for NamedIdentity {
    fn try_copy(&self, alloc: Global) -> Result<NamedIdentity, Memory> {
        self.copy(alloc)
    }
}

impl Stamped {
    /// A policy in force equal to this one. The one error is want of memory.
    pub fn copy(&self, alloc: Global) -> Result<Stamped, Memory>
        ensures equal { IfOk result (λ copy. copy ≡ self.now) }
    {
        Ok(Stamped {
            policy: self.policy.copy(alloc)?,
            stamp: self.stamp,
        })
    }
}

impl TryCopy for Stamped {
    fn try_copy(&self, alloc: Global) -> Result<Stamped, Memory> {
        self.copy(alloc)
    }
}

impl Endpoint {
    /// An endpoint equal to this one. The one error is want of memory.
    pub fn copy(&self, alloc: Global) -> Result<Endpoint, Memory>
        ensures equal { IfOk result (λ copy. copy ≡ self.now) }
    {
        Ok(Endpoint {
            name: self.name.copy(alloc)?,
            slot: self.slot,
            added: self.added,
            labels: self.labels.copy(alloc)?,
            identity: self.identity,
            address: self.address,
        })
    }
}

impl TryCopy for Endpoint {
    fn try_copy(&self, alloc: Global) -> Result<Endpoint, Memory> {
        self.copy(alloc)
    }
}
