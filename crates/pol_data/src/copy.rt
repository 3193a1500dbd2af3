//! Copies that may fail for want of memory.
ghost use Rattle.std.specs.Prelude.{◌≡◌, IfOk};

use crate::Memory;
use std::alloc::Global;

/// A value that can be copied into memory of its own.
pub trait TryCopy {
    /// A value equal to this one, as contracts see it. The one error is want of memory.
    fn try_copy(&self, alloc: Global) -> Result<Self, Memory>
        ensures equal { IfOk result (λ copy. copy ≡ self.now) };
}

impl TryCopy for bool {
    fn try_copy(&self, _alloc: Global) -> Result<bool, Memory> {
        Ok(*self)
    }
}

impl TryCopy for u8 {
    fn try_copy(&self, _alloc: Global) -> Result<u8, Memory> {
        Ok(*self)
    }
}

impl TryCopy for u16 {
    fn try_copy(&self, _alloc: Global) -> Result<u16, Memory> {
        Ok(*self)
    }
}

impl TryCopy for u32 {
    fn try_copy(&self, _alloc: Global) -> Result<u32, Memory> {
        Ok(*self)
    }
}

impl TryCopy for u64 {
    fn try_copy(&self, _alloc: Global) -> Result<u64, Memory> {
        Ok(*self)
    }
}

impl TryCopy for u128 {
    fn try_copy(&self, _alloc: Global) -> Result<u128, Memory> {
        Ok(*self)
    }
}

impl TryCopy for usize {
    fn try_copy(&self, _alloc: Global) -> Result<usize, Memory> {
        Ok(*self)
    }
}

impl<T: TryCopy> TryCopy for Option<T> {
    fn try_copy(&self, alloc: Global) -> Result<Option<T>, Memory> {
        match self {
            None => Ok(None),
            Some(value) => Ok(Some(value.try_copy(alloc)?)),
        }
    }
}
