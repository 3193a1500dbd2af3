//! A slot of a pool.
ghost use Rattle.std.specs.Prelude.{◌≡◌, Some, IsSome, IsNone};
ghost use Rattle.std.specs.Borrow.{Lends, sem};
ghost use Rattle.pol_arena.specs.Slots.{value_of};

use std::mem::{replace, size_of};

/// The value of a node, or where the node is free the one that was taken before it. So a slot takes the bytes of its
/// value and a tag, and the free nodes need no room of their own.
#[derive(Clone, Copy, Drop)]
pub(crate) enum PoolSlot<T> {
    Used(T),
    Free(u32),
}

// A value of 12 bytes takes 16.
const _: () = prove!(size_of::<PoolSlot<[u32; 3]>>() == 16);

impl<T> PoolSlot<T> {
    ghost use Rattle.pol_arena.specs.contracts.slot.PoolSlot.{the_row};

    /// The value of a slot that has one.
    pub(crate) fn value(&self) -> &T
        requires { IsSome (value_of self.now) }
        ensures { value_of self.now ≡ Some result.now }
    {
        match self {
            PoolSlot::Used(value) => value,
            PoolSlot::Free(_) => unreachable!(),
        }
    }

    /// The same, to be changed in place.
    pub(crate) fn value_mut(&mut self) -> &mut T
        requires { IsSome (value_of self.old) }
        ensures* lends { sem 𝓛 (Lends (the_row T.row) T.row self.entry result PoolSlot.Used) }
        ensures value { value_of self.old ≡ Some result.now }
    {
        match self {
            PoolSlot::Used(value) => value,
            PoolSlot::Free(_) => unreachable!(),
        }
    }

    /// Gives a free slot a value. Tells the node that the slot named.
    pub(crate) fn fill(&mut self, value: T) -> u32
        requires { IsNone (value_of self.old) }
        ensures next { self.old ≡ PoolSlot.Free result }
        ensures slot { self.new ≡ PoolSlot.Used value }
    {
        match replace(self, PoolSlot::Used(value)) {
            PoolSlot::Free(next) => next,
            PoolSlot::Used(_) => unreachable!(),
        }
    }

    /// Takes the value of a slot that has one. The slot names this node then.
    pub(crate) fn empty(&mut self, next: u32) -> T
        requires { IsSome (value_of self.old) }
        ensures value { self.old ≡ PoolSlot.Used result }
        ensures slot { self.new ≡ PoolSlot.Free next }
    {
        match replace(self, PoolSlot::Free(next)) {
            PoolSlot::Used(value) => value,
            PoolSlot::Free(_) => unreachable!(),
        }
    }
}
