//! A list whose elements mostly go from its front.
ghost use Rattle.std.specs.Prelude.{◌≡◌, ◌<◌, ◌≤◌, ◌++◌, [], ◌∷◌, length, remove, slice_set, slice_get, Some, OnOk, OnErr};
ghost use Rattle.pol_tables.specs.Queue.{first_comes};

use std::alloc::{AllocError, Global};
use std::marker::Model;
use std::mem::replace;

/// A list. An element that goes moves those before it or those behind it, whichever are fewer, and the first one moves
/// none: its place stays, with a value that stands for nothing, until there are more such places than elements.
#[derive(Drop)]
pub(crate) struct Queue<T> {
    // The places of those that went, and then the elements.
    places: Vec<T>,
    gone: usize,
}

impl<T> Model for Queue<T> {
    ghost use Rattle.pol_tables.specs.Queue.{Queued};

    ghost Value = { Queued T };

    ghost use Rattle.std.specs.Prelude.{◌-◌, ◌≤◌, drop, vec_capacity, vec_len};

    ghost view = { λ q. record { list = drop q.gone q.places.items; room = vec_capacity q.places - vec_len q.places } };

    ghost invariant = { λ q. q.gone ≤ vec_len q.places };
}

/// Brings the element at that place to the front; those before it move up by one.
fn bring_first<T>(items: &mut [T], place: usize)
    requires { place < length items.old }
    ensures { items.new ≡ first_comes place items.old }
{
    items[..place + 1].rotate_right(1);
}

impl<T> Queue<T> {
    /// No element. It takes no memory.
    pub(crate) fn new(alloc: Global) -> Queue<T>
        ensures list { result.list ≡ [] }
    {
        Queue {
            places: Vec::new(alloc),
            gone: 0,
        }
    }

    /// The elements, in their order. It takes no memory.
    pub(crate) fn as_slice(&self) -> &[T]
        ensures list { result.now ≡ self.now.list }
    {
        &self.places[self.gone..]
    }

    /// Room for one element more. The one error is want of memory.
    pub(crate) fn reserve(&mut self) -> Result<(), AllocError>
        ensures list { self.new.list ≡ self.old.list }
        ensures room { OnOk result (0 < self.new.room) }
    {
        self.places.reserve(1)
    }

    /// Puts an element last. It takes no memory.
    pub(crate) fn push(&mut self, item: T)
        requires room { 0 < self.old.room }
        ensures list { self.new.list ≡ self.old.list ++ item ∷ [] }
    {
        self.places.push_reserved(item);
    }

    /// Puts an element in place of another, and gives that back.
    pub(crate) fn replace(&mut self, place: usize, item: T) -> T
        requires within { place < length self.old.list }
        ensures list { self.new.list ≡ slice_set self.old.list place item }
        ensures replaced { slice_get self.old.list place ≡ Some result }
    {
        replace(&mut self.places[self.gone + place], item)
    }

    /// The places of those that went are given up.
    fn close_up(&mut self)
    where
        T: Drop,
        ensures list { self.new.list ≡ self.old.list }
    {
        let left = self.places.len() - self.gone;
        self.places.rotate_left(self.gone);
        self.places.truncate(left);
        self.gone = 0;
    }

    /// The same, where there are more such places than elements: so many that moving the elements costs little for each.
    fn close_up_at_times(&mut self)
    where
        T: Drop,
        ensures list { self.new.list ≡ self.old.list }
    {
        if self.places.len() - self.gone < self.gone {
            self.close_up();
        }
    }

    /// Takes the element out, and moves those before it.
    fn take_from_front(&mut self, place: usize, nothing: T) -> T
        requires within { place < length self.old.list }
        ensures list { self.new.list ≡ remove self.old.list place }
        ensures taken { slice_get self.old.list place ≡ Some result }
    {
        bring_first(&mut self.places[self.gone..], place);
        let taken = replace(&mut self.places[self.gone], nothing);
        self.gone += 1;
        taken
    }

    /// Takes the element out. What stands for nothing may be left in its place. It takes no memory.
    pub(crate) fn take(&mut self, place: usize, nothing: T) -> T
    where
        T: Drop,
        requires within { place < length self.old.list }
        ensures list { self.new.list ≡ remove self.old.list place }
        ensures taken { slice_get self.old.list place ≡ Some result }
    {
        if place < self.as_slice().len() / 2 {
            let taken = self.take_from_front(place, nothing);
            self.close_up_at_times();
            taken
        } else {
            self.places.remove(self.gone + place)
        }
    }
}
