//! Keys under places: each key has the least place that was free when it came, until its last holder goes.
ghost use Rattle.std.specs.Prelude.{◌≡◌, ◌+◌, ◌^◌, ◌<◌, ◌≤◌, ◌++◌, [], None, IsSome, IfSome, IfNone, OnOk, OnErr, count_by, is_some, option_map, length, slice_index_or, slice_set, vec_capacity};
ghost use Rattle.std.specs.BinaryHeap.{heap_capacity, heap_items, heap_len};
ghost use Rattle.std.specs.Option.{option_copied};
ghost use Rattle.pol_interner.specs.Slots.{HasNone, HasPlace, changed, filled, free_place, numbers_from, one_less, one_more, slot_at};
ghost use Rattle.pol_interner.specs.Tied.{IsIndexOf, IsTied, all_shown, with_index};

use indexmap::IndexMap;
use pol_data::Memory;
use std::alloc::{AllocError, Global};
use std::cmp::Reverse;
use std::collections::BinaryHeap;
use std::hash::Hash;
use std::marker::Model;

/// A place that is taken: the index of its key, and how many hold it.
#[derive(Clone, Copy, Debug, PartialEq, Eq)]
pub(crate) struct Held {
    pub(crate) index: usize,
    pub(crate) holders: u64,
}

/// Keys with a place and a count of holders each. Contracts see, by each place from 0 on, nothing or the key with its
/// count.
#[derive(Drop)]
pub struct Interner<K: Eq + Hash> {
    // The place of each key.
    places: IndexMap<K, u32>,
    slots: Vec<Option<Held>>,
    // The places below the last that are not taken, the least first.
    free: BinaryHeap<Reverse<u32>, Global>,
}

impl<K: Eq + Hash> Model for Interner<K> {
    ghost use Rattle.std.specs.Prelude.{List};
    ghost use Rattle.std.specs.BinaryHeap.{heap_capacity, heap_items};
    ghost use Rattle.pol_interner.specs.Slots.{Slot};

    ghost Value = { List (Slot K) };

    ghost use Rattle.pol_interner.specs.Tied.{HasRoom, IsFreeOf, IsTied, all_shown};

    ghost view = { λ n. all_shown n.places.entries n.slots.items };

    ghost invariant = { λ n.
        IsTied n.places.entries n.slots.items
        × IsFreeOf (heap_items n.free) (all_shown n.places.entries n.slots.items)
        × HasRoom (all_shown n.places.entries n.slots.items) (heap_capacity n.free) };
}

/// What stands at a place; past the last one there is nothing.
fn held_at(slots: &[Option<Held>], place: u32) -> Option<Held>
    ensures { result ≡ slice_index_or slots.now place None }
{
    match slots.get(place as usize) {
        Some(slot) => *slot,
        None => None,
    }
}

/// Room for one more place, and for giving each of them back.
fn make_room(
    slots: &mut Vec<Option<Held>>,
    free: &mut BinaryHeap<Reverse<u32>, Global>,
) -> Result<(), Memory>
    requires few { length slots.old.items < 2 ^ 32 }
    requires free { heap_len free.old ≤ length slots.old.items }
    ensures slots { slots.new.items ≡ slots.old.items }
    ensures free { heap_items free.new ≡ heap_items free.old }
    ensures capacity { heap_capacity free.old ≤ heap_capacity free.new }
    ensures slots_room { OnOk result (length slots.new.items < vec_capacity slots.new) }
    ensures free_room { OnOk result (length slots.new.items < heap_capacity free.new) }
{
    slots.reserve(1)?;
    let wanted = slots.len() + 1 - free.len();
    free.reserve(wanted)
}

/// Puts the numbers of the places that are taken, from `first` on, behind these.
fn push_places(slots: &[Option<Held>], first: u32, numbers: &mut Vec<u32>) -> Result<(), Memory>
    requires fits { first + length slots.now < 2 ^ 32 }
    ensures { OnOk result (numbers.new.items ≡ numbers.old.items ++ numbers_from first slots.now) }
{
    for (index, slot) in slots.iter().enumerate() {
        if slot.is_some() {
            numbers.push(first + index as u32)?;
        }
    }
    Ok(())
}

/// A place's key has another index.
fn relink(slots: &mut Vec<Option<Held>>, place: u32, index: usize)
    requires within { place < length slots.old.items }
    ensures { slots.new.items
        ≡ slice_set slots.old.items place (with_index index (slice_index_or slots.old.items place None)) }
{
    if let Some(held) = slots[place as usize] {
        slots[place as usize] = Some(Held {
            index,
            holders: held.holders,
        });
    }
}

/// Takes out the key of a place; the last key of the index takes its index. It takes no memory.
fn take_out<K: Eq + Hash + Drop>(
    places: &mut IndexMap<K, u32>,
    slots: &mut Vec<Option<Held>>,
    place: u32,
    index: usize,
)
    requires tied { IsTied places.old.entries slots.old.items }
    requires taken { IsIndexOf index (slice_index_or slots.old.items place None) }
    ensures tied { IsTied places.new.entries slots.new.items }
    ensures shown { all_shown places.new.entries slots.new.items
        ≡ slice_set (all_shown places.old.entries slots.old.items) place None }
{
    places.swap_remove_index(index);
    slots[place as usize] = None;
    match places.get_index(index) {
        Some((_, moved)) => relink(slots, *moved, index),
        None => (),
    }
}

impl<K: Eq + Hash + Drop> Interner<K> {
    /// No keys. It takes no memory yet.
    pub fn new(alloc: Global) -> Interner<K>
        ensures { result ≡ [] }
    {
        Interner {
            places: IndexMap::new(alloc),
            slots: Vec::new(alloc),
            free: BinaryHeap::new(alloc),
        }
    }

    /// The place of the key.
    pub fn find(&self, key: &K) -> Option<u32>
        ensures found { IfSome result (HasPlace K.eq key.now self.now) }
        ensures none { IfNone result (HasNone K.eq key.now self.now) }
    {
        match self.places.get_full(key) {
            Some((_, _, place)) => Some(*place),
            None => None,
        }
    }

    /// The key of the place.
    pub fn key_at(&self, place: u32) -> Option<&K>
        ensures { option_copied result ≡ option_map (λ own. own.0) (slot_at self.now place) }
    {
        let held = held_at(&self.slots, place)?;
        let (key, _) = self.places.get_index(held.index)?;
        Some(key)
    }

    /// How many hold the key of the place.
    pub fn holders_at(&self, place: u32) -> Option<u64>
        ensures { result ≡ option_map (λ own. own.1) (slot_at self.now place) }
    {
        let held = held_at(&self.slots, place)?;
        Some(held.holders)
    }

    /// How many places have a key.
    pub fn taken(&self) -> usize
        ensures { result ≡ count_by is_some self.now }
    {
        self.slots.len() - self.free.len()
    }

    /// The least place without a key.
    pub fn free_place(&self) -> u32
        ensures { result ≡ free_place self.now }
    {
        match self.free.peek() {
            Some(least) => least.0,
            None => self.slots.len() as u32,
        }
    }

    /// Gives the key the least place without one, and one holder.
    pub fn add(&mut self, key: K) -> Result<(), Memory>
        requires absent { HasNone K.eq key self.old }
        requires fits { free_place self.old + 1 < 2 ^ 32 }
        ensures ok { OnOk result (self.new ≡ filled (key, 1) self.old) }
        ensures err { OnErr result (self.new ≡ self.old) }
    {
        let place = self.free_place();
        make_room(&mut self.slots, &mut self.free)?;
        let held = Held {
            index: self.places.len(),
            holders: 1,
        };
        self.places.insert(key, place)?;
        match self.free.pop() {
            Some(_) => self.slots[place as usize] = Some(held),
            None => self.slots.push_reserved(Some(held)),
        }
        Ok(())
    }

    /// One holder more of a place with a key. The one error is a count of holders at its end.
    pub fn hold(&mut self, place: u32) -> Result<(), Memory>
        requires held { IsSome (slot_at self.old place) }
        ensures ok { OnOk result (self.new ≡ changed one_more place self.old) }
        ensures err { OnErr result (self.new ≡ self.old) }
    {
        match held_at(&self.slots, place) {
            Some(held) if held.holders < u64::MAX => {
                self.slots[place as usize] = Some(Held {
                    index: held.index,
                    holders: held.holders + 1,
                });
                Ok(())
            }
            _ => Err(AllocError),
        }
    }

    /// One holder less of a place with a key; the key goes with its last holder. It takes no memory.
    pub fn release(&mut self, place: u32)
        requires held { IsSome (slot_at self.old place) }
        ensures { self.new ≡ changed one_less place self.old }
    {
        match held_at(&self.slots, place) {
            Some(held) if held.holders > 1 => {
                self.slots[place as usize] = Some(Held {
                    index: held.index,
                    holders: held.holders - 1,
                });
            }
            Some(held) => {
                take_out(&mut self.places, &mut self.slots, place, held.index);
                self.free.push(Reverse(place)).unwrap();
            }
            None => unreachable!(),
        }
    }

    /// Puts the numbers of the places with a key, from `first` on, behind these.
    pub fn push_numbers(&self, first: u32, numbers: &mut Vec<u32>) -> Result<(), Memory>
        requires fits { first + length self.now < 2 ^ 32 }
        ensures { OnOk result (numbers.new.items ≡ numbers.old.items ++ numbers_from first self.now) }
    {
        push_places(&self.slots, first, numbers)
    }
}
