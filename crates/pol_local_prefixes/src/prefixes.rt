//! Prefixes under places: each has the least place that was free when it came, until its last holder goes.
ghost use Rattle.std.specs.Prelude.{◌≡◌, ◌+◌, ◌^◌, ◌<◌, ◌++◌, [], IsSome, IfSome, IfNone, OnOk, OnErr, count_by, is_some, option_map, length};
ghost use Rattle.std.specs.Option.{option_copied};
ghost use Rattle.pol_addr.specs.Prefix.{covers};
ghost use Rattle.pol_interner.specs.Slots.{HasNone, HasPlace, changed, filled, free_place, numbers_from, numbers_where, one_less, one_more, slot_at};
ghost use Rattle.pol_local_prefixes.specs.Tied.{last_held};

use crate::order::{push_within, sort_from};
use pol_addr::Prefix;
use pol_data::Memory;
use pol_interner::Interner;
use std::alloc::Global;
use std::collections::BTreeMap;
use std::marker::Model;

/// Prefixes with a place and a count of holders each. Contracts see, by each place from 0 on, nothing or the prefix with
/// its count.
#[derive(Drop)]
pub struct LocalPrefixes {
    prefixes: Interner<Prefix>,
    // The place of each prefix.
    order: BTreeMap<Prefix, u32>,
}

impl Model for LocalPrefixes {
    ghost use Rattle.std.specs.Prelude.{List};
    ghost use Rattle.std.specs.BTreeMap.{get};
    ghost use Rattle.pol_addr.specs.declared.network.Prefix.{Prefix};
    ghost use Rattle.pol_addr.specs.Order.{prefix_cmp};
    ghost use Rattle.pol_interner.specs.Slots.{Slot};

    ghost Value = { List (Slot Prefix) };

    ghost use Rattle.pol_local_prefixes.specs.Tied.{IsOrderOf};

    ghost view = { λ a. a.prefixes };

    ghost invariant = { λ a. IsOrderOf (get prefix_cmp a.order) a.prefixes };
}

/// The prefix of a place whose last holder goes next.
fn last_held(prefixes: &Interner<Prefix>, place: u32) -> Option<Prefix>
    ensures { result ≡ last_held (slot_at prefixes.now place) }
{
    if prefixes.holders_at(place)? > 1 {
        return None;
    }
    prefixes.key_at(place).copied()
}

impl LocalPrefixes {
    /// No prefixes. It takes no memory yet.
    pub fn new(alloc: Global) -> LocalPrefixes
        ensures { result ≡ [] }
    {
        LocalPrefixes {
            prefixes: Interner::new(alloc),
            order: BTreeMap::new(alloc),
        }
    }

    /// The place of the prefix.
    pub fn find(&self, prefix: &Prefix) -> Option<u32>
        ensures found { IfSome result (HasPlace ⟦<Prefix as PartialEq>⟧.eq prefix.now self.now) }
        ensures none { IfNone result (HasNone ⟦<Prefix as PartialEq>⟧.eq prefix.now self.now) }
    {
        self.prefixes.find(prefix)
    }

    /// The prefix of the place.
    pub fn key_at(&self, place: u32) -> Option<&Prefix>
        ensures { option_copied result ≡ option_map (λ own. own.0) (slot_at self.now place) }
    {
        self.prefixes.key_at(place)
    }

    /// How many hold the prefix of the place.
    pub fn holders_at(&self, place: u32) -> Option<u64>
        ensures { result ≡ option_map (λ own. own.1) (slot_at self.now place) }
    {
        self.prefixes.holders_at(place)
    }

    /// How many places have a prefix.
    pub fn taken(&self) -> usize
        ensures { result ≡ count_by is_some self.now }
    {
        self.prefixes.taken()
    }

    /// The least place without a prefix.
    pub fn free_place(&self) -> u32
        ensures { result ≡ free_place self.now }
    {
        self.prefixes.free_place()
    }

    /// Gives the prefix the least place without one, and one holder.
    pub fn add(&mut self, prefix: Prefix) -> Result<(), Memory>
        requires absent { HasNone ⟦<Prefix as PartialEq>⟧.eq prefix self.old }
        requires fits { free_place self.old + 1 < 2 ^ 32 }
        ensures ok { OnOk result (self.new ≡ filled (prefix, 1) self.old) }
        ensures err { OnErr result (self.new ≡ self.old) }
    {
        let place = self.prefixes.free_place();
        self.order.insert(prefix, place)?;
        match self.prefixes.add(prefix) {
            Ok(()) => Ok(()),
            Err(memory) => {
                self.order.remove(&prefix);
                Err(memory)
            }
        }
    }

    /// One holder more of a place with a prefix. The one error is a count of holders at its end.
    pub fn hold(&mut self, place: u32) -> Result<(), Memory>
        requires held { IsSome (slot_at self.old place) }
        ensures ok { OnOk result (self.new ≡ changed one_more place self.old) }
        ensures err { OnErr result (self.new ≡ self.old) }
    {
        self.prefixes.hold(place)
    }

    /// One holder less of a place with a prefix; the prefix goes with its last holder. It takes no memory.
    pub fn release(&mut self, place: u32)
        requires held { IsSome (slot_at self.old place) }
        ensures { self.new ≡ changed one_less place self.old }
    {
        if let Some(prefix) = last_held(&self.prefixes, place) {
            self.order.remove(&prefix);
        }
        self.prefixes.release(place);
    }

    /// Puts the numbers of the places with a prefix, from `first` on, behind these.
    pub fn push_numbers(&self, first: u32, numbers: &mut Vec<u32>) -> Result<(), Memory>
        requires fits { first + length self.now < 2 ^ 32 }
        ensures { OnOk result (numbers.new.items ≡ numbers.old.items ++ numbers_from first self.now) }
    {
        self.prefixes.push_numbers(first, numbers)
    }

    /// Puts the numbers of the places whose prefix lies in this one, from `first` on, behind these, the least first.
    pub fn push_numbers_within(
        &self,
        first: u32,
        within: &Prefix,
        numbers: &mut Vec<u32>,
    ) -> Result<(), Memory>
        requires fits { first + length self.now < 2 ^ 32 }
        ensures { OnOk result (numbers.new.items
            ≡ numbers.old.items ++ numbers_where first (covers within.now) self.now) }
    {
        let start = numbers.len();
        push_within(&self.order, first, within, numbers)?;
        sort_from(numbers, start);
        Ok(())
    }
}
