//! Label sets under places: each has the least place that was free when it came, until its last holder goes.
ghost use Rattle.std.specs.Prelude.{◌≡◌, ◌+◌, ◌^◌, ◌<◌, ◌++◌, [], IsSome, IfSome, IfNone, OnOk, OnErr, count_by, is_some, option_map, length};
ghost use Rattle.std.specs.Option.{option_copied};
ghost use Rattle.pol_headings.specs.Heading.{heading_by};
ghost use Rattle.pol_interner.specs.Slots.{HasNone, HasPlace, changed, filled, free_place, numbers_from, numbers_where, one_less, one_more, slot_at};
ghost use Rattle.pol_label_sets.specs.Carried.{carries_heading};
ghost use Rattle.pol_label_sets.specs.Filed.{IsFiledApart, IsFiledAs};

use crate::filed::{file_each, push_each, unfile_each};
use pol_data::Memory;
use pol_headings::{Filing, HeadingRef};
use pol_interner::Interner;
use pol_labels::LabelSet;
use std::alloc::Global;
use std::marker::Model;

/// Label sets with a place and a count of holders each. Contracts see, by each place from 0 on, nothing or the set with
/// its count.
#[derive(Drop)]
pub struct LabelSets {
    alloc: Global,
    sets: Interner<LabelSet>,
    // Each place under the headings of its set's labels.
    filing: Filing,
}

impl Model for LabelSets {
    ghost use Rattle.std.specs.Prelude.{List};
    ghost use Rattle.pol_labels.specs.declared.label.Label.{Label};
    ghost use Rattle.pol_interner.specs.Slots.{Slot};
    ghost use Rattle.pol_label_sets.specs.Filed.{IsFiledAs};

    ghost Value = { List (Slot (List Label)) };

    ghost view = { λ a. a.sets };

    ghost invariant = { λ a. IsFiledAs a.filing a.sets };
}

/// Gives the set the least place without one, which is `place`, and files it. After an error the places are as before, and
/// the place may be filed under headings of the labels.
fn add_filed(
    sets: &mut Interner<LabelSet>,
    filing: &mut Filing,
    labels: LabelSet,
) -> Result<(), Memory>
    requires absent { HasNone ⟦<LabelSet as PartialEq>⟧.eq labels sets.old }
    requires fits { free_place sets.old + 1 < 2 ^ 32 }
    requires tied { IsFiledAs filing.old sets.old }
    ensures ok { OnOk result (sets.new ≡ filled (labels, 1) sets.old) }
    ensures tied { OnOk result (IsFiledAs filing.new sets.new) }
    ensures err { OnErr result (sets.new ≡ sets.old) }
    ensures apart { OnErr result (IsFiledApart labels (free_place sets.old) filing.old filing.new) }
{
    file_each(filing, labels.as_slice(), sets.free_place())?;
    sets.add(labels)
}

/// Takes the place from under the headings of its set, where the last holder goes next.
fn unfile_last(sets: &Interner<LabelSet>, filing: &mut Filing, place: u32)
    requires tied { IsFiledAs filing.old sets.now }
    ensures tied { IsFiledAs filing.new (changed one_less place sets.now) }
{
    if let Some(holders) = sets.holders_at(place) {
        if holders <= 1 {
            if let Some(labels) = sets.key_at(place) {
                unfile_each(filing, labels.as_slice(), place);
            }
        }
    }
}

impl LabelSets {
    /// No sets. It takes no memory yet.
    pub fn new(alloc: Global) -> LabelSets
        ensures { result ≡ [] }
    {
        LabelSets {
            alloc,
            sets: Interner::new(alloc),
            filing: Filing::new(alloc),
        }
    }

    /// The place of the set.
    pub fn find(&self, labels: &LabelSet) -> Option<u32>
        ensures found { IfSome result (HasPlace ⟦<LabelSet as PartialEq>⟧.eq labels.now self.now) }
        ensures none { IfNone result (HasNone ⟦<LabelSet as PartialEq>⟧.eq labels.now self.now) }
    {
        self.sets.find(labels)
    }

    /// The set of the place.
    pub fn key_at(&self, place: u32) -> Option<&LabelSet>
        ensures { option_copied result ≡ option_map (λ own. own.0) (slot_at self.now place) }
    {
        self.sets.key_at(place)
    }

    /// How many hold the set of the place.
    pub fn holders_at(&self, place: u32) -> Option<u64>
        ensures { result ≡ option_map (λ own. own.1) (slot_at self.now place) }
    {
        self.sets.holders_at(place)
    }

    /// How many places have a set.
    pub fn taken(&self) -> usize
        ensures { result ≡ count_by is_some self.now }
    {
        self.sets.taken()
    }

    /// The least place without a set.
    pub fn free_place(&self) -> u32
        ensures { result ≡ free_place self.now }
    {
        self.sets.free_place()
    }

    /// Gives a copy of the set the least place without one, and one holder. The one error is want of memory.
    pub fn add(&mut self, labels: &LabelSet) -> Result<(), Memory>
        requires absent { HasNone ⟦<LabelSet as PartialEq>⟧.eq labels.now self.old }
        requires fits { free_place self.old + 1 < 2 ^ 32 }
        ensures ok { OnOk result (self.new ≡ filled (labels.now, 1) self.old) }
        ensures err { OnErr result (self.new ≡ self.old) }
    {
        let place = self.sets.free_place();
        let copy = labels.copy(self.alloc)?;
        match add_filed(&mut self.sets, &mut self.filing, copy) {
            Ok(()) => Ok(()),
            Err(memory) => {
                unfile_each(&mut self.filing, labels.as_slice(), place);
                Err(memory)
            }
        }
    }

    /// One holder more of a place with a set. The one error is a count of holders at its end.
    pub fn hold(&mut self, place: u32) -> Result<(), Memory>
        requires held { IsSome (slot_at self.old place) }
        ensures ok { OnOk result (self.new ≡ changed one_more place self.old) }
        ensures err { OnErr result (self.new ≡ self.old) }
    {
        self.sets.hold(place)
    }

    /// One holder less of a place with a set; the set goes with its last holder. It takes no memory.
    pub fn release(&mut self, place: u32)
        requires held { IsSome (slot_at self.old place) }
        ensures { self.new ≡ changed one_less place self.old }
    {
        unfile_last(&self.sets, &mut self.filing, place);
        self.sets.release(place);
    }

    /// Puts the numbers of the places with a set, from `first` on, behind these.
    pub fn push_numbers(&self, first: u32, numbers: &mut Vec<u32>) -> Result<(), Memory>
        requires fits { first + length self.now < 2 ^ 32 }
        ensures { OnOk result (numbers.new.items ≡ numbers.old.items ++ numbers_from first self.now) }
    {
        self.sets.push_numbers(first, numbers)
    }

    /// Puts the numbers, from `first` on, of the places whose set has a label of the heading behind these, the least first.
    pub fn push_numbers_with(
        &self,
        first: u32,
        heading: &HeadingRef<'_>,
        numbers: &mut Vec<u32>,
    ) -> Result<(), Memory>
        requires fits { first + length self.now < 2 ^ 32 }
        ensures { OnOk result (numbers.new.items
            ≡ numbers.old.items ++ numbers_where first (carries_heading (heading_by heading.now)) self.now) }
    {
        let places = self.filing.filed_at(self.alloc, heading)?;
        push_each(&places, first, numbers)
    }
}
