//! The headings under which identities are filed, and the selectors that may select them.
ghost use Rattle.std.specs.Prelude.{◌≡◌, ◌+◌, ◌/◌, ◌||◌, OnOk, []};
ghost use Rattle.std.specs.List.{list_any};
ghost use Rattle.pol_headings.specs.Heading.{heading_by, label_heading, same_heading};
ghost use Rattle.pol_headings.specs.Inside.{is_octets, stands_in_octets};
ghost use Rattle.pol_headings.specs.Tried.{AreKept, HasAllOf, is_among, is_filed_as};
ghost use Rattle.pol_headings.specs.declared.heading.Heading.{Heading as OneHeading};

use crate::{Heading, HeadingRef};
use indexmap::IndexSet;
use pol_addr::Prefix;
use pol_data::Memory;
use pol_labels::{Label, LabelSet};
use std::alloc::Global;
use std::marker::Model;

/// Headings, each once.
#[derive(Drop)]
pub struct Headings {
    alloc: Global,
    set: IndexSet<Heading>,
}

impl Model for Headings {
    ghost use Rattle.std.specs.Prelude.{List};
    ghost use Rattle.pol_headings.specs.declared.heading.Heading.{Heading as OneHeading};

    ghost Value = { List OneHeading };

    ghost view = { λ headings. headings.set.keys };
}

impl Headings {
    /// No heading yet. It takes no memory.
    pub fn new(alloc: Global) -> Headings
        ensures { result ≡ [] }
    {
        Headings {
            alloc,
            set: IndexSet::new(alloc),
        }
    }

    /// Adds the headings under which an identity of these labels and this prefix is filed; those of all peers that select
    /// it are among them. The one error is want of memory.
    pub fn add_all_of(&mut self, labels: &LabelSet, prefix: &Option<Prefix>) -> Result<(), Memory>
        ensures added { OnOk result ((other : OneHeading)
            → is_among self.new other ≡ (is_among self.old other || is_filed_as labels.now prefix.now other)) }
        ensures all { OnOk result (HasAllOf labels.now prefix.now self.new) }
        ensures kept { OnOk result (AreKept self.old self.new) }
    {
        self.add(&HeadingRef::Any)?;
        self.add_labels(labels.as_slice())?;
        self.add_prefix(prefix)?;
        Ok(())
    }

    /// The headings, in the order in which they came.
    pub fn as_slice(&self) -> &[Heading]
        ensures { result.now ≡ self.now }
    {
        self.set.as_slice()
    }

    /// One heading more, which is copied where it isn't there yet.
    fn add(&mut self, heading: &HeadingRef<'_>) -> Result<(), Memory>
        ensures { OnOk result ((other : OneHeading)
            → is_among self.new other ≡ (is_among self.old other || same_heading (heading_by heading.now) other)) }
    {
        if !self.set.contains(heading) {
            self.set.insert(heading.to_heading(self.alloc)?)?;
        }
        Ok(())
    }

    /// The heading of each label.
    fn add_labels(&mut self, labels: &[Label]) -> Result<(), Memory>
        ensures { OnOk result ((other : OneHeading) → is_among self.new other
            ≡ (is_among self.old other || list_any (λ label. same_heading (label_heading label) other) labels.now)) }
    {
        for label in labels {
            self.add(&HeadingRef::of_label(label))?;
        }
        Ok(())
    }

    /// The headings of the prefix, where there is one.
    fn add_prefix(&mut self, prefix: &Option<Prefix>) -> Result<(), Memory>
        ensures { OnOk result ((other : OneHeading)
            → is_among self.new other ≡ (is_among self.old other || stands_in_octets prefix.now other)) }
    {
        match prefix {
            None => Ok(()),
            Some(prefix) => self.add_octets(prefix),
        }
    }

    /// The prefixes of whole octets in which this one lies.
    fn add_octets(&mut self, prefix: &Prefix) -> Result<(), Memory>
        ensures { OnOk result ((other : OneHeading) → is_among self.new other
            ≡ (is_among self.old other || is_octets prefix.now (prefix.now.len / 8 + 1) other)) }
    {
        for octets in 0..prefix.len() / 8 + 1 {
            let octets = Prefix::new(prefix.network(), octets * 8);
            self.add(&HeadingRef::Prefix(octets))?;
        }
        Ok(())
    }
}
