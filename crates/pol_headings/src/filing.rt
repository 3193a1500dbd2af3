//! Numbers, filed.
ghost use Rattle.std.specs.Prelude.{◌≡◌, ℕ, ◌==◌, ◌||◌, ◌&&◌, ◌++◌, not, IfOk, OnOk, OnErr, []};
ghost use Rattle.pol_headings.specs.declared.heading.Heading.{Heading as OneHeading};
ghost use Rattle.pol_headings.specs.Filed.{has, is_filed, is_filed_in};
ghost use Rattle.pol_headings.specs.Heading.{heading_by, same_heading};
ghost use Rattle.pol_model.specs.Ascending.{Ascends};

use crate::drawers::{put, take};
use crate::{Heading, HeadingRef, Headings};
use indexmap::IndexMap;
use pol_data::Memory;
use std::alloc::Global;
use std::collections::BTreeSet;
use std::marker::Model;

/// Which numbers are filed under which heading.
#[derive(Drop)]
pub struct Filing {
    alloc: Global,
    drawers: IndexMap<Heading, BTreeSet<u64>>,
}

impl Model for Filing {
    ghost use Rattle.pol_headings.specs.Filed.{Drawers};

    ghost Value = { Drawers };

    ghost use Rattle.indexmap.specs.IndexMap.{IsUnique};
    ghost use Rattle.pol_headings.specs.Heading.{same_heading};
    ghost use Rattle.pol_headings.specs.Inside.{drawers_of};

    ghost view = { λ filing. drawers_of filing.drawers.entries };

    ghost invariant = { λ filing. IsUnique same_heading filing.drawers };
}

/// Puts the numbers of a drawer behind these.
fn push_all(numbers: &mut Vec<u64>, filed: &BTreeSet<u64>) -> Result<(), Memory>
    ensures items { OnOk result (numbers.new.items ≡ numbers.old.items ++ filed.now.keys) }
    ensures ascend { OnOk result (Ascends filed.now.keys) }
{
    for number in filed {
        numbers.push(*number)?;
    }
    Ok(())
}

/// The numbers of a drawer, ascending.
fn numbers_of(alloc: Global, filed: &BTreeSet<u64>) -> Result<Vec<u64>, Memory>
    ensures items { IfOk result (λ numbers. numbers.items ≡ filed.now.keys) }
    ensures ascend { IfOk result (λ numbers. Ascends numbers.items) }
{
    let mut numbers = Vec::new(alloc);
    push_all(&mut numbers, filed)?;
    Ok(numbers)
}

impl Filing {
    /// Nothing is filed. It takes no memory.
    pub fn new(alloc: Global) -> Filing
        ensures { result ≡ [] }
    {
        Filing {
            alloc,
            drawers: IndexMap::new(alloc),
        }
    }

    /// Files a number under a heading. The one error is want of memory, and then all is filed as before.
    pub fn file(&mut self, heading: &HeadingRef<'_>, number: u64) -> Result<(), Memory>
        ensures ok { OnOk result ((other : OneHeading) (n : ℕ) → is_filed self.new other n
            ≡ (is_filed self.old other n || (same_heading (heading_by heading.now) other && (number == n)))) }
        ensures err { OnErr result ((other : OneHeading) (n : ℕ)
            → is_filed self.new other n ≡ is_filed self.old other n) }
    {
        put(&mut self.drawers, self.alloc, heading, number)
    }

    /// Takes a number from under a heading. It takes no memory.
    pub fn unfile(&mut self, heading: &HeadingRef<'_>, number: u64)
        ensures { (other : OneHeading) (n : ℕ) → is_filed self.new other n
            ≡ (is_filed self.old other n && not (same_heading (heading_by heading.now) other && (number == n))) }
    {
        take(&mut self.drawers, heading, number);
    }

    /// The numbers that are filed under a heading, ascending, each once. The one error is want of memory.
    pub fn filed_at(&self, alloc: Global, heading: &HeadingRef<'_>) -> Result<Vec<u64>, Memory>
        ensures members { IfOk result (λ numbers.
            (n : ℕ) → has n numbers.items ≡ is_filed self.now (heading_by heading.now) n) }
        ensures ascend { IfOk result (λ numbers. Ascends numbers.items) }
    {
        match self.drawers.get(heading) {
            None => Ok(Vec::new(alloc)),
            Some(filed) => numbers_of(alloc, filed),
        }
    }

    /// The numbers that are filed under some of the headings, in whatever order. The one error is want of memory.
    pub fn filed_under(&self, alloc: Global, headings: &Headings) -> Result<Vec<u64>, Memory>
        ensures { IfOk result (λ numbers. (n : ℕ) → has n numbers.items ≡ is_filed_in self.now headings.now n) }
    {
        let mut numbers = Vec::new(alloc);
        let headings = headings.as_slice();
        for heading in headings {
            self.push_filed(&HeadingRef::of_heading(heading), &mut numbers)?;
        }
        Ok(numbers)
    }

    /// Puts the numbers under a heading behind these.
    fn push_filed(&self, heading: &HeadingRef<'_>, numbers: &mut Vec<u64>) -> Result<(), Memory>
        ensures { OnOk result ((n : ℕ)
            → has n numbers.new.items ≡ (has n numbers.old.items || is_filed self.now (heading_by heading.now) n)) }
    {
        match self.drawers.get(heading) {
            None => Ok(()),
            Some(filed) => push_all(numbers, filed),
        }
    }
}
