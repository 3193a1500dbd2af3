//! Numbers under their headings.
ghost use Rattle.std.specs.Prelude.{◌≡◌, ◌↔◌, ℕ, ◌==◌, ◌||◌, ◌&&◌, not, IsTrue, IfOk, OnOk, OnErr};
ghost use Rattle.indexmap.specs.IndexMap.{IsUnique};
ghost use Rattle.pol_headings.specs.declared.heading.Heading.{Heading as OneHeading};
ghost use Rattle.pol_headings.specs.Filed.{IsEmptyAt, has, is_filed};
ghost use Rattle.pol_headings.specs.Heading.{heading_by, same_heading};
ghost use Rattle.pol_headings.specs.Inside.{drawers_of};

use crate::{Heading, HeadingRef};
use indexmap::IndexMap;
use pol_data::Memory;
use std::alloc::Global;
use std::collections::BTreeSet;

/// One number more among these. After an error they are as before.
fn put_in(numbers: &mut BTreeSet<u64>, number: u64) -> Result<(), Memory>
    ensures ok { OnOk result ((n : ℕ) → has n numbers.new.keys ≡ (has n numbers.old.keys || (number == n))) }
    ensures err { OnErr result (numbers.new.keys ≡ numbers.old.keys) }
{
    numbers.insert(number)?;
    Ok(())
}

/// The set of one number.
fn of_one(alloc: Global, number: u64) -> Result<BTreeSet<u64>, Memory>
    ensures { IfOk result (λ numbers. (n : ℕ) → has n numbers.keys ≡ (number == n)) }
{
    let mut numbers = BTreeSet::new(alloc);
    put_in(&mut numbers, number)?;
    Ok(numbers)
}

/// One number fewer.
fn take_out(numbers: &mut BTreeSet<u64>, number: u64)
    ensures { (n : ℕ) → has n numbers.new.keys ≡ (has n numbers.old.keys && not (number == n)) }
{
    numbers.remove(&number);
}

/// Puts a number under a heading. After an error all is as before.
pub(crate) fn put(
    drawers: &mut IndexMap<Heading, BTreeSet<u64>>,
    alloc: Global,
    heading: &HeadingRef<'_>,
    number: u64,
) -> Result<(), Memory>
    requires { IsUnique same_heading drawers.old }
    ensures unique { IsUnique same_heading drawers.new }
    ensures ok { OnOk result ((other : OneHeading) (n : ℕ)
        → is_filed (drawers_of drawers.new.entries) other n ≡ (is_filed
        (drawers_of drawers.old.entries) other n || (same_heading (heading_by heading.now) other && (number == n)))) }
    ensures err { OnErr result ((other : OneHeading) (n : ℕ)
        → is_filed (drawers_of drawers.new.entries) other n ≡ is_filed (drawers_of drawers.old.entries) other n) }
{
    match drawers.get_mut(heading) {
        Some(numbers) => {
            put_in(numbers, number)?;
            Ok(())
        }
        None => {
            let numbers = of_one(alloc, number)?;
            drawers.insert(heading.to_heading(alloc)?, numbers)?;
            Ok(())
        }
    }
}

/// Takes a number from under a heading. It takes no memory.
pub(crate) fn take(
    drawers: &mut IndexMap<Heading, BTreeSet<u64>>,
    heading: &HeadingRef<'_>,
    number: u64,
)
    requires { IsUnique same_heading drawers.old }
    ensures unique { IsUnique same_heading drawers.new }
    ensures rest { (other : OneHeading) (n : ℕ)
        → is_filed (drawers_of drawers.new.entries) other n ≡ (is_filed (drawers_of drawers.old.entries) other n && not
        (same_heading (heading_by heading.now) other && (number == n))) }
{
    take_from(drawers, heading, number);
    if is_empty_at(drawers, heading) {
        clear(drawers, heading);
    }
}

/// The same, where an empty drawer may stay.
fn take_from(drawers: &mut IndexMap<Heading, BTreeSet<u64>>, heading: &HeadingRef<'_>, number: u64)
    requires { IsUnique same_heading drawers.old }
    ensures unique { IsUnique same_heading drawers.new }
    ensures rest { (other : OneHeading) (n : ℕ)
        → is_filed (drawers_of drawers.new.entries) other n ≡ (is_filed (drawers_of drawers.old.entries) other n && not
        (same_heading (heading_by heading.now) other && (number == n))) }
{
    if let Some(numbers) = drawers.get_mut(heading) {
        take_out(numbers, number);
    }
}

/// Whether nothing is filed under the heading.
fn is_empty_at(drawers: &IndexMap<Heading, BTreeSet<u64>>, heading: &HeadingRef<'_>) -> bool
    ensures { IsTrue result ↔ IsEmptyAt (heading_by heading.now) (drawers_of drawers.now.entries) }
{
    match drawers.get(heading) {
        None => true,
        Some(numbers) => numbers.is_empty(),
    }
}

/// Takes out the drawer of a heading under which nothing is filed.
fn clear(drawers: &mut IndexMap<Heading, BTreeSet<u64>>, heading: &HeadingRef<'_>)
    requires empty { IsEmptyAt (heading_by heading.now) (drawers_of drawers.old.entries) }
    ensures unique { IsUnique same_heading drawers.new }
    ensures rest { (other : OneHeading) (n : ℕ)
        → is_filed (drawers_of drawers.new.entries) other n ≡ is_filed (drawers_of drawers.old.entries) other n }
{
    drawers.swap_remove(heading);
}
