//! Which selectors are tried for numbers that come and go.
ghost use Rattle.std.specs.Prelude.{◌≡◌, ℕ, true, IfOk, OnOk};
ghost use Rattle.std.specs.List.{AllByRecursion};
ghost use Rattle.pol_set_changes.specs.Ids.{has};
ghost use Rattle.pol_headings.specs.Heading.{heading_of};
ghost use Rattle.pol_headings.specs.Tried.{AreKept, is_among};
ghost use Rattle.pol_model.specs.Ascending.{Ascends};
ghost use Rattle.pol_selcache.specs.Tried.{HasAllAt};
ghost use Rattle.pol_selcache.specs.Live.{is_live};

use pol_data::Memory;
use pol_headings::Headings;
use pol_ident::Identities;
use pol_selectors::Selectors;
use pol_sets::IdSet;
use std::alloc::Global;

/// Adds the headings of all peers that select the number.
pub(crate) fn add_number(
    headings: &mut Headings,
    number: u32,
    identities: &Identities,
) -> Result<(), Memory>
    ensures all { OnOk result (HasAllAt identities.now headings.new number) }
    ensures kept { OnOk result (AreKept headings.old headings.new) }
{
    match identities.labels_of(number) {
        None => Ok(()),
        Some(labels) => {
            let prefix = identities.prefix_of(number);
            headings.add_all_of(labels, &prefix)
        }
    }
}

/// The same of each number.
fn add_numbers(
    headings: &mut Headings,
    numbers: &[u32],
    identities: &Identities,
) -> Result<(), Memory>
    ensures all { OnOk result (AllByRecursion (HasAllAt identities.now headings.new) numbers.now) }
    ensures kept { OnOk result (AreKept headings.old headings.new) }
{
    for number in numbers {
        add_number(headings, *number, identities)?;
    }
    Ok(())
}

/// The headings of all peers that select some of the numbers.
pub(crate) fn headings_of(
    alloc: Global,
    come: &IdSet,
    gone: &IdSet,
    identities: &Identities,
) -> Result<Headings, Memory>
    ensures come { IfOk result (λ headings. AllByRecursion (HasAllAt identities.now headings) come.now) }
    ensures gone { IfOk result (λ headings. AllByRecursion (HasAllAt identities.now headings) gone.now) }
{
    let mut headings = Headings::new(alloc);
    add_numbers(&mut headings, &come.to_vec(alloc)?, identities)?;
    add_numbers(&mut headings, &gone.to_vec(alloc)?, identities)?;
    Ok(headings)
}

/// The numbers in ascending order, each once.
fn ascending(numbers: Vec<u64>) -> Result<Vec<u64>, Memory>
    ensures members { IfOk result (λ once. (n : ℕ) → has n once.items ≡ has n numbers.items) }
    ensures ascend { IfOk result (λ once. Ascends once.items) }
{
    let mut numbers = numbers;
    numbers.sort()?;
    numbers.dedup();
    Ok(numbers)
}

/// The numbers of the selectors that stand under some of the headings, ascending.
pub(crate) fn tried(
    alloc: Global,
    table: &Selectors,
    headings: &Headings,
) -> Result<Vec<u64>, Memory>
    ensures live { IfOk result (λ numbers. AllByRecursion (λ n. is_live n table.now ≡ true) numbers.items) }
    ensures all { IfOk result (λ numbers. AllByRecursion (λ s.
        is_among headings.now (heading_of s.peer) ≡ true → has s.number numbers.items ≡ true) table.now) }
    ensures ascend { IfOk result (λ numbers. Ascends numbers.items) }
{
    let filed = table.filed_under(alloc, headings)?;
    let numbers = ascending(filed)?;
    Ok(numbers)
}
