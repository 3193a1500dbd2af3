//! The phases of two parts of a script become one list.
ghost use Rattle.std.specs.Prelude.{◌≡◌, ◌++◌, drop, IfOk, OnOk};
ghost use Rattle.pol_run_laws.specs.Cut.{first_phase, list_at};
ghost use Rattle.pol_phases.specs.Marks.{beside, joined};

use crate::commands::Commands;
use pol_data::{Items, Memory};
use std::alloc::Global;
use std::collections::VecDeque;

/// The phases of a part of a script, and of the part behind it: the last of the one and the first of the other are one. The
/// one error is want of memory.
pub(crate) fn joined(
    alloc: Global,
    phases: Vec<Items<Commands>>,
    later: Vec<Items<Commands>>,
) -> Result<Vec<Items<Commands>>, Memory>
    ensures { IfOk result (λ both. both.items ≡ joined phases.items later.items) }
{
    let mut both = phases;
    let Some(last) = both.pop() else {
        return Ok(later);
    };
    let mut behind = VecDeque::from_vec(later);
    let first = first_of(alloc, &mut behind);
    let one = beside(alloc, last.into_vec(), first)?;
    both.push(Items::from_vec(one))?;
    push_all(&mut both, behind)?;
    Ok(both)
}

// The commands of the first phase, which are taken off. Past the last phase there are none.
fn first_of(alloc: Global, phases: &mut VecDeque<Items<Commands>>) -> Vec<Commands>
    ensures first { result.items ≡ first_phase phases.old.items }
    ensures rest { phases.new.items ≡ drop 1 phases.old.items }
{
    match phases.pop_front() {
        Some(first) => first.into_vec(),
        None => Vec::new(alloc),
    }
}

// Each list with the one beside it behind it, where there is one.
fn beside(
    alloc: Global,
    lists: Vec<Commands>,
    others: Vec<Commands>,
) -> Result<Vec<Commands>, Memory>
    ensures { IfOk result (λ both. both.items ≡ beside lists.items others.items) }
{
    let mut both = Vec::with_capacity(alloc, lists.len())?;
    let mut left = VecDeque::from_vec(lists);
    let mut others = VecDeque::from_vec(others);
    while let Some(list) = left.pop_front() {
        let mut list = list;
        list.append(next_list(alloc, &mut others))?;
        both.push(list)?;
    }
    Ok(both)
}

// The first list, which is taken off. Past the last one there is none.
fn next_list(alloc: Global, lists: &mut VecDeque<Commands>) -> Commands
    ensures first { result ≡ list_at lists.old.items 0 }
    ensures rest { lists.new.items ≡ drop 1 lists.old.items }
{
    match lists.pop_front() {
        Some(first) => first,
        None => Commands::new(alloc),
    }
}

// More phases, behind the others.
fn push_all(
    phases: &mut Vec<Items<Commands>>,
    more: VecDeque<Items<Commands>>,
) -> Result<(), Memory>
    ensures { OnOk result (phases.new.items ≡ phases.old.items ++ more.items) }
{
    let mut left = more;
    while let Some(phase) = left.pop_front() {
        phases.push(phase)?;
    }
    Ok(())
}
