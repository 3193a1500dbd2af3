//! The keys of a group whose entries may change: those that turn, and those under a deny that does.
ghost use Rattle.std.specs.Prelude.{◌≡◌, ◌++◌, ◌/◌, ◌%◌, ◌^◌, ◌<◌, ◌≤◌, ℕ, IfOk, OnOk};
ghost use Rattle.std.specs.List.Sorted.{IsStrictlySortedBy};
ghost use Rattle.std.specs.Ordering.{nat_cmp};
ghost use Rattle.pol_entry_tally.specs.Affected.{Has};
ghost use Rattle.pol_entry_tally.specs.Asking.{AreAsked, AreAskedUnder, AreBetween, AreOfOne, locals, turned_locals, under_end};
ghost use Rattle.pol_entry_tally.specs.Counts.{AreCounts, Ascend, Rises};

use crate::counts::{Count, split_at_place};
use crate::numbers::{ALLOWS, end_of};
use pol_data::Memory;
use std::alloc::Global;

/// Puts where keys that turn stand behind the others.
fn push_turned(asked: &mut Vec<u32>, turns: &[u64]) -> Result<(), Memory>
    ensures { OnOk result (asked.new.items ≡ asked.old.items ++ turned_locals turns.now) }
{
    for turn in turns {
        asked.push((*turn / 2 % u64::from(ALLOWS)) as u32)?;
    }
    Ok(())
}

/// Puts where keys with a count stand behind the others.
fn push_counted(asked: &mut Vec<u32>, counts: &[Count]) -> Result<(), Memory>
    ensures { OnOk result (asked.new.items ≡ asked.old.items ++ locals counts.now) }
{
    for count in counts {
        asked.push(count.place % ALLOWS)?;
    }
    Ok(())
}

/// The counts whose places stand from the one up to the other.
fn between(counts: &[Count], from: u32, to: u32) -> &[Count]
    requires { Ascend counts.now }
    ensures { AreBetween from to counts.now result.now }
{
    let (_, rest) = split_at_place(counts, from);
    let (own, _) = split_at_place(rest, to);
    own
}

/// Asks the keys with a count that stand from the one up to the other: denies, and then allows.
fn push_between(asked: &mut Vec<u32>, counts: &[Count], from: u32, to: u32) -> Result<(), Memory>
    requires counts { AreCounts counts.now }
    requires from { from < 2 ^ 24 }
    requires to { to < 2 ^ 24 }
    ensures all { OnOk result (AreAsked counts.now from to asked.new.items) }
    ensures stay { OnOk result (Has asked.old.items asked.new.items) }
    ensures no_more { OnOk result (Has asked.new.items (asked.old.items ++ locals counts.now)) }
{
    push_counted(asked, between(counts, from, to))?;
    push_counted(asked, between(counts, from + ALLOWS, to + ALLOWS))?;
    Ok(())
}

/// Asks the keys with a count under the key that turns, if that is denied, where those up to a place are asked. It gives up to
/// where they are then.
fn push_under(asked: &mut Vec<u32>, counts: &[Count], turn: u64, done: u32) -> Result<u32, Memory>
    requires { AreCounts counts.now }
    ensures all { IfOk result (λ to.
        (last : ℕ) → last ≤ turn / 2 % 2 ^ 24 → AreAsked counts.now last done asked.old.items
        → AreAsked counts.now (turn / 2 % 2 ^ 24) to asked.new.items) }
    ensures far { turn / 2 % 2 ^ 24 < 2 ^ 23 → IfOk result (λ to. under_end (turn / 2 % 2 ^ 24) ≤ to) }
    ensures stay { OnOk result (Has asked.old.items asked.new.items) }
    ensures no_more { OnOk result (Has asked.new.items (asked.old.items ++ locals counts.now)) }
{
    let place = (turn / 2 % (1 << 24)) as u32;
    if ALLOWS <= place {
        return Ok(done);
    }
    let to = end_of(place);
    if to <= done {
        return Ok(done);
    }
    push_between(asked, counts, place, to)?;
    Ok(to)
}

/// Asks the keys with a count under each deny that turns. What is asked for one deny isn't asked for another one.
fn push_denied(asked: &mut Vec<u32>, counts: &[Count], turns: &[u64]) -> Result<(), Memory>
    requires counts { AreCounts counts.now }
    requires rises { Rises turns.now }
    requires own { AreOfOne turns.now }
    ensures all { OnOk result (AreAskedUnder counts.now turns.now asked.new.items) }
    ensures stay { OnOk result (Has asked.old.items asked.new.items) }
    ensures no_more { OnOk result (Has asked.new.items (asked.old.items ++ locals counts.now)) }
{
    let mut done = 0;
    let mut left = turns;
    while let Some(turn) = left.first() {
        done = push_under(asked, counts, *turn, done)?;
        left = left.split_at(1).1;
    }
    Ok(())
}

/// The same numbers in order, each once. It takes no memory.
fn in_order(asked: Vec<u32>) -> Vec<u32>
    ensures ascends { IsStrictlySortedBy nat_cmp result.items }
    ensures same { Has asked.items result.items }
    ensures no_more { Has result.items asked.items }
{
    let mut asked = asked;
    asked.sort_unstable();
    asked.dedup();
    asked
}

/// Where the keys stand that turn, and those with a count under a deny that does.
pub(crate) fn those_asked(
    alloc: Global,
    counts: &[Count],
    turns: &[u64],
) -> Result<Vec<u32>, Memory>
    requires counts { AreCounts counts.now }
    requires rises { Rises turns.now }
    requires own { AreOfOne turns.now }
    ensures ascends { IfOk result (λ asked. IsStrictlySortedBy nat_cmp asked.items) }
    ensures turned { IfOk result (λ asked. Has (turned_locals turns.now) asked.items) }
    ensures under { IfOk result (λ asked. AreAskedUnder counts.now turns.now asked.items) }
    ensures no_more { IfOk result (λ asked. Has asked.items (turned_locals turns.now ++ locals counts.now)) }
{
    let mut asked = Vec::with_capacity(alloc, turns.len())?;
    push_turned(&mut asked, turns)?;
    push_denied(&mut asked, counts, turns)?;
    Ok(in_order(asked))
}
