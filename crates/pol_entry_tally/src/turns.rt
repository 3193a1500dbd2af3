//! Entries that come and go, as numbers in order: a number is that of a key and a kind, and behind it whether it goes.
ghost use Rattle.std.specs.Prelude.{◌≡◌, ◌++◌, ◌+◌, ◌*◌, ◌^◌, ◌<◌, ◌≤◌, true, IfOk, OnOk, drop, length, map, take};
ghost use Rattle.std.specs.List.{AllByRecursion};
ghost use Rattle.pol_mapkey.specs.Entries.{Entry};
ghost use Rattle.pol_mapkey.specs.declared.Kind.{Kind as OneKind};
ghost use Rattle.pol_mapkey.specs.declared.MapKey.{MapKey as OneKey};
ghost use Rattle.pol_entry_tally.specs.Numbers.{code_of, fits};
ghost use Rattle.pol_entry_tally.specs.Counts.{AreTurns, IsRunOf, Rises, downs, ups};
ghost use Rattle.pol_entry_tally.specs.Times.{times};

use crate::numbers::code_of;
use pol_data::Memory;
use pol_mapkey::{Kind, MapKey};
use std::alloc::Global;

/// Puts the numbers of these entries behind the others.
fn push_turns(out: &mut Vec<u64>, entries: &[(MapKey, Kind)], goes: u64) -> Result<(), Memory>
    requires { goes ≤ 1 }
    ensures pushed { OnOk result (out.new.items
        ≡ out.old.items ++ map (λ (e : Entry). code_of e.0 e.1 * 2 + goes) entries.now) }
    ensures fit { OnOk result (AllByRecursion (λ (e : Entry). fits e.0 ≡ true) entries.now) }
{
    for entry in entries {
        out.push(code_of(&entry.0, entry.1) * 2 + goes)?;
    }
    Ok(())
}

/// What comes and goes, in order.
pub(crate) fn turns_of(
    alloc: Global,
    come: &[(MapKey, Kind)],
    gone: &[(MapKey, Kind)],
) -> Result<Vec<u64>, Memory>
    ensures rises { IfOk result (λ turns. Rises turns.items) }
    ensures turns { IfOk result (λ turns. AreTurns turns.items) }
    ensures come { IfOk result (λ turns.
        (q : OneKey) (k : OneKind) → fits q ≡ true → ups turns.items (code_of q k) ≡ times come.now q k) }
    ensures gone { IfOk result (λ turns.
        (q : OneKey) (k : OneKind) → fits q ≡ true → downs turns.items (code_of q k) ≡ times gone.now q k) }
    ensures fit_come { OnOk result (AllByRecursion (λ (e : Entry). fits e.0 ≡ true) come.now) }
    ensures fit_gone { OnOk result (AllByRecursion (λ (e : Entry). fits e.0 ≡ true) gone.now) }
{
    let mut turns = Vec::with_capacity(alloc, come.len().saturating_add(gone.len()))?;
    push_turns(&mut turns, come, 0)?;
    push_turns(&mut turns, gone, 1)?;
    turns.sort_unstable();
    Ok(turns)
}

/// How many of the turns, from the first on, are below the bound.
fn count_below(turns: &[u64], bound: u64) -> usize
    requires { Rises turns.now }
    ensures bound { result ≤ length turns.now }
    ensures low { AllByRecursion (λ turn. turn < bound) (take result turns.now) }
    ensures high { AllByRecursion (λ turn. bound ≤ turn) (drop result turns.now) }
{
    for i in 0..turns.len() {
        if bound <= turns[i] {
            return i;
        }
    }
    turns.len()
}

/// The turns that are below the bound, and the others.
pub(crate) fn below(turns: &[u64], bound: u64) -> (&[u64], &[u64])
    requires { Rises turns.now }
    ensures parts { turns.now ≡ result.0.now ++ result.1.now }
    ensures low { AllByRecursion (λ turn. turn < bound) result.0.now }
    ensures high { AllByRecursion (λ turn. bound ≤ turn) result.1.now }
{
    turns.split_at(count_below(turns, bound))
}

/// The turns of one code: how many come, how many go, and the turns behind them.
#[derive(Drop)]
pub(crate) struct Run<'a> {
    pub(crate) ups: usize,
    pub(crate) downs: usize,
    pub(crate) others: &'a [u64],
}

/// The turns of the code, where no turn is below it.
pub(crate) fn run_of(turns: &[u64], code: u64) -> Run<'_>
    requires rises { Rises turns.now }
    requires from { AllByRecursion (λ turn. code * 2 ≤ turn) turns.now }
    requires small { code < 2 ^ 62 }
    ensures { IsRunOf code turns.now result.ups result.downs result.others.now }
{
    let (come, rest) = below(turns, code * 2 + 1);
    let (gone, others) = below(rest, code * 2 + 2);
    Run {
        ups: come.len(),
        downs: gone.len(),
        others,
    }
}
