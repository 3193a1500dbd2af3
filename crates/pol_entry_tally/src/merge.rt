//! Counts after what comes and goes.
ghost use Rattle.std.specs.Prelude.{◌≡◌, ◌++◌, ◌+◌, ◌-◌, [], IfOk, IsTrue};
ghost use Rattle.pol_entry_tally.specs.Counts.{
  AreBefore,
  AreCounts,
  AreFrom,
  AreOf,
  AreTurns,
  Ascend,
  IsTurnedAt,
  IsTurnedBy,
  Rises,
  behind,
  counted,
  counts_of,
  times_at,
};

use crate::counts::{Count, Counts, behind, first_at, push_times, split_at_place};
use crate::turns::run_of;
use pol_data::Memory;
use std::alloc::Global;

/// The lowest bit of the group in the number of a key and a kind.
const GROUP: u64 = 1 << 24;

/// The times after so many come and so many go. More than a count may be counts as want of memory.
fn moved(times: u32, ups: usize, downs: usize) -> Result<u32, Memory>
    ensures { IfOk result (λ now. now ≡ times + ups - downs) }
{
    let all = u64::from(times).checked_add(ups as u64).ok_or(Memory)?;
    let left = all.saturating_sub(downs as u64);
    u32::try_from(left).map_err(|_| Memory)
}

/// Copies the counts before the place, and puts there what it is after so many come and so many go. It gives the counts
/// behind it.
fn turn_run<'a>(
    out: &mut Vec<Count>,
    rest: &'a [Count],
    place: u32,
    ups: usize,
    downs: usize,
) -> Result<&'a [Count], Memory>
    requires ascend { Ascend (out.old.items ++ rest.now) }
    requires before { AreBefore place out.old.items }
    ensures { IfOk result (λ left. IsTurnedAt place ups downs out.old.items rest.now out.new.items left.now) }
{
    let (before, from) = split_at_place(rest, place);
    out.extend_from_slice(before)?;
    let times = moved(first_at(from, place), ups, downs)?;
    push_times(out, place, times)?;
    Ok(behind(from, place))
}

/// The counts after these turns, which are of one group.
fn turned_many(
    alloc: Global,
    group: u64,
    old: &[Count],
    turns: &[u64],
) -> Result<Vec<Count>, Memory>
    requires old { AreCounts old.now }
    requires rises { Rises turns.now }
    requires turns { AreTurns turns.now }
    requires own { AreOf group turns.now }
    ensures counts { IfOk result (λ made. AreCounts made.items) }
    ensures times { IfOk result (λ made. IsTurnedBy group turns.now old.now made.items) }
{
    let mut out = Vec::with_capacity(alloc, old.len().saturating_add(turns.len()))?;
    let mut rest = old;
    let mut left = turns;
    while let Some(turn) = left.first() {
        let code = *turn / 2;
        let run = run_of(left, code);
        rest = turn_run(&mut out, rest, (code % GROUP) as u32, run.ups, run.downs)?;
        left = run.others;
    }
    out.extend_from_slice(rest)?;
    Ok(out)
}

/// So many times the place, if any.
fn counted(alloc: Global, place: u32, times: u32) -> Counts
    ensures { counts_of result ≡ counted place times }
{
    if 0 < times {
        Counts::One(Count { place, times })
    } else {
        Counts::none(alloc)
    }
}

/// Whether no other place has a count.
fn are_alone(counts: &[Count], place: u32) -> bool
    ensures from { IsTrue result → AreFrom place counts.now }
    ensures behind { IsTrue result → behind place counts.now ≡ [] }
{
    match counts {
        [] => true,
        [count] => count.place == place,
        _ => false,
    }
}

/// The counts after these turns, which are of one group. Where one place alone has a count then, they take no memory.
pub(crate) fn turned_counts(
    alloc: Global,
    group: u64,
    old: &[Count],
    turns: &[u64],
) -> Result<Counts, Memory>
    requires old { AreCounts old.now }
    requires rises { Rises turns.now }
    requires turns { AreTurns turns.now }
    requires own { AreOf group turns.now }
    ensures counts { IfOk result (λ made. AreCounts (counts_of made)) }
    ensures times { IfOk result (λ made. IsTurnedBy group turns.now old.now (counts_of made)) }
{
    if let Some(turn) = turns.first() {
        let code = *turn / 2;
        let place = (code % GROUP) as u32;
        if are_alone(old, place) {
            let run = run_of(turns, code);
            if run.others.is_empty() {
                let times = moved(first_at(old, place), run.ups, run.downs)?;
                return Ok(counted(alloc, place, times));
            }
        }
    }
    Ok(Counts::from_vec(turned_many(alloc, group, old, turns)?))
}
