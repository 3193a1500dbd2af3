//! The moves of selectors, and whether any of them moves something.
ghost use Rattle.std.specs.Prelude.{◌≡◌, ◌==◌, IfOk, IfSome, IsTrue, find};
ghost use Rattle.std.specs.Bool.{OnFalse};
ghost use Rattle.std.specs.List.{AllByRecursion};
ghost use Rattle.pol_entry_changes.specs.PeerRow.{IsMoveOf, IsStill, Lacks, NamesMove, move_now};

use pol_data::Memory;
use pol_sets::Move;
use std::alloc::Global;

/// As many moves that move something are compared with each row and peer sooner than rows get a table.
const FEW_MOVES: usize = 16;

/// Whether the move moves nothing.
fn is_still(one: &Move) -> bool
    ensures { IsTrue result → IsStill one.now }
{
    one.gained.is_empty() && one.lost.is_empty()
}

/// Whether no move moves anything.
pub fn all_still(moves: &[Move]) -> bool
    ensures { IsTrue result → AllByRecursion IsStill moves.now }
{
    for one in moves {
        if !is_still(one) {
            return false;
        }
    }
    true
}

/// Whether the number is one of these.
pub(crate) fn is_among(numbers: &[u64], number: u64) -> bool
    ensures { OnFalse result (Lacks numbers.now number) }
{
    for one in numbers {
        if *one == number {
            return true;
        }
    }
    false
}

/// The selectors of the moves that move something, if these are few. The one error is want of memory.
pub(crate) fn moved_selectors(alloc: Global, moves: &[Move]) -> Result<Option<Vec<u64>>, Memory>
    ensures { IfOk result (λ found. IfSome found (λ few. AllByRecursion (NamesMove few.items) moves.now)) }
{
    let mut few = Vec::new(alloc);
    for one in moves {
        if !is_still(one) {
            if few.len() >= FEW_MOVES {
                return Ok(None);
            }
            few.push(one.selector)?;
        }
    }
    Ok(Some(few))
}

/// A move of the selector: the one at this place, if it is one, and else the first.
pub(crate) fn move_of<'a>(moves: &'a [Move], selector: u64, place: usize) -> Option<&'a Move>
    ensures { IsMoveOf moves.now selector result }
{
    if place < moves.len() && moves[place].selector == selector {
        return Some(&moves[place]);
    }
    first_of(moves, selector)
}

/// The first move of the selector.
fn first_of<'a>(moves: &'a [Move], selector: u64) -> Option<&'a Move>
    ensures { move_now result ≡ find (λ m. m.selector == selector) moves.now }
{
    for i in 0..moves.len() {
        if moves[i].selector == selector {
            return Some(&moves[i]);
        }
    }
    None
}
