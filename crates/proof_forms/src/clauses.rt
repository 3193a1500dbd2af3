//! Contracts that stay short, and functions that are cut for their goals.
ghost use Rattle.std.specs.Prelude.{◌≡◌, OnOk};
ghost use Rattle.proof_forms.specs.Clauses.{Adds, IsOneOver, AddsTwo, later_of};

use pol_data::Memory;

/// A record of clauses: what a call does is one word with named facts, and callers cite the facts by their names.
pub fn add(numbers: &mut Vec<u32>, number: u32) -> Result<(), Memory>
    ensures { OnOk result (Adds numbers.old.items numbers.new.items number) }
{
    numbers.push(number)?;
    Ok(())
}

/// A caller of two such calls: one lemma says how the words follow one another.
#[tactic(auto, using(crate::proofs::Adding::twice))]
pub fn add_two(numbers: &mut Vec<u32>, one: u32, other: u32) -> Result<(), Memory>
    ensures { OnOk result (AddsTwo numbers.old.items numbers.new.items one other) }
{
    add(numbers, one)?;
    add(numbers, other)?;
    Ok(())
}

/// A relation in place of a value, where the code may choose: any number over the limit will do.
pub fn one_over(numbers: &[u32], limit: u32) -> Option<u32>
    ensures { IsOneOver limit numbers.now result }
{
    for number in numbers {
        if *number > limit {
            return Some(*number);
        }
    }
    None
}

/// A branch is a function of its own, with one clause, so that no later goal is said of both ways.
fn later_of(one: Option<u32>, other: Option<u32>) -> Option<u32>
    ensures { result ≡ later_of one other }
{
    match other {
        Some(number) => Some(number),
        None => one,
    }
}

/// What calls it has one way, and one clause.
pub fn last_of_three(one: Option<u32>, other: Option<u32>, last: Option<u32>) -> Option<u32>
    ensures { result ≡ later_of (later_of one other) last }
{
    later_of(later_of(one, other), last)
}
