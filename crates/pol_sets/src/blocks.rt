//! Ascending numbers in blocks, of which a change makes anew those alone that a number comes to or goes from.
ghost use Rattle.std.specs.Prelude.{◌≡◌, ◌==◌, ◌≤◌, ◌^◌, ◌++◌, IfOk, OnOk, length};
ghost use Rattle.std.specs.List.{list_any};
ghost use Rattle.std.specs.List.Sorted.{IsStrictlySortedBy};
ghost use Rattle.std.specs.Ordering.{nat_cmp};
ghost use Rattle.pol_sets.specs.Blocks.{bound_of, numbers_in};
ghost use Rattle.pol_sets.specs.Ids.{union, without};

use crate::block::{Block, MOST};
use crate::stretches::{moved_numbers, split_below};
use pol_data::Memory;
use std::alloc::Global;

/// The numbers of a block where more than `MOST` are cut: so many that two such blocks aren't joined again.
const CUT: usize = MOST / 2 + 1;

/// Puts a block behind the others, joined with the last of them where both together have `MOST` numbers at the most. So there
/// are never many small ones.
fn push_block(alloc: Global, blocks: &mut Vec<Block>, block: Block) -> Result<(), Memory>
    ensures pushed { OnOk result (numbers_in blocks.new.items ≡ numbers_in blocks.old.items ++ block) }
{
    let Some(last) = blocks.pop() else {
        blocks.push(block)?;
        return Ok(());
    };
    if last.as_slice().len().saturating_add(block.as_slice().len()) <= MOST {
        let joined = last.joined(alloc, &block)?;
        blocks.push(joined)?;
        return Ok(());
    }
    blocks.push(last)?;
    blocks.push(block)?;
    Ok(())
}

/// Puts the numbers behind the others as one block, where there are any.
fn push_part(alloc: Global, blocks: &mut Vec<Block>, numbers: &[u32]) -> Result<(), Memory>
    ensures pushed { OnOk result (numbers_in blocks.new.items ≡ numbers_in blocks.old.items ++ numbers.now) }
{
    if numbers.is_empty() {
        return Ok(());
    }
    let block = Block::of(alloc, Vec::from_slice(alloc, numbers)?)?;
    push_block(alloc, blocks, block)
}

/// Puts the numbers behind the others, in several blocks where they are more than `MOST`.
pub(crate) fn push_numbers(
    alloc: Global,
    blocks: &mut Vec<Block>,
    numbers: &[u32],
) -> Result<(), Memory>
    ensures pushed { OnOk result (numbers_in blocks.new.items ≡ numbers_in blocks.old.items ++ numbers.now) }
{
    let mut rest = numbers;
    while rest.len() > MOST {
        let (part, later) = rest.split_at(CUT);
        push_part(alloc, blocks, part)?;
        rest = later;
    }
    push_part(alloc, blocks, rest)
}

/// Puts the numbers of a block behind the others, without those that are lost and with those that are gained: the very same
/// block where there is none of either.
fn push_moved(
    alloc: Global,
    blocks: &mut Vec<Block>,
    block: &Block,
    gained: &[u32],
    lost: &[u32],
) -> Result<(), Memory>
    requires block_ascends { IsStrictlySortedBy nat_cmp block.now }
    requires gained_ascend { IsStrictlySortedBy nat_cmp gained.now }
    requires lost_ascend { IsStrictlySortedBy nat_cmp lost.now }
    ensures pushed { OnOk result (numbers_in blocks.new.items
        ≡ numbers_in blocks.old.items ++ union (without block.now lost.now) gained.now) }
{
    if gained.is_empty() && lost.is_empty() {
        return push_block(alloc, blocks, block.share()?);
    }
    let moved = moved_numbers(alloc, block.as_slice(), gained, lost)?;
    push_numbers(alloc, blocks, moved.as_slice())
}

/// One more than the last number of the block.
fn bound_of(block: &Block) -> u64
    ensures { result ≡ bound_of block.now }
{
    match block.as_slice().last() {
        Some(last) => u64::from(*last) + 1,
        None => 0,
    }
}

/// The blocks without the numbers that are lost, and with those that are gained. Each number goes to the first block that has
/// one as great, and what is greater than all of them behind the last.
pub(crate) fn moved_blocks(
    alloc: Global,
    blocks: &[Block],
    gained: &[u32],
    lost: &[u32],
) -> Result<Vec<Block>, Memory>
    requires blocks_ascend { IsStrictlySortedBy nat_cmp (numbers_in blocks.now) }
    requires gained_ascend { IsStrictlySortedBy nat_cmp gained.now }
    requires lost_ascend { IsStrictlySortedBy nat_cmp lost.now }
    ensures { IfOk result (λ moved.
        numbers_in moved.items ≡ union (without (numbers_in blocks.now) lost.now) gained.now) }
{
    let mut moved = Vec::with_capacity(alloc, blocks.len().saturating_add(1))?;
    let mut left_gained = gained;
    let mut left_lost = lost;
    for block in blocks {
        let bound = bound_of(block);
        let (own_gained, later_gained) = split_below(left_gained, bound);
        let (own_lost, later_lost) = split_below(left_lost, bound);
        push_moved(alloc, &mut moved, block, own_gained, own_lost)?;
        left_gained = later_gained;
        left_lost = later_lost;
    }
    push_numbers(alloc, &mut moved, left_gained)?;
    Ok(moved)
}

/// Puts the numbers of the blocks behind those of the list.
pub(crate) fn push_all(numbers: &mut Vec<u32>, blocks: &[Block]) -> Result<(), Memory>
    ensures pushed { OnOk result (numbers.new.items ≡ numbers.old.items ++ numbers_in blocks.now) }
{
    for block in blocks {
        numbers.extend_from_slice(block.as_slice())?;
    }
    Ok(())
}

/// How many numbers the blocks have.
pub(crate) fn count_in(blocks: &[Block]) -> usize
    requires fits { length (numbers_in blocks.now) ≤ 2 ^ 32 }
    ensures { result ≡ length (numbers_in blocks.now) }
{
    let mut count = 0;
    for block in blocks {
        count += block.as_slice().len();
    }
    count
}

/// Whether the block has the number, found by a binary search.
fn has(block: &Block, id: u32) -> bool
    requires ascends { IsStrictlySortedBy nat_cmp block.now }
    ensures { result ≡ list_any (λ own. own == id) block.now }
{
    block.as_slice().binary_search(&id).is_ok()
}

/// Whether some block has the number: the first that ends behind it is looked at.
pub(crate) fn has_in(blocks: &[Block], id: u32) -> bool
    requires ascend { IsStrictlySortedBy nat_cmp (numbers_in blocks.now) }
    ensures { result ≡ list_any (λ own. own == id) (numbers_in blocks.now) }
{
    for block in blocks {
        if u64::from(id) < bound_of(block) {
            return has(block, id);
        }
    }
    false
}
