//! A queue in blocks: what was pushed stays where it is, until it is taken.
ghost use Rattle.std.specs.Prelude.{◌≡◌, ◌++◌, ◌∷◌, [], ◌↔◌, ◌<◌, IfNone, IsTrue, OnErr, OnOk, option_to_list};
ghost use Rattle.std.specs.VecDeque.{deque_len};
ghost use Rattle.pol_phases.specs.Blocks.{entries_in};

use crate::block::Block;
use pol_data::Memory;
use std::alloc::Global;
use std::collections::VecDeque;
use std::marker::Model;

/// Entries in order, in blocks: another block begins where the last one is full, and two queues are joined by their blocks
/// alone. Contracts see the list of the entries.
#[derive(Drop)]
pub(crate) struct Blocks<T> {
    alloc: Global,
    blocks: VecDeque<Block<T>>,
}

impl<T> Model for Blocks<T> {
    ghost use Rattle.std.specs.Prelude.{List};
    ghost use Rattle.pol_phases.specs.Blocks.{entries_in};

    ghost Value = { List T };

    ghost view = { λ queue. entries_in queue.blocks.items };
}

impl<T> Blocks<T> {
    /// No entry. It takes no memory.
    pub(crate) fn new(alloc: Global) -> Blocks<T>
        ensures { result ≡ [] }
    {
        Blocks {
            alloc,
            blocks: VecDeque::new(alloc),
        }
    }

    /// Whether there is no entry.
    pub(crate) fn is_empty(&self) -> bool
        ensures { IsTrue result ↔ (self.now ≡ []) }
    {
        are_empty(&self.blocks)
    }

    /// How many entries there are. No clause says so: no list depends on it.
    pub(crate) fn count(&self) -> usize {
        let mut count: usize = 0;
        for place in 0..self.blocks.len() {
            count = count.wrapping_add(self.blocks[place].count());
        }
        count
    }
}

impl<T: Drop> Blocks<T> {
    /// One entry more, behind the others. The one error is want of memory, and they are then as before.
    pub(crate) fn push(&mut self, entry: T) -> Result<(), Memory>
        ensures pushed { OnOk result (self.new ≡ self.old ++ entry ∷ []) }
        ensures same { OnErr result (self.new ≡ self.old) }
    {
        make_room(self.alloc, &mut self.blocks)?;
        push_last(&mut self.blocks, entry)
    }

    /// Takes the first entry, if there is one.
    pub(crate) fn next(&mut self) -> Option<T>
        ensures first { self.old ≡ option_to_list result ++ self.new }
        ensures none { IfNone result (self.old ≡ []) }
    {
        next_in(&mut self.blocks)
    }

    /// The entries of another queue, behind the others. Their blocks are moved, not they. The one error is want of memory,
    /// and this queue is then as before.
    pub(crate) fn append(&mut self, other: Blocks<T>) -> Result<(), Memory>
        ensures appended { OnOk result (self.new ≡ self.old ++ other) }
        ensures same { OnErr result (self.new ≡ self.old) }
    {
        let mut later = other.blocks;
        self.blocks.append(&mut later)?;
        Ok(())
    }
}

// Whether none of the blocks has an entry.
fn are_empty<T>(blocks: &VecDeque<Block<T>>) -> bool
    ensures { IsTrue result ↔ (entries_in blocks.now.items ≡ []) }
{
    for place in 0..blocks.len() {
        if !blocks[place].is_empty() {
            return false;
        }
    }
    true
}

// A last block that isn't full. The one error is want of memory.
fn make_room<T: Drop>(alloc: Global, blocks: &mut VecDeque<Block<T>>) -> Result<(), Memory>
    ensures same { entries_in blocks.new.items ≡ entries_in blocks.old.items }
    ensures some { OnOk result (0 < deque_len blocks.new) }
{
    let begun = match blocks.back() {
        None => Block::new(alloc),
        Some(last) => {
            if !last.is_full() {
                return Ok(());
            }
            Block::with_room(alloc)?
        }
    };
    blocks.push_back(begun)?;
    Ok(())
}

// One entry more in the last block. The one error is want of memory.
fn push_last<T: Drop>(blocks: &mut VecDeque<Block<T>>, entry: T) -> Result<(), Memory>
    requires some { 0 < deque_len blocks.old }
    ensures pushed { OnOk result (entries_in blocks.new.items ≡ entries_in blocks.old.items ++ entry ∷ []) }
    ensures same { OnErr result (entries_in blocks.new.items ≡ entries_in blocks.old.items) }
{
    let last = blocks.len() - 1;
    blocks[last].push(entry)
}

// Takes the first entry of the first block that has one. Blocks in front of it are let go.
fn next_in<T: Drop>(blocks: &mut VecDeque<Block<T>>) -> Option<T>
    ensures first { entries_in blocks.old.items ≡ option_to_list result ++ entries_in blocks.new.items }
    ensures none { IfNone result (entries_in blocks.old.items ≡ []) }
{
    while !blocks.is_empty() {
        if let Some(entry) = blocks[0].next() {
            return Some(entry);
        }
        let _empty = blocks.pop_front();
    }
    None
}
