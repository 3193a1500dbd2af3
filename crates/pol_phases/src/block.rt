//! A block of a queue.
ghost use Rattle.std.specs.Prelude.{◌≡◌, ◌++◌, ◌∷◌, [], ◌↔◌, IfNone, IfOk, IsTrue, OnErr, OnOk, option_to_list};

use pol_data::Memory;
use std::alloc::Global;
use std::collections::VecDeque;
use std::marker::Model;

/// How many entries a block has at the most.
const BLOCK: usize = 1024;

/// Entries in one piece of memory, in order. A contract sees the list of them.
#[derive(Drop)]
pub(crate) struct Block<T> {
    entries: VecDeque<T>,
}

impl<T> Model for Block<T> {
    ghost use Rattle.std.specs.Prelude.{List};

    ghost Value = { List T };

    ghost view = { λ block. block.entries.items };
}

impl<T> Block<T> {
    /// No entry. It takes no memory: room comes as entries do.
    pub(crate) fn new(alloc: Global) -> Block<T>
        ensures { result ≡ [] }
    {
        Block {
            entries: VecDeque::new(alloc),
        }
    }

    /// No entry, with room for as many as a block has. The one error is want of memory.
    pub(crate) fn with_room(alloc: Global) -> Result<Block<T>, Memory>
        ensures { IfOk result (λ block. block ≡ []) }
    {
        Ok(Block {
            entries: VecDeque::with_capacity(alloc, BLOCK)?,
        })
    }

    /// How many entries it has. No clause says so: no list depends on it.
    pub(crate) fn count(&self) -> usize {
        self.entries.len()
    }

    /// Whether it has as many entries as a block has. No clause says so: no list depends on it.
    pub(crate) fn is_full(&self) -> bool {
        self.count() >= BLOCK
    }

    /// Whether it has no entry.
    pub(crate) fn is_empty(&self) -> bool
        ensures { IsTrue result ↔ (self.now ≡ []) }
    {
        self.entries.is_empty()
    }

    /// Takes the first entry, if there is one.
    pub(crate) fn next(&mut self) -> Option<T>
        ensures first { self.old ≡ option_to_list result ++ self.new }
        ensures none { IfNone result (self.old ≡ []) }
    {
        self.entries.pop_front()
    }
}

impl<T: Drop> Block<T> {
    /// One entry more, behind the others. The one error is want of memory, and they are then as before.
    pub(crate) fn push(&mut self, entry: T) -> Result<(), Memory>
        ensures pushed { OnOk result (self.new ≡ self.old ++ entry ∷ []) }
        ensures same { OnErr result (self.new ≡ self.old) }
    {
        self.entries.push_back(entry)?;
        Ok(())
    }
}
